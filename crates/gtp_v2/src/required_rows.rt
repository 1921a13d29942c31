//! What each type of message asks (TS 29.274 7): the lines of its table that can be at fault, or that others depend on.
//!
//! Written by scripts/messages from the tables in specs/.

ghost use Rattle.std.specs.Prelude.{◌≡◌, option_map};
ghost use Rattle.gtp_v2.specs.reading.Lines.{shape_of, shape_in};
ghost use Rattle.gtp_v2.specs.Tables.{table_of};

use crate::asked::{Asked, Others, Tables};
use crate::kinds::{
    CREATE_BEARER_REQUEST, CREATE_BEARER_RESPONSE, CREATE_SESSION_REQUEST, CREATE_SESSION_RESPONSE,
    DELETE_BEARER_REQUEST, DELETE_BEARER_RESPONSE, DELETE_SESSION_REQUEST, DELETE_SESSION_RESPONSE,
    ECHO_REQUEST, ECHO_RESPONSE, VERSION_NOT_SUPPORTED,
};
use crate::table::{Line, Row, Shape};
use gtp_ie::kinds::{
    APN, BEARER_CONTEXT, CAUSE, EBI, FTEID, IMSI, PAA, PDN_TYPE, QOS, RAT, RECOVERY, TFT,
};

const ECHO_REQUEST_LINES: &[Line] = &[
    Line::Single(Row::Mandatory(RECOVERY, 0)), // Recovery
];

const ECHO_RESPONSE_LINES: &[Line] = &[
    Line::Single(Row::Mandatory(RECOVERY, 0)), // Recovery
];

const VERSION_NOT_SUPPORTED_LINES: &[Line] = &[];

const SESSION_REQUEST_CONTEXT_ROWS: &[Row] = &[
    Row::Mandatory(EBI, 0), // EPS Bearer ID
    Row::Mandatory(QOS, 0), // Bearer QoS
    Row::Conditional(FTEID, 2), // F-TEID
];

const CREATE_SESSION_REQUEST_LINES: &[Line] = &[
    Line::Single(Row::Conditional(IMSI, 0)), // IMSI
    Line::Single(Row::Mandatory(RAT, 0)), // RAT Type
    Line::Single(Row::Mandatory(FTEID, 0)), // F-TEID
    Line::Single(Row::Mandatory(APN, 0)), // APN
    Line::Single(Row::Conditional(PDN_TYPE, 0)), // PDN Type
    Line::Grouped(
        Row::Mandatory(BEARER_CONTEXT, 0),
        SESSION_REQUEST_CONTEXT_ROWS,
    ), // Bearer Context
];

const SESSION_RESPONSE_CONTEXT_ROWS: &[Row] = &[
    Row::Mandatory(EBI, 0), // EPS Bearer ID
    Row::Mandatory(CAUSE, 0), // Cause
    Row::Accepted(FTEID, 2), // F-TEID
];

const CREATE_SESSION_RESPONSE_LINES: &[Line] = &[
    Line::Single(Row::Mandatory(CAUSE, 0)), // Cause
    Line::Single(Row::Accepted(FTEID, 1)), // F-TEID
    Line::Single(Row::Accepted(PAA, 0)), // PAA
    Line::Grouped(
        Row::Accepted(BEARER_CONTEXT, 0),
        SESSION_RESPONSE_CONTEXT_ROWS,
    ), // Bearer Context
];

const DELETE_SESSION_REQUEST_LINES: &[Line] = &[];

const DELETE_SESSION_RESPONSE_LINES: &[Line] = &[
    Line::Single(Row::Mandatory(CAUSE, 0)), // Cause
];

const BEARER_REQUEST_CONTEXT_ROWS: &[Row] = &[
    Row::Mandatory(EBI, 0), // EPS Bearer ID
    Row::Mandatory(TFT, 0), // Bearer TFT
    Row::Conditional(FTEID, 1), // F-TEID
    Row::Mandatory(QOS, 0), // Bearer QoS
];

const CREATE_BEARER_REQUEST_LINES: &[Line] = &[
    Line::Single(Row::Mandatory(EBI, 0)), // EPS Bearer ID
    Line::Grouped(
        Row::Mandatory(BEARER_CONTEXT, 0),
        BEARER_REQUEST_CONTEXT_ROWS,
    ), // Bearer Context
];

const BEARER_RESPONSE_CONTEXT_ROWS: &[Row] = &[
    Row::Mandatory(EBI, 0), // EPS Bearer ID
    Row::Mandatory(CAUSE, 0), // Cause
    Row::Accepted(FTEID, 2), // F-TEID
    Row::Accepted(FTEID, 3), // F-TEID
];

const CREATE_BEARER_RESPONSE_LINES: &[Line] = &[
    Line::Single(Row::Mandatory(CAUSE, 0)), // Cause
    Line::Grouped(
        Row::Accepted(BEARER_CONTEXT, 0),
        BEARER_RESPONSE_CONTEXT_ROWS,
    ), // Bearer Context
];

const DELETE_BEARER_REQUEST_LINES: &[Line] = &[
    Line::Single(Row::Optional(EBI, 0)), // EPS Bearer ID
    Line::Several(EBI, 1, 0), // EPS Bearer ID
];

const REMOVAL_RESPONSE_CONTEXT_ROWS: &[Row] = &[
    Row::Mandatory(EBI, 0), // EPS Bearer ID
    Row::Mandatory(CAUSE, 0), // Cause
];

const DELETE_BEARER_RESPONSE_LINES: &[Line] = &[
    Line::Single(Row::Mandatory(CAUSE, 0)), // Cause
    Line::Grouped(
        Row::Optional(BEARER_CONTEXT, 0),
        REMOVAL_RESPONSE_CONTEXT_ROWS,
    ), // Bearer Context
];

/// What each type of message asks that has a table here.
const TABLES: &[Asked] = &[
    Asked {
        kind: ECHO_REQUEST,
        has_teid: Some(false),
        lines: ECHO_REQUEST_LINES,
    },
    Asked {
        kind: ECHO_RESPONSE,
        has_teid: Some(false),
        lines: ECHO_RESPONSE_LINES,
    },
    Asked {
        kind: VERSION_NOT_SUPPORTED,
        has_teid: Some(false),
        lines: VERSION_NOT_SUPPORTED_LINES,
    },
    Asked {
        kind: CREATE_SESSION_REQUEST,
        has_teid: Some(true),
        lines: CREATE_SESSION_REQUEST_LINES,
    },
    Asked {
        kind: CREATE_SESSION_RESPONSE,
        has_teid: Some(true),
        lines: CREATE_SESSION_RESPONSE_LINES,
    },
    Asked {
        kind: DELETE_SESSION_REQUEST,
        has_teid: Some(true),
        lines: DELETE_SESSION_REQUEST_LINES,
    },
    Asked {
        kind: DELETE_SESSION_RESPONSE,
        has_teid: Some(true),
        lines: DELETE_SESSION_RESPONSE_LINES,
    },
    Asked {
        kind: CREATE_BEARER_REQUEST,
        has_teid: Some(true),
        lines: CREATE_BEARER_REQUEST_LINES,
    },
    Asked {
        kind: CREATE_BEARER_RESPONSE,
        has_teid: Some(true),
        lines: CREATE_BEARER_RESPONSE_LINES,
    },
    Asked {
        kind: DELETE_BEARER_REQUEST,
        has_teid: Some(true),
        lines: DELETE_BEARER_REQUEST_LINES,
    },
    Asked {
        kind: DELETE_BEARER_RESPONSE,
        has_teid: Some(true),
        lines: DELETE_BEARER_RESPONSE_LINES,
    },
];

/// What S5/S8 asks: the tables here; of a message of another type nothing, and it is octets.
pub const S5S8: Tables = Tables {
    tables: TABLES,
    others: Others::Octets,
};

/// What a type of message asks, where it has a table.
pub fn asked_of(kind: u8) -> Option<Shape>
    ensures { option_map shape_of result ≡ option_map shape_in (table_of kind) }
{
    match kind {
        ECHO_REQUEST => Some(Shape {
            has_teid: false,
            lines: ECHO_REQUEST_LINES,
        }),
        ECHO_RESPONSE => Some(Shape {
            has_teid: false,
            lines: ECHO_RESPONSE_LINES,
        }),
        VERSION_NOT_SUPPORTED => Some(Shape {
            has_teid: false,
            lines: VERSION_NOT_SUPPORTED_LINES,
        }),
        CREATE_SESSION_REQUEST => Some(Shape {
            has_teid: true,
            lines: CREATE_SESSION_REQUEST_LINES,
        }),
        CREATE_SESSION_RESPONSE => Some(Shape {
            has_teid: true,
            lines: CREATE_SESSION_RESPONSE_LINES,
        }),
        DELETE_SESSION_REQUEST => Some(Shape {
            has_teid: true,
            lines: DELETE_SESSION_REQUEST_LINES,
        }),
        DELETE_SESSION_RESPONSE => Some(Shape {
            has_teid: true,
            lines: DELETE_SESSION_RESPONSE_LINES,
        }),
        CREATE_BEARER_REQUEST => Some(Shape {
            has_teid: true,
            lines: CREATE_BEARER_REQUEST_LINES,
        }),
        CREATE_BEARER_RESPONSE => Some(Shape {
            has_teid: true,
            lines: CREATE_BEARER_RESPONSE_LINES,
        }),
        DELETE_BEARER_REQUEST => Some(Shape {
            has_teid: true,
            lines: DELETE_BEARER_REQUEST_LINES,
        }),
        DELETE_BEARER_RESPONSE => Some(Shape {
            has_teid: true,
            lines: DELETE_BEARER_RESPONSE_LINES,
        }),
        _ => None,
    }
}
