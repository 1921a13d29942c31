//! What messages have to have on S11 (TS 29.274 7.1, 7.2).

use gtp_ie::kinds::{
    AMBR, APN, BEARER_CONTEXT, CAUSE, EBI, FTEID, IMSI, PAA, PDN_TYPE, PTI, QOS, RAT, RECOVERY, TFT,
};
use gtp_v2::{Asked, Line, Others, Row, Tables};

const CREATE_SESSION_REQUEST_CONTEXT: &[Row] = &[Row::Mandatory(EBI, 0), Row::Mandatory(QOS, 0)];

const IDENTITY_AND_CAUSE: &[Row] = &[Row::Mandatory(EBI, 0), Row::Mandatory(CAUSE, 0)];

const IDENTITY: &[Row] = &[Row::Mandatory(EBI, 0)];

const CREATE_BEARER_REQUEST_CONTEXT: &[Row] = &[
    Row::Mandatory(EBI, 0),
    Row::Mandatory(TFT, 0),
    Row::Conditional(FTEID, 0),
    Row::Mandatory(QOS, 0),
];

const CREATE_BEARER_RESPONSE_CONTEXT: &[Row] = &[
    Row::Mandatory(EBI, 0),
    Row::Mandatory(CAUSE, 0),
    Row::Accepted(FTEID, 0),
    Row::Accepted(FTEID, 1),
];

const RECOVERY_ALONE: &[Line] = &[Line::Single(Row::Mandatory(RECOVERY, 0))];

const CAUSE_ALONE: &[Line] = &[Line::Single(Row::Mandatory(CAUSE, 0))];

const CREATE_SESSION_REQUEST: &[Line] = &[
    Line::Single(Row::Optional(IMSI, 0)),
    Line::Single(Row::Mandatory(RAT, 0)),
    Line::Single(Row::Mandatory(FTEID, 0)),
    Line::Single(Row::Mandatory(APN, 0)),
    Line::Single(Row::Optional(PDN_TYPE, 0)),
    Line::Grouped(
        Row::Mandatory(BEARER_CONTEXT, 0),
        CREATE_SESSION_REQUEST_CONTEXT,
    ),
];

const CREATE_SESSION_RESPONSE: &[Line] = &[
    Line::Single(Row::Mandatory(CAUSE, 0)),
    Line::Single(Row::Accepted(FTEID, 0)),
    Line::Single(Row::Accepted(FTEID, 1)),
    Line::Single(Row::Optional(PAA, 0)),
    Line::Grouped(Row::Accepted(BEARER_CONTEXT, 0), IDENTITY_AND_CAUSE),
];

const MODIFY_BEARER_REQUEST: &[Line] = &[Line::Grouped(Row::Optional(BEARER_CONTEXT, 0), IDENTITY)];

const CHANGE_NOTIFICATION_REQUEST: &[Line] = &[Line::Single(Row::Mandatory(RAT, 0))];

const MODIFY_BEARER_COMMAND: &[Line] = &[
    Line::Single(Row::Mandatory(AMBR, 0)),
    Line::Grouped(Row::Mandatory(BEARER_CONTEXT, 0), IDENTITY),
];

const DELETE_BEARER_COMMAND: &[Line] = &[Line::Grouped(
    Row::Mandatory(BEARER_CONTEXT, 0),
    IDENTITY,
)];

const DELETE_BEARER_FAILURE_INDICATION: &[Line] = &[
    Line::Single(Row::Mandatory(CAUSE, 0)),
    Line::Grouped(Row::Mandatory(BEARER_CONTEXT, 0), IDENTITY_AND_CAUSE),
];

const BEARER_RESOURCE_COMMAND: &[Line] = &[
    Line::Single(Row::Mandatory(EBI, 0)),
    Line::Single(Row::Mandatory(PTI, 0)),
];

const BEARER_RESOURCE_FAILURE_INDICATION: &[Line] = &[
    Line::Single(Row::Mandatory(CAUSE, 0)),
    Line::Single(Row::Mandatory(EBI, 0)),
    Line::Single(Row::Mandatory(PTI, 0)),
];

const CREATE_BEARER_REQUEST: &[Line] = &[
    Line::Single(Row::Mandatory(EBI, 0)),
    Line::Grouped(
        Row::Mandatory(BEARER_CONTEXT, 0),
        CREATE_BEARER_REQUEST_CONTEXT,
    ),
];

const CREATE_BEARER_RESPONSE: &[Line] = &[
    Line::Single(Row::Mandatory(CAUSE, 0)),
    Line::Grouped(
        Row::Accepted(BEARER_CONTEXT, 0),
        CREATE_BEARER_RESPONSE_CONTEXT,
    ),
];

const UPDATE_BEARER_REQUEST: &[Line] = &[
    Line::Grouped(Row::Mandatory(BEARER_CONTEXT, 0), IDENTITY),
    Line::Single(Row::Mandatory(AMBR, 0)),
];

const UPDATE_BEARER_RESPONSE: &[Line] = &[
    Line::Single(Row::Mandatory(CAUSE, 0)),
    Line::Grouped(Row::Accepted(BEARER_CONTEXT, 0), IDENTITY_AND_CAUSE),
];

const TABLES: &[Asked] = &[
    // Echo Request
    Asked {
        kind: 1,
        has_teid: Some(false),
        lines: RECOVERY_ALONE,
    },
    // Echo Response
    Asked {
        kind: 2,
        has_teid: Some(false),
        lines: RECOVERY_ALONE,
    },
    // Version Not Supported Indication
    Asked {
        kind: 3,
        has_teid: Some(false),
        lines: &[],
    },
    // Create Session Request
    Asked {
        kind: 32,
        has_teid: Some(true),
        lines: CREATE_SESSION_REQUEST,
    },
    // Create Session Response
    Asked {
        kind: 33,
        has_teid: Some(true),
        lines: CREATE_SESSION_RESPONSE,
    },
    // Modify Bearer Request
    Asked {
        kind: 34,
        has_teid: Some(true),
        lines: MODIFY_BEARER_REQUEST,
    },
    // Modify Bearer Response
    Asked {
        kind: 35,
        has_teid: Some(true),
        lines: CAUSE_ALONE,
    },
    // Delete Session Request
    Asked {
        kind: 36,
        has_teid: Some(true),
        lines: &[],
    },
    // Delete Session Response
    Asked {
        kind: 37,
        has_teid: Some(true),
        lines: CAUSE_ALONE,
    },
    // Change Notification Request
    Asked {
        kind: 38,
        has_teid: Some(true),
        lines: CHANGE_NOTIFICATION_REQUEST,
    },
    // Change Notification Response
    Asked {
        kind: 39,
        has_teid: Some(true),
        lines: CAUSE_ALONE,
    },
    // Modify Bearer Command
    Asked {
        kind: 64,
        has_teid: Some(true),
        lines: MODIFY_BEARER_COMMAND,
    },
    // Modify Bearer Failure Indication
    Asked {
        kind: 65,
        has_teid: Some(true),
        lines: CAUSE_ALONE,
    },
    // Delete Bearer Command
    Asked {
        kind: 66,
        has_teid: Some(true),
        lines: DELETE_BEARER_COMMAND,
    },
    // Delete Bearer Failure Indication
    Asked {
        kind: 67,
        has_teid: Some(true),
        lines: DELETE_BEARER_FAILURE_INDICATION,
    },
    // Bearer Resource Command
    Asked {
        kind: 68,
        has_teid: Some(true),
        lines: BEARER_RESOURCE_COMMAND,
    },
    // Bearer Resource Failure Indication
    Asked {
        kind: 69,
        has_teid: Some(true),
        lines: BEARER_RESOURCE_FAILURE_INDICATION,
    },
    // Downlink Data Notification Failure Indication
    Asked {
        kind: 70,
        has_teid: Some(true),
        lines: CAUSE_ALONE,
    },
    // Create Bearer Request
    Asked {
        kind: 95,
        has_teid: Some(true),
        lines: CREATE_BEARER_REQUEST,
    },
    // Create Bearer Response
    Asked {
        kind: 96,
        has_teid: Some(true),
        lines: CREATE_BEARER_RESPONSE,
    },
    // Update Bearer Request
    Asked {
        kind: 97,
        has_teid: Some(true),
        lines: UPDATE_BEARER_REQUEST,
    },
    // Update Bearer Response
    Asked {
        kind: 98,
        has_teid: Some(true),
        lines: UPDATE_BEARER_RESPONSE,
    },
    // Delete Bearer Request
    Asked {
        kind: 99,
        has_teid: Some(true),
        lines: &[],
    },
    // Delete Bearer Response
    Asked {
        kind: 100,
        has_teid: Some(true),
        lines: &[],
    },
    // Suspend Notification
    Asked {
        kind: 162,
        has_teid: Some(true),
        lines: &[],
    },
    // Suspend Acknowledge
    Asked {
        kind: 163,
        has_teid: Some(true),
        lines: CAUSE_ALONE,
    },
    // Resume Acknowledge
    Asked {
        kind: 165,
        has_teid: Some(true),
        lines: CAUSE_ALONE,
    },
    // Create Indirect Data Forwarding Tunnel Response
    Asked {
        kind: 167,
        has_teid: Some(true),
        lines: CAUSE_ALONE,
    },
    // Delete Indirect Data Forwarding Tunnel Response
    Asked {
        kind: 169,
        has_teid: Some(true),
        lines: CAUSE_ALONE,
    },
    // Release Access Bearers Request
    Asked {
        kind: 170,
        has_teid: Some(true),
        lines: &[],
    },
    // Release Access Bearers Response
    Asked {
        kind: 171,
        has_teid: Some(true),
        lines: CAUSE_ALONE,
    },
    // Downlink Data Notification
    Asked {
        kind: 176,
        has_teid: Some(true),
        lines: &[],
    },
    // Downlink Data Notification Acknowledge
    Asked {
        kind: 177,
        has_teid: Some(true),
        lines: CAUSE_ALONE,
    },
    // Modify Access Bearers Response
    Asked {
        kind: 212,
        has_teid: Some(true),
        lines: CAUSE_ALONE,
    },
];

/// What is asked on S11: of these messages the form of their header, and rows; of any other, elements that are whole.
pub const S11: Tables = Tables {
    tables: TABLES,
    others: Others::Elements,
};
