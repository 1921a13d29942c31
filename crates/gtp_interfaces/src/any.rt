//! What messages have to have on each interface (TS 29.274 5.5.1).

use gtp_v2::{Asked, Others, Tables};

const TABLES: &[Asked] = &[
    // Echo Request
    Asked {
        kind: 1,
        has_teid: Some(false),
        lines: &[],
    },
    // Echo Response
    Asked {
        kind: 2,
        has_teid: Some(false),
        lines: &[],
    },
    // Version Not Supported Indication
    Asked {
        kind: 3,
        has_teid: Some(false),
        lines: &[],
    },
    // Create Session Request
    Asked {
        kind: 32,
        has_teid: Some(true),
        lines: &[],
    },
    // Create Session Response
    Asked {
        kind: 33,
        has_teid: Some(true),
        lines: &[],
    },
    // Delete Session Request
    Asked {
        kind: 36,
        has_teid: Some(true),
        lines: &[],
    },
    // Delete Session Response
    Asked {
        kind: 37,
        has_teid: Some(true),
        lines: &[],
    },
    // Create Bearer Request
    Asked {
        kind: 95,
        has_teid: Some(true),
        lines: &[],
    },
    // Create Bearer Response
    Asked {
        kind: 96,
        has_teid: Some(true),
        lines: &[],
    },
    // Delete Bearer Request
    Asked {
        kind: 99,
        has_teid: Some(true),
        lines: &[],
    },
    // Delete Bearer Response
    Asked {
        kind: 100,
        has_teid: Some(true),
        lines: &[],
    },
];

/// What is asked on each interface: of these messages the form of their header; of any message, elements that are whole.
pub const ANY: Tables = Tables {
    tables: TABLES,
    others: Others::Elements,
};
