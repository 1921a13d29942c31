//! Forms of nodes, names and addresses.

use gtp_forms::{Bits, Case, How, Spelling, Step, View};

pub const V4_NODE: u8 = 64;

pub const V6_NODE: u8 = 65;

pub const NETWORK_NODE: u8 = 66;

pub const CSID: u8 = 67;

pub const FQ_CSID: u8 = 68;

pub const NAME: u8 = 69;

pub const TEXT: u8 = 70;

pub const ADDRESS: u8 = 71;

pub const IP4CP: u8 = 72;

pub const APN_CAPACITY: u8 = 73;

pub const APN: u8 = 74;

pub const KNOWN_NODE: u8 = 75;

pub const OTHER_NODE: u8 = 76;

/// The forms of these numbers, in their order.
pub fn forms() -> &'static [&'static [Step]] {
    const FORMS: &[&[Step]] = &[
        // V4_NODE
        &[field!(4, [address "v4"])],
        // V6_NODE
        &[field!(16, [address "v6"])],
        // NETWORK_NODE: MCC and MNC as one decimal number, and an identifier
        &[field!(4, [number "plmn" 12 20], [number "id" 0 12])],
        // CSID
        &[field!(2, [number "csid" 0 16])],
        // FQ_CSID: FQ-CSID (TS 29.274 8.62)
        &[
            keep!(1),
            choose!(4 4: 0 "" KNOWN_NODE, 1 "" KNOWN_NODE, 2 "" KNOWN_NODE, _ "" OTHER_NODE),
        ],
        // NAME: FQDN (8.66)
        &[all!([labels ""])],
        // TEXT: Local Distinguished Name (8.82)
        &[all!([text ""])],
        // ADDRESS: IP Address (8.9)
        &[all!([address ""])],
        // IP4CP: IPv4 Configuration Parameters (8.97)
        &[
            field!(1, [number "prefix" 0 8]),
            field!(4, [address "router"]),
        ],
        // APN_CAPACITY: APN and Relative Capacity (8.115)
        &[field!(1, [number "capacity" 0 8]), sized!(1 APN)],
        // APN
        &[all!([labels "apn"])],
        // KNOWN_NODE: a node of the types that are known, and its CSIDs
        &[
            field!(1),
            choose!(4 4: 0 "node" V4_NODE, 1 "node" V6_NODE, 2 "node" NETWORK_NODE),
            times!(0 4: "csids" "csid" CSID),
        ],
        // OTHER_NODE: a node of another type, whose size is not known
        &[
            field!(1, [number "node_type" 4 4], [number "count" 0 4]),
            Step::May,
            all!([octets "octets"]),
        ],
    ];
    FORMS
}
