//! Forms of extension headers of GTP-U, without their length and the type of the next (TS 29.281 5.2.2, TS 38.415 5.5.2).

use crate::forms::delays::{N3_N9_DELAY, NEW_FLAGS};
use gtp_forms::{Bits, Case, How, Spelling, Step, View};

pub const SERVICE_CLASS: u8 = 144;

pub const UDP_PORT: u8 = 145;

pub const PDCP_NUMBER: u8 = 146;

pub const LONG_PDCP_NUMBER: u8 = 147;

pub const CONTAINER_OCTETS: u8 = 148;

pub const PDU_SESSION: u8 = 149;

pub const DOWNLINK_PDU_SESSION: u8 = 150;

pub const UPLINK_PDU_SESSION: u8 = 151;

pub const OTHER_PDU_SESSION: u8 = 152;

pub const PAGING_POLICY: u8 = 153;

pub const SENT_TIME: u8 = 154;

pub const SEQUENCE_NUMBER: u8 = 155;

pub const MBS_SEQUENCE_NUMBER: u8 = 156;

pub const TIMES: u8 = 157;

pub const DOWNLINK_DELAY: u8 = 158;

pub const UPLINK_DELAY: u8 = 159;

/// The forms of these numbers, in their order.
pub fn forms() -> &'static [&'static [Step]] {
    const FORMS: &[&[Step]] = &[
        // SERVICE_CLASS
        &[field!(1, [number "" 0 8]), all!([spare])],
        // UDP_PORT
        &[field!(2, [number "" 0 16]), all!([spare])],
        // PDCP_NUMBER
        &[field!(2, [number "" 0 15]), all!([spare])],
        // LONG_PDCP_NUMBER
        &[field!(3, [number "" 0 18]), all!([spare])],
        // CONTAINER_OCTETS
        &[all!([octets ""])],
        // PDU_SESSION: PDU Session Container
        &[
            keep!(2),
            choose!(12 4: 0 "" DOWNLINK_PDU_SESSION, 1 "" UPLINK_PDU_SESSION, _ "" OTHER_PDU_SESSION),
        ],
        // DOWNLINK_PDU_SESSION
        &[
            field!(1, [number "kind" 4 4]),
            field!(1, [flag "rqi" 6], [number "qfi" 0 6]),
            when!(7 "" PAGING_POLICY),
            when!(11 "" SENT_TIME),
            when!(10 "" SEQUENCE_NUMBER),
            when!(9 "" MBS_SEQUENCE_NUMBER),
            all!([spare]),
        ],
        // UPLINK_PDU_SESSION
        &[
            field!(1, [number "kind" 4 4]),
            field!(1, [number "qfi" 0 6]),
            when!(11 "" TIMES),
            when!(10 "" DOWNLINK_DELAY),
            when!(9 "" UPLINK_DELAY),
            when!(8 "" SEQUENCE_NUMBER),
            when!(7 "" N3_N9_DELAY),
            when!(6 "" NEW_FLAGS),
            all!([spare]),
        ],
        // OTHER_PDU_SESSION
        &[field!(1, [number "kind" 4 4]), all!([octets "octets"])],
        // PAGING_POLICY
        &[field!(1, [number "ppi" 5 3])],
        // SENT_TIME
        &[field!(8, [number "sent" 0 64])],
        // SEQUENCE_NUMBER
        &[field!(3, [number "sequence" 0 24])],
        // MBS_SEQUENCE_NUMBER
        &[field!(4, [number "mbs_sequence" 0 32])],
        // TIMES
        &[
            field!(8, [number "sent" 0 64]),
            field!(8, [number "received" 0 64]),
            field!(8, [number "uplink_sent" 0 64]),
        ],
        // DOWNLINK_DELAY
        &[field!(4, [number "downlink_delay" 0 32])],
        // UPLINK_DELAY
        &[field!(4, [number "uplink_delay" 0 32])],
    ];
    FORMS
}
