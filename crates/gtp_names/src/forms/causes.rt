//! Forms of causes, containers and remote users.

use crate::forms::options::OCTETS;
use crate::words::CAUSE_PROTOCOLS;
use gtp_forms::{Bits, Case, How, Spelling, Step, View};

pub const RAN_NAS_CAUSE: u8 = 128;

pub const CAUSE_OF_1: u8 = 129;

pub const CAUSE_OF_2: u8 = 130;

pub const F_CAUSE: u8 = 131;

pub const F_CONTAINER: u8 = 132;

pub const REMOTE_USER: u8 = 133;

pub const IMSI: u8 = 134;

pub const MSISDN_LENGTH: u8 = 135;

pub const MSISDN: u8 = 136;

pub const IMEI_LENGTH: u8 = 137;

pub const IMEI: u8 = 138;

/// The forms of these numbers, in their order.
pub fn forms() -> &'static [&'static [Step]] {
    const FORMS: &[&[Step]] = &[
        // RAN_NAS_CAUSE: RAN/NAS Cause (TS 29.274 8.103)
        &[
            keep!(1),
            field!(1, [named "protocol" 4 4 CAUSE_PROTOCOLS], [number "cause_type" 0 4]),
            choose!(4 4: 1 "" CAUSE_OF_1, 2 "" CAUSE_OF_1, 3 "" CAUSE_OF_1, 4 "" CAUSE_OF_2, 5 "" CAUSE_OF_2, _ "" OCTETS),
        ],
        // CAUSE_OF_1
        &[field!(1, [number "cause" 0 8])],
        // CAUSE_OF_2
        &[field!(2, [number "cause" 0 16])],
        // F_CAUSE: F-Cause (8.49)
        &[
            keep!(1),
            field!(1, [number "kind" 0 4]),
            all!([octets "cause"]),
        ],
        // F_CONTAINER: F-Container (8.48)
        &[field!(1, [number "kind" 0 4]), all!([octets "octets"])],
        // REMOTE_USER: Remote User ID (8.123)
        &[
            keep!(1),
            field!(1),
            sized!(1 IMSI),
            when!(0 "" MSISDN_LENGTH),
            when!(1 "" IMEI_LENGTH),
        ],
        // IMSI
        &[all!([digits "imsi"])],
        // MSISDN_LENGTH
        &[sized!(1 MSISDN)],
        // MSISDN
        &[all!([digits "msisdn"])],
        // IMEI_LENGTH
        &[sized!(1 IMEI)],
        // IMEI
        &[all!([digits "imei"])],
    ];
    FORMS
}
