//! Forms of one number or one word of octets, and of some in a row.

use gtp_forms::{Bits, How, Spelling, Step, View};

pub const NUMBER_OF_1: u8 = 80;

pub const NUMBER_OF_2: u8 = 81;

pub const NUMBER_OF_4: u8 = 82;

pub const NUMBER_OF_6: u8 = 83;

pub const LOWEST_BIT: u8 = 84;

pub const LOWEST_2_BITS: u8 = 85;

pub const LOWEST_3_BITS: u8 = 86;

pub const LOWEST_4_BITS: u8 = 87;

pub const CSG: u8 = 88;

pub const DIGITS: u8 = 89;

pub const OCTETS_4: u8 = 90;

pub const OCTETS_3: u8 = 91;

pub const CHARGING_CHARACTERISTICS: u8 = 92;

pub const COUNTER: u8 = 93;

pub const KIND_AND_OCTETS: u8 = 94;

pub const PRIVATE: u8 = 95;

/// The forms of these numbers, in their order.
pub fn forms() -> &'static [&'static [Step]] {
    const FORMS: &[&[Step]] = &[
        // NUMBER_OF_1
        &[field!(1, [number "" 0 8])],
        // NUMBER_OF_2
        &[field!(2, [number "" 0 16])],
        // NUMBER_OF_4
        &[field!(4, [number "" 0 32])],
        // NUMBER_OF_6
        &[field!(6, [number "" 0 48])],
        // LOWEST_BIT
        &[field!(1, [number "" 0 1])],
        // LOWEST_2_BITS
        &[field!(1, [number "" 0 2])],
        // LOWEST_3_BITS
        &[field!(1, [number "" 0 3])],
        // LOWEST_4_BITS
        &[field!(1, [number "" 0 4])],
        // CSG ID (TS 29.274 8.78)
        &[field!(4, [number "" 0 27])],
        // DIGITS: MEI, MSISDN (8.10, 8.11)
        &[all!([digits ""])],
        // OCTETS_4: TMSI, P-TMSI (8.23, 8.41)
        &[field!(4, [octets ""])],
        // OCTETS_3: P-TMSI Signature (8.42)
        &[field!(3, [octets ""])],
        // CHARGING_CHARACTERISTICS: Charging Characteristics (8.30)
        &[field!(2, [octets ""])],
        // COUNTER: Counter (8.130)
        &[
            field!(4, [number "timestamp" 0 32]),
            field!(1, [number "value" 0 8]),
        ],
        // KIND_AND_OCTETS: Complete Request Message (8.46)
        &[field!(1, [number "kind" 0 8]), all!([octets "octets"])],
        // PRIVATE: Private Extension (8.67)
        &[
            field!(2, [number "enterprise" 0 16]),
            all!([octets "octets"]),
        ],
    ];
    FORMS
}
