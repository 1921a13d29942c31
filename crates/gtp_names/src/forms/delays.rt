//! Forms of what may end an uplink PDU Session Container (TS 38.415 5.5.2.2).

use gtp_forms::{Bits, Case, How, Step, View};

pub const N3_N9_DELAY: u8 = 160;

pub const NEW_FLAGS: u8 = 161;

pub const PDCP_DELAY: u8 = 162;

/// The forms of these numbers, in their order.
pub fn forms() -> &'static [&'static [Step]] {
    const FORMS: &[&[Step]] = &[
        // N3_N9_DELAY
        &[field!(4, [number "n3n9_delay" 0 32])],
        // NEW_FLAGS
        &[keep!(1), field!(1), when!(0 "" PDCP_DELAY)],
        // PDCP_DELAY
        &[field!(4, [number "pdcp_delay" 0 32])],
    ];
    FORMS
}
