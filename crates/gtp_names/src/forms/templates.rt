//! Forms of traffic flow templates (TS 24.008 10.5.6.12).

use crate::forms::components::FILTER;
use crate::forms::options::OCTETS;
use crate::words::OPERATIONS;
use gtp_forms::{Bits, Case, How, Spelling, Step, View};

pub const FILTER_IDENTIFIER: u8 = 48;

pub const PARAMETER: u8 = 49;

pub const FILTERS: u8 = 50;

pub const FILTER_IDENTIFIERS: u8 = 51;

pub const TFT: u8 = 52;

pub const PARAMETERS: u8 = 53;

pub const SERVICE_VLAN: u8 = 54;

pub const TAG_PRIORITY: u8 = 55;

pub const UNKNOWN_COMPONENT: u8 = 56;

/// The forms of these numbers, in their order.
pub fn forms() -> &'static [&'static [Step]] {
    const FORMS: &[&[Step]] = &[
        // FILTER_IDENTIFIER
        &[field!(1, [number "identifier" 0 4])],
        // PARAMETER
        &[field!(1, [number "parameter" 0 8]), sized!(1 OCTETS)],
        // FILTERS: as many filters as the kept octet counts
        &[times!(0 4: "filters" "filter" FILTER)],
        // FILTER_IDENTIFIERS
        &[times!(0 4: "filters" "filter" FILTER_IDENTIFIER)],
        // TFT: Bearer TFT and Traffic Aggregate Description (TS 29.274 8.19, 8.20)
        &[
            keep!(1),
            field!(1, [named "operation" 5 3 OPERATIONS]),
            choose!(5 3: 5 "" FILTER_IDENTIFIERS, _ "" FILTERS),
            when!(4 "" PARAMETERS),
        ],
        // PARAMETERS
        &[each!("parameters" "parameter" PARAMETER)],
        // SERVICE_VLAN: a component of a filter, of an 802.1Q S-TAG
        &[field!(1), field!(2, [number "s_tag_vid" 0 12])],
        // TAG_PRIORITY: priority code point and drop eligible indicator of a tag
        &[field!(1), field!(1, [number "pcp" 1 3], [number "dei" 0 1])],
        // UNKNOWN_COMPONENT: a component of another type, and all behind it
        &[
            field!(1, [number "type" 0 8]),
            Step::May,
            all!([octets "octets"]),
        ],
    ];
    FORMS
}
