//! Forms of places: cells, areas, base stations, networks.

use crate::forms::options::OCTETS;
use crate::words::TARGETS;
use gtp_forms::{Bits, Case, How, Spelling, Step, View};

pub const CGI: u8 = 0;

pub const SAI: u8 = 1;

pub const RAI: u8 = 2;

pub const TAI: u8 = 3;

pub const ECGI: u8 = 4;

pub const LAI: u8 = 5;

pub const MACRO_ENB: u8 = 6;

pub const EXTENDED_MACRO_ENB: u8 = 7;

pub const ULI: u8 = 8;

pub const GUTI: u8 = 9;

pub const NETWORK: u8 = 10;

pub const TARGET: u8 = 11;

pub const TARGET_MACRO_ENB: u8 = 12;

pub const TARGET_HOME_ENB: u8 = 13;

pub const TRACE_REFERENCE: u8 = 14;

pub const UCI: u8 = 15;

/// The forms of these numbers, in their order.
pub fn forms() -> &'static [&'static [Step]] {
    const FORMS: &[&[Step]] = &[
        // CGI (TS 29.274 8.21.1)
        &[
            field!(3, [network]),
            field!(2, [number "lac" 0 16]),
            field!(2, [number "ci" 0 16]),
        ],
        // SAI (8.21.2)
        &[
            field!(3, [network]),
            field!(2, [number "lac" 0 16]),
            field!(2, [number "sac" 0 16]),
        ],
        // RAI (8.21.3)
        &[
            field!(3, [network]),
            field!(2, [number "lac" 0 16]),
            field!(2, [number "rac" 0 16]),
        ],
        // TAI (8.21.4)
        &[field!(3, [network]), field!(2, [number "tac" 0 16])],
        // ECGI (8.21.5)
        &[field!(3, [network]), field!(4, [number "eci" 0 28])],
        // LAI (8.21.6)
        &[field!(3, [network]), field!(2, [number "lac" 0 16])],
        // MACRO_ENB: macro eNodeB (8.21.7)
        &[field!(3, [network]), field!(3, [number "enb" 0 20])],
        // EXTENDED_MACRO_ENB: extended macro eNodeB (8.21.8)
        &[
            field!(3, [network]),
            field!(3, [number "smenb" 23 1], [number "enb" 0 21]),
        ],
        // ULI: User Location Information (8.21): a flag for each that follows
        &[
            keep!(1),
            field!(1),
            when!(0 "cgi" CGI),
            when!(1 "sai" SAI),
            when!(2 "rai" RAI),
            when!(3 "tai" TAI),
            when!(4 "ecgi" ECGI),
            when!(5 "lai" LAI),
            when!(6 "macro_enb" MACRO_ENB),
            when!(7 "extended_macro_enb" EXTENDED_MACRO_ENB),
        ],
        // GUTI (8.47)
        &[
            field!(3, [network]),
            field!(2, [number "group" 0 16]),
            field!(1, [number "mme" 0 8]),
            field!(4, [octets "tmsi"]),
        ],
        // NETWORK: MCC and MNC alone
        &[field!(3, [network])],
        // TARGET: Target Identification (8.51)
        &[
            keep!(1),
            field!(1, [named "kind" 0 8 TARGETS]),
            choose!(0 8: 1 "" TARGET_MACRO_ENB, 3 "" TARGET_HOME_ENB, _ "" OCTETS),
        ],
        // TARGET_MACRO_ENB
        &[
            field!(3, [network]),
            field!(3, [number "enb" 0 20]),
            field!(2, [number "tac" 0 16]),
        ],
        // TARGET_HOME_ENB
        &[
            field!(3, [network]),
            field!(4, [number "enb" 0 28]),
            field!(2, [number "tac" 0 16]),
        ],
        // TRACE_REFERENCE: Trace Reference (8.45)
        &[field!(3, [network]), field!(3, [number "trace" 0 24])],
        // UCI: User CSG Information (8.75)
        &[
            field!(3, [network]),
            field!(4, [number "csg" 0 27]),
            field!(1, [number "access_mode" 6 2], [flag "lcsg" 1], [flag "cmi" 0]),
        ],
    ];
    FORMS
}
