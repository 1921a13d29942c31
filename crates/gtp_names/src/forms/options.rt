//! Forms of protocol configuration options (TS 24.008 10.5.6.3, TS 24.301 9.9.4.26).

use crate::words::CONTAINERS;
use gtp_forms::{Bits, Case, How, Spelling, Step, View};

pub const IPCP_OPTION: u8 = 16;

pub const IPCP: u8 = 17;

pub const IPCP_OPTIONS: u8 = 18;

pub const PPP: u8 = 19;

pub const V4: u8 = 20;

pub const V6: u8 = 21;

pub const NUMBER_8: u8 = 22;

pub const NUMBER_16: u8 = 23;

pub const OCTETS: u8 = 24;

pub const CONTENT: u8 = 25;

pub const CONTAINER: u8 = 26;

pub const LONG_CONTENT: u8 = 27;

pub const SHORT_CONTENT: u8 = 28;

pub const NETWORK_CONTAINER: u8 = 29;

pub const PCO: u8 = 30;

pub const NETWORK_EPCO: u8 = 31;

/// The forms of these numbers, in their order.
pub fn forms() -> &'static [&'static [Step]] {
    const FORMS: &[&[Step]] = &[
        // IPCP_OPTION: an option of IPCP, whose length counts its own two octets (RFC 1332 3)
        &[field!(1, [number "option" 0 8]), sized!(1 less 2 OCTETS)],
        // IPCP: a packet, whose length counts its first four octets (RFC 1661 5)
        &[
            field!(1, [number "code" 0 8]),
            field!(1, [number "identifier" 0 8]),
            sized!(2 less 4 IPCP_OPTIONS),
        ],
        // IPCP_OPTIONS
        &[each!("options" "option" IPCP_OPTION)],
        // PPP: a packet of LCP, PAP or CHAP
        &[
            field!(1, [number "code" 0 8]),
            field!(1, [number "identifier" 0 8]),
            sized!(2 less 4 OCTETS),
        ],
        // V4: what a container has: nothing in a request
        &[Step::May, field!(4, [address "v4"])],
        // V6
        &[Step::May, field!(16, [address "v6"])],
        // NUMBER_8
        &[Step::May, field!(1, [number "number" 0 8])],
        // NUMBER_16
        &[Step::May, field!(2, [number "number" 0 16])],
        // OCTETS: octets, or none
        &[Step::May, all!([octets "octets"])],
        // CONTENT: the content of a container, by its identifier
        &[
            choose!(0 16: 32801 "" IPCP, 49185 "" PPP, 49187 "" PPP, 49699 "" PPP, 13 "" V4, 12 "" V4, 3 "" V6, 1 "" V6, 16 "" NUMBER_16, 21 "" NUMBER_16, 5 "" NUMBER_8, 26 "" NUMBER_8, _ "" OCTETS),
        ],
        // CONTAINER: a container with a length of one octet
        &[
            keep!(2),
            field!(2, [named "id" 0 16 CONTAINERS]),
            sized!(1 CONTENT),
        ],
        // LONG_CONTENT
        &[sized!(2 CONTENT)],
        // SHORT_CONTENT
        &[sized!(1 CONTENT)],
        // NETWORK_CONTAINER: a container that the network sends in extended options: some have a length of two octets
        &[
            keep!(2),
            field!(2, [named "id" 0 16 CONTAINERS]),
            choose!(0 16: 35 "" LONG_CONTENT, 36 "" LONG_CONTENT, 48 "" LONG_CONTENT, 49 "" LONG_CONTENT, _ "" SHORT_CONTENT),
        ],
        // PCO: options, and additional ones
        &[
            field!(1, [number "protocol" 0 3]),
            each!("containers" "container" CONTAINER),
        ],
        // NETWORK_EPCO: extended options that the network sends
        &[
            field!(1, [number "protocol" 0 3]),
            each!("containers" "container" NETWORK_CONTAINER),
        ],
    ];
    FORMS
}
