//! Forms of packet filters: their components (TS 24.008 10.5.6.12).

use crate::forms::templates::{SERVICE_VLAN, TAG_PRIORITY, UNKNOWN_COMPONENT};
use gtp_forms::{Bits, Case, How, Spelling, Step, View};

pub const V4_AND_MASK: u8 = 32;

pub const V6_AND_MASK: u8 = 33;

pub const V6_AND_PREFIX: u8 = 34;

pub const PROTOCOL: u8 = 35;

pub const LOCAL_PORT: u8 = 36;

pub const REMOTE_PORT: u8 = 37;

pub const PORTS: u8 = 38;

pub const SPI: u8 = 39;

pub const TRAFFIC_CLASS: u8 = 40;

pub const FLOW_LABEL: u8 = 41;

pub const MAC_ADDRESS: u8 = 42;

pub const VLAN: u8 = 43;

pub const ETHERTYPE: u8 = 44;

pub const COMPONENT: u8 = 45;

pub const COMPONENTS: u8 = 46;

pub const FILTER: u8 = 47;

/// The forms of these numbers, in their order.
pub fn forms() -> &'static [&'static [Step]] {
    const FORMS: &[&[Step]] = &[
        // V4_AND_MASK: what a component has, behind the octet of its type
        &[
            field!(1),
            field!(4, [address "address"]),
            field!(4, [address "mask"]),
        ],
        // V6_AND_MASK
        &[
            field!(1),
            field!(16, [address "address"]),
            field!(16, [address "mask"]),
        ],
        // V6_AND_PREFIX
        &[
            field!(1),
            field!(16, [address "address"]),
            field!(1, [number "prefix" 0 8]),
        ],
        // PROTOCOL
        &[field!(1), field!(1, [number "protocol" 0 8])],
        // LOCAL_PORT
        &[field!(1), field!(2, [number "local_port" 0 16])],
        // REMOTE_PORT
        &[field!(1), field!(2, [number "remote_port" 0 16])],
        // PORTS
        &[
            field!(1),
            field!(2, [number "low" 0 16]),
            field!(2, [number "high" 0 16]),
        ],
        // SPI
        &[field!(1), field!(4, [number "spi" 0 32])],
        // TRAFFIC_CLASS
        &[
            field!(1),
            field!(1, [number "value" 0 8]),
            field!(1, [number "mask" 0 8]),
        ],
        // FLOW_LABEL
        &[field!(1), field!(3, [number "flow_label" 0 20])],
        // MAC_ADDRESS
        &[field!(1), field!(6, [octets "address"])],
        // VLAN: of an 802.1Q C-TAG
        &[field!(1), field!(2, [number "vid" 0 12])],
        // ETHERTYPE
        &[field!(1), field!(2, [octets "ethertype"])],
        // COMPONENT: a component, by its type
        &[
            keep!(1),
            choose!(0 8: 16 "remote_v4" V4_AND_MASK, 17 "local_v4" V4_AND_MASK, 32 "remote_v6" V6_AND_MASK, 33 "remote_v6_prefix" V6_AND_PREFIX, 35 "local_v6_prefix" V6_AND_PREFIX, 48 "" PROTOCOL, 64 "" LOCAL_PORT, 65 "local_ports" PORTS, 80 "" REMOTE_PORT, 81 "remote_ports" PORTS, 96 "" SPI, 112 "traffic_class" TRAFFIC_CLASS, 128 "" FLOW_LABEL, 129 "destination_mac" MAC_ADDRESS, 130 "source_mac" MAC_ADDRESS, 131 "" VLAN, 132 "" SERVICE_VLAN, 133 "c_tag" TAG_PRIORITY, 134 "s_tag" TAG_PRIORITY, 135 "" ETHERTYPE, _ "unknown" UNKNOWN_COMPONENT),
        ],
        // COMPONENTS
        &[each!("components" "" COMPONENT)],
        // FILTER: a packet filter
        &[
            field!(1, [number "direction" 4 2], [number "identifier" 0 4]),
            field!(1, [number "precedence" 0 8]),
            sized!(1 COMPONENTS),
        ],
    ];
    FORMS
}
