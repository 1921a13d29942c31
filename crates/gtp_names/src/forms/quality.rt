//! Forms of quality, rates and times.

use crate::words::TIMER_UNITS;
use gtp_forms::{Bits, Case, How, Spelling, Step, View};

pub const RATES: u8 = 112;

pub const FLOW_QOS: u8 = 113;

pub const ARP: u8 = 114;

pub const TIMER: u8 = 115;

pub const THROTTLING: u8 = 116;

pub const PLMN_RATE: u8 = 117;

pub const TIME_ZONE: u8 = 118;

pub const PAGING_SERVICE: u8 = 119;

pub const PAGING_POLICY: u8 = 120;

pub const SECONDARY_RAT_USAGE: u8 = 121;

/// The forms of these numbers, in their order.
pub fn forms() -> &'static [&'static [Step]] {
    const FORMS: &[&[Step]] = &[
        // RATES
        &[
            field!(4, [number "uplink" 0 32]),
            field!(4, [number "downlink" 0 32]),
        ],
        // FLOW_QOS: Flow QoS (TS 29.274 8.16)
        &[
            field!(1, [number "class" 0 8]),
            field!(5, [number "mbr_up" 0 40]),
            field!(5, [number "mbr_down" 0 40]),
            field!(5, [number "gbr_up" 0 40]),
            field!(5, [number "gbr_down" 0 40]),
        ],
        // ARP: Allocation/Retention Priority (8.86)
        &[
            field!(1, [number "preemption_capability" 6 1], [number "priority_level" 2 4], [number "preemption_vulnerability" 0 1]),
        ],
        // TIMER: EPC Timer (8.87)
        &[field!(1, [named "unit" 5 3 TIMER_UNITS], [number "value" 0 5])],
        // THROTTLING: Throttling (8.85)
        &[
            field!(1, [number "delay_unit" 5 3], [number "delay" 0 5]),
            field!(1, [number "factor" 0 8]),
        ],
        // PLMN_RATE: Serving PLMN Rate Control (8.129)
        &[
            field!(2, [number "uplink" 0 16]),
            field!(2, [number "downlink" 0 16]),
        ],
        // TIME_ZONE: UE Time Zone (8.44)
        &[
            field!(1, [zone "offset"]),
            field!(1, [number "daylight" 0 2]),
        ],
        // PAGING_SERVICE: Paging and Service Information (8.117)
        &[
            keep!(2),
            field!(1, [number "ebi" 0 4]),
            field!(1, [flag "ppi" 0]),
            when!(0 "" PAGING_POLICY),
        ],
        // PAGING_POLICY
        &[field!(1, [number "policy" 0 6])],
        // SECONDARY_RAT_USAGE: Secondary RAT Usage Data Report (8.132)
        &[
            field!(1, [flag "srudn" 2], [flag "irsgw" 1], [flag "irpgw" 0]),
            field!(1, [number "rat" 0 8]),
            field!(1, [number "ebi" 0 4]),
            field!(4, [number "start" 0 32]),
            field!(4, [number "end" 0 32]),
            field!(8, [number "downlink" 0 64]),
            field!(8, [number "uplink" 0 64]),
        ],
    ];
    FORMS
}
