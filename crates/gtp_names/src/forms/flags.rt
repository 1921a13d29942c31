//! Forms of flags.

use gtp_forms::{Bits, How, Spelling, Step, View};

pub const INDICATION: u8 = 96;

pub const BEARER_FLAGS: u8 = 97;

pub const SIGNALLING_PRIORITY: u8 = 98;

pub const CSG_REPORTING_ACTION: u8 = 99;

pub const NODE_FEATURES: u8 = 100;

pub const CHANGE_REPORT_FLAGS: u8 = 101;

pub const CIOT_SUPPORT: u8 = 102;

pub const UP_SELECTION_FLAGS: u8 = 103;

pub const PRA_ACTION: u8 = 104;

pub const PRA_INFORMATION: u8 = 105;

/// The forms of these numbers, in their order.
pub fn forms() -> &'static [&'static [Step]] {
    const FORMS: &[&[Step]] = &[
        // INDICATION: Indication (TS 29.274 8.12); later versions have more octets
        &[
            field!(1, [flag "daf" 7], [flag "dtf" 6], [flag "hi" 5], [flag "dfi" 4], [flag "oi" 3], [flag "isrsi" 2], [flag "israi" 1], [flag "sgwci" 0]),
            Step::May,
            field!(1, [flag "sqci" 7], [flag "uimsi" 6], [flag "cfsi" 5], [flag "crsi" 4], [flag "p" 3], [flag "pt" 2], [flag "si" 1], [flag "msv" 0]),
            Step::May,
            field!(1, [flag "retloc" 7], [flag "pbic" 6], [flag "srni" 5], [flag "s6af" 4], [flag "s4af" 3], [flag "mbmdt" 2], [flag "israu" 1], [flag "ccrsi" 0]),
            Step::May,
            field!(1, [flag "cprai" 7], [flag "arrl" 6], [flag "ppof" 5], [flag "ppon-ppei" 4], [flag "ppsi" 3], [flag "csfbi" 2], [flag "clii" 1], [flag "cpsr" 0]),
            Step::May,
            field!(1, [flag "nsi" 7], [flag "uasi" 6], [flag "dtci" 5], [flag "bdwi" 4], [flag "psci" 3], [flag "pcri" 2], [flag "aosi" 1], [flag "aopi" 0]),
            Step::May,
            field!(1, [flag "roaai" 7], [flag "epcosi" 6], [flag "cpopci" 5], [flag "pmtsmi" 4], [flag "s11tf" 3], [flag "pnsi" 2], [flag "unaccsi" 1], [flag "wpmsi" 0]),
            Step::May,
            field!(1, [flag "5gsnn26" 7], [flag "reprefi" 6], [flag "5gsiwki" 5], [flag "eevrsi" 4], [flag "ltemui" 3], [flag "ltempi" 2], [flag "enbcrsi" 1], [flag "tspcmi" 0]),
            Step::May,
            field!(1, [flag "csrmfi" 7], [flag "mtedtn" 6], [flag "mtedta" 5], [flag "n5gnmi" 4], [flag "5gcnrs" 3], [flag "5gcnri" 2], [flag "5srhoi" 1], [flag "ethpdn" 0]),
            Step::May,
            field!(1, [flag "nspusi" 7], [flag "pgwrnsi" 6], [flag "rppcsi" 5], [flag "pgwchi" 4], [flag "sissme" 3], [flag "nsenbi" 2], [flag "idfupf" 1], [flag "emci" 0]),
        ],
        // BEARER_FLAGS: Bearer Flags (8.32)
        &[field!(1, [flag "asi" 3], [flag "vind" 2], [flag "vb" 1], [flag "ppc" 0])],
        // SIGNALLING_PRIORITY: Signalling Priority Indication (8.88)
        &[field!(1, [flag "lapi" 0])],
        // CSG_REPORTING_ACTION: CSG Information Reporting Action (8.76)
        &[field!(1, [flag "uciuhc" 2], [flag "ucishc" 1], [flag "ucicsg" 0])],
        // NODE_FEATURES: Node Features (8.83)
        &[
            field!(1, [flag "mte" 6], [flag "eth" 5], [flag "s1un" 4], [flag "ciot" 3], [flag "ntsr" 2], [flag "mabr" 1], [flag "prn" 0]),
        ],
        // CHANGE_REPORT_FLAGS: Change To Report Flags (8.98)
        &[field!(1, [flag "tzcr" 1], [flag "sncr" 0])],
        // CIOT_SUPPORT: CIoT Optimizations Support Indication (8.125)
        &[field!(1, [flag "ihcsi" 3], [flag "awopdn" 2], [flag "scnipdn" 1], [flag "sgnipdn" 0])],
        // UP_SELECTION_FLAGS: UP Function Selection Indication Flags (8.133)
        &[field!(1, [flag "dcnr" 0])],
        // PRA_ACTION: Presence Reporting Area Action (8.108)
        &[
            field!(1, [flag "inapra" 3], [number "action" 0 3]),
            Step::May,
            field!(3, [octets "area"]),
            Step::May,
            all!([octets "elements"]),
        ],
        // PRA_INFORMATION: Presence Reporting Area Information (8.109)
        &[
            field!(3, [octets "area"]),
            field!(1, [flag "inapra" 3], [flag "apra" 2], [flag "opra" 1], [flag "ipra" 0]),
            Step::May,
            all!([octets "additional"]),
        ],
    ];
    FORMS
}
