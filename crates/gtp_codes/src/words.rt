//! The words of the standard for numbers that elements carry: a table for each kind of number.

ghost use Rattle.std.specs.Prelude.{◌≡◌, option_map, map};
ghost use Rattle.gtp_codes.specs.Words.{said_by, word_in as spec_word_in, told_by, cause_told, cause_words, rat_type_words, interface_type_words, pdn_type_words};

use crate::explaining::Meaning;

/// A number, and its word.
#[derive(Clone, Copy, Debug)]
pub struct Word {
    pub number: u8,
    pub text: &'static str,
}

/// Rows of a number and its word.
macro_rules! words {
    ($($number:literal $text:literal,)*) => {
        &[$(Word { number: $number, text: $text }),*]
    };
}

/// The same, and then rows of the table of codes.
macro_rules! causes {
    ($($number:literal $text:literal,)*) => {
        (
            words![$($number $text,)*],
            &[$(Meaning {
                code: "cause",
                detail: stringify!($number),
                text: concat!($text, " (TS 29.274 8.4)"),
            }),*],
        )
    };
}

/// Causes, by their words and as rows of the table of codes.
const CAUSES: (&[Word], &[Meaning]) = causes![
    2 "Local Detach",
    3 "Complete Detach",
    4 "RAT changed from 3GPP to Non-3GPP",
    5 "ISR deactivation",
    6 "Error Indication received from RNC/eNodeB/S4-SGSN",
    7 "IMSI Detach Only",
    8 "Reactivation Requested",
    9 "PDN reconnection to this APN disallowed",
    10 "Access changed from Non-3GPP to 3GPP",
    11 "PDN connection inactivity timer expires",
    12 "PGW not responding",
    13 "Network Failure",
    14 "QoS parameter mismatch",
    15 "EPS to 5GS Mobility",
    16 "Request accepted",
    17 "Request accepted partially",
    18 "New PDN type due to network preference",
    19 "New PDN type due to single address bearer only",
    64 "Context Not Found",
    65 "Invalid Message Format",
    66 "Version not supported by next peer",
    67 "Invalid length",
    68 "Service not supported",
    69 "Mandatory IE incorrect",
    70 "Mandatory IE missing",
    72 "System failure",
    73 "No resources available",
    74 "Semantic error in the TFT operation",
    75 "Syntactic error in the TFT operation",
    76 "Semantic errors in packet filter(s)",
    77 "Syntactic errors in packet filter(s)",
    78 "Missing or unknown APN",
    80 "GRE key not found",
    81 "Relocation failure",
    82 "Denied in RAT",
    83 "Preferred PDN type not supported",
    84 "All dynamic addresses are occupied",
    85 "UE context without TFT already activated",
    86 "Protocol type not supported",
    87 "UE not responding",
    88 "UE refuses",
    89 "Service denied",
    90 "Unable to page UE",
    91 "No memory available",
    92 "User authentication failed",
    93 "APN access denied - no subscription",
    94 "Request rejected (reason not specified)",
    95 "P-TMSI Signature mismatch",
    96 "IMSI/IMEI not known",
    97 "Semantic error in the TAD operation",
    98 "Syntactic error in the TAD operation",
    100 "Remote peer not responding",
    101 "Collision with network initiated request",
    102 "Unable to page UE due to Suspension",
    103 "Conditional IE missing",
    104 "APN Restriction type Incompatible with currently active PDN connection",
    105 "Invalid overall length of the triggered response message and a piggybacked initial message",
    106 "Data forwarding not supported",
    107 "Invalid reply from remote peer",
    108 "Fallback to GTPv1",
    109 "Invalid peer",
    110 "Temporarily rejected due to handover/TAU/RAU procedure in progress",
    111 "Modifications not limited to S1-U bearers",
    112 "Request rejected for a PMIPv6 reason",
    113 "APN Congestion",
    114 "Bearer handling not supported",
    115 "UE already re-attached",
    116 "Multiple PDN connections for a given APN not allowed",
    117 "Target access restricted for the subscriber",
    119 "MME/SGSN refuses due to VPLMN Policy",
    120 "GTP-C Entity Congestion",
    121 "Late Overlapping Request",
    122 "Timed out Request",
    123 "UE is temporarily not reachable due to power saving",
    124 "Relocation failure due to NAS message redirection",
    125 "UE not authorised by OCS or external AAA Server",
    126 "Multiple accesses to a PDN connection not allowed",
    127 "Request rejected due to UE capability",
    128 "S1-U Path Failure",
    129 "5GC not allowed",
    130 "PGW mismatch with network slice subscribed by the UE",
    131 "Rejection due to paging restriction",
];

/// RAT types.
const RAT_TYPES: &[Word] = words![
    1 "UTRAN",
    2 "GERAN",
    3 "WLAN",
    4 "GAN",
    5 "HSPA Evolution",
    6 "EUTRAN",
    7 "Virtual",
    8 "EUTRAN-NB-IoT",
    9 "LTE-M",
    10 "NR",
    11 "WB-E-UTRAN(LEO)",
    12 "WB-E-UTRAN(MEO)",
    13 "WB-E-UTRAN(GEO)",
    14 "WB-E-UTRAN(OTHERSAT)",
    15 "EUTRAN-NB-IoT(LEO)",
    16 "EUTRAN-NB-IoT(MEO)",
    17 "EUTRAN-NB-IoT(GEO)",
    18 "EUTRAN-NB-IoT(OTHERSAT)",
    19 "LTE-M(LEO)",
    20 "LTE-M(MEO)",
    21 "LTE-M(GEO)",
    22 "LTE-M(OTHERSAT)",
];

/// Interface types of F-TEIDs.
const INTERFACE_TYPES: &[Word] = words![
    0 "S1-U eNodeB GTP-U interface",
    1 "S1-U SGW GTP-U interface",
    2 "S12 RNC GTP-U interface",
    3 "S12 SGW GTP-U interface",
    4 "S5/S8 SGW GTP-U interface",
    5 "S5/S8 PGW GTP-U interface",
    6 "S5/S8 SGW GTP-C interface",
    7 "S5/S8 PGW GTP-C interface",
    8 "S5/S8 SGW PMIPv6 interface",
    9 "S5/S8 PGW PMIPv6 interface",
    10 "S11 MME GTP-C interface",
    11 "S11/S4 SGW GTP-C interface",
    12 "S10/N26 MME GTP-C interface",
    13 "S3 MME GTP-C interface",
    14 "S3 SGSN GTP-C interface",
    15 "S4 SGSN GTP-U interface",
    16 "S4 SGW GTP-U interface",
    17 "S4 SGSN GTP-C interface",
    18 "S16 SGSN GTP-C interface",
    19 "eNodeB/gNodeB GTP-U interface for DL data forwarding",
    20 "eNodeB GTP-U interface for UL data forwarding",
    21 "RNC GTP-U interface for data forwarding",
    22 "SGSN GTP-U interface for data forwarding",
    23 "SGW/UPF GTP-U interface for DL data forwarding",
    24 "Sm MBMS GW GTP-C interface",
    25 "Sn MBMS GW GTP-C interface",
    26 "Sm MME GTP-C interface",
    27 "Sn SGSN GTP-C interface",
    28 "SGW GTP-U interface for UL data forwarding",
    29 "Sn SGSN GTP-U interface",
    30 "S2b ePDG GTP-C interface",
    31 "S2b-U ePDG GTP-U interface",
    32 "S2b PGW GTP-C interface",
    33 "S2b-U PGW GTP-U interface",
    34 "S2a TWAN GTP-U interface",
    35 "S2a TWAN GTP-C interface",
    36 "S2a PGW GTP-C interface",
    37 "S2a PGW GTP-U interface",
    38 "S11 MME GTP-U interface",
    39 "S11 SGW GTP-U interface",
    40 "N26 AMF GTP-C interface",
    41 "N19mb UPF GTP-U interface",
];

/// PDN types.
const PDN_TYPES: &[Word] = words![
    1 "IPv4",
    2 "IPv6",
    3 "IPv4v6",
    4 "Non-IP",
    5 "Ethernet",
];

/// The causes as rows of the table of codes.
pub fn causes() -> &'static [Meaning]
    ensures { map told_by result.now ≡ map cause_told cause_words }
{
    CAUSES.1
}

/// The word of a number in a table, where it stands there.
fn word_in(table: &'static [Word], number: u8) -> Option<&'static str>
    ensures { option_map (λ w. w.now) result ≡ spec_word_in (map said_by table.now) number }
{
    for row in table {
        if row.number == number {
            return Some(row.text);
        }
    }
    None
}

/// The word of a cause (TS 29.274 table 8.4-1), where it has one.
#[tactic(auto, unfolding(crate::specs::Words::cause_words))]
pub fn cause_word(number: u8) -> Option<&'static str>
    ensures { option_map (λ w. w.now) result ≡ spec_word_in cause_words number }
{
    word_in(CAUSES.0, number)
}

/// The word of a RAT type (TS 29.274 table 8.17-1), where it has one.
#[tactic(auto, unfolding(crate::specs::Words::rat_type_words))]
pub fn rat_type_word(number: u8) -> Option<&'static str>
    ensures { option_map (λ w. w.now) result ≡ spec_word_in rat_type_words number }
{
    word_in(RAT_TYPES, number)
}

/// The word of an F-TEID's interface type (TS 29.274 table 8.22-1), where it has one.
#[tactic(auto, unfolding(crate::specs::Words::interface_type_words))]
pub fn interface_type_word(number: u8) -> Option<&'static str>
    ensures { option_map (λ w. w.now) result ≡ spec_word_in interface_type_words number }
{
    word_in(INTERFACE_TYPES, number)
}

/// The word of a PDN type (TS 29.274 table 8.34-1), where it has one.
#[tactic(auto, unfolding(crate::specs::Words::pdn_type_words))]
pub fn pdn_type_word(number: u8) -> Option<&'static str>
    ensures { option_map (λ w. w.now) result ≡ spec_word_in pdn_type_words number }
{
    word_in(PDN_TYPES, number)
}
