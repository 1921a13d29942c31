//! Words of numbers.

use gtp_forms::Word;

/// Rows of a number and its word.
macro_rules! words {
    ($($value:literal $text:literal,)*) => {
        &[$(Word { value: $value, text: $text }),*]
    };
}

/// Protocols of causes (TS 29.274 8.103).
pub const CAUSE_PROTOCOLS: &[Word] = words![
    1 "s1ap",
    2 "emm",
    3 "esm",
    4 "diameter",
    5 "ikev2",
];

/// Identifiers of containers of protocol configuration options (TS 24.008 10.5.6.3).
pub const CONTAINERS: &[Word] = words![
    1 "p-cscf-v6",
    2 "im-cn-signalling",
    3 "dns-v6",
    4 "policy-control-rejection",
    5 "bearer-control",
    7 "dsmipv6-home-agent",
    8 "dsmipv6-home-prefix",
    9 "dsmipv6-home-agent-v4",
    10 "ip-by-nas",
    11 "ip-by-dhcp",
    12 "p-cscf-v4",
    13 "dns-v4",
    14 "msisdn",
    15 "ifom",
    16 "ipv4-link-mtu",
    17 "local-address-tft",
    18 "p-cscf-reselection",
    19 "nbifom-request",
    20 "nbifom-mode",
    21 "non-ip-link-mtu",
    22 "apn-rate-control",
    23 "ps-data-off",
    24 "reliable-data-service",
    25 "additional-apn-rate-control",
    26 "pdu-session",
    27 "s-nssai",
    28 "qos-rules-1",
    29 "session-ambr",
    30 "pdu-address-lifetime",
    31 "qos-flows-1",
    32 "ethernet-mtu",
    33 "unstructured-mtu",
    34 "5gsm-cause",
    35 "qos-rules",
    36 "qos-flows",
    32801 "ipcp",
    49185 "lcp",
    49187 "pap",
    49699 "chap",
];

/// Operations of traffic flow templates (TS 24.008 10.5.6.12).
pub const OPERATIONS: &[Word] = words![
    0 "ignore",
    1 "create-new",
    2 "delete-existing",
    3 "add-filters",
    4 "replace-filters",
    5 "delete-filters",
    6 "no-operation",
];

/// Types of targets (TS 29.274 8.51).
pub const TARGETS: &[Word] = words![
    0 "rnc",
    1 "macro-enb",
    2 "cell",
    3 "home-enb",
    4 "extended-macro-enb",
    5 "gnb",
    6 "macro-ng-enb",
    7 "extended-ng-enb",
    8 "en-gnb",
];

/// Units of timers (TS 29.274 8.87).
pub const TIMER_UNITS: &[Word] = words![
    0 "2-seconds",
    1 "minute",
    2 "10-minutes",
    3 "hour",
    4 "10-hours",
    7 "infinite",
];
