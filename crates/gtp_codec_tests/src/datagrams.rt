//! The requests and answers of one session with a dedicated bearer, which several tests start from. Their
//! octets are drawn by hand after the figures of TS 29.274 clauses 5, 7 and 8, an element a line.

/// Create Session Request, as a serving gateway sends it: examples/datagrams/control/create-session-request.
pub const SESSION_REQUEST: &str = concat!(
    "4820008e0000000000000000", // no TEID yet: 0
    "0100080000010121436587f9", // IMSI 001010123456789
    "5200010006", // RAT 6, E-UTRAN
    "5300030000f110", // serving network 001 01
    "5700090086010000010a000001", // S5/S8 of the serving gateway, control
    "4700090008696e7465726e6574", // access point name internet
    "8000010000", // selection 0
    "6300010001", // PDN type IPv4
    "4f0005000100000000", // no address yet
    "48000800000003e8000003e8", // AMBR 1000 and 1000
    "5d002c00", // bearer context
    "4900010005", // bearer 5
    "500016002009", // QoS: QCI 9, priority level 8
    "0000000000000000000000000000000000000000", // its four rates
    "5700090284010000020a000001", // S5/S8 of the serving gateway, user
    "0300010001" // Recovery 1
);

/// Its answer: examples/datagrams/control/create-session-response.
pub const SESSION_RESPONSE: &str = concat!(
    "482100730100000100000000",
    "020002001000", // accepted
    "5700090187010000010a000002", // S5/S8 of the packet gateway, control
    "4f000500010a010001", // 10.1.0.1
    "48000800000003e8000003e8", // AMBR 1000 and 1000
    "5d003a00", // bearer context
    "4900010005", // bearer 5
    "020002001000", // accepted
    "5700090285010000020a000002", // S5/S8 of the packet gateway, user
    "500016002009", // QoS: QCI 9, priority level 8
    "0000000000000000000000000000000000000000", // its four rates
    "5e00040001000002", // charging identifier
    "0300010001" // Recovery 1
);

/// Create Bearer Request, as a packet gateway sends it: examples/datagrams/control/create-bearer-request.
pub const BEARER_REQUEST: &str = concat!(
    "485f004a0100000100000000",
    "4900010005", // linked to bearer 5
    "5d003900", // bearer context
    "4900010000", // bearer 0: to be given
    "5400010021", // template
    "5700090185010000030a000002", // S5/S8 of the packet gateway, user
    "500016002009", // QoS: QCI 9, priority level 8
    "0000000000000000000000000000000000000000", // its four rates
    "5e00040001000003" // charging identifier
);

/// Its answer: examples/datagrams/control/create-bearer-response.
pub const BEARER_RESPONSE: &str = concat!(
    "4860003c0100000100000000",
    "020002001000", // accepted
    "5d002500", // bearer context
    "4900010006", // bearer 6
    "020002001000", // accepted
    "5700090284010000030a000001", // S5/S8 of the serving gateway, user
    "5700090385010000030a000002", // S5/S8 of the packet gateway, user
    "0300010001" // Recovery 1
);
