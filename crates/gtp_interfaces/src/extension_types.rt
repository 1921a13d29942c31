//! The types of extension headers (TS 29.281 figure 5.2.1-3).

/// Long PDCP PDU number, which need not be understood.
const LONG_PDCP_NUMBER_OPTIONAL: u8 = 0x03;

const SERVICE_CLASS_INDICATOR: u8 = 0x20;

const UDP_PORT: u8 = 0x40;

const RAN_CONTAINER: u8 = 0x81;

const LONG_PDCP_NUMBER: u8 = 0x82;

const XW_RAN_CONTAINER: u8 = 0x83;

const NR_RAN_CONTAINER: u8 = 0x84;

const PDU_SESSION_CONTAINER: u8 = 0x85;

const PDCP_NUMBER: u8 = 0xc0;

/// All that are defined for the user plane.
pub const UNDERSTOOD: &[u8] = &[
    LONG_PDCP_NUMBER_OPTIONAL,
    SERVICE_CLASS_INDICATOR,
    UDP_PORT,
    RAN_CONTAINER,
    LONG_PDCP_NUMBER,
    XW_RAN_CONTAINER,
    NR_RAN_CONTAINER,
    PDU_SESSION_CONTAINER,
    PDCP_NUMBER,
];
