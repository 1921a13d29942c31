//! Types of extension headers of GTP-U (TS 29.281 5.2.1): their names and their forms.

use crate::forms::extensions::{
    CONTAINER_OCTETS, LONG_PDCP_NUMBER, PDCP_NUMBER, PDU_SESSION, SERVICE_CLASS, UDP_PORT,
};
use gtp_forms::Row;

macro_rules! rows {
    ($($kind:literal $name:literal $form:ident,)*) => {
        &[$(Row { kind: $kind, name: $name, form: Some($form) }),*]
    };
}

/// Types of extension headers.
const EXTENSION_HEADERS: &[Row] = rows![
    0x03 "long-pdcp-pdu-number" LONG_PDCP_NUMBER,
    0x20 "service-class" SERVICE_CLASS,
    0x40 "udp-port" UDP_PORT,
    0x81 "ran-container" CONTAINER_OCTETS,
    0x82 "long-pdcp-pdu-number" LONG_PDCP_NUMBER,
    0x83 "xw-ran-container" CONTAINER_OCTETS,
    0x84 "nr-ran-container" CONTAINER_OCTETS,
    0x85 "pdu-session" PDU_SESSION,
    0xc0 "pdcp-pdu-number" PDCP_NUMBER,
];

/// All rows.
pub fn extension_header_rows() -> &'static [Row] {
    EXTENSION_HEADERS
}
