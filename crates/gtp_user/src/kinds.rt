//! The types of messages that are read (TS 29.281 table 6.1-1).

pub const ECHO_REQUEST: u8 = 1;

pub const ECHO_RESPONSE: u8 = 2;

pub const ERROR_INDICATION: u8 = 26;

pub const SUPPORTED_EXTENSION_HEADERS_NOTIFICATION: u8 = 31;

pub const END_MARKER: u8 = 254;

pub const G_PDU: u8 = 255;
