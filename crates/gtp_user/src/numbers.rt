//! The types of elements (TS 29.281 8.1).

pub const RECOVERY: u8 = 14;

pub const TEID_DATA: u8 = 16;

pub const PEER_ADDRESS: u8 = 133;

pub const EXTENSION_TYPES: u8 = 141;
