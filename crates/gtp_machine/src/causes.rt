//! Cause values (TS 29.274, table 8.4-1) that the gateways send, or look at in what they receive.

pub const REQUEST_ACCEPTED: u8 = 16;

pub const REQUEST_ACCEPTED_PARTIALLY: u8 = 17;

pub const NEW_PDN_TYPE_DUE_TO_NETWORK_PREFERENCE: u8 = 18;

pub const CONTEXT_NOT_FOUND: u8 = 64;

pub const INVALID_LENGTH: u8 = 67;

pub const MANDATORY_IE_INCORRECT: u8 = 69;

pub const MANDATORY_IE_MISSING: u8 = 70;

pub const NO_RESOURCES_AVAILABLE: u8 = 73;

pub const MISSING_OR_UNKNOWN_APN: u8 = 78;

pub const PREFERRED_PDN_TYPE_NOT_SUPPORTED: u8 = 83;

pub const ALL_DYNAMIC_ADDRESSES_ARE_OCCUPIED: u8 = 84;

pub const REQUEST_REJECTED: u8 = 94;

pub const CONDITIONAL_IE_MISSING: u8 = 103;
