//! Interface types of F-TEIDs (TS 29.274, table 8.22-1) that the gateways send.

pub const S5S8_SGW_GTP_U: u8 = 4;

pub const S5S8_PGW_GTP_U: u8 = 5;

pub const S5S8_SGW_GTP_C: u8 = 6;

pub const S5S8_PGW_GTP_C: u8 = 7;
