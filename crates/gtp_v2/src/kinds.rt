//! The types of messages that have a table (TS 29.274 table 6.1-1).

pub const ECHO_REQUEST: u8 = 1;

pub const ECHO_RESPONSE: u8 = 2;

pub const VERSION_NOT_SUPPORTED: u8 = 3;

pub const CREATE_SESSION_REQUEST: u8 = 32;

pub const CREATE_SESSION_RESPONSE: u8 = 33;

pub const DELETE_SESSION_REQUEST: u8 = 36;

pub const DELETE_SESSION_RESPONSE: u8 = 37;

pub const CREATE_BEARER_REQUEST: u8 = 95;

pub const CREATE_BEARER_RESPONSE: u8 = 96;

pub const DELETE_BEARER_REQUEST: u8 = 99;

pub const DELETE_BEARER_RESPONSE: u8 = 100;
