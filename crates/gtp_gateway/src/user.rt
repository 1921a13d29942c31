//! The user plane (TS 29.281).

pub mod error_indication;
pub mod receive;
pub mod reply;
pub mod send;
