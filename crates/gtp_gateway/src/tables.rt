//! Changes of sessions, bearers and TEIDs that several procedures share.

pub mod change;
pub mod contexts;
pub mod opening;
pub mod removal;
pub mod teids;
