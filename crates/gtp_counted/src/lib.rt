//! Readers and writers whose failed calls are counted.
#![tactic(auto)]

mod counted;
mod line;
mod reading;
mod writing;

pub use counted::{Counted, Failed};
pub use line::UnreadLine;
pub use reading::Unread;
