//! A run as JSON, an object a line (RFC 8259): each event, and then what stands at the end.
#![tactic(auto)]

mod contexts;
mod ending;
mod happened;
mod members;
mod run;
mod verdicts;

pub use run::run_json;

/// Writers of what one gateway tells, for other lines that tell it too.
pub use contexts::{put_bearers_of, put_sessions_of};
pub use happened::{put_came, put_forgot, put_gave_up, put_learned, put_second};
pub use members::put_teid;

/// What the signatures here name of the crates below.
pub use gtp_values::Memory;
pub use gtp_world::{Event, World};
