//! Reliable delivery of control messages (TS 29.274 7.6): which requests wait for an answer, when
//! they are sent again and given up, and which answers are held for requests that come again.
#![tactic(auto)]

mod fault;
mod held;
mod held_answer;
pub mod laws;
mod numbered;
mod pending;
mod queue;
mod rows;
mod waiting;

pub use fault::ReliableFault;
pub use held::{Held, Request};
pub use pending::{Due, Pending, Resend};

/// What the signatures and contracts here name of the crate below.
pub use gtp_values::{Endpoint, Seq};
