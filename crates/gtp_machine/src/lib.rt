//! Two gateways as a machine, and what holds of each run.
#![tactic(auto)]

pub mod causes;
pub mod interface_types;
pub mod laws;
mod message_type;
mod outcome;
mod role;
mod switches;

pub use message_type::MessageType;
pub use outcome::{DropReason, FaultName, Outcome, Refusal};
pub use role::Role;
pub use switches::Switches;

/// What these name of the crates below.
pub use gtp_values::Plane;
