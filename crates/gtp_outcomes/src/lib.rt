//! The words and codes by which runs are told, and what two ways of telling them share.
#![tactic(auto)]

mod outcome;
mod states;

pub use outcome::{
    drop_word, first_word, is_refused, limit_word, outcome_word, plane_letter, plane_word,
    put_detail, put_outcome_detail, refusal_word,
};
pub use states::state_word;

/// What the signatures and contracts here name of the crates below.
pub use gtp_gateway::{DropReason, Outcome, Refusal, State};
pub use gtp_values::Plane;
pub use gtp_world::EventOutcome;
