//! Replays: a scenario is read and run, and its report, a diagram as text or as a picture, its JSON or a capture of it is written.
#![tactic(auto)]

mod capturing;
mod drawing;
mod expected;
mod happened;
mod labels;
pub mod laws;
mod picture;
mod replaying;
mod reporting;
mod rows;
mod streams;
mod verdict;

pub use capturing::capture;
pub use drawing::diagram;
pub use picture::svg;
pub use replaying::{Form, replay};
pub use reporting::report;
pub use verdict::{NoCapture, ReplayFault, Verdict};

/// What the signatures and contracts here name of the crates below.
pub use gtp_counted::Counted;
pub use gtp_values::Memory;
pub use gtp_world::{Event, EventOutcome, World};
