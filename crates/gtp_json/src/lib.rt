//! A GTP datagram as one JSON object on one line (RFC 8259): what `gtp_lines` shows as lines, for programs.
#![tactic(auto)]

mod all;
mod control;
mod datagram;
mod frames;
pub mod laws;
mod named;
mod object;
mod places;
mod user;
mod values;

pub use datagram::{Members, datagram_json};
pub use frames::{frame_json, put_end};
pub use named::element_json;
pub use object::Output;

/// What the signatures here name of the crates below.
pub use gtp_capture::Captured;
pub use gtp_interfaces::Interface;
pub use gtp_lines::Shown;
pub use gtp_values::{Memory, Plane};
