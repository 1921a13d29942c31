//! A gateway that speaks with many peers: one gateway for each peer, under one pair of own addresses.
#![tactic(auto)]

pub mod laws;
mod node;
mod places;

pub use node::{Node, Routed};
pub use places::Places;

/// What the signatures here name of the crates below.
pub use gtp_gateway::{Config, Gateway, Role, Step};
pub use gtp_values::{Counter, Endpoint, Ip, Memory, Plane};
