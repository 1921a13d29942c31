//! Datagrams of either plane judged by the rules of an interface.
#![tactic(auto)]

mod any;
mod extension_types;
mod interface;
mod judging;
mod s11;

pub use any::ANY;
pub use extension_types::UNDERSTOOD;
pub use interface::Interface;
pub use judging::{judge_control, judge_user};
pub use s11::S11;
