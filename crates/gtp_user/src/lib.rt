//! GTP-U, the user plane of TS 29.281: a datagram is decoded or viewed in place, without memory, and a
//! message is written in its canonical encoding.
#![tactic(auto)]

mod body;
mod decoding;
mod element;
mod encoding;
mod extension;
mod fault;
pub mod flags;
mod front;
mod header;
mod judging;
pub mod kinds;
pub mod laws;
mod message;
mod numbers;
mod viewing;

pub use decoding::decode;
pub use encoding::encode;
pub use extension::{ExtensionHeader, ExtensionHeaders, Extensions};
pub use fault::UserFault;
pub use judging::judge;
pub use message::{UserBody, UserMessage};
pub use viewing::{UserView, view};

/// What the signatures and contracts here name of the crate below.
pub use gtp_values::{Ip, Teid};
