//! The lines that show a GTP datagram: its message with each element in order, or its first fault; or all that can be shown
//! of it, and then its fault. Of a datagram of a capture also frame, time and ends; or all in one line.
#![tactic(auto)]

mod all;
mod brief;
mod complete_elements;
mod contexts;
mod control;
mod elsewhere;
mod extension_front;
mod filter;
mod frames;
mod header;
pub mod laws;
mod lines;
mod named;
pub mod text;
mod type_text;
mod user;
mod user_header;
mod values;
mod words;

pub use all::all_lines;
pub use control::message_name;
pub use elsewhere::is_elsewhere;
pub use filter::{Filter, Kinds};
pub use frames::{Form, frame_lines, is_whole, second_in, width_of};
pub use lines::{Shown, decode_lines};
pub use named::element_lines;
pub use type_text::{TypeOf, type_lines};

/// What is there of a datagram at fault: headers, whatever length they state, and the whole elements or extension headers behind them.
pub use complete_elements::front_elements;
pub use extension_front::{ChainFront, chain_at, chain_front};
pub use header::{Header, head_at, pair_at};
pub use user_header::{UserHeader, user_head_at};

/// The pieces of these lines, for other lines.
pub use contexts::fault_context;
pub use control::{put_fault_line, put_some_teid};
pub use named::{group_name, is_named, name_in};
pub use user::{body_name, put_some, put_target, put_user_fault_line, user_name};
pub use values::put_field;
pub use words::form_word;

/// What the signatures here name of the crates below.
pub use gtp_capture::{Captured, Packet};
pub use gtp_ie::{ElementView, Imsi, Teid};
pub use gtp_interfaces::Interface;
pub use gtp_names::Names;
pub use gtp_values::{Ip, Memory, Plane};
