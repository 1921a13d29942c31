//! The octets before a message's elements.

ghost use Rattle.std.specs.Prelude.{◌+◌, ◌<◌, ◌^◌, length};
ghost use Rattle.gtp_v2.specs.Priority.{PriorityNeedsTeid};

use gtp_values::{Below, Seq, Teid};

mod reading;
mod writing;

pub use reading::read_header;
pub use writing::write_header;

/// What the octets before the elements say, and the octets after them.
#[derive(Clone, Copy, Debug)]
pub struct Header<'a> {
    pub kind: u8,
    pub teid: Option<Teid>,
    pub seq: Seq,
    pub priority: Option<Below<16>>,
    pub rest: &'a [u8],
    /// The place of the rest in the message.
    pub at: usize,
    pub ghost fits: { at + length rest.now < 2 ^ 64 },
    /// Two octets state the length of all after the first four.
    pub ghost stated: { length rest.now < 2 ^ 16 },
    /// A priority stands beside a TEID alone.
    pub ghost ranked: { PriorityNeedsTeid teid priority },
}
