//! What is handed on, and to whom.

ghost use Rattle.std.specs.Prelude.{OnOk, OnErr};
ghost use Rattle.gtp_capture.specs.Seen.{Seen, seen_of};

use crate::head::Unit;
use crate::packet::Packet;

/// When a frame was captured: seconds since 1970, and a fraction in its unit.
#[derive(Clone, Copy, Debug, PartialEq, Eq)]
pub struct Time {
    pub seconds: u32,
    pub fraction: u32,
    pub unit: Unit,
}

/// A GTP datagram of a capture.
#[derive(Clone, Copy, Debug, PartialEq, Eq)]
pub struct Captured<'a> {
    /// The number of its frame, counted from 1.
    pub frame: u64,
    pub time: Time,
    pub packet: Packet<'a>,
}

/// A sink did not take a datagram.
#[derive(Clone, Copy, Debug, PartialEq, Eq)]
pub struct Refused;

/// What takes the datagrams of a capture, one after the other.
pub trait Sink {
    /// What it may become when it takes a datagram.
    ghost takes: { Self → Seen → Self → Type 0 };

    /// What it may become when it does not take one.
    ghost refuses: { Self → Seen → Self → Type 0 };

    /// Takes a datagram. After an error no more are handed on.
    fn take(&mut self, captured: &Captured) -> Result<(), Refused>
        ensures ok { OnOk result (takes self.old (seen_of captured.now) self.new) }
        ensures err { OnErr result (refuses self.old (seen_of captured.now) self.new) };
}
