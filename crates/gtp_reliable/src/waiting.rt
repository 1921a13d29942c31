//! One request that waits for its answer.

ghost use Rattle.std.specs.Fn.{FnReturnsAt};

use gtp_values::{Endpoint, Seq};
use std::marker::Model;

/// What a tick does with a request.
#[derive(Clone, Copy, Debug, PartialEq, Eq)]
pub enum NextTick {
    WaitsOn,
    SentAgain,
    GivenUp,
}

/// A request that waits for its answer.
#[derive(Debug, Drop)]
pub struct Row<P: Copy> {
    pub seq: Seq,
    pub to: Endpoint,
    pub octets: Vec<u8>,
    pub purpose: P,
    /// The tick in which it was sent last, modulo 2^32.
    pub sent: u32,
    /// How often it was sent again.
    pub resent: u32,
}

impl<P: Copy> Model for Row<P> {
    ghost use Rattle.gtp_reliable.specs.Rows.{Sent};

    ghost Value = { Sent P };

    ghost view = { λ a.
        record {
          seq = a.seq;
          to = a.to;
          octets = a.octets.items;
          purpose = a.purpose;
          sent = a.sent;
          resent = a.resent;
        } };
}

/// Whether a purpose meets a test.
fn meets<P: Copy, F: Fn(&P) -> bool>(purpose: &P, test: &F) -> bool
    requires { F.IsAlwaysCallable test.now }
    ensures { FnReturnsAt F.Fn test.now purpose.now result }
{
    test(purpose)
}

impl<P: Copy> Row<P> {
    ghost use Rattle.std.specs.Prelude.{◌≡◌, ◌≤◌};
    ghost use Rattle.gtp_reliable.specs.Waiting.{next_tick};
    ghost use Rattle.gtp_reliable.specs.Rows.{seen, since};

    /// Whether its purpose meets a test.
    pub fn meets<F: Fn(&P) -> bool>(&self, test: &F) -> bool
        requires { F.IsAlwaysCallable test.now }
        ensures { FnReturnsAt F.Fn test.now self.now.purpose result }
    {
        meets(&self.purpose, test)
    }

    /// The ticks since it was sent last.
    fn waited(&self, now: u32) -> u32
        ensures { result ≡ since self.now.sent now }
    {
        now.wrapping_sub(self.sent)
    }

    /// What the tick after `now` does with it.
    pub fn next_tick(&self, now: u32, t3: u32, n3: u32) -> NextTick
        requires { 1 ≤ t3 }
        ensures { result ≡ next_tick t3 n3 (seen now self.now) }
    {
        if self.waited(now) < t3 - 1 {
            NextTick::WaitsOn
        } else if self.resent < n3 {
            NextTick::SentAgain
        } else {
            NextTick::GivenUp
        }
    }
}
