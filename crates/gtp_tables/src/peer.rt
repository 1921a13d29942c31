//! What is known of the peer.

ghost use Rattle.std.specs.Prelude.{◌≡◌, None, Some, option_map};
ghost use Rattle.gtp_tables.specs.Heard.{heard_as, known_after};

use gtp_values::{Age, Counter};
use std::marker::Model;

/// The peer's latest restart counter, or none until one is heard (TS 29.274 7.1.1, TS 23.007 18).
/// Contracts see the number.
#[derive(Clone, Copy, Debug, PartialEq, Eq)]
pub struct Peer {
    known: Option<Counter>,
}

impl Model for Peer {
    ghost use Rattle.std.specs.Prelude.{ℕ, Option, option_map};

    ghost Value = { Option ℕ };

    ghost view = { λ a. option_map (λ (counter : _). counter.0) a.known };

    ghost inverse = { λ known. record {
      known = option_map (λ number. record { 0 = number }) known;
    } };
}

impl Peer {
    /// No counter was heard.
    pub fn new() -> Peer
        ensures { result ≡ None }
    {
        Peer { known: None }
    }

    /// The latest counter that was heard.
    pub fn known(self) -> Option<Counter>
        ensures { option_map (λ counter. counter.0) result ≡ self }
    {
        self.known
    }

    /// How a counter stands to the one that is known. The first that is heard counts as the same.
    pub fn age(self, counter: Counter) -> Age
        ensures { result ≡ heard_as self counter.0 }
    {
        match self.known {
            Some(known) => known.age(counter),
            None => Age::Same,
        }
    }

    /// Hears a counter: it is the latest from now on, unless it is an earlier one.
    pub fn hear(&mut self, counter: Counter) -> Age
        ensures age { result ≡ heard_as self.old counter.0 }
        ensures known { self.new ≡ known_after self.old counter.0 }
    {
        let age = self.age(counter);
        if age != Age::Earlier {
            self.known = Some(counter);
        }
        age
    }
}
