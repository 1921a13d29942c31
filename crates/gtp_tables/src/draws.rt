//! TEIDs that a gateway draws.

ghost use Rattle.std.specs.Prelude.{◌≡◌, ◌↔◌, ◌+◌, ◌/◌, ◌%◌, ◌<◌, ◌^◌};
ghost use Rattle.std.specs.Prelude.{IsOk, IfOk, IfErr, OnOk, OnErr};
ghost use Rattle.gtp_tables.specs.Drawn.{teid_at, drawn_up_to};
ghost use Rattle.gtp_values.specs.FiniteMap.{Among};
ghost use Rattle.gtp_tables.specs.declared.fault.TablesFault.TheVariants.{TeidsUsed};

use crate::fault::TablesFault;
use gtp_values::{Counter, Teid};
use std::marker::Model;

/// The most TEIDs that are drawn in one start.
const MOST: u32 = 0xff_ffff;

/// TEIDs that are drawn one after the other: the restart counter in the first octet, and a number
/// from 1 to 16,777,215 in the other three. So a TEID of an earlier start isn't drawn again until
/// the counter has turned over, and 0 is never drawn. Contracts see the counter and how many were
/// drawn.
#[derive(Clone, Copy, Debug, PartialEq, Eq)]
pub struct Draws {
    counter: Counter,
    count: u32,
}

impl Model for Draws {
    ghost use Rattle.std.specs.Prelude.{◌<◌, ◌^◌};
    ghost use Rattle.gtp_tables.specs.Drawn.{Drawn};

    ghost Value = { Drawn };

    ghost view = { λ a. record { counter = a.counter.0; count = a.count } };

    ghost invariant = { λ a. (a.counter.0 < 2 ^ 8) × (a.count < 2 ^ 24) };

    ghost inverse = { λ a. record { counter = record { 0 = a.counter }; count = a.count } };
}

impl Draws {
    /// None drawn since the start with this counter.
    pub fn new(counter: Counter) -> Draws
        ensures { result ≡ record { counter = counter.0; count = 0 } }
    {
        Draws { counter, count: 0 }
    }

    /// The restart counter.
    pub fn counter(self) -> Counter
        ensures { result.0 ≡ self.counter }
    {
        self.counter
    }

    /// How many may still be drawn.
    pub fn left(self) -> u32
        ensures { result + self.count ≡ 16777215 }
    {
        MOST - self.count
    }

    /// Draws the next TEID: `TeidsUsed` where none is left. Takes no memory.
    pub fn draw(&mut self) -> Result<Teid, TablesFault>
        ensures ok { IsOk result ↔ (self.old.count < 16777215) }
        ensures value { IfOk result (λ teid.
            teid ≡ teid_at self.old.counter (self.old.count + 1)) }
        ensures counted { IfOk result (λ teid. teid / 2 ^ 24 ≡ self.old.counter) }
        ensures numbered { IfOk result (λ teid. 0 < teid % 2 ^ 24) }
        ensures undrawn { IfOk result (λ teid.
            Among teid (drawn_up_to self.old.counter self.old.count) → ⊥) }
        ensures drawn { OnOk result (self.new ≡ record self.old { count = self.old.count + 1 }) }
        ensures fault { IfErr result (λ fault. fault ≡ TeidsUsed) }
        ensures err { OnErr result (self.new ≡ self.old) }
    {
        if self.count == MOST {
            return Err(TablesFault::TeidsUsed);
        }
        self.count += 1;
        Ok(Teid(u32::from(self.counter.0) << 24 | self.count))
    }
}
