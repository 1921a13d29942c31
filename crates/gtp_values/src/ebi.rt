//! Identities of bearers.

ghost use Rattle.std.specs.Prelude.{◌≡◌, ◌↔◌, IsOk, IfOk, IfErr};
ghost use Rattle.gtp_values.specs.declared.fault.ValueFault.TheVariants.{OutOfRange};
ghost use Rattle.gtp_values.specs.Ebi.{IsEbi};

use crate::fault::ValueFault;
use std::marker::Model;

/// The EPS bearer identity of a bearer that stands: 5 to 15 (TS 24.007 11.2.3.1.5; TS 29.274 8.8 has
/// four bits for it). Contracts see the number.
#[derive(Clone, Copy, Debug, PartialEq, Eq, PartialOrd, Ord)]
pub struct Ebi {
    number: u8,
}

impl Model for Ebi {
    ghost use Rattle.std.specs.Prelude.{ℕ};
    ghost use Rattle.gtp_values.specs.Ebi.{IsEbi};

    ghost Value = { ℕ };

    ghost view = { λ a. a.number };

    ghost invariant = { λ a. IsEbi a.number };

    ghost inverse = { λ n. record { number = n } };
}

impl Ebi {
    /// The identity of this number, `OutOfRange` below 5 and above 15.
    pub fn try_new(number: u8) -> Result<Ebi, ValueFault>
        ensures ok { IsOk result ↔ IsEbi number }
        ensures value { IfOk result (λ ebi. ebi ≡ number) }
        ensures fault { IfErr result (λ f. f ≡ OutOfRange) }
    {
        if matches!(number, 5..=15) {
            Ok(Ebi { number })
        } else {
            Err(ValueFault::OutOfRange)
        }
    }

    /// The number, 5 to 15.
    pub fn number(self) -> u8
        ensures value { result ≡ self }
        ensures range { IsEbi result }
    {
        self.number
    }
}
