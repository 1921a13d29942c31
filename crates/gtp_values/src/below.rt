//! Small numbers, as parts of an octet hold them.

ghost use Rattle.std.specs.Prelude.{◌≡◌, ◌<◌, ◌↔◌, IsOk, IfOk, IfErr, Some, decimal};
ghost use Rattle.gtp_values.specs.declared.fault.ValueFault.TheVariants.{OutOfRange};

use crate::fault::ValueFault;
use std::fmt;
use std::marker::Model;

/// A number below `N`. Contracts see the number.
#[derive(Clone, Copy, Debug, PartialEq, Eq, PartialOrd, Ord)]
pub struct Below<const N: u8> {
    number: u8,
}

impl<const N: u8> Model for Below<N> {
    ghost use Rattle.std.specs.Prelude.{ℕ, ◌<◌};

    ghost Value = { ℕ };

    ghost view = { λ a. a.number };

    ghost invariant = { λ a. a.number < N };

    ghost inverse = { λ n. record { number = n } };
}

impl<const N: u8> Below<N> {
    /// The number, where it is known to be small enough.
    pub fn new(number: u8) -> Below<N>
        requires { number < N }
        ensures { result ≡ number }
    {
        Below { number }
    }

    /// The number, `OutOfRange` from `N` on.
    pub fn try_new(number: u8) -> Result<Below<N>, ValueFault>
        ensures ok { IsOk result ↔ (number < N) }
        ensures value { IfOk result (λ small. small ≡ number) }
        ensures fault { IfErr result (λ f. f ≡ OutOfRange) }
    {
        if number < N {
            Ok(Below { number })
        } else {
            Err(ValueFault::OutOfRange)
        }
    }

    /// The number, below `N`.
    pub fn number(self) -> u8
        ensures value { result ≡ self.entry }
        ensures small { result < N }
    {
        self.number
    }
}

/// The number in decimal.
impl<const N: u8> fmt::Display for Below<N> {
    ghost output = { λ small. Some (decimal small) };

    fn fmt<W: fmt::Write>(&self, f: &mut fmt::Formatter<W>) -> fmt::Result {
        let number = self.number;
        write!(f, "{number}")
    }
}
