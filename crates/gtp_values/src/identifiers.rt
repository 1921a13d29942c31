//! Numbers that name an end of a tunnel or a request.

ghost use Rattle.std.specs.Prelude.{◌≡◌, ◌<◌, ◌^◌, ◌↔◌, Some, IsOk, IfOk, IfErr};
ghost use Rattle.gtp_values.specs.declared.fault.ValueFault.TheVariants.{OutOfRange};
ghost use Rattle.gtp_values.specs.Teid.{ReadsTeid, teid_text};

use crate::fault::ValueFault;
use crate::hexadecimal::write_digits;
use hex::FromHex;
use std::fmt;
use std::marker::Model;
use std::str::FromStr;

/// A tunnel endpoint identifier: any number of 32 bits (TS 29.274 5.5.1, TS 29.281 5.1). Contracts
/// see the number.
#[derive(Clone, Copy, Debug, PartialEq, Eq, PartialOrd, Ord, Hash)]
pub struct Teid(pub u32);

impl Model for Teid {
    ghost use Rattle.std.specs.Prelude.{ℕ};

    ghost Value = { ℕ };

    ghost view = { λ a. a.0 };

    ghost inverse = { λ n. record { 0 = n } };
}

/// As `from_text`.
impl FromStr for Teid {
    type Err = ValueFault;

    ghost from_str_gives = { ReadsTeid };

    fn from_str(text: &str) -> Result<Teid, ValueFault> {
        Teid::from_text(text)
    }
}

impl Teid {
    /// The identifier that a text of exactly eight hexadecimal digits of either case writes: `TooShort`
    /// below eight octets, `TooLong` above, `BadDigit` where one isn't such a digit.
    pub fn from_text(text: &str) -> Result<Teid, ValueFault>
        ensures { ReadsTeid text.now result }
    {
        if text.len() < 8 {
            return Err(ValueFault::TooShort);
        }
        if text.len() > 8 {
            return Err(ValueFault::TooLong);
        }
        match <[u8; 4] as FromHex>::from_hex(text) {
            Ok(octets) => Ok(Teid(u32::from_be_bytes(octets))),
            Err(_) => Err(ValueFault::BadDigit),
        }
    }
}

/// Eight hexadecimal digits in lower case.
impl fmt::Display for Teid {
    ghost output = { λ teid. Some (teid_text teid) };

    fn fmt<W: fmt::Write>(&self, f: &mut fmt::Formatter<W>) -> fmt::Result {
        let octets = self.0.to_be_bytes();
        write_digits(f, &octets, &mut [0; 8])
    }
}

/// The sequence number of a control message: three octets, 0 to 16,777,215 (TS 29.274 5.5.1).
/// Contracts see the number.
#[derive(Clone, Copy, Debug, PartialEq, Eq, PartialOrd, Ord)]
pub struct Seq {
    number: u32,
}

impl Model for Seq {
    ghost use Rattle.std.specs.Prelude.{ℕ, ◌<◌, ◌^◌};

    ghost Value = { ℕ };

    ghost view = { λ a. a.number };

    ghost invariant = { λ a. a.number < 2 ^ 24 };

    ghost inverse = { λ n. record { number = n } };
}

impl Seq {
    /// The sequence number of a number that is known to be small enough.
    pub fn new(number: u32) -> Seq
        requires { number < 2 ^ 24 }
        ensures { result ≡ number }
    {
        Seq { number }
    }

    /// The sequence number of any number, `OutOfRange` from 16,777,216 on.
    pub fn try_new(number: u32) -> Result<Seq, ValueFault>
        ensures ok { IsOk result ↔ (number < 2 ^ 24) }
        ensures value { IfOk result (λ seq. seq ≡ number) }
        ensures fault { IfErr result (λ f. f ≡ OutOfRange) }
    {
        if number < 1 << 24 {
            Ok(Seq { number })
        } else {
            Err(ValueFault::OutOfRange)
        }
    }

    /// The number, below 16,777,216.
    pub fn number(self) -> u32
        ensures value { result ≡ self }
        ensures small { result < 2 ^ 24 }
    {
        self.number
    }
}
