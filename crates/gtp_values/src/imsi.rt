//! Subscribers.

ghost use Rattle.std.specs.Prelude.{◌≡◌, ◌<◌, ◌↔◌, length, All, Some, IsOk, IfOk, IsErrOf};
ghost use Rattle.gtp_values.specs.Imsi.{IsImsi, HasImsiLength, ReadsImsi, digits_text};

use crate::fault::ValueFault;
use crate::octets::Octets;
use std::fmt;
use std::marker::Model;
use std::str::FromStr;

/// The international mobile subscriber identity: at most 15 decimal digits (TS 29.274 8.3, TS 23.003
/// 2.2), and at least 6, a choice of this product: three of the country, two of the network and one of
/// the subscriber. Contracts see the list of the digits.
#[derive(Clone, Copy, Debug, PartialEq, Eq)]
pub struct Imsi {
    digits: Octets<15>,
}

impl Model for Imsi {
    ghost use Rattle.std.specs.Prelude.{ℕ, List};

    ghost Value = { List ℕ };

    ghost use Rattle.gtp_values.specs.Imsi.{IsImsi};

    ghost view = { λ a. a.digits };

    ghost invariant = { λ a. IsImsi a.digits };

    ghost inverse = { λ digits. record { digits = digits } };
}

impl Imsi {
    /// The identity with these digits, each 0 to 9: `TooShort` below 6, `TooLong` above 15,
    /// `BadDigit` where one is above 9.
    pub fn try_new(digits: &[u8]) -> Result<Imsi, ValueFault>
        ensures ok { IsOk result ↔ IsImsi digits.now }
        ensures value { IfOk result (λ imsi. imsi ≡ digits.now) }
        ensures short { IsErrOf result ValueFault.TooShort ↔ (length digits.now < 6) }
        ensures long { IsErrOf result ValueFault.TooLong ↔ (15 < length digits.now) }
        ensures digit { IsErrOf result ValueFault.BadDigit
            ↔ (HasImsiLength digits.now × ¬ All (λ digit. digit < 10) digits.now) }
    {
        if digits.len() < 6 {
            return Err(ValueFault::TooShort);
        }
        if digits.len() > 15 {
            return Err(ValueFault::TooLong);
        }
        if !digits.iter().all(|digit| *digit < 10) {
            return Err(ValueFault::BadDigit);
        }
        Ok(Imsi {
            digits: Octets::of(digits),
        })
    }

    /// The identity with these digits: 6 to 15, each 0 to 9.
    pub fn of(digits: Octets<15>) -> Imsi
        requires { IsImsi digits }
        ensures { result ≡ digits }
    {
        Imsi { digits }
    }

    /// The identity that a text of decimal digits says: `TooShort` below 6 octets, `TooLong` above
    /// 15, `BadDigit` where one isn't a digit.
    pub fn from_text(text: &str) -> Result<Imsi, ValueFault>
        ensures { ReadsImsi text.now result }
    {
        let octets = text.as_bytes();
        if octets.len() < 6 {
            return Err(ValueFault::TooShort);
        }
        if octets.len() > 15 {
            return Err(ValueFault::TooLong);
        }
        if !octets.iter().all(u8::is_ascii_digit) {
            return Err(ValueFault::BadDigit);
        }
        let mut digits = Octets::new();
        for octet in octets {
            digits.push(*octet - b'0');
        }
        Ok(Imsi { digits })
    }

    /// The digits, each 0 to 9.
    pub fn digits(&self) -> &[u8]
        ensures value { result.now ≡ self.now }
        ensures range { IsImsi self.now }
    {
        self.digits.as_slice()
    }
}

impl fmt::Display for Imsi {
    ghost output = { λ imsi. Some (digits_text imsi) };

    fn fmt<W: fmt::Write>(&self, f: &mut fmt::Formatter<W>) -> fmt::Result {
        for digit in self.digits() {
            write!(f, "{digit}")?;
        }
        Ok(())
    }
}

impl FromStr for Imsi {
    type Err = ValueFault;

    ghost from_str_gives = { ReadsImsi };

    fn from_str(text: &str) -> Result<Imsi, ValueFault> {
        Imsi::from_text(text)
    }
}
