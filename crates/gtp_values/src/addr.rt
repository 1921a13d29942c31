//! The address of a subscriber.

ghost use Rattle.std.specs.Prelude.{◌≡◌, ◌↔◌, ◌||◌, IsTrue, IsOk, IfOk, IfErr, Some, is_some};
ghost use Rattle.gtp_values.specs.declared.fault.ValueFault.TheVariants.{OutOfRange};
ghost use Rattle.gtp_values.specs.PdnAddress.{IsPdnAddress, allocation, address_text};

use crate::address::Ip;
use crate::fault::ValueFault;
use crate::paa::Paa;
use std::fmt;
use std::marker::Model;

/// The address that a session has: of IP version 4, of version 6, or one of each (TS 23.401 5.3.1.1).
/// Contracts see it as a `PdnAddress`.
#[derive(Clone, Copy, Debug, PartialEq, Eq)]
pub struct Addr {
    v4: Option<[u8; 4]>,
    v6: Option<[u8; 16]>,
}

impl Model for Addr {
    ghost use Rattle.gtp_values.specs.PdnAddress.{PdnAddress, IsPdnAddress};

    ghost Value = { PdnAddress };

    ghost view = { λ a. record { v4 = a.v4; v6 = a.v6 } };

    ghost invariant = { λ a. IsPdnAddress (record { v4 = a.v4; v6 = a.v6 }) };

    ghost inverse = { λ a. record { v4 = a.v4; v6 = a.v6 } };
}

impl Addr {
    /// The address of these parts, `OutOfRange` where there is none.
    pub fn try_new(v4: Option<[u8; 4]>, v6: Option<[u8; 16]>) -> Result<Addr, ValueFault>
        ensures ok { IsOk result ↔ IsTrue (is_some v4 || is_some v6) }
        ensures value { IfOk result (λ address. address ≡ record { v4 = v4; v6 = v6 }) }
        ensures fault { IfErr result (λ f. f ≡ OutOfRange) }
    {
        if v4.is_none() && v6.is_none() {
            return Err(ValueFault::OutOfRange);
        }
        Ok(Addr::of(v4, v6))
    }

    /// The address of these parts, of which one is there.
    pub fn of(v4: Option<[u8; 4]>, v6: Option<[u8; 16]>) -> Addr
        requires { IsTrue (is_some v4 || is_some v6) }
        ensures { result ≡ record { v4 = v4; v6 = v6 } }
    {
        Addr { v4, v6 }
    }

    /// The part of version 4, where there is one.
    pub fn v4(&self) -> Option<[u8; 4]>
        ensures { result ≡ self.now.v4 }
    {
        self.v4
    }

    /// The part of version 6, where there is one.
    pub fn v6(&self) -> Option<[u8; 16]>
        ensures value { result ≡ self.now.v6 }
        ensures range { IsPdnAddress self.now }
    {
        self.v6
    }

    /// The allocation of this address, its part of version 6 under a prefix of this length.
    pub fn allocated(&self, prefix: u8) -> Paa
        ensures { result ≡ allocation prefix self.now }
    {
        match (self.v4, self.v6) {
            (Some(v4), None) => Paa::V4(v4),
            (None, Some(address)) => Paa::V6 { prefix, address },
            (Some(v4), Some(v6)) => Paa::V4V6 { prefix, v6, v4 },
            (None, None) => unreachable!(),
        }
    }
}

/// As its parts: dotted decimal, 32 hexadecimal digits, or both with a plus between them.
impl fmt::Display for Addr {
    ghost output = { λ address. Some (address_text address) };

    fn fmt<W: fmt::Write>(&self, f: &mut fmt::Formatter<W>) -> fmt::Result {
        match (self.v4, self.v6) {
            (Some(v4), None) => f.write(Ip::V4(v4)),
            (None, Some(v6)) => f.write(Ip::V6(v6)),
            (Some(v4), Some(v6)) => write!(f, "{}+{}", Ip::V4(v4), Ip::V6(v6)),
            (None, None) => unreachable!(),
        }
    }
}
