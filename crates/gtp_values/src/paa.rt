//! Allocations of addresses.

ghost use Rattle.std.specs.Prelude.{◌≡◌, ◌↔◌, IsOk, IfOk, IfErr};
ghost use Rattle.gtp_values.specs.declared.fault.ValueFault.TheVariants.{OutOfRange};
ghost use Rattle.gtp_values.specs.Paa.{IsOtherPdnType};
ghost use Rattle.gtp_values.specs.PdnAddress.{address_in};

use crate::addr::Addr;
use crate::fault::ValueFault;
use std::marker::Model;

/// A PDN address allocation (TS 29.274 8.14).
#[derive(Clone, Copy, Debug, PartialEq, Eq)]
pub enum Paa {
    /// PDN type 1: an address of IP version 4.
    V4([u8; 4]),
    /// PDN type 2: a prefix length and an address of IP version 6.
    V6 {
        /// The length of the prefix in bits, as it was sent.
        prefix: u8,
        address: [u8; 16],
    },
    /// PDN type 3: both.
    V4V6 {
        /// The length of the IPv6 prefix in bits, as it was sent.
        prefix: u8,
        v6: [u8; 16],
        v4: [u8; 4],
    },
    /// Another PDN type, after which nothing is read.
    Other(OtherPdnType),
}

impl Paa {
    /// The address that it says, whatever the length of its prefix.
    pub fn address(self) -> Option<Addr>
        ensures { result ≡ address_in self }
    {
        match self {
            Paa::V4(v4) => Some(Addr::of(Some(v4), None)),
            Paa::V6 { address, .. } => Some(Addr::of(None, Some(address))),
            Paa::V4V6 { v6, v4, .. } => Some(Addr::of(Some(v4), Some(v6))),
            Paa::Other(_) => None,
        }
    }
}

/// A PDN type that is none of IPv4, IPv6 and IPv4v6: 0 or 4 to 7 (TS 29.274 8.14). Contracts see the
/// number.
#[derive(Clone, Copy, Debug, PartialEq, Eq)]
pub struct OtherPdnType {
    number: u8,
}

impl Model for OtherPdnType {
    ghost use Rattle.std.specs.Prelude.{ℕ};
    ghost use Rattle.gtp_values.specs.Paa.{IsOtherPdnType};

    ghost Value = { ℕ };

    ghost view = { λ a. a.number };

    ghost invariant = { λ a. IsOtherPdnType a.number };

    ghost inverse = { λ n. record { number = n } };
}

impl OtherPdnType {
    /// The type of this number, `OutOfRange` for 1 to 3 and above 7.
    pub fn try_new(number: u8) -> Result<OtherPdnType, ValueFault>
        ensures ok { IsOk result ↔ IsOtherPdnType number }
        ensures value { IfOk result (λ other. other ≡ number) }
        ensures fault { IfErr result (λ f. f ≡ OutOfRange) }
    {
        match number {
            0 | 4..=7 => Ok(OtherPdnType::of(number)),
            _ => Err(ValueFault::OutOfRange),
        }
    }

    /// The type of this number, 0 or 4 to 7.
    pub fn of(number: u8) -> OtherPdnType
        requires { IsOtherPdnType number }
        ensures { result ≡ number }
    {
        OtherPdnType { number }
    }

    /// The number, 0 or 4 to 7.
    pub fn number(self) -> u8
        ensures value { result ≡ self }
        ensures range { IsOtherPdnType result }
    {
        self.number
    }
}
