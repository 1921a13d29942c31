//! Quality of service.

ghost use Rattle.std.specs.Prelude.{◌≡◌, ◌<◌, ◌^◌, ◌↔◌, IsOk, IfOk, IfErr};
ghost use Rattle.gtp_values.specs.declared.fault.ValueFault.TheVariants.{OutOfRange};

use crate::below::Below;
use crate::fault::ValueFault;
use std::marker::Model;

/// The aggregate maximum bit rate of a subscriber at an access point, in kilobits a second
/// (TS 29.274 8.7).
#[derive(Clone, Copy, Debug, PartialEq, Eq)]
pub struct Ambr {
    /// Towards the network, in kilobits a second.
    pub up: u32,
    /// Towards the subscriber, in kilobits a second.
    pub down: u32,
}

/// The quality of service of a bearer (TS 29.274 8.15).
#[derive(Clone, Copy, Debug, PartialEq, Eq)]
pub struct Qos {
    /// The bit of pre-emption capability: set where the bearer may take no resources from others
    /// (TS 29.212 5.3.46).
    pub pci: bool,
    /// The priority level: 1 is the highest, 15 the lowest (TS 29.212 5.3.45).
    pub pl: Below<16>,
    /// The bit of pre-emption vulnerability: set where none may be taken from the bearer
    /// (TS 29.212 5.3.47).
    pub pvi: bool,
    /// The QoS class identifier (TS 23.203 6.1.7).
    pub qci: u8,
    /// Maximum bit rates.
    pub mbr: Rates,
    /// Guaranteed bit rates.
    pub gbr: Rates,
}

/// The bit rates of a bearer in both directions (TS 29.274 8.15).
#[derive(Clone, Copy, Debug, PartialEq, Eq)]
pub struct Rates {
    /// Towards the network.
    pub up: Rate,
    /// Towards the subscriber.
    pub down: Rate,
}

/// A bit rate in kilobits a second, below 2^40, since it has five octets (TS 29.274 8.15). Contracts
/// see the number.
#[derive(Clone, Copy, Debug, PartialEq, Eq)]
pub struct Rate {
    number: u64,
}

impl Model for Rate {
    ghost use Rattle.std.specs.Prelude.{ℕ, ◌<◌, ◌^◌};

    ghost Value = { ℕ };

    ghost view = { λ a. a.number };

    ghost invariant = { λ a. a.number < 2 ^ 40 };

    ghost inverse = { λ n. record { number = n } };
}

impl Rate {
    /// The rate of a number that is known to be small enough.
    pub fn new(number: u64) -> Rate
        requires { number < 2 ^ 40 }
        ensures { result ≡ number }
    {
        Rate { number }
    }

    /// The rate of any number, `OutOfRange` from 2^40 on.
    pub fn try_new(number: u64) -> Result<Rate, ValueFault>
        ensures ok { IsOk result ↔ (number < 2 ^ 40) }
        ensures value { IfOk result (λ rate. rate ≡ number) }
        ensures fault { IfErr result (λ f. f ≡ OutOfRange) }
    {
        if number < 1 << 40 {
            Ok(Rate { number })
        } else {
            Err(ValueFault::OutOfRange)
        }
    }

    /// The number of kilobits a second, below 2^40.
    pub fn number(self) -> u64
        ensures value { result ≡ self }
        ensures small { result < 2 ^ 40 }
    {
        self.number
    }
}
