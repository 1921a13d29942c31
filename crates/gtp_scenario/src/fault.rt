//! Errors of scenarios.

ghost use Rattle.std.specs.Prelude.{◌≡◌};
ghost use Rattle.gtp_scenario.specs.declared.fault.Fault.TheVariants as fault;
ghost use Rattle.gtp_scenario.specs.declared.fault.ReadFault.TheVariants as read_fault;
ghost use Rattle.gtp_scenario.specs.Steps.{fault_for, refused_for};

use std::alloc::{AllocError, AllocFailed};
use thiserror::Error;

/// Why a part could not be read.
#[derive(Clone, Copy)]
pub enum Fault {
    Memory,
    /// It is not what a scenario has there.
    Wrong,
}

impl From<AllocError> for Fault {
    ghost from_gives = { λ _ e. e ≡ fault.Memory };

    fn from(_e: AllocError) -> Fault {
        Fault::Memory
    }
}

impl<T: Drop> From<AllocFailed<T>> for Fault {
    ghost from_gives = { λ _ e. e ≡ fault.Memory };

    fn from(_e: AllocFailed<T>) -> Fault {
        Fault::Memory
    }
}

impl From<json::Error> for Fault {
    ghost from_gives = { λ error e. e ≡ fault_for error };

    fn from(error: json::Error) -> Fault {
        match error {
            json::Error::OutOfMemory => Fault::Memory,
            _ => Fault::Wrong,
        }
    }
}

impl Fault {
    /// The fault of a scenario that is refused so where a part of it is wrong.
    pub(crate) fn refused(self, refusal: Refusal) -> ReadFault
        ensures { result ≡ refused_for refusal self }
    {
        match self {
            Fault::Memory => ReadFault::Memory,
            Fault::Wrong => ReadFault::Refused(refusal),
        }
    }
}

/// Why octets are not a scenario: the first of these, in this order, that applies.
#[derive(Clone, Copy, Debug, PartialEq, Eq, Error)]
pub enum Refusal {
    /// They are more than 16,777,216 octets, or not JSON (RFC 8259).
    #[error("bad json")]
    Json,
    /// A key beside `events` is missing, unknown or has a bad value, or `events` is not a list.
    #[error("bad scenario head")]
    Head,
    /// The entry of `events` at this place, counted from 0, is bad, or is the first one past 100,000 events.
    #[error("bad scenario event {0}")]
    Event(usize),
}

/// Why a scenario was not read.
#[derive(Clone, Copy, Debug, PartialEq, Eq, Error)]
pub enum ReadFault {
    /// An allocation was refused.
    #[error("no memory")]
    Memory,
    #[error(transparent)]
    Refused(Refusal),
}

impl From<AllocError> for ReadFault {
    ghost from_gives = { λ _ e. e ≡ read_fault.Memory };

    fn from(_e: AllocError) -> ReadFault {
        ReadFault::Memory
    }
}

impl<T: Drop> From<AllocFailed<T>> for ReadFault {
    ghost from_gives = { λ _ e. e ≡ read_fault.Memory };

    fn from(_e: AllocFailed<T>) -> ReadFault {
        ReadFault::Memory
    }
}
