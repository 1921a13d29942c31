//! The result of a replay.

ghost use Rattle.std.specs.Prelude.{◌≡◌};
ghost use Rattle.gtp_replay.specs.Faults.{fault_by};
ghost use Rattle.gtp_replay.specs.declared.verdict.NoCapture.TheVariants as none;
ghost use Rattle.gtp_replay.specs.declared.verdict.ReplayFault.TheVariants as faults;

use gtp_values::Memory as NoMemory;
use std::alloc::{AllocError, AllocFailed};
use thiserror::Error;

/// The result of a replay that was written completely.
#[derive(Clone, Copy, Debug, PartialEq, Eq)]
pub enum Verdict {
    /// Each event had the outcome that its entry expects; without an expected one, no event was refused (G), dropped
    /// (X) or impossible (N).
    Expected,
    /// Some event did not; the number of the first one, from 0.
    Unexpected { event: usize },
    /// The octets that were read are not a scenario.
    Bad,
}

/// Why a run has no capture.
#[derive(Clone, Copy, Debug, PartialEq, Eq, Error)]
pub enum NoCapture {
    /// An allocation was refused.
    #[error("no memory")]
    Memory,
    /// No packet carries the datagram with this number, the first of such.
    #[error("no packet for datagram {number}")]
    NoPacket { number: usize },
}

impl From<AllocError> for NoCapture {
    ghost from_gives = { λ _ e. e ≡ none.Memory };

    fn from(_e: AllocError) -> NoCapture {
        NoCapture::Memory
    }
}

/// Why a replay was not written completely.
#[derive(Clone, Copy, Debug, PartialEq, Eq, Error)]
pub enum ReplayFault {
    /// An allocation was refused.
    #[error("no memory")]
    Memory,
    /// A call of the reader failed.
    #[error("read failed")]
    Read,
    /// A call of the writer failed.
    #[error("write failed")]
    Write,
    /// A capture is wanted, and no packet carries the datagram with this number, the first of such.
    #[error("no packet for datagram {number}")]
    NoPacket { number: usize },
}

impl From<NoCapture> for ReplayFault {
    ghost from_gives = { λ lacks e. e ≡ fault_by lacks };

    fn from(lacks: NoCapture) -> ReplayFault {
        match lacks {
            NoCapture::Memory => ReplayFault::Memory,
            NoCapture::NoPacket { number } => ReplayFault::NoPacket { number },
        }
    }
}

impl From<AllocError> for ReplayFault {
    ghost from_gives = { λ _ e. e ≡ faults.Memory };

    fn from(_e: AllocError) -> ReplayFault {
        ReplayFault::Memory
    }
}

impl<T: Drop> From<AllocFailed<T>> for ReplayFault {
    ghost from_gives = { λ _ e. e ≡ faults.Memory };

    fn from(_e: AllocFailed<T>) -> ReplayFault {
        ReplayFault::Memory
    }
}

impl From<NoMemory> for ReplayFault {
    ghost from_gives = { λ _ e. e ≡ faults.Memory };

    fn from(_e: NoMemory) -> ReplayFault {
        ReplayFault::Memory
    }
}
