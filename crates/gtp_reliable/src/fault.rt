//! Errors of reliable delivery.

ghost use Rattle.std.specs.Prelude.{◌≡◌};
ghost use Rattle.gtp_reliable.specs.declared.fault.ReliableFault.TheVariants.{Memory};

use std::alloc::{AllocError, AllocFailed};
use thiserror::Error;

/// Why a request cannot be begun or an answer cannot be held. After an error all is as before.
#[derive(Clone, Copy, Debug, PartialEq, Eq, Error)]
pub enum ReliableFault {
    /// B1: 256 requests are pending.
    #[error("256 requests are pending")]
    PendingFull,
    /// B2: 4,096 answers are held.
    #[error("4096 answers are held")]
    HeldFull,
    /// B3: an allocation was refused.
    #[error("no memory")]
    Memory,
}

impl From<AllocError> for ReliableFault {
    ghost from_gives = { λ _ e. e ≡ Memory };

    fn from(_e: AllocError) -> ReliableFault {
        ReliableFault::Memory
    }
}

impl<T: Drop> From<AllocFailed<T>> for ReliableFault {
    ghost from_gives = { λ _ e. e ≡ Memory };

    fn from(_e: AllocFailed<T>) -> ReliableFault {
        ReliableFault::Memory
    }
}
