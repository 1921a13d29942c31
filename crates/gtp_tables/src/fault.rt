//! Why a context can't be made or opened.

ghost use Rattle.std.specs.Prelude.{◌≡◌};
ghost use Rattle.gtp_tables.specs.declared.fault.TablesFault.TheVariants.{Memory};

use std::alloc::{AllocError, AllocFailed};
use thiserror::Error;

/// Why a context can't be made or opened.
#[derive(Clone, Copy, Debug, PartialEq, Eq, Error)]
pub enum TablesFault {
    /// S1: there are 1,000 sessions.
    #[error("there are 1000 sessions")]
    SessionsFull,
    /// S2: the session has bearers under all 11 identities.
    #[error("all 11 identities of the session are in use")]
    NoBearerIdentity,
    /// S3: sessions have all addresses of each IP version that is asked for.
    #[error("all addresses of the requested versions are in use")]
    PoolEmpty,
    /// S4: all 16,777,215 TEIDs of this start were drawn.
    #[error("all TEIDs of this start were drawn")]
    TeidsUsed,
    /// S5: an allocation was refused.
    #[error("no memory")]
    Memory,
}

impl From<AllocError> for TablesFault {
    ghost from_gives = { λ _ e. e ≡ Memory };

    fn from(_e: AllocError) -> TablesFault {
        TablesFault::Memory
    }
}

impl<T: Drop> From<AllocFailed<T>> for TablesFault {
    ghost from_gives = { λ _ e. e ≡ Memory };

    fn from(_e: AllocFailed<T>) -> TablesFault {
        TablesFault::Memory
    }
}
