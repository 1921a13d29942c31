//! Errors of commands.

ghost use Rattle.std.specs.Prelude.{◌≡◌};
ghost use Rattle.gtp_gateway.specs.declared.fault.CommandFault.TheVariants as faults;

use gtp_machine::Refusal;
use std::alloc::AllocError;
use thiserror::Error;

/// Why a command was not carried out. After an error the gateway is as before.
#[derive(Clone, Copy, Debug, PartialEq, Eq, Error)]
pub enum CommandFault {
    /// A rule of the gateway forbids it.
    #[error("{0}")]
    Refused(Refusal),
    /// G6: an allocation was refused.
    #[error("no memory")]
    Memory,
}

impl From<gtp_values::Memory> for CommandFault {
    ghost from_gives = { λ _ e. e ≡ faults.Memory };

    fn from(_e: gtp_values::Memory) -> CommandFault {
        CommandFault::Memory
    }
}

impl From<AllocError> for CommandFault {
    ghost from_gives = { λ _ e. e ≡ faults.Memory };

    fn from(_e: AllocError) -> CommandFault {
        CommandFault::Memory
    }
}
