//! The active session that a command is about.

ghost use Rattle.std.specs.Prelude.{IfOk, IfErr};
ghost use Rattle.gtp_gateway.specs.command.Command.{IsActiveSession, IsRefusedFirst};
ghost use Rattle.gtp_gateway.specs.GatewayState.{state_of};

use crate::fault::CommandFault;
use crate::parts::Parts;
use gtp_machine::{Refusal, Role};
use gtp_tables::Session;
use gtp_values::Teid;

impl Parts {
    /// The active session under a TEID, at the gateway that the command is for.
    pub fn active_session(&self, only: Role, session: Teid) -> Result<Session, CommandFault>
        ensures active { IfOk result (λ at.
            IsActiveSession only (state_of self.now) session at) }
        ensures refused { IfErr result (λ fault.
            IsRefusedFirst only (state_of self.now) session fault) }
    {
        if self.role != only {
            return Err(CommandFault::Refused(Refusal::WrongRole));
        }
        let Some(at) = self.sessions.get(session) else {
            return Err(CommandFault::Refused(Refusal::NoSuchContext));
        };
        if !at.is_active() {
            return Err(CommandFault::Refused(Refusal::NotActive));
        }
        Ok(at)
    }
}
