//! The command that deletes a dedicated bearer (TS 29.274 7.2.9.2).

ghost use Rattle.std.specs.Prelude.{◌≡◌, IfSome, IfNone, IfOk, OnErr};
ghost use Rattle.gtp_machine.specs.Command.{NamesBearer};
ghost use Rattle.gtp_gateway.specs.command.DeleteBearer.{IsDedicated, request_to_delete_bearer};
ghost use Rattle.gtp_gateway.specs.Parts.{node_of};
ghost use Rattle.gtp_machine.specs.Input.{Delete_bearer};
ghost use Rattle.gtp_gateway.specs.command.Command.{IsCarriedOut, IsRefusedWhere, SendsRequestNext};
ghost use Rattle.gtp_gateway.specs.command.Request.{request_by, CanBeSent};
ghost use Rattle.gtp_gateway.specs.GatewayState.{IsSoundState, state_of};

use crate::command::purpose::{Asked, Purpose};
use crate::command::request::RequestToSend;
use crate::fault::CommandFault;
use crate::messages::delete_bearer::delete_bearer_request;
use crate::messages::elements::{is_there, written_teid};
use crate::parts::Parts;
use crate::sent::Begun;
use crate::tables::change::Change;
use crate::tables::contexts::{are_active, closing};
use gtp_machine::{Refusal, Role};
use gtp_tables::{Bearer, Session};
use gtp_values::{Ebi, Memory, Seq, Teid};
use std::alloc::Global;

/// A dedicated bearer, under the gateway's own user plane TEID.
#[derive(Clone, Copy)]
pub struct Dedicated {
    pub teid: Teid,
    pub bearer: Bearer,
}

/// The Delete Bearer Request for a dedicated bearer, with this number: the bearer is closing from then on.
fn request_to_delete_bearer(
    alloc: Global,
    named: &Dedicated,
    session: Teid,
    at: &Session,
    identity: Ebi,
    seq: Seq,
) -> Result<RequestToSend, Memory>
    ensures says { IfOk result (λ request. request_by request
        ≡ request_to_delete_bearer named.now session at.now identity seq) }
    ensures ready { IfOk result (CanBeSent seq) }
{
    let header = written_teid(at.remote);
    Ok(RequestToSend {
        purpose: Purpose {
            asked: Asked::DeleteBearer,
            session: Some(session),
            bearer: Some(named.teid),
            is_named: is_there(header),
        },
        change: Change::Replaces {
            teid: named.teid,
            bearer: closing(&named.bearer),
        },
        teid: Some(named.teid),
        message: delete_bearer_request(alloc, header, seq, identity)?,
    })
}

impl Parts {
    /// The session's dedicated bearer with this identity.
    pub fn dedicated(&self, session: Teid, identity: Ebi) -> Option<Dedicated>
        requires whole { IsSoundState (state_of self.now) }
        ensures some { IfSome result (IsDedicated (node_of self.now) session identity) }
        ensures none { IfNone result (NamesBearer (node_of self.now) session identity → ⊥) }
    {
        let teid = self.bearers.with_identity(session, identity)?;
        let bearer = self.bearers.get(teid)?;
        if !bearer.is_dedicated() {
            return None;
        }
        Some(Dedicated { teid, bearer })
    }

    /// Ends an active dedicated bearer of an active session, at the packet gateway.
    pub fn delete_bearer(
        &mut self,
        alloc: Global,
        session: Teid,
        identity: Ebi,
    ) -> Result<Begun, CommandFault>
        requires whole { IsSoundState (state_of self.old) }
        ensures done { IfOk result (λ begun. IsCarriedOut (Delete_bearer session identity)
            (state_of self.old) begun (state_of self.new)) }
        ensures next { IfOk result (λ begun.
            SendsRequestNext (state_of self.old) begun (state_of self.new)) }
        ensures refused { IsRefusedWhere (Delete_bearer session identity)
            (state_of self.old) result }
        ensures err { OnErr result (state_of self.new ≡ state_of self.old) }
    {
        if self.role != Role::Packet {
            return Err(CommandFault::Refused(Refusal::WrongRole));
        }
        let Some(at) = self.sessions.get(session) else {
            return Err(CommandFault::Refused(Refusal::NoSuchContext));
        };
        let Some(named) = self.dedicated(session, identity) else {
            return Err(CommandFault::Refused(Refusal::NoSuchContext));
        };
        if !are_active(&at, &named.bearer) {
            return Err(CommandFault::Refused(Refusal::NotActive));
        }
        let seq = self.next_number()?;
        let request = request_to_delete_bearer(alloc, &named, session, &at, identity, seq)?;
        self.send_request(alloc, seq, &request)
    }
}
