//! The command that deletes a session by its default bearer, at the packet gateway (TS 29.274 7.2.9.2).

ghost use Rattle.std.specs.Prelude.{◌≡◌, IfOk, OnErr};
ghost use Rattle.gtp_machine.specs.Input.{Release_session};
ghost use Rattle.gtp_gateway.specs.command.Command.{IsCarriedOut, IsRefusedWhere, SendsRequestNext};
ghost use Rattle.gtp_gateway.specs.command.Request.{request_by, CanBeSent};
ghost use Rattle.gtp_gateway.specs.command.ReleaseSession.{request_to_release_session};
ghost use Rattle.gtp_gateway.specs.GatewayState.{state_of};

use crate::command::purpose::{Asked, Purpose};
use crate::command::request::RequestToSend;
use crate::fault::CommandFault;
use crate::messages::delete_bearer::delete_bearer_request_for_session;
use crate::messages::elements::{is_there, written_teid};
use crate::parts::Parts;
use crate::sent::Begun;
use crate::tables::change::Change;
use gtp_machine::Role;
use gtp_tables::Session;
use gtp_values::{Seq, Teid};
use std::alloc::Global;

/// The Delete Bearer Request for a session, with this number: the session is closing from then on.
fn request_to_release_session(
    alloc: Global,
    teid: Teid,
    session: &Session,
    seq: Seq,
) -> RequestToSend
    ensures says { request_by result ≡ request_to_release_session teid session.now seq }
    ensures ready { CanBeSent seq result }
{
    let header = written_teid(session.remote);
    let identity = session.subscriber.identity;
    RequestToSend {
        purpose: Purpose {
            asked: Asked::DeleteBearer,
            session: Some(teid),
            bearer: None,
            is_named: is_there(header),
        },
        change: Change::ClosesSession {
            teid,
            session: *session,
        },
        teid: Some(teid),
        message: delete_bearer_request_for_session(alloc, header, seq, identity),
    }
}

impl Parts {
    /// Deletes an active session, at the packet gateway.
    pub fn release_session(&mut self, alloc: Global, session: Teid) -> Result<Begun, CommandFault>
        ensures done { IfOk result (λ begun. IsCarriedOut (Release_session session)
            (state_of self.old) begun (state_of self.new)) }
        ensures next { IfOk result (λ begun.
            SendsRequestNext (state_of self.old) begun (state_of self.new)) }
        ensures refused { IsRefusedWhere (Release_session session) (state_of self.old) result }
        ensures err { OnErr result (state_of self.new ≡ state_of self.old) }
    {
        let at = self.active_session(Role::Packet, session)?;
        let seq = self.next_number()?;
        let request = request_to_release_session(alloc, session, &at, seq);
        self.send_request(alloc, seq, &request)
    }
}
