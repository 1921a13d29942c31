//! The command that deletes a session, at the serving gateway (TS 29.274 7.2.9.1).

ghost use Rattle.std.specs.Prelude.{◌≡◌, IfOk, OnErr};
ghost use Rattle.gtp_machine.specs.Input.{Delete_session};
ghost use Rattle.gtp_gateway.specs.command.Command.{IsCarriedOut, IsRefusedWhere, SendsRequestNext};
ghost use Rattle.gtp_gateway.specs.command.Request.{request_by, CanBeSent};
ghost use Rattle.gtp_gateway.specs.command.DeleteSession.{request_to_delete_session};
ghost use Rattle.gtp_gateway.specs.GatewayState.{state_of};

use crate::command::purpose::{Asked, Purpose};
use crate::command::request::RequestToSend;
use crate::fault::CommandFault;
use crate::messages::delete_session::delete_session_request;
use crate::messages::elements::{is_there, written_teid};
use crate::parts::Parts;
use crate::sent::Begun;
use crate::tables::change::Change;
use gtp_machine::Role;
use gtp_tables::Session;
use gtp_values::{Seq, Teid};
use std::alloc::Global;

/// The Delete Session Request, with this number: the session is closing from then on.
fn request_to_delete_session(teid: Teid, session: &Session, seq: Seq) -> RequestToSend
    ensures says { request_by result ≡ request_to_delete_session teid session.now seq }
    ensures ready { CanBeSent seq result }
{
    let header = written_teid(session.remote);
    RequestToSend {
        purpose: Purpose {
            asked: Asked::DeleteSession,
            session: Some(teid),
            bearer: None,
            is_named: is_there(header),
        },
        change: Change::ClosesSession {
            teid,
            session: *session,
        },
        teid: Some(teid),
        message: delete_session_request(header, seq, session.subscriber.identity),
    }
}

impl Parts {
    /// Deletes an active session, at the serving gateway.
    pub fn delete_session(&mut self, alloc: Global, session: Teid) -> Result<Begun, CommandFault>
        ensures done { IfOk result (λ begun. IsCarriedOut (Delete_session session)
            (state_of self.old) begun (state_of self.new)) }
        ensures next { IfOk result (λ begun.
            SendsRequestNext (state_of self.old) begun (state_of self.new)) }
        ensures refused { IsRefusedWhere (Delete_session session) (state_of self.old) result }
        ensures err { OnErr result (state_of self.new ≡ state_of self.old) }
    {
        let at = self.active_session(Role::Serving, session)?;
        let seq = self.next_number()?;
        self.send_request(alloc, seq, &request_to_delete_session(session, &at, seq))
    }
}
