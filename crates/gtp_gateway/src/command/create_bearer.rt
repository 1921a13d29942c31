//! The command that begins a dedicated bearer (TS 29.274 7.2.3).

ghost use Rattle.std.specs.Prelude.{◌≡◌, IfOk, OnErr};
ghost use Rattle.gtp_machine.specs.Input.{Create_bearer};
ghost use Rattle.gtp_gateway.specs.command.Command.{IsCarriedOut, IsRefusedWhere, SendsRequestNext};
ghost use Rattle.gtp_gateway.specs.command.Request.{request_by, CanBeSent};
ghost use Rattle.gtp_gateway.specs.command.CreateBearer.{request_to_create_bearer};
ghost use Rattle.gtp_gateway.specs.Parts.{node_of};
ghost use Rattle.gtp_gateway.specs.GatewayState.{IsSoundState, state_of};

use crate::command::purpose::{Asked, Purpose};
use crate::command::request::RequestToSend;
use crate::fault::CommandFault;
use crate::messages::create_bearer::create_bearer_request;
use crate::messages::elements::{is_there, own_end, written_teid};
use crate::parts::Parts;
use crate::sent::Begun;
use crate::tables::change::Change;
use crate::tables::contexts::pending_dedicated;
use crate::tables::teids::OneDrawn;
use gtp_machine::interface_types::S5S8_PGW_GTP_U;
use gtp_machine::{Refusal, Role};
use gtp_tables::Session;
use gtp_values::{Memory, Qos, Seq, Teid, Tft};
use std::alloc::Global;

impl Parts {
    /// The Create Bearer Request, with this number: the bearer is pending from then on.
    fn request_to_create_bearer(
        &self,
        alloc: Global,
        drawn: &OneDrawn,
        session: Teid,
        at: &Session,
        tft: &Tft,
        qos: &Qos,
        seq: Seq,
    ) -> Result<RequestToSend, Memory>
        ensures says { IfOk result (λ request. request_by request
            ≡ request_to_create_bearer drawn.now session at.now tft.now qos.now seq
            (node_of self.now)) }
        ensures ready { IfOk result (CanBeSent seq) }
    {
        let user = own_end(S5S8_PGW_GTP_U, drawn.teid, self.config.own().user);
        Ok(RequestToSend {
            purpose: Purpose {
                asked: Asked::CreateBearer,
                session: Some(session),
                bearer: Some(drawn.teid),
                is_named: is_there(written_teid(at.remote)),
            },
            change: Change::MakesBearer {
                draws: drawn.draws,
                teid: drawn.teid,
                bearer: pending_dedicated(session),
            },
            teid: Some(drawn.teid),
            message: create_bearer_request(alloc, at, seq, *tft, *qos, user)?,
        })
    }

    /// Begins a dedicated bearer of an active session, at the packet gateway.
    pub fn create_bearer(
        &mut self,
        alloc: Global,
        session: Teid,
        tft: &Tft,
        qos: &Qos,
    ) -> Result<Begun, CommandFault>
        requires whole { IsSoundState (state_of self.old) }
        ensures done { IfOk result (λ begun. IsCarriedOut (Create_bearer session tft.now qos.now)
            (state_of self.old) begun (state_of self.new)) }
        ensures next { IfOk result (λ begun.
            SendsRequestNext (state_of self.old) begun (state_of self.new)) }
        ensures refused { IsRefusedWhere (Create_bearer session tft.now qos.now)
            (state_of self.old) result }
        ensures err { OnErr result (state_of self.new ≡ state_of self.old) }
    {
        let at = self.active_session(Role::Packet, session)?;
        let Some(drawn) = self.draw_one() else {
            return Err(CommandFault::Refused(Refusal::TeidsUsed));
        };
        let seq = self.next_number()?;
        let request = self.request_to_create_bearer(alloc, &drawn, session, &at, tft, qos, seq)?;
        self.send_request(alloc, seq, &request)
    }
}
