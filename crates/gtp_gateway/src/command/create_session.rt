//! The command that begins a session (TS 29.274 7.2.1).

ghost use Rattle.std.specs.Prelude.{◌≡◌, ◌↔◌, IsTrue, IfOk, OnErr};
ghost use Rattle.gtp_machine.specs.Choice.{IsIdentity, HasSessionRoom};
ghost use Rattle.gtp_machine.specs.Input.{Create_session};
ghost use Rattle.gtp_gateway.specs.command.Command.{IsCarriedOut, IsRefusedWhere, SendsRequestNext};
ghost use Rattle.gtp_gateway.specs.Parts.{node_of};
ghost use Rattle.gtp_gateway.specs.command.CreateSession.{specification, request_to_create_session};
ghost use Rattle.gtp_gateway.specs.command.Request.{request_by, CanBeSent};
ghost use Rattle.gtp_gateway.specs.GatewayState.{IsSoundState, state_of};

use crate::command::purpose::{Asked, Purpose};
use crate::command::request::RequestToSend;
use crate::fault::CommandFault;
use crate::messages::create_session::create_session_request;
use crate::messages::elements::own_end;
use crate::parts::Parts;
use crate::sent::Begun;
use crate::tables::change::Change;
use crate::tables::contexts::{pending_default, pending_session};
use crate::tables::teids::TwoDrawn;
use gtp_machine::interface_types::{S5S8_SGW_GTP_C, S5S8_SGW_GTP_U};
use gtp_machine::{Refusal, Role};
use gtp_tables::Subscriber;
use gtp_v2::{Ambr, PdnType, Plmn, Qos, Rat, Selection};
use gtp_values::{Memory, Seq};
use std::alloc::Global;

/// The values with which a session is requested (TS 29.274 table 7.2.1-1).
#[derive(Clone, Copy, Debug, PartialEq, Eq)]
pub struct SessionSpec {
    /// The subscriber, the access point and the identity of the default bearer.
    pub subscriber: Subscriber,
    /// The serving network (8.18).
    pub plmn: Plmn,
    /// The radio access technology (8.17).
    pub rat: Rat,
    /// How the access point was selected (8.58).
    pub selection: Selection,
    /// The PDN type (8.34): 1 is IPv4, 2 IPv6, and 3 both, of which one may be given, with cause 18. Others are refused with
    /// cause 83, and so is 2 where the packet gateway has no IPv6 addresses.
    pub pdn: PdnType,
    /// The aggregate maximum bit rate, in kilobits a second (8.7).
    pub ambr: Ambr,
    /// The quality of service of the default bearer (8.15).
    pub qos: Qos,
}

impl Parts {
    /// Whether there is room for one more session: the gateway has fewer than 1,000.
    fn has_session_room(&self) -> bool
        ensures { IsTrue result ↔ HasSessionRoom (node_of self.now) }
    {
        !self.sessions.is_full()
    }

    /// The Create Session Request, with this number: the session and its default bearer are pending from then on.
    fn request_to_create_session(
        &self,
        alloc: Global,
        drawn: &TwoDrawn,
        spec: &SessionSpec,
        seq: Seq,
    ) -> Result<RequestToSend, Memory>
        ensures says { IfOk result (λ request. request_by request
            ≡ request_to_create_session drawn.now spec.now seq (node_of self.now)) }
        ensures ready { IfOk result (CanBeSent seq) }
    {
        let own = self.config.own();
        let control = own_end(S5S8_SGW_GTP_C, drawn.control, own.control);
        let user = own_end(S5S8_SGW_GTP_U, drawn.user, own.user);
        let counter = self.draws.counter();
        Ok(RequestToSend {
            purpose: Purpose {
                asked: Asked::CreateSession(drawn.user),
                session: Some(drawn.control),
                bearer: None,
                is_named: false,
            },
            change: Change::MakesSession {
                draws: drawn.draws,
                control: drawn.control,
                session: pending_session(spec),
                user: drawn.user,
                bearer: pending_default(drawn.control, spec),
            },
            teid: Some(drawn.control),
            message: create_session_request(alloc, seq, spec, control, user, counter)?,
        })
    }

    /// Begins a session, at the serving gateway.
    pub fn create_session(
        &mut self,
        alloc: Global,
        spec: &SessionSpec,
    ) -> Result<Begun, CommandFault>
        requires whole { IsSoundState (state_of self.old) }
        ensures done { IfOk result (λ begun. IsCarriedOut (Create_session (specification spec.now))
            (state_of self.old) begun (state_of self.new)) }
        ensures next { IfOk result (λ begun.
            SendsRequestNext (state_of self.old) begun (state_of self.new)) }
        ensures refused { IsRefusedWhere (Create_session (specification spec.now))
            (state_of self.old) result }
        ensures err { OnErr result (state_of self.new ≡ state_of self.old) }
        // The identity of the default bearer is 5 to 15, by its type.
        ensures identity { IsIdentity spec.now.subscriber.identity }
    {
        prove!(spec.subscriber.identity.number() <= 15);
        if self.role != Role::Serving {
            return Err(CommandFault::Refused(Refusal::WrongRole));
        }
        if !self.has_session_room() {
            return Err(CommandFault::Refused(Refusal::SessionsFull));
        }
        let Some(drawn) = self.draw_two() else {
            return Err(CommandFault::Refused(Refusal::TeidsUsed));
        };
        let seq = self.next_number()?;
        let request = self.request_to_create_session(alloc, &drawn, spec, seq)?;
        self.send_request(alloc, seq, &request)
    }
}
