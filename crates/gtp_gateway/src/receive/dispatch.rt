//! Messages of the control plane that a gateway takes, by their types.

ghost use Rattle.gtp_gateway.specs.receive.Queues.{QueuesAfterMessage};
ghost use Rattle.std.specs.Prelude.{◌≡◌, true, Some, IfOk, OnOk, OnErr};
ghost use Rattle.gtp_v2.specs.Datagram.{IsMessage};
ghost use Rattle.gtp_v2.specs.Viewed.{Carries};
ghost use Rattle.gtp_machine.specs.Decoded.{message_of};
ghost use Rattle.gtp_gateway.specs.receive.Choosing.{ChoosesLowest};
ghost use Rattle.gtp_gateway.specs.receive.RestartCounter.{node_heard};
ghost use Rattle.gtp_gateway.specs.receive.Allocations.{AlwaysSendsOrOpens, ControlSendsOrOpens};
ghost use Rattle.gtp_gateway.specs.Parts.{node_of};
ghost use Rattle.gtp_machine.specs.MessageType.{type_at, takes_type};
ghost use Rattle.gtp_machine.specs.Step.{TakesBy};
ghost use Rattle.gtp_gateway.specs.receive.Row.{IsWeighed, IsHeardRow};
ghost use Rattle.gtp_gateway.specs.GatewayState.{IsSoundState, state_of};
ghost use Rattle.gtp_gateway.specs.receive.Taken.{IsFresh, IsTaken};

use crate::parts::Parts;
use crate::receive::arrival::Arrival;
use crate::receive::create_bearer_request::create_bearer_request_in;
use crate::receive::create_bearer_response::create_bearer_response_in;
use crate::receive::create_session_request::read::create_session_request_in;
use crate::receive::create_session_response::create_session_response_in;
use crate::receive::delete_request::delete_request_in;
use crate::receive::recovery::counter_in;
use crate::receive::response::response_in;
use crate::receive::restart_counter::Heard;
use crate::step::ControlStep;
use gtp_machine::{DropReason, MessageType};
use gtp_v2::MessageView;
use gtp_values::Memory;
use std::alloc::Global;

impl Parts {
    /// Takes a message, once its restart counter was weighed and is not of an earlier start.
    #[tactic(auto, using(crate::proofs::QueuesAfter::queues_after, crate::proofs::GivenUp::waiting))]
    fn dispatch(
        &mut self,
        alloc: Global,
        arrival: &Arrival<'_>,
        view: &MessageView<'_>,
        message_type: MessageType,
        heard: Heard,
    ) -> Result<ControlStep, Memory>
        requires whole { IsSoundState (state_of self.old) }
        requires fresh { IsFresh arrival.now (state_of self.old) self.old.held.pairs }
        requires spelled { IsMessage arrival.now.octets view.now.message }
        requires carries { Carries arrival.now.octets view.now }
        requires of { type_at view.now.message.kind ≡ Some message_type }
        requires has { takes_type self.old.role message_type ≡ true }
        requires weighed { IsWeighed heard (message_of view.now.message) (state_of self.old) }
        ensures taken { IfOk result (λ step.
            IsHeardRow arrival.now (message_of view.now.message) heard
            (state_of self.old) step (state_of self.new)) }
        ensures goes { OnOk result
            (QueuesAfterMessage arrival.now (state_of self.old) (state_of self.new)) }
        ensures choices { IfOk result (λ step. ChoosesLowest step.report.made self.old.role
            (node_of self.old) (node_of self.new)) }
        ensures memory { OnErr result (AlwaysSendsOrOpens
            (TakesBy self.old.role arrival.now (message_of view.now.message))
            (node_heard heard (node_of self.old))) }
        ensures err { OnErr result (state_of self.new ≡ state_of self.old) }
    {
        match message_type {
            MessageType::EchoRequest => self.take_echo_request(alloc, arrival, view.seq(), heard),
            MessageType::EchoResponse => {
                self.hear(heard);
                Ok(self.take_echo_response(view.seq()))
            }
            MessageType::CreateSessionRequest => {
                let request = create_session_request_in(view);
                self.take_create_session_request(alloc, arrival, &request, heard)
            }
            MessageType::CreateSessionResponse => {
                let answer = create_session_response_in(view);
                self.take_create_session_response(&answer, heard)
            }
            MessageType::DeleteSessionRequest => {
                let request = delete_request_in(view);
                self.take_delete_session_request(alloc, arrival, &request)
            }
            MessageType::DeleteSessionResponse => {
                let response = response_in(view);
                self.hear(heard);
                Ok(self.take_delete_session_response(&response))
            }
            MessageType::CreateBearerRequest => {
                let request = create_bearer_request_in(view);
                self.take_create_bearer_request(alloc, arrival, &request)
            }
            MessageType::DeleteBearerRequest => {
                let request = delete_request_in(view);
                self.take_delete_bearer_request(alloc, arrival, view, &request)
            }
            MessageType::CreateBearerResponse => {
                let answer = create_bearer_response_in(view);
                self.take_create_bearer_response(&answer, heard)
            }
            MessageType::DeleteBearerResponse => {
                let response = response_in(view);
                self.hear(heard);
                Ok(self.take_delete_bearer_response(&response))
            }
        }
    }

    /// Takes a message of a kind that the gateway takes: first its restart counter is heard.
    #[tactic(auto, using(crate::proofs::QueuesAfter::queues_after, crate::proofs::GivenUp::waiting))]
    pub fn take_message(
        &mut self,
        alloc: Global,
        arrival: &Arrival<'_>,
        view: &MessageView<'_>,
        message_type: MessageType,
    ) -> Result<ControlStep, Memory>
        requires whole { IsSoundState (state_of self.old) }
        requires fresh { IsFresh arrival.now (state_of self.old) self.old.held.pairs }
        requires spelled { IsMessage arrival.now.octets view.now.message }
        requires carries { Carries arrival.now.octets view.now }
        requires of { type_at view.now.message.kind ≡ Some message_type }
        requires has { takes_type self.old.role message_type ≡ true }
        ensures taken { IfOk result (λ step.
            IsTaken arrival.now (state_of self.old) step (state_of self.new)) }
        ensures goes { OnOk result
            (QueuesAfterMessage arrival.now (state_of self.old) (state_of self.new)) }
        ensures choices { IfOk result (λ step. ChoosesLowest step.report.made self.old.role
            (node_of self.old) (node_of self.new)) }
        ensures memory { OnErr result
            (ControlSendsOrOpens arrival.now (state_of self.old)) }
        ensures err { OnErr result (state_of self.new ≡ state_of self.old) }
    {
        let heard = self.compare_counter(counter_in(view, message_type));
        if heard.is_earlier() {
            return Ok(ControlStep::dropped(DropReason::OldCounter).hearing(heard));
        }
        let step = self.dispatch(alloc, arrival, view, message_type, heard)?;
        Ok(step.hearing(heard))
    }
}
