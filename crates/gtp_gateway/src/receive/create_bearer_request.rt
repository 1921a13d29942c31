//! Create Bearer Requests (TS 29.274 7.2.3), as the serving gateway takes them.

pub mod judge;

ghost use Rattle.gtp_gateway.specs.receive.Queues.{QueuesAfterMessage};
ghost use Rattle.std.specs.Prelude.{◌≡◌, true, Some, IfOk, OnOk, OnErr};
ghost use Rattle.gtp_machine.specs.Reading.{control_message};
ghost use Rattle.gtp_machine.specs.Message as messages;
ghost use Rattle.gtp_machine.specs.MessageType.{type_at};
ghost use Rattle.gtp_machine.specs.declared.message_type.MessageType.TheVariants as types;
ghost use Rattle.gtp_gateway.specs.receive.Choosing.{MakesLowestBearer};
ghost use Rattle.gtp_gateway.specs.receive.CreateBearerRequest.{ReadsCreateBearer, SaysCreateBearer, HasFitCause, bearer_answer, TakesCreateBearerRequest};
ghost use Rattle.gtp_machine.specs.Serving.{CreateBearerAsked};
ghost use Rattle.gtp_gateway.specs.receive.Allocations.{AlwaysSendsOrOpens};
ghost use Rattle.gtp_gateway.specs.messages.Own.{IsOwn};
ghost use Rattle.gtp_gateway.specs.Parts.{node_of};
ghost use Rattle.gtp_gateway.specs.GatewayState.{IsSoundState, state_of};
ghost use Rattle.gtp_gateway.specs.receive.Taken.{IsFresh};

use crate::messages::create_bearer::{create_bearer_response, no_resources_response};
use crate::messages::elements::{own_end, plain_cause};
use crate::messages::refusal::refusal;
use crate::parts::Parts;
use crate::receive::arrival::Arrival;
use crate::receive::create_bearer_request::judge::{CreateBearerAnswer, CreateBearerVerdict};
use crate::step::ControlStep;
use gtp_machine::interface_types::S5S8_SGW_GTP_U;
use gtp_machine::{DropReason, MessageType};
use gtp_tables::View;
use gtp_v2::{EbiValue, Message, MessageView};
use gtp_values::{Below, FTeid, Memory, Seq, Teid};
use std::alloc::Global;

/// What a Create Bearer Request says, as far as the serving gateway looks at it.
#[derive(Clone, Copy)]
pub struct BearerRequest {
    pub seq: Seq,
    /// The TEID of its header.
    pub header: Teid,
    /// The linked EPS bearer identity.
    pub linked: Below<16>,
    /// The packet gateway's F-TEID of the user plane, in the first bearer context.
    pub user: FTeid,
    /// There is no further bearer context.
    pub is_alone: bool,
}

/// What a Create Bearer Request says.
pub fn create_bearer_request_in(view: &MessageView<'_>) -> BearerRequest
    requires { type_at view.now.message.kind ≡ Some types.CreateBearerRequest }
    ensures { ReadsCreateBearer view.now.message result }
{
    let mut contexts = view.contexts();
    let Some(first) = contexts.next() else {
        unreachable!()
    };
    BearerRequest {
        seq: view.seq(),
        header: view.teid().unwrap_or(Teid(0)),
        linked: view.needed::<EbiValue>(0).0,
        user: first.needed(1),
        is_alone: contexts.next().is_none(),
    }
}

impl Parts {
    /// The answer to a Create Bearer Request.
    pub fn create_bearer_answer(
        &self,
        alloc: Global,
        request: &BearerRequest,
        verdict: &CreateBearerVerdict,
    ) -> Result<Message, Memory>
        requires { HasFitCause verdict.now.answer }
        ensures says { IfOk result (λ message. (q : messages.CreateBearerRequest)
            → SaysCreateBearer request.now q → control_message message
            ≡ bearer_answer verdict.now.answer verdict.now.header q (node_of self.now)) }
        ensures own { IfOk result (λ message. IsOwn message) }
    {
        let header = verdict.header;
        let seq = request.seq;
        let counter = self.draws.counter();
        match verdict.answer {
            CreateBearerAnswer::Refused { cause } => {
                let cause = plain_cause(cause);
                refusal(
                    alloc,
                    MessageType::CreateBearerRequest,
                    header,
                    seq,
                    cause,
                    counter,
                )
            }
            CreateBearerAnswer::NoResources => {
                no_resources_response(alloc, header, seq, request.user, counter)
            }
            CreateBearerAnswer::Granted(grant) => {
                let own = own_end(S5S8_SGW_GTP_U, grant.drawn.teid, self.config.own().user);
                create_bearer_response(
                    alloc,
                    header,
                    seq,
                    grant.identity,
                    own,
                    request.user,
                    counter,
                )
            }
        }
    }

    /// Takes a Create Bearer Request.
    #[tactic(auto, using(crate::proofs::QueuesAfter::queues_after))]
    pub fn take_create_bearer_request(
        &mut self,
        alloc: Global,
        arrival: &Arrival<'_>,
        request: &BearerRequest,
    ) -> Result<ControlStep, Memory>
        requires whole { IsSoundState (state_of self.old) }
        requires fresh { IsFresh arrival.now (state_of self.old) self.old.held.pairs }
        ensures taken { IfOk result (λ step. TakesCreateBearerRequest arrival.now request.now
            (state_of self.old) step (state_of self.new)) }
        ensures goes { OnOk result
            (QueuesAfterMessage arrival.now (state_of self.old) (state_of self.new)) }
        ensures choices { IfOk result (λ step.
            step.report.made ≡ true → MakesLowestBearer (node_of self.old) (node_of self.new)) }
        ensures memory { OnErr result ((q : messages.CreateBearerRequest)
            → SaysCreateBearer request.now q
            → AlwaysSendsOrOpens (CreateBearerAsked arrival.now q) (node_of self.old)) }
        ensures err { OnErr result (state_of self.new ≡ state_of self.old) }
    {
        if self.held.is_full() {
            return Ok(ControlStep::dropped(DropReason::HeldFull));
        }
        let found = self.sessions.get(request.header);
        let view = View::new(&self.sessions, &self.bearers);
        let Some(verdict) = self.judge_create_bearer(request, found, &view) else {
            return Ok(ControlStep::dropped(DropReason::ContextNotActive));
        };
        let message = self.create_bearer_answer(alloc, request, &verdict)?;
        let answer = verdict.answer;
        let out = self.answer(alloc, arrival, &message, answer.change(request))?;
        Ok(ControlStep::answered(out, answer.cause(), answer.is_granted()))
    }
}
