//! The pair of messages in one datagram that the serving gateway takes (TS 29.274 5.5.1): a Create
//! Session Response, and after it a Create Bearer Request. Both are judged, and all that may fail is
//! done, before anything else changes.

pub mod second;

ghost use Rattle.std.specs.Prelude.{◌≡◌, ◌↔◌, ℕ, List, Some, None, true, false, IsTrue, IfOk, OnOk, OnErr};
ghost use Rattle.gtp_v2.specs.Pair.{LieIn};
ghost use Rattle.gtp_machine.specs.Message as messages;
ghost use Rattle.gtp_machine.specs.Reading.{announces};
ghost use Rattle.gtp_machine.specs.declared.role.Role.TheVariants.{Serving};
ghost use Rattle.gtp_machine.specs.declared.message_type.MessageType.TheVariants as types;
ghost use Rattle.gtp_gateway.specs.receive.Choosing.{MakesLowestBearer};
ghost use Rattle.gtp_gateway.specs.receive.Queues.{QueuesAfterMessage};
ghost use Rattle.gtp_gateway.specs.receive.RestartCounter.{IsHeard, node_heard};
ghost use Rattle.gtp_gateway.specs.receive.Piggybacked.{state_after_first, IsSecondTaken, EitherMayRunOut, ArePair};
ghost use Rattle.gtp_gateway.specs.Parts.{arrival_of, node_of};
ghost use Rattle.gtp_machine.specs.MessageType.{type_at};
ghost use Rattle.gtp_gateway.specs.receive.Received.{AreReceived, EitherSendsOrOpens, of_control};
ghost use Rattle.gtp_gateway.specs.receive.CreateSessionResponse.{IsOfSession};
ghost use Rattle.gtp_gateway.specs.tables.Opening.{CanApply};
ghost use Rattle.gtp_gateway.specs.GatewayState.{IsSoundState, state_of};

use crate::parts::Parts;
use crate::receive::arrival::Arrival;
use crate::receive::create_bearer_request::{BearerRequest, create_bearer_request_in};
use crate::receive::create_session_response::create_session_response_in;
use crate::receive::recovery::counter_in;
use crate::receive::restart_counter::Heard;
use crate::step::ControlStep;
use crate::tables::opening::ResponseVerdict;
use gtp_machine::{DropReason, MessageType, Outcome, Role};
use gtp_v2::MessageView;
use gtp_v2::kinds::{CREATE_BEARER_REQUEST, CREATE_SESSION_RESPONSE};
use gtp_values::{Memory, Seq};
use std::alloc::Global;

impl Parts {
    /// Whether two messages in one datagram are the pair that this gateway takes.
    pub fn takes_pair(&self, first: &MessageView<'_>, second: &MessageView<'_>) -> bool
        ensures { IsTrue result ↔ ((self.now.role ≡ Serving)
            × (type_at first.now.message.kind ≡ Some types.CreateSessionResponse)
            × (type_at second.now.message.kind ≡ Some types.CreateBearerRequest)) }
    {
        self.role == Role::Serving
            && first.kind() == CREATE_SESSION_RESPONSE
            && second.kind() == CREATE_BEARER_REQUEST
    }

    /// Takes the second message of a pair, and applies the first, of which all is known: the second is
    /// taken by the gateway that the first leaves, whatever came of that.
    #[tactic(auto, using(crate::proofs::QueuesAfter::queues_after))]
    fn take_second(
        &mut self,
        alloc: Global,
        arrival: &Arrival<'_>,
        request: &BearerRequest,
        seq: Seq,
        heard: Heard,
        verdict: ResponseVerdict,
    ) -> Result<ControlStep, Memory>
        requires whole { IsSoundState (state_of self.old) }
        requires serving { self.old.role ≡ Serving }
        requires weighed { IsHeard heard self.old.peer }
        requires can { CanApply verdict (node_heard heard (node_of self.old)) }
        requires of { IsOfSession verdict (node_heard heard (node_of self.old)) }
        requires peer { arrival.now.source.ip ≡ self.old.config.config.peer.control }
        requires alone { announces arrival.now.octets ≡ false }
        ensures taken { IfOk result (λ step. IsSecondTaken arrival.now request.now
            (state_after_first heard verdict seq (state_of self.old)) step (state_of self.new)) }
        ensures unheard { IfOk result (λ step.
            (step.report.heard ≡ None) × (step.report.restart ≡ None)) }
        ensures goes { OnOk result
            (QueuesAfterMessage arrival.now (state_of self.old) (state_of self.new)) }
        ensures choices { IfOk result (λ step.
            step.report.made ≡ true → MakesLowestBearer (node_of self.old) (node_of self.new)) }
        // An allocation is for what the response opens, or for the answer to the second message.
        ensures memory { OnErr result (EitherMayRunOut verdict arrival.now request.now
            (state_after_first heard verdict seq (state_of self.old))) }
        ensures err { OnErr result (state_of self.new ≡ state_of self.old) }
    {
        if let Some(out) = self.sent_again_to(alloc, arrival)? {
            let _settled = self.apply_verdict(seq, heard, verdict)?;
            return Ok(ControlStep::sent(out, Outcome::Repeated));
        }
        if self.held.is_full() {
            let _settled = self.apply_verdict(seq, heard, verdict)?;
            return Ok(ControlStep::dropped(DropReason::HeldFull));
        }
        let Some(judged) = self.judge_second(heard, &verdict, request) else {
            let _settled = self.apply_verdict(seq, heard, verdict)?;
            return Ok(ControlStep::dropped(DropReason::ContextNotActive));
        };
        self.answer_second(alloc, arrival, request, &judged, seq, heard, verdict)
    }

    /// Takes a pair: its two messages. `back` is the second one as it came: its octets alone.
    #[tactic(auto, using(crate::proofs::QueuesAfter::tied_of))]
    pub fn take_pair(
        &mut self,
        alloc: Global,
        first: &MessageView<'_>,
        second: &MessageView<'_>,
        back: &Arrival<'_>,
    ) -> Result<ControlStep, Memory>
        requires whole { IsSoundState (state_of self.old) }
        requires serving { self.old.role ≡ Serving }
        requires peer { back.now.source.ip ≡ self.old.config.config.peer.control }
        requires lie { (octets : List ℕ) × LieIn octets first.now (Some second.now) back.now.octets }
        requires first { type_at first.now.message.kind ≡ Some types.CreateSessionResponse }
        requires second { type_at second.now.message.kind ≡ Some types.CreateBearerRequest }
        ensures taken { IfOk result (λ step. (octets : List ℕ)
            → LieIn octets first.now (Some second.now) back.now.octets
            → (a : messages.CreateSessionResponse) (q : messages.CreateBearerRequest)
            → ArePair first.now second.now a q
            → AreReceived (arrival_of back.now.source octets) a q (state_of self.old) (of_control step)
            (state_of self.new)) }
        ensures goes { OnOk result
            (QueuesAfterMessage back.now (state_of self.old) (state_of self.new)) }
        ensures choices { IfOk result (λ step.
            step.report.made ≡ true → MakesLowestBearer (node_of self.old) (node_of self.new)) }
        ensures memory { OnErr result ((octets : List ℕ)
            → LieIn octets first.now (Some second.now) back.now.octets
            → (a : messages.CreateSessionResponse) (q : messages.CreateBearerRequest)
            → ArePair first.now second.now a q
            → EitherSendsOrOpens (arrival_of back.now.source octets) a q (state_of self.old)) }
        ensures err { OnErr result (state_of self.new ≡ state_of self.old) }
    {
        let answer = create_session_response_in(first);
        let heard = self.compare_counter(counter_in(first, MessageType::CreateSessionResponse));
        let verdict = self.judge_answer(&answer, heard);
        let outcome = verdict.outcome();
        let request = create_bearer_request_in(second);
        let seq = answer.response.seq;
        let step = self.take_second(alloc, back, &request, seq, heard, verdict)?;
        Ok(ControlStep::quiet(outcome).hearing(heard).followed_by(step))
    }
}
