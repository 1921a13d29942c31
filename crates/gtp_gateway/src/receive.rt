//! Datagrams of the control plane, as they come in (TS 29.274 7.6, 7.7).

pub mod answer;
pub mod arrival;
pub mod create_bearer_request;
pub mod create_bearer_response;
pub mod create_session_request;
pub mod create_session_response;
pub mod delete_bearer_request;
pub mod delete_bearer_response;
pub mod delete_request;
pub mod delete_session_request;
pub mod delete_session_response;
pub mod dispatch;
pub mod echo;
pub mod first_fault;
pub mod invalid_request;
pub mod piggybacked;
pub mod recovery;
pub mod response;
pub mod response_context;
pub mod restart_counter;

ghost use Rattle.std.specs.Prelude.{◌≡◌, ◌↔◌, ℕ, false, IsTrue, Some, true, IfOk, IfErr, IfSome, IfNone, IsSome, OnOk, OnErr};
ghost use Rattle.gtp_gateway.specs.receive.Choosing.{ChoosesLowest, MadeNothing};
ghost use Rattle.gtp_gateway.specs.receive.TwoMessages.{IsSecondAt};
ghost use Rattle.gtp_gateway.specs.Parts.{arrival_of, node_of};
ghost use Rattle.gtp_machine.specs.MessageType.{type_at, takes_type, takes_some};
ghost use Rattle.gtp_gateway.specs.GatewayState.{IsSoundState, state_of};
ghost use Rattle.gtp_gateway.specs.receive.Received.{QueuesAfterControl, ControlMayRunOut, IsControlTaken, IsReceived, QueuesAfterReceive, MayRunOut};
ghost use Rattle.gtp_gateway.specs.receive.Taken.{IsEntered, IsSentAgain};
ghost use Rattle.gtp_machine.specs.Reading.{announces};
ghost use Rattle.gtp_reliable.specs.Held.{IsHeld};

use crate::command::send_request::control_end_of;
use crate::parts::Parts;
use crate::receive::arrival::Arrival;
use crate::receive::first_fault::{announces_second, flaw_of};
use crate::sent::Sent;
use crate::step::{ControlStep, Step};
use crate::user::receive::Judged;
use gtp_machine::{DropReason, MessageType, Outcome, Plane};
use gtp_v2::view;
use gtp_values::{Endpoint, Memory};
use std::alloc::Global;

/// What is known of a datagram before it is read.
#[derive(Drop)]
pub enum BeforeReading {
    /// It is from elsewhere, or a request that was answered before: this is what it comes to.
    Settled(ControlStep),
    /// It is from the peer, and no answer is held for it.
    New,
}

/// The place at which the second message of a datagram begins, where it reads as two (TS 29.274 5.5.1): from there on
/// are the second one's own octets. Reads nothing where the first announces no other.
pub fn second_at(octets: &[u8]) -> Option<usize>
    ensures some { IfSome result (IsSecondAt octets.now) }
    ensures none { IfNone result ((place : ℕ) → IsSecondAt octets.now place → ⊥) }
{
    if !announces_second(octets) {
        return None;
    }
    let view = match view(octets) {
        Ok(view) => view,
        Err(_) => return None,
    };
    if view.second().is_none() {
        return None;
    }
    Some(octets.len() - view.back().len())
}

impl Parts {
    /// Whether a datagram of the control plane comes from the peer's address, whatever the port.
    fn is_from_peer(&self, arrival: &Arrival<'_>) -> bool
        ensures { IsTrue result ↔ (arrival.now.source.ip ≡ self.now.config.config.peer.control) }
    {
        arrival.source.ip == self.config.peer().control
    }

    /// The answer that is held for a request, as it is sent again; none where none is held.
    pub fn sent_again_to(
        &self,
        alloc: Global,
        arrival: &Arrival<'_>,
    ) -> Result<Option<Sent>, Memory>
        ensures some { IfOk result (λ out. IfSome out
            (λ sent. IsSentAgain arrival.now (node_of self.now) sent)) }
        ensures none { IfOk result (λ out.
            IfNone out (IsHeld arrival.now.source arrival.now.octets self.now.held.pairs → ⊥)) }
        ensures memory { OnErr result
            (IsHeld arrival.now.source arrival.now.octets self.now.held.pairs) }
    {
        let Some(answer) = self.held.lookup(arrival.source, arrival.octets) else {
            return Ok(None);
        };
        Ok(Some(Sent {
            plane: Plane::Control,
            from: control_end_of(self.config.own().control),
            to: arrival.source,
            octets: Vec::from_slice(alloc, answer)?,
        }))
    }

    /// A datagram before it is read: first its source address is looked at, and then the answers
    /// that are held. Nothing changes.
    pub fn before_reading(
        &self,
        alloc: Global,
        arrival: &Arrival<'_>,
    ) -> Result<BeforeReading, Memory>
        ensures entered { IfOk result (λ entrance. IsEntered arrival.now (state_of self.now)
            self.now.held.pairs entrance) }
        // An allocation is for the answer that is sent again.
        ensures memory { OnErr result
            (ControlMayRunOut arrival.now (state_of self.now)) }
        ensures unmade { IfOk result MadeNothing }
    {
        if !self.is_from_peer(arrival) {
            return Ok(BeforeReading::Settled(ControlStep::dropped(DropReason::NotPeer)));
        }
        match self.sent_again_to(alloc, arrival)? {
            Some(out) => Ok(BeforeReading::Settled(ControlStep::sent(out, Outcome::Repeated))),
            None => Ok(BeforeReading::New),
        }
    }

    /// Takes a datagram of the control plane. Of two messages the pair that the gateway takes is done
    /// message by message, and any other is dropped as one, before a restart counter is heard.
    #[tactic(auto, using(crate::proofs::QueuesAfter::queues_after))]
    pub fn receive_control(
        &mut self,
        alloc: Global,
        source: Endpoint,
        octets: &[u8],
    ) -> Result<ControlStep, Memory>
        requires whole { IsSoundState (state_of self.old) }
        ensures taken { IfOk result (λ step.
            IsControlTaken (arrival_of source octets.now)
            (state_of self.old) step (state_of self.new)) }
        ensures goes { OnOk result (QueuesAfterControl (arrival_of source octets.now)
            (state_of self.old) (state_of self.new)) }
        ensures choices { IfOk result (λ step. ChoosesLowest step.report.made self.old.role
            (node_of self.old) (node_of self.new)) }
        ensures memory { OnErr result
            (ControlMayRunOut (arrival_of source octets.now) (state_of self.old)) }
        ensures err { OnErr result (state_of self.new ≡ state_of self.old) }
    {
        let arrival = Arrival { source, octets };
        match self.before_reading(alloc, &arrival)? {
            BeforeReading::Settled(step) => return Ok(step),
            BeforeReading::New => {}
        }
        let view = match view(octets) {
            Ok(view) => view,
            Err(fault) => return self.take_flaw(alloc, &arrival, &flaw_of(octets, &fault)),
        };
        let message = view.message();
        if let Some(second) = view.second() {
            if !self.takes_pair(message, &second) {
                return Ok(ControlStep::dropped(DropReason::Unexpected));
            }
            let back = Arrival {
                source,
                octets: view.back(),
            };
            return self.take_pair(alloc, message, &second, &back);
        }
        match self.type_for(message.kind()) {
            Some(message_type) => self.take_message(alloc, &arrival, message, message_type),
            None => Ok(ControlStep::dropped(DropReason::Unexpected)),
        }
    }

    /// Takes a datagram of a plane.
    #[tactic(auto, using(crate::proofs::Receiving::as_received, crate::proofs::Receiving::as_timed, crate::proofs::Receiving::as_stays, crate::proofs::QueuesAfter::tied_of))]
    pub fn receive<'a>(
        &mut self,
        alloc: Global,
        source: Endpoint,
        plane: Plane,
        octets: &'a [u8],
    ) -> Result<Step<'a>, Memory>
        requires whole { IsSoundState (state_of self.old) }
        ensures received { IfOk result (λ step.
            IsReceived plane source octets.now (state_of self.old) step (state_of self.new)) }
        ensures queues { IfOk result (λ step.
            QueuesAfterReceive plane source octets.now step
            (state_of self.old) (state_of self.new)) }
        ensures choices { IfOk result (λ step. ChoosesLowest step.report.made self.old.role
            (node_of self.old) (node_of self.new)) }
        ensures packet { IfOk result (λ step.
            IsSome step.accepted → state_of self.new ≡ state_of self.old) }
        ensures memory { IfErr result (λ _.
            MayRunOut plane source octets.now (state_of self.old)) }
        ensures err { OnErr result (state_of self.new ≡ state_of self.old) }
    {
        // Each arm returns by itself, so that its step is written once and not moved again.
        let reply = match plane {
            Plane::Control => {
                let step = self.receive_control(alloc, source, octets)?;
                return Ok(Step::from(step));
            }
            Plane::User => match self.judge_user(&source, octets) {
                Judged::Accepted(packet) => return Ok(Step::of_packet(packet)),
                Judged::Came(outcome) => return Ok(Step::of(outcome)),
                Judged::Replies(reply) => reply,
            },
        };
        self.reply_user(alloc, &reply)
    }

    /// The type with this number, if the gateway takes messages of it.
    fn type_for(&self, kind: u8) -> Option<MessageType>
        ensures some { IfSome result (λ t. (type_at kind ≡ Some t)
            × (takes_type self.now.role t ≡ true)) }
        ensures none { IfNone result (takes_some self.now.role (type_at kind) ≡ false) }
    {
        match MessageType::of(kind) {
            Some(message_type) if message_type.is_taken_by(self.role) => Some(message_type),
            _ => None,
        }
    }
}
