//! Answers to requests, which are held for requests that come again (TS 29.274 7.6).

ghost use Rattle.gtp_gateway.specs.receive.Queues.{QueuesAfterMessage};
ghost use Rattle.std.specs.Prelude.{◌≡◌, ◌<◌, true, false, [], ◌∷◌, IfOk, OnOk, OnErr, length};
ghost use Rattle.gtp_reliable.specs.Held.{IsHeld, IsReady};
ghost use Rattle.gtp_machine.specs.Config.{control_end};
ghost use Rattle.gtp_machine.specs.Message.{Control};
ghost use Rattle.gtp_machine.specs.Node.{holding};
ghost use Rattle.gtp_machine.specs.Reading.{announces, control_message};
ghost use Rattle.gtp_machine.specs.Spelling.{spelled, datagram_of};
ghost use Rattle.gtp_gateway.specs.tables.Change.{changed_by, CanChange};
ghost use Rattle.gtp_gateway.specs.receive.Answer.{after_held};
ghost use Rattle.gtp_gateway.specs.messages.Own.{IsOwn};
ghost use Rattle.gtp_gateway.specs.Parts.{node_of};
ghost use Rattle.gtp_gateway.specs.messages.Sent.{datagram_by, ReadsBack};
ghost use Rattle.gtp_gateway.specs.messages.Spelled.{messages_in, AreSpelledAll};
ghost use Rattle.gtp_gateway.specs.GatewayState.{state_of, queues_of};

use crate::command::send_request::control_end_of;
use crate::messages::encode::encode_own;
use crate::parts::Parts;
use crate::receive::arrival::Arrival;
use crate::sent::Sent;
use crate::tables::change::Change;
use gtp_machine::Plane;
use gtp_reliable::ReliableFault;
use gtp_v2::Message;
use gtp_values::Memory;
use std::alloc::Global;

/// An answer that is ready to be given: nothing that it takes can fail.
#[derive(Drop)]
pub struct ReadyAnswer {
    pub octets: Vec<u8>,
    /// The same octets and those of the request, as they are held.
    pub answer: Vec<u8>,
    pub request: Vec<u8>,
}

impl Parts {
    /// An answer that is not held, as it is sent to where the request came from.
    pub fn reply(
        &self,
        alloc: Global,
        arrival: &Arrival<'_>,
        message: &Message,
    ) -> Result<Sent, Memory>
        requires own { IsOwn message.now }
        ensures sent { IfOk result (λ sent. datagram_by sent ≡ datagram_of self.now.config.config
            (record {
              destination = arrival.now.source;
              messages = control_message message.now ∷ [];
            })) }
        ensures back { IfOk result (λ _. ReadsBack (control_message message.now ∷ [])) }
    {
        Ok(Sent {
            plane: Plane::Control,
            from: control_end_of(self.config.own().control),
            to: arrival.source,
            octets: encode_own(alloc, message)?,
        })
    }

    /// Room for one more answer; nothing else changes.
    fn prepare_answer(&mut self) -> Result<(), Memory>
        requires few { length self.old.held.pairs < 4096 }
        ensures held { OnOk result (self.new.held ≡ record self.old.held { has_room = true }) }
        ensures pairs { self.new.held.pairs ≡ self.old.held.pairs }
        ensures bearers { self.new.bearers ≡ self.old.bearers }
        ensures pending { self.new.pending ≡ self.old.pending }
        ensures same { state_of self.new ≡ state_of self.old }
    {
        match self.held.prepare() {
            Ok(()) => Ok(()),
            Err(ReliableFault::Memory) => Err(Memory),
            Err(_) => unreachable!(),
        }
    }

    /// An answer as octets, with what is held of it and room for it; nothing else changes.
    pub fn ready_answer(
        &mut self,
        alloc: Global,
        arrival: &Arrival<'_>,
        message: &Message,
    ) -> Result<ReadyAnswer, Memory>
        requires own { IsOwn message.now }
        requires few { length self.old.held.pairs < 4096 }
        ensures request { IfOk result (λ ready. ready.request.items ≡ arrival.now.octets) }
        ensures octets { IfOk result (λ ready.
            ready.octets.items ≡ spelled (control_message message.now)) }
        ensures back { IfOk result (λ _. ReadsBack (control_message message.now ∷ [])) }
        ensures answer { IfOk result (λ ready. ready.answer.items ≡ ready.octets.items) }
        ensures kept { IfOk result (λ ready. AreSpelledAll ready.answer.items) }
        ensures read { IfOk result (λ ready.
            messages_in ready.answer.items ≡ control_message message.now ∷ []) }
        ensures held { OnOk result (self.new.held ≡ record self.old.held { has_room = true }) }
        ensures pairs { self.new.held.pairs ≡ self.old.held.pairs }
        ensures bearers { self.new.bearers ≡ self.old.bearers }
        ensures same { state_of self.new ≡ state_of self.old }
    {
        let octets = encode_own(alloc, message)?;
        self.ready_octets(alloc, arrival, octets)
    }

    /// A datagram as the answer that is ready, with what is held of it and room for it; nothing else
    /// changes.
    pub fn ready_octets(
        &mut self,
        alloc: Global,
        arrival: &Arrival<'_>,
        octets: Vec<u8>,
    ) -> Result<ReadyAnswer, Memory>
        requires few { length self.old.held.pairs < 4096 }
        ensures request { IfOk result (λ ready. ready.request.items ≡ arrival.now.octets) }
        ensures octets { IfOk result (λ ready. ready.octets.items ≡ octets.items) }
        ensures answer { IfOk result (λ ready. ready.answer.items ≡ octets.items) }
        ensures held { OnOk result (self.new.held ≡ record self.old.held { has_room = true }) }
        ensures pairs { self.new.held.pairs ≡ self.old.held.pairs }
        ensures bearers { self.new.bearers ≡ self.old.bearers }
        ensures pending { self.new.pending ≡ self.old.pending }
        ensures same { state_of self.new ≡ state_of self.old }
    {
        let answer = Vec::from_slice(alloc, octets.as_slice())?;
        let request = Vec::from_slice(alloc, arrival.octets)?;
        self.prepare_answer()?;
        Ok(ReadyAnswer {
            octets,
            answer,
            request,
        })
    }

    /// Gives an answer that is ready to a request for which none is held; from now on this one is.
    /// Allocates nothing.
    #[tactic(auto, using(crate::proofs::QueuesAfter::queues_after))]
    pub fn send_answer(&mut self, arrival: &Arrival<'_>, ready: ReadyAnswer) -> Sent
        requires ready { IsReady self.old.held }
        requires request { ready.request.items ≡ arrival.now.octets }
        requires fresh { IsHeld arrival.now.source arrival.now.octets self.old.held.pairs → ⊥ }
        requires alone { announces arrival.now.octets ≡ false }
        requires spelled { AreSpelledAll ready.answer.items }
        ensures sent { datagram_by result ≡ record {
          plane = Control;
          from = control_end self.old.config.config.own.control;
          to = arrival.now.source;
          octets = ready.octets.items;
        } }
        ensures octets { result.octets.items ≡ ready.octets.items }
        ensures node { node_of self.new ≡ holding arrival.now
            (messages_in ready.answer.items) (node_of self.old) }
        ensures held { self.new.held.pairs
            ≡ after_held arrival.now.source arrival.now.octets ready.answer.items
            self.old.held.pairs }
        ensures queues { queues_of self.new ≡ record (queues_of self.old) {
          held = after_held arrival.now.source arrival.now.octets ready.answer.items
              (queues_of self.old).held;
        } }
        ensures goes { QueuesAfterMessage arrival.now
            (state_of self.old) (state_of self.new) }
        ensures role { self.new.role ≡ self.old.role }
    {
        self.held.keep(arrival.source, ready.request, ready.answer);
        Sent {
            plane: Plane::Control,
            from: control_end_of(self.config.own().control),
            to: arrival.source,
            octets: ready.octets,
        }
    }

    /// Changes sessions and bearers, and answers a request for which no answer is held; from now on
    /// this one is.
    #[tactic(auto, using(crate::proofs::QueuesAfter::queues_after))]
    pub fn answer(
        &mut self,
        alloc: Global,
        arrival: &Arrival<'_>,
        message: &Message,
        change: Change,
    ) -> Result<Sent, Memory>
        requires own { IsOwn message.now }
        requires can { CanChange change (node_of self.old) }
        requires few { length self.old.held.pairs < 4096 }
        requires fresh { IsHeld arrival.now.source arrival.now.octets self.old.held.pairs → ⊥ }
        requires alone { announces arrival.now.octets ≡ false }
        ensures sent { IfOk result (λ sent. datagram_by sent ≡ datagram_of self.old.config.config
            (record {
              destination = arrival.now.source;
              messages = control_message message.now ∷ [];
            })) }
        ensures back { IfOk result (λ _. ReadsBack (control_message message.now ∷ [])) }
        ensures node { OnOk result (node_of self.new
            ≡ holding arrival.now (control_message message.now ∷ [])
            (changed_by change (node_of self.old))) }
        ensures held { IfOk result (λ sent. self.new.held.pairs
            ≡ after_held arrival.now.source arrival.now.octets sent.octets.items
            self.old.held.pairs) }
        ensures goes { OnOk result
            (QueuesAfterMessage arrival.now (state_of self.old) (state_of self.new)) }
        ensures role { self.new.role ≡ self.old.role }
        ensures err { OnErr result (state_of self.new ≡ state_of self.old) }
    {
        let ready = self.ready_answer(alloc, arrival, message)?;
        self.apply(change)?;
        Ok(self.send_answer(arrival, ready))
    }
}
