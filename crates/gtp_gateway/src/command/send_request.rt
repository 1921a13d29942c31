//! How a request is sent, and waits for its answer (TS 29.274 7.6).

ghost use Rattle.std.specs.Prelude.{true, ◌≡◌, ◌<◌, [], ◌∷◌, IfOk, OnOk, OnErr, length};
ghost use Rattle.gtp_reliable.specs.Pending.{IsNextFree, IsPrepared};
ghost use Rattle.gtp_machine.specs.Choice.{HasPendingRoom};
ghost use Rattle.gtp_machine.specs.Config.{control_end};
ghost use Rattle.gtp_machine.specs.Reading.{control_message};
ghost use Rattle.gtp_machine.specs.Spelling.{datagram_of};
ghost use Rattle.gtp_gateway.specs.tables.Change.{keeps_requests, CanChange};
ghost use Rattle.gtp_gateway.specs.messages.Own.{IsOwn};
ghost use Rattle.gtp_gateway.specs.Parts.{node_of};
ghost use Rattle.gtp_gateway.specs.GatewayState.{state_of, queues_of};
ghost use Rattle.gtp_gateway.specs.tables.Stays.{OnlyTablesChange};
ghost use Rattle.std.specs.FinMap as map;
ghost use Rattle.gtp_gateway.specs.command.SendRequest.{about, asking, after_begun};
ghost use Rattle.gtp_gateway.specs.messages.Sent.{datagram_by, ReadsBack};
ghost use Rattle.gtp_gateway.specs.messages.Spelled.{is_for, message_in, AreSpelled};
ghost use Rattle.gtp_gateway.specs.command.Command.{SendsRequestNext, IsLastRefused};
ghost use Rattle.gtp_gateway.specs.command.Request.{request_by, CanBeSent, IsAskedFor};

use crate::command::purpose::Purpose;
use crate::command::request::RequestToSend;
use crate::fault::CommandFault;
use crate::messages::encode::encode_own;
use crate::parts::Parts;
use crate::receive::restart_counter::Heard;
use crate::sent::{Begun, Sent};
use crate::tables::change::Change;
use gtp_machine::{Plane, Refusal};
use gtp_v2::Message;
use gtp_values::{Endpoint, Ip, Memory, Seq};
use std::alloc::Global;

/// The UDP port of the control plane (TS 29.274 4.2.1.1).
const CONTROL_PORT: u16 = 2123;

/// The end of the control plane at an address.
pub fn control_end_of(ip: Ip) -> Endpoint
    ensures { result ≡ control_end ip }
{
    Endpoint {
        ip,
        port: CONTROL_PORT,
    }
}

impl Parts {
    /// The sequence number of the next request. Nothing changes.
    pub fn next_number(&self) -> Result<Seq, CommandFault>
        ensures number { IfOk result
            (IsNextFree self.now.pending.next self.now.pending.waiting) }
        ensures few { IfOk result (λ _. length self.now.pending.waiting < 256) }
        ensures room { IfOk result (λ _. HasPendingRoom (node_of self.now)) }
        ensures refused { IsLastRefused (state_of self.now) result }
    {
        match self.number_after(Heard::Nothing) {
            Some(seq) => Ok(seq),
            None => Err(CommandFault::Refused(Refusal::PendingFull)),
        }
    }

    /// Room for one more request; nothing else changes.
    fn reserve_request(&mut self) -> Result<(), Memory>
        ensures room { OnOk result
            (self.new.pending ≡ record self.old.pending { has_room = true }) }
        ensures same { state_of self.new ≡ state_of self.old }
        ensures bearers { self.new.bearers ≡ self.old.bearers }
        ensures sessions { self.new.sessions ≡ self.old.sessions }
    {
        match self.pending.reserve() {
            Ok(()) => Ok(()),
            Err(_) => Err(Memory),
        }
    }

    /// A request waits from now on, as these octets, for which the number and the room are ready. It
    /// allocates nothing.
    pub fn begin_kept(&mut self, seq: Seq, octets: Vec<u8>, purpose: Purpose)
        requires prepared { IsPrepared self.old.pending seq }
        requires spelled { AreSpelled octets.items }
        requires meant { is_for purpose (message_in octets.items) ≡ true }
        ensures node { node_of self.new ≡ record (node_of self.old) {
          pending = map.insert (node_of self.old).pending seq
              (about purpose (message_in octets.items));
        } }
        ensures queues { queues_of self.new ≡ after_begun seq purpose
            (control_end self.old.config.config.peer.control) octets.items (queues_of self.old) }
        ensures only { OnlyTablesChange self.old self.new }
    {
        let to = control_end_of(self.config.peer().control);
        self.pending.begin(seq, to, octets, purpose);
    }

    /// Changes sessions and bearers, and sends a request to the peer, which waits for its answer.
    pub fn begin_request(
        &mut self,
        alloc: Global,
        seq: Seq,
        message: &Message,
        purpose: Purpose,
        change: Change,
    ) -> Result<Sent, Memory>
        requires prepared { IsPrepared self.old.pending seq }
        requires own { IsOwn message.now }
        requires meant { is_for purpose (control_message message.now) ≡ true }
        requires can { CanChange change (node_of self.old) }
        requires keeps { keeps_requests change ≡ true }
        ensures sent { IfOk result (λ sent. datagram_by sent ≡ datagram_of self.old.config.config
            (record {
              destination = control_end self.old.config.config.peer.control;
              messages = control_message message.now ∷ [];
            })) }
        ensures back { IfOk result (λ _. ReadsBack (control_message message.now ∷ [])) }
        ensures read { IfOk result (λ sent.
            message_in sent.octets.items ≡ control_message message.now) }
        ensures node { OnOk result (node_of self.new
            ≡ asking change seq purpose (control_message message.now) (node_of self.old)) }
        ensures queues { IfOk result (λ sent. queues_of self.new
            ≡ after_begun seq purpose sent.to sent.octets.items (queues_of self.old)) }
        ensures role { self.new.role ≡ self.old.role }
        ensures err { OnErr result (state_of self.new ≡ state_of self.old) }
    {
        let octets = encode_own(alloc, message)?;
        let kept = Vec::from_slice(alloc, octets.as_slice())?;
        let from = control_end_of(self.config.own().control);
        let to = control_end_of(self.config.peer().control);
        self.apply(change)?;
        self.pending.begin(seq, to, kept, purpose);
        Ok(Sent {
            plane: Plane::Control,
            from,
            to,
            octets,
        })
    }

    /// Sends a request to the peer, with this number, which is the next one.
    pub fn send_request(
        &mut self,
        alloc: Global,
        seq: Seq,
        request: &RequestToSend,
    ) -> Result<Begun, CommandFault>
        requires number { IsNextFree self.old.pending.next self.old.pending.waiting seq }
        requires few { length self.old.pending.waiting < 256 }
        requires room { HasPendingRoom (node_of self.old) }
        requires ready { CanBeSent seq request.now }
        requires can { CanChange request.now.change (node_of self.old) }
        ensures done { IfOk result (λ begun. IsAskedFor seq (request_by request.now)
            (state_of self.old) begun (state_of self.new)) }
        ensures next { IfOk result (λ begun.
            SendsRequestNext (state_of self.old) begun (state_of self.new)) }
        ensures refused { IsLastRefused (state_of self.old) result }
        ensures err { OnErr result (state_of self.new ≡ state_of self.old) }
    {
        self.reserve_request()?;
        let out = self.begin_request(
            alloc,
            seq,
            &request.message,
            request.purpose,
            request.change,
        )?;
        Ok(Begun {
            teid: request.teid,
            out,
        })
    }
}
