//! The user plane, as a gateway sends on it (TS 29.281).

ghost use Rattle.std.specs.Prelude.{◌≡◌, ◌↔◌, ◌≤◌, [], ◌∷◌, None, IsTrue, IfOk, OnErr, length};
ghost use Rattle.gtp_machine.specs.Message.{Packet_data, End_marker};
ghost use Rattle.gtp_machine.specs.Command.{MayGo};
ghost use Rattle.gtp_machine.specs.Config.{user_end};
ghost use Rattle.gtp_machine.specs.Input.{Send_user, Mark_end};
ghost use Rattle.gtp_machine.specs.Reading.{user_message};
ghost use Rattle.gtp_machine.specs.Spelling.{spelled, datagram_of};
ghost use Rattle.gtp_gateway.specs.command.Command.{IsCarriedOut, IsRefusedWhere};
ghost use Rattle.gtp_gateway.specs.messages.Own.{IsUserOwn};
ghost use Rattle.gtp_gateway.specs.messages.Sent.{datagram_by, ReadsBack};
ghost use Rattle.gtp_gateway.specs.GatewayState.{IsSoundState, state_of, queues_of};

use crate::fault::CommandFault;
use crate::messages::elements::written_teid;
use crate::parts::Parts;
use crate::sent::{Begun, Sent};
use gtp_machine::{Plane, Refusal, Role};
use gtp_tables::Bearer;
use gtp_user::{Extensions, UserBody, UserFault, UserMessage, encode};
use gtp_values::{Endpoint, Ip, Memory, Teid};
use std::alloc::Global;

/// The UDP port of the user plane (TS 29.281 4.4.2.3).
const USER_PORT: u16 = 2152;

/// The most octets of a packet that is sent.
const LONGEST_PAYLOAD: usize = 65_000;

/// The end of the user plane at an address.
pub fn user_end_of(ip: Ip) -> Endpoint
    ensures { result ≡ user_end ip }
{
    Endpoint {
        ip,
        port: USER_PORT,
    }
}

/// The octets that a gateway sends for a message of its own.
#[tactic(auto, using(crate::proofs::Own::user_own_spelled))]
pub fn encode_user_own(alloc: Global, message: &UserMessage) -> Result<Vec<u8>, Memory>
    requires { IsUserOwn message.now }
    ensures spelled { IfOk result (λ octets. octets.items ≡ spelled (user_message message.now)) }
    ensures back { IfOk result (λ _. ReadsBack (user_message message.now ∷ [])) }
{
    match encode(alloc, message) {
        Ok(octets) => Ok(octets),
        Err(UserFault::TooLong) => unreachable!(),
        Err(_) => Err(Memory),
    }
}

/// A G-PDU with a packet (TS 29.281 5.1).
#[tactic(auto, using(crate::proofs::Own::packet_own))]
fn packet(teid: Teid, payload: &[u8]) -> UserMessage<'_>
    requires { length payload.now ≤ 65000 }
    ensures own { IsUserOwn result }
    ensures says { user_message result ≡ Packet_data teid payload.now }
{
    UserMessage {
        seq: None,
        npdu: None,
        ext: Extensions::none(),
        body: UserBody::Packet { teid, payload },
    }
}

/// An End Marker (TS 29.281 7.3.2).
#[tactic(auto, using(crate::proofs::Own::marker_own))]
fn end_marker(teid: Teid) -> UserMessage<'static>
    ensures own { IsUserOwn result }
    ensures says { user_message result ≡ End_marker teid }
{
    UserMessage {
        seq: None,
        npdu: None,
        ext: Extensions::none(),
        body: UserBody::EndMarker { teid },
    }
}

/// Whether packets may go on a bearer: an End Marker that was sent ends that at the packet gateway.
fn may_go(role: Role, bearer: &Bearer) -> bool
    ensures { IsTrue result ↔ MayGo role bearer.now }
{
    match role {
        Role::Serving => true,
        Role::Packet => !bearer.ended,
    }
}

impl Parts {
    /// A datagram of the user plane to the peer, with a message of the gateway's own.
    fn send_own(&self, alloc: Global, message: &UserMessage<'_>) -> Result<Sent, Memory>
        requires { IsUserOwn message.now }
        ensures sent { IfOk result (λ sent. datagram_by sent ≡ datagram_of self.now.config.config
            (record {
              destination = user_end self.now.config.config.peer.user;
              messages = user_message message.now ∷ [];
            })) }
        ensures back { IfOk result (λ _.
            ReadsBack (user_message message.now ∷ [])) }
    {
        let octets = encode_user_own(alloc, message)?;
        Ok(Sent {
            plane: Plane::User,
            from: user_end_of(self.config.own().user),
            to: user_end_of(self.config.peer().user),
            octets,
        })
    }

    /// Sends a packet on a bearer.
    pub fn send_user(
        &self,
        alloc: Global,
        bearer: Teid,
        payload: &[u8],
    ) -> Result<Begun, CommandFault>
        requires whole { IsSoundState (state_of self.now) }
        ensures done { IfOk result (λ begun. IsCarriedOut (Send_user bearer payload.now)
            (state_of self.now) begun (state_of self.now)) }
        ensures untold { IfOk result (λ begun. begun.teid ≡ None) }
        ensures refused { IsRefusedWhere (Send_user bearer payload.now)
            (state_of self.now) result }
    {
        let Some(at) = self.bearers.get(bearer) else {
            return Err(CommandFault::Refused(Refusal::NoSuchContext));
        };
        if !at.is_active() {
            return Err(CommandFault::Refused(Refusal::NotActive));
        }
        if !may_go(self.role, &at) {
            return Err(CommandFault::Refused(Refusal::BearerEnded));
        }
        if payload.len() > LONGEST_PAYLOAD {
            return Err(CommandFault::Refused(Refusal::PacketTooLong));
        }
        let message = packet(written_teid(at.remote), payload);
        let out = self.send_own(alloc, &message)?;
        Ok(Begun { teid: None, out })
    }

    /// Sends an End Marker on a bearer, once.
    pub fn end_marker(&mut self, alloc: Global, bearer: Teid) -> Result<Begun, CommandFault>
        ensures done { IfOk result (λ begun. IsCarriedOut (Mark_end bearer)
            (state_of self.old) begun (state_of self.new)) }
        ensures untold { IfOk result (λ begun. begun.teid ≡ None) }
        ensures queues { queues_of self.new ≡ queues_of self.old }
        ensures refused { IsRefusedWhere (Mark_end bearer) (state_of self.old) result }
        ensures err { OnErr result (state_of self.new ≡ state_of self.old) }
    {
        if self.role != Role::Packet {
            return Err(CommandFault::Refused(Refusal::WrongRole));
        }
        let Some(at) = self.bearers.get(bearer) else {
            return Err(CommandFault::Refused(Refusal::NoSuchContext));
        };
        if !at.is_active() {
            return Err(CommandFault::Refused(Refusal::NotActive));
        }
        if at.ended {
            return Err(CommandFault::Refused(Refusal::BearerEnded));
        }
        let message = end_marker(written_teid(at.remote));
        let out = self.send_own(alloc, &message)?;
        let ended = Bearer { ended: true, ..at };
        self.replace_bearer(bearer, ended);
        Ok(Begun { teid: None, out })
    }
}
