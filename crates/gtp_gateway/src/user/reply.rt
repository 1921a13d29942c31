//! What a gateway sends for datagrams of the user plane (TS 29.281 7.2, 7.3.1).

ghost use Rattle.std.specs.Prelude.{◌≡◌, ◌≤◌, [], ◌∷◌, length, IfOk};
ghost use Rattle.gtp_user.specs.Encoding.{octets_of};
ghost use Rattle.gtp_machine.specs.Message.{Error_indication, User_echo_response};
ghost use Rattle.gtp_machine.specs.Message.{Supported_extensions};
ghost use Rattle.gtp_machine.specs.Reading.{user_message};
ghost use Rattle.gtp_machine.specs.Spelling.{datagram_of};
ghost use Rattle.gtp_machine.specs.User.{udp_port};
ghost use Rattle.gtp_gateway.specs.messages.Own.{IsUserOwn};
ghost use Rattle.gtp_gateway.specs.user.Reply.{sending_of, outcome_of};
ghost use Rattle.gtp_gateway.specs.user.Reply.{IsReplyBy};
ghost use Rattle.gtp_gateway.specs.messages.Sent.{datagram_by, SendingReads};

use crate::parts::Parts;
use crate::sent::Sent;
use crate::step::{Report, Step};
use crate::user::send::{encode_user_own, user_end_of};
use gtp_machine::{DropReason, Outcome, Plane};
use gtp_user::{Extensions, UserBody, UserMessage};
use gtp_values::{Endpoint, Ip, Memory, Teid};
use std::alloc::Global;

/// The type of the extension header UDP Port (TS 29.281 5.2.1).
const UDP_PORT: u8 = 64;

/// The types of extension headers that are understood.
const EXTENSIONS: &[u8] = &[UDP_PORT];

/// What is sent for a datagram of the user plane.
#[derive(Clone, Copy)]
pub enum Reply {
    /// An Error Indication: a packet found no bearer under this TEID (7.3.1).
    ErrorIndication { teid: Teid },
    /// A Supported Extension Headers Notification (7.2.3).
    Notification,
    /// An Echo Response with this sequence number (7.2.2).
    EchoResponse { to: Endpoint, number: u16 },
}

impl Reply {
    /// What the datagram comes to.
    fn outcome(&self) -> Outcome
        ensures { result ≡ outcome_of self.now }
    {
        match self {
            Reply::ErrorIndication { .. } => Outcome::Dropped(DropReason::UnknownContext),
            Reply::Notification => Outcome::Dropped(DropReason::UnknownExtension),
            Reply::EchoResponse { .. } => Outcome::Echoed,
        }
    }
}

/// The octets of an address, at most sixteen.
fn address_octets(address: &Ip) -> &[u8]
    ensures octets { result.now ≡ octets_of address.now }
    ensures few { length (octets_of address.now) ≤ 16 }
{
    match address {
        Ip::V4(octets) => octets,
        Ip::V6(octets) => octets,
    }
}

/// An Error Indication (TS 29.281 7.3.1): the gateway at this address has no bearer under this TEID.
#[tactic(auto, using(crate::proofs::Own::indication_own))]
fn error_indication(teid: Teid, peer: Ip) -> UserMessage<'static>
    ensures own { IsUserOwn result }
    ensures says { user_message result ≡ Error_indication teid peer }
{
    // So the message is short.
    prove!(address_octets(&peer).len() <= 16);
    UserMessage {
        seq: Some(0),
        npdu: None,
        ext: Extensions::none(),
        body: UserBody::ErrorIndication { teid, peer },
    }
}

/// A Supported Extension Headers Notification (TS 29.281 7.2.3).
fn notification() -> UserMessage<'static>
    ensures own { IsUserOwn result }
    ensures says { user_message result ≡ Supported_extensions (udp_port ∷ []) }
{
    UserMessage {
        seq: Some(0),
        npdu: None,
        ext: Extensions::none(),
        body: UserBody::Notification { types: EXTENSIONS },
    }
}

/// An Echo Response (TS 29.281 7.2.2).
#[tactic(auto, using(crate::proofs::Own::echo_own))]
fn echo_response(number: u16) -> UserMessage<'static>
    ensures own { IsUserOwn result }
    ensures says { user_message result ≡ User_echo_response number }
{
    UserMessage {
        seq: Some(number),
        npdu: None,
        ext: Extensions::none(),
        body: UserBody::EchoResponse,
    }
}

impl Parts {
    /// The message of a reply.
    fn reply_message(&self, reply: &Reply) -> UserMessage<'static>
        ensures own { IsUserOwn result }
        ensures says { user_message result ∷ []
            ≡ (sending_of reply.now self.now.config.config).messages }
    {
        match reply {
            Reply::ErrorIndication { teid } => error_indication(*teid, self.config.own().user),
            Reply::Notification => notification(),
            Reply::EchoResponse { number, .. } => echo_response(*number),
        }
    }

    /// Where a reply goes: an Echo Response to where the request came from, all else to the peer.
    fn reply_end(&self, reply: &Reply) -> Endpoint
        ensures { result ≡ (sending_of reply.now self.now.config.config).destination }
    {
        match reply {
            Reply::ErrorIndication { .. } | Reply::Notification => {
                user_end_of(self.config.peer().user)
            }
            Reply::EchoResponse { to, .. } => *to,
        }
    }

    /// The datagram of a reply. Not inlined, since most datagrams have none.
    #[inline(never)]
    fn encode_reply(&self, alloc: Global, reply: &Reply) -> Result<Sent, Memory>
        ensures sent { IfOk result (λ sent. datagram_by sent
            ≡ datagram_of self.now.config.config (sending_of reply.now self.now.config.config)) }
        ensures back { IfOk result (λ _. SendingReads (sending_of reply.now self.now.config.config)) }
    {
        let message = self.reply_message(reply);
        let octets = encode_user_own(alloc, &message)?;
        Ok(Sent {
            plane: Plane::User,
            from: user_end_of(self.config.own().user),
            to: self.reply_end(reply),
            octets,
        })
    }

    /// Sends a reply. Nothing changes.
    pub fn reply_user(&self, alloc: Global, reply: &Reply) -> Result<Step<'static>, Memory>
        ensures { IfOk result (λ step. IsReplyBy reply.now self.now.config.config step) }
    {
        let out = self.encode_reply(alloc, reply)?;
        Ok(Step {
            out: Some(out),
            accepted: None,
            report: Report::of(reply.outcome()),
        })
    }
}
