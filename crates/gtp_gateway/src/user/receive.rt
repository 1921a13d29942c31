//! Datagrams of the user plane, as they come in (TS 29.281).

ghost use Rattle.std.specs.Prelude.{◌≡◌, ◌↔◌, IsTrue, IfSome, IfNone};
ghost use Rattle.gtp_machine.specs.Input.{User_fault, Extension_needed};
ghost use Rattle.gtp_machine.specs.Reading.{user_fault, user_body_message, user_message_of};
ghost use Rattle.gtp_machine.specs.User.{MayCome, PacketCame, EndCame, ErrorCame, UserTaken};
ghost use Rattle.gtp_gateway.specs.GatewayState.{IsSoundState, state_of};
ghost use Rattle.gtp_gateway.specs.user.Receive.{plain_step, IsTakenBy, IsJudgedBy, IsFaultJudged};
ghost use Rattle.gtp_gateway.specs.user.Receive.{UserComes};

use crate::parts::Parts;
use crate::step::Accepted;
use crate::user::reply::Reply;
use gtp_machine::{DropReason, FaultName, Outcome, Plane, Role};
use gtp_tables::Bearer;
use gtp_user::{UserBody, UserFault, UserView, view};
use gtp_values::{Endpoint, Teid};

/// What a datagram of the user plane comes to, before anything is sent for it. To judge takes no
/// memory. It has no room for what is sent, since it is moved for each packet.
#[derive(Drop)]
pub enum Judged<'a> {
    /// This packet was accepted.
    Accepted(Accepted<'a>),
    /// It was taken, with this outcome and nothing else.
    Came(Outcome),
    /// This is sent for it, and nothing changes.
    Replies(Reply),
}

impl<'a> Judged<'a> {
    /// The datagram is dropped.
    pub fn dropped(why: DropReason) -> Judged<'a>
        ensures { result ≡ Judged.Came (Outcome.Dropped why) }
    {
        Judged::Came(Outcome::Dropped(why))
    }
}

/// The number of a fault, none of an extension header that is needed and not known, which is told of
/// (TS 29.281 5.2.1).
fn fault_number(fault: &UserFault) -> Option<u8>
    ensures numbered { IfSome result (λ number. user_fault fault.now ≡ User_fault number) }
    ensures needed { IfNone result (user_fault fault.now ≡ Extension_needed) }
{
    match fault {
        UserFault::ExtensionNeeded { .. } => None,
        _ => Some(fault.number()),
    }
}

/// Whether packets may come on a bearer: an End Marker ends that at the serving gateway.
fn may_come(role: Role, bearer: &Bearer) -> bool
    ensures { IsTrue result ↔ MayCome role bearer.now }
{
    match role {
        Role::Serving => !bearer.ended,
        Role::Packet => true,
    }
}

impl Parts {
    /// A user's packet (TS 29.281 5.1): for no bearer it is answered with an Error Indication
    /// (7.3.1).
    fn judge_packet<'a>(&self, target: Teid, payload: &'a [u8]) -> Judged<'a>
        requires whole { IsSoundState (state_of self.now) }
        ensures { IsJudgedBy (PacketCame self.now.role target payload.now)
            (state_of self.now) result (state_of self.now) }
    {
        let Some(at) = self.bearers.get(target) else {
            return Judged::Replies(Reply::ErrorIndication { teid: target });
        };
        if !at.is_active() {
            return Judged::dropped(DropReason::ContextNotActive);
        }
        if !may_come(self.role, &at) {
            return Judged::dropped(DropReason::AfterEnd);
        }
        Judged::Accepted(Accepted {
            bearer: target,
            payload,
        })
    }

    /// An End Marker, which the serving gateway takes (TS 29.281 7.3.2).
    fn take_end_marker(&mut self, target: Teid) -> Outcome
        ensures { IsTakenBy (EndCame self.old.role target)
            (state_of self.old) (plain_step result) (state_of self.new) }
    {
        match self.role {
            Role::Serving => {}
            Role::Packet => return Outcome::Dropped(DropReason::Unexpected),
        }
        let Some(at) = self.bearers.get(target) else {
            return Outcome::Dropped(DropReason::Unexpected);
        };
        if !at.is_active() {
            return Outcome::Dropped(DropReason::ContextNotActive);
        }
        let ended = Bearer { ended: true, ..at };
        self.replace_bearer(target, ended);
        Outcome::Ended
    }

    /// An Error Indication (TS 29.281 7.3.1): the peer has no bearer under this TEID.
    fn take_error_indication(&mut self, remote: Teid) -> Outcome
        ensures { IsTakenBy (ErrorCame remote)
            (state_of self.old) (plain_step result) (state_of self.new) }
    {
        let Some(_) = self.bearers.first_of_remote(remote) else {
            return Outcome::Dropped(DropReason::Unexpected);
        };
        self.end_bearers_of_remote(remote);
        Outcome::Broken
    }

    /// A message of the user plane from the peer, with this sequence number.
    fn judge_message<'a>(
        &mut self,
        source: &Endpoint,
        seq: Option<u16>,
        body: UserBody<'a>,
    ) -> Judged<'a>
        requires whole { IsSoundState (state_of self.old) }
        ensures { IsJudgedBy (UserTaken self.old.role source.now (user_body_message seq body.entry))
            (state_of self.old) result (state_of self.new) }
    {
        match body {
            UserBody::Packet { teid, payload } => self.judge_packet(teid, payload),
            UserBody::EndMarker { teid } => Judged::Came(self.take_end_marker(teid)),
            UserBody::ErrorIndication { teid, .. } => {
                Judged::Came(self.take_error_indication(teid))
            }
            UserBody::EchoRequest => Judged::Replies(Reply::EchoResponse {
                to: *source,
                number: seq.unwrap_or(0),
            }),
            UserBody::EchoResponse | UserBody::Notification { .. } | UserBody::Other { .. } => {
                Judged::dropped(DropReason::Unexpected)
            }
        }
    }

    /// A message that is no user's packet. Out of line, so that a packet needs no room for it.
    #[cold]
    #[inline(never)]
    fn judge_other<'a>(&mut self, source: &Endpoint, seen: &UserView<'a>) -> Judged<'a>
        requires whole { IsSoundState (state_of self.old) }
        ensures { IsJudgedBy (UserTaken self.old.role source.now (user_message_of seen.now))
            (state_of self.old) result (state_of self.new) }
    {
        let message = seen.to_message();
        self.judge_message(source, message.seq, message.body)
    }

    /// A message of the user plane from the peer, where it lies: a user's packet is read in place.
    fn judge_seen<'a>(&mut self, source: &Endpoint, seen: &UserView<'a>) -> Judged<'a>
        requires whole { IsSoundState (state_of self.old) }
        ensures { IsJudgedBy (UserTaken self.old.role source.now (user_message_of seen.now))
            (state_of self.old) result (state_of self.new) }
    {
        match seen.packet() {
            Some(packet) => self.judge_packet(packet.0, packet.1),
            None => self.judge_other(source, seen),
        }
    }

    /// Takes a datagram of the user plane, but for what is sent for it. Allocates nothing.
    pub fn judge_user<'a>(&mut self, source: &Endpoint, octets: &'a [u8]) -> Judged<'a>
        requires whole { IsSoundState (state_of self.old) }
        ensures { IsJudgedBy (UserComes source.now octets.now (state_of self.old))
            (state_of self.old) result (state_of self.new) }
    {
        if !self.config.is_user_peer(&source.ip) {
            return Judged::dropped(DropReason::NotPeer);
        }
        match view(octets) {
            Ok(seen) => self.judge_seen(source, &seen),
            Err(fault) => judge_fault(&fault),
        }
    }
}

/// A datagram at fault: a needed extension header that is not known is told of (TS 29.281 5.2.1).
fn judge_fault<'a>(fault: &UserFault) -> Judged<'a>
    ensures { IsFaultJudged (user_fault fault.now) result }
{
    match fault_number(fault) {
        Some(number) => Judged::dropped(DropReason::Undecodable(FaultName {
            plane: Plane::User,
            number,
        })),
        None => Judged::Replies(Reply::Notification),
    }
}
