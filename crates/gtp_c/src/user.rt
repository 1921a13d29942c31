//! Datagrams of the user plane, read in place.

ghost use Rattle.std.specs.Prelude.{◌≡◌, ◌≢◌, ◌<◌, ◌^◌, ℕ, List, drop};
ghost use Rattle.gtp_user.specs.Datagram.{IsUserMessage};
ghost use Rattle.gtp_user.specs.Message.{MessageValue, Packet, content_of};
ghost use Rattle.gtp_c.specs.Reading.{IsUserRead, IsUserFaulty, IsUserTold, IsCarried, user_teid};
ghost use Rattle.gtp_c.specs.Reading.{user_length, IsPeer, LiesAt, AreTypesAt, EndsFrom};
ghost use Rattle.gtp_c.specs.Common.{AreLast};
ghost use Rattle.gtp_c.specs.Sizes.{HasTypes, element_size, header_size};

use crate::ends::Address;
use crate::fault::Fault;
use crate::status::{DONE, FAULTY};
use gtp_user::flags::field_flags;
use gtp_user::{Teid, UserBody, UserView, view};

/// Recovery (TS 29.281 8.2).
const RECOVERY: u8 = 14;

/// Tunnel Endpoint Identifier Data I (TS 29.281 8.3).
const TEID_DATA: u8 = 16;

/// Extension Header Type List (TS 29.281 8.5).
const EXTENSION_TYPES: u8 = 141;

/// What a message of the user plane says, and how many octets it carries.
#[repr(C)]
#[derive(Clone, Copy)]
pub struct UserHead {
    /// Where what it carries begins, and how many octets it is: of a G-PDU the packet, of a notification its types.
    pub payload_at: u64,
    pub payload_len: u64,
    /// The chain of extension headers begins at 12, and has so many octets.
    pub extensions_len: u64,
    pub teid: u32,
    pub seq: u16,
    pub has_seq: u8,
    pub has_npdu: u8,
    pub npdu: u8,
    /// The type of the message.
    pub kind: u8,
    /// The type of the first extension header; 0 for none.
    pub extension: u8,
    /// The address of an Error Indication; its version is 0 for none.
    pub peer: Address,
}

/// The TEID that a message carries; 0 for none.
fn teid_of(body: &UserBody<'_>) -> u32
    ensures { result ≡ user_teid (content_of body.now) }
{
    match *body {
        UserBody::EchoRequest | UserBody::EchoResponse | UserBody::Notification { .. } => 0,
        UserBody::ErrorIndication { teid, .. }
        | UserBody::EndMarker { teid }
        | UserBody::Packet { teid, .. }
        | UserBody::Other { teid, .. } => teid.0,
    }
}

/// How many octets a message carries.
fn length_of(body: &UserBody<'_>) -> u64
    ensures { result ≡ user_length (content_of body.now) }
{
    match *body {
        UserBody::Notification { types } => types.len() as u64,
        UserBody::Packet { payload, .. } => payload.len() as u64,
        UserBody::Other { octets, .. } => octets.len() as u64,
        UserBody::EchoRequest
        | UserBody::EchoResponse
        | UserBody::ErrorIndication { .. }
        | UserBody::EndMarker { .. } => 0,
    }
}

/// The address that a message carries.
fn peer_of(body: &UserBody<'_>) -> Address
    ensures { IsPeer (content_of body.now) result }
{
    match *body {
        UserBody::ErrorIndication { peer, .. } => Address::of(peer),
        _ => Address::none(),
    }
}

/// How many octets the element at the front takes, if it is no list of types (TS 29.281 8.1): those of type 128 and above have
/// a length in two octets.
fn element_len(octets: &[u8]) -> usize
    ensures is { result ≡ element_size octets.now }
    ensures few { result < 2 ^ 17 }
{
    let [kind, high, low, ..] = octets else {
        return 2;
    };
    match *kind {
        RECOVERY => 2,
        TEID_DATA => 5,
        _ => 3 + usize::from(u16::from_be_bytes([*high, *low])),
    }
}

/// Where the types of the first list of types begin (TS 29.281 8.5), in elements of which the first begins at `start`; 0 where
/// there is no list.
fn types_at(octets: &[u8], start: usize) -> usize
    ensures { (types : List ℕ) →
        HasTypes types (drop start octets.now) → AreTypesAt types octets.now result }
{
    let mut at = start;
    while at < octets.len() {
        let (_before, rest) = octets.split_at(at);
        if rest[0] == EXTENSION_TYPES {
            return at + 2;
        }
        at += element_len(rest);
    }
    0
}

/// How many octets the header takes: 8, or 12 with one of its flags (TS 29.281 5.1).
fn header_len(octets: &[u8]) -> usize
    ensures { result ≡ header_size octets.now }
{
    match octets {
        [first, ..] if field_flags(*first) == 0 => 8,
        _ => 12,
    }
}

/// Where the last octets of a datagram begin.
#[inline(always)]
fn last_at(octets: &[u8], last: &[u8]) -> u64
    requires { AreLast last.now octets.now }
    ensures { EndsFrom last.now octets.now result }
{
    (octets.len() - last.len()) as u64
}

/// Where what a message carries begins; 0 where it carries nothing.
fn place_of(octets: &[u8], view: &UserView<'_>, body: &UserBody<'_>) -> u64
    requires spelled { IsUserMessage octets.now view.now }
    requires body { content_of body.now ≡ view.now.content }
    ensures { LiesAt view.now.content octets.now result }
{
    match *body {
        UserBody::Notification { .. } => types_at(
            octets,
            header_len(octets) + view.extensions().octets().len(),
        ) as u64,
        UserBody::Packet { payload, .. } => last_at(octets, payload),
        UserBody::Other {
            octets: carried,
            ..
        } => last_at(octets, carried),
        UserBody::EchoRequest
        | UserBody::EchoResponse
        | UserBody::ErrorIndication { .. }
        | UserBody::EndMarker { .. } => 0,
    }
}

/// What a message carries, but for what its header and its chain say.
#[derive(Clone, Copy)]
struct Carried {
    teid: u32,
    payload_len: u64,
    peer: Address,
}

/// What a message carries.
fn carried_by(body: &UserBody<'_>) -> Carried
    ensures { IsCarried (content_of body.now) result }
{
    Carried {
        teid: teid_of(body),
        payload_len: length_of(body),
        peer: peer_of(body),
    }
}

/// What a G-PDU carries.
#[inline(always)]
fn carried_in(teid: Teid, payload: &[u8]) -> Carried
    ensures { IsCarried (Packet teid payload.now) result }
{
    Carried {
        teid: teid.0,
        payload_len: payload.len() as u64,
        peer: Address::none(),
    }
}

impl UserHead {
    /// Of a message that carries this.
    #[inline(always)]
    fn of(view: &UserView<'_>, carried: Carried, payload_at: u64) -> UserHead
        requires { IsCarried view.now.content carried }
        ensures told { IsUserTold view.now result }
        ensures place { result.payload_at ≡ payload_at }
    {
        let (has_seq, seq) = match view.seq() {
            Some(seq) => (1, seq),
            None => (0, 0),
        };
        let (has_npdu, npdu) = match view.npdu() {
            Some(npdu) => (1, npdu),
            None => (0, 0),
        };
        let extensions = view.extensions();
        UserHead {
            payload_at,
            payload_len: carried.payload_len,
            extensions_len: extensions.octets().len() as u64,
            teid: carried.teid,
            seq,
            has_seq,
            has_npdu,
            npdu,
            kind: view.kind(),
            extension: extensions.first_kind(),
            peer: carried.peer,
        }
    }

    /// Of a message that is no G-PDU. It is told out of line, so that a G-PDU needs no room for it.
    #[cold]
    #[inline(never)]
    fn put_other(&mut self, octets: &[u8], view: &UserView<'_>)
        requires { IsUserMessage octets.now view.now }
        ensures told { IsUserTold view.now self.new }
        ensures place { LiesAt view.now.content octets.now self.new.payload_at }
    {
        let message = view.to_message();
        let payload_at = place_of(octets, view, &message.body);
        *self = UserHead::of(view, carried_by(&message.body), payload_at);
    }

    /// Of a message that a datagram spells.
    #[inline(always)]
    fn put(&mut self, octets: &[u8], view: &UserView<'_>)
        requires { IsUserMessage octets.now view.now }
        ensures told { IsUserTold view.now self.new }
        ensures place { LiesAt view.now.content octets.now self.new.payload_at }
    {
        match view.packet() {
            Some((_, payload)) => {
                let teid = view.teid().unwrap_or(Teid(0));
                let carried = carried_in(teid, payload);
                *self = UserHead::of(view, carried, last_at(octets, payload));
            }
            None => self.put_other(octets, view),
        }
    }
}

/// Reads a datagram of the user plane: 0 with `head` filled, or 9 with `fault`, its first fault.
#[unsafe(no_mangle)]
pub extern "C" fn gtp_user_read(octets: &[u8], head: &mut UserHead, fault: &mut Fault) -> u8
    // What is read is spelled so.
    ensures found { result ≡ 0 → IsUserRead octets.now head.new }
    // What is spelled is read.
    ensures only { (m : MessageValue) → IsUserMessage octets.now m → result ≡ 0 }
    // The first fault is told.
    ensures fault { result ≢ 0 → IsUserFaulty octets.now fault.new }
    // What does not belong to the answer is as it was.
    ensures no_head { result ≢ 0 → head.new ≡ head.old }
    ensures no_fault { result ≡ 0 → fault.new ≡ fault.old }
    ensures known { result ≢ 0 → result ≡ 9 }
{
    match view(octets) {
        Ok(view) => {
            head.put(octets, &view);
            DONE
        }
        Err(first) => {
            *fault = Fault::of_user(first);
            FAULTY
        }
    }
}
