//! Decoding datagrams.

ghost use Rattle.std.specs.Prelude.{◌≡◌, IfOk, IfErr, IfSome, IsOkAnd, Ok, Err};
ghost use Rattle.gtp_values.specs.Steps.{Gives};
ghost use Rattle.gtp_user.specs.declared.fault.UserFault.{UserFault as AnyFault};
ghost use Rattle.gtp_user.specs.Message.{MessageValue, message_value};
ghost use Rattle.gtp_user.specs.reading.Message.{message_at};
ghost use Rattle.gtp_user.specs.Datagram.{IsUserMessage, IsUserFault};

use crate::body::read_body;
use crate::extension::read_chain;
use crate::fault::UserFault;
use crate::header::read_header;
use crate::kinds::G_PDU;
use crate::message::{UserBody, UserMessage};

/// The G-PDU that a datagram spells; `None` for another message and for a fault. It is read in line, so
/// that its parts stay in registers.
#[inline(always)]
#[tactic(auto, unfolding(crate::specs::reading::Message::message_at, crate::specs::reading::Message::body_at))]
fn read_packet(octets: &[u8]) -> Option<UserMessage<'_>>
    ensures { IfSome result (λ m. message_at octets.now ≡ Ok (message_value m)) }
{
    let Ok(header) = read_header(octets) else {
        return None;
    };
    if header.kind != G_PDU {
        return None;
    }
    let Ok((ext, payload)) = read_chain(header.first, header.rest, octets.len()) else {
        return None;
    };
    Some(UserMessage {
        seq: header.seq,
        npdu: header.npdu,
        ext,
        body: UserBody::Packet {
            teid: header.teid,
            payload,
        },
    })
}

/// The message that a datagram spells, by one reading.
#[cold]
#[inline(never)]
#[tactic(auto, unfolding(crate::specs::reading::Message::message_at))]
fn read_message(octets: &[u8]) -> Result<UserMessage<'_>, UserFault>
    ensures { Gives message_value result (message_at octets.now) }
{
    let header = match read_header(octets) {
        Ok(header) => header,
        Err(fault) => return Err(fault),
    };
    let (ext, rest) = read_chain(header.first, header.rest, octets.len())?;
    let body = match read_body(header.kind, header.teid, rest, octets.len()) {
        Ok(body) => body,
        Err(fault) => return Err(fault),
    };
    let seq = match body {
        UserBody::EchoRequest
        | UserBody::EchoResponse
        | UserBody::ErrorIndication { .. }
        | UserBody::Notification { .. } => Some(header.seq.unwrap_or(0)),
        UserBody::EndMarker { .. } | UserBody::Packet { .. } | UserBody::Other { .. } => header.seq,
    };
    Ok(UserMessage {
        seq,
        npdu: header.npdu,
        ext,
        body,
    })
}

/// The message that a datagram spells. A G-PDU is read first; other messages and faults are read out of
/// line, so that a G-PDU needs no room for them.
#[inline(always)]
pub fn read_first(octets: &[u8]) -> Result<UserMessage<'_>, UserFault>
    ensures { Gives message_value result (message_at octets.now) }
{
    if let Some(message) = read_packet(octets) {
        return Ok(message);
    }
    match read_message(octets) {
        Ok(message) => Ok(message),
        Err(fault) => Err(fault),
    }
}

/// The message that a datagram spells, or its first fault. It is handed no allocator, so it takes no
/// memory, and the slices of its answer lie in the datagram.
#[inline(always)]
pub fn decode(octets: &[u8]) -> Result<UserMessage<'_>, UserFault>
    // What is answered is spelled so.
    ensures found { IfOk result (λ m. IsUserMessage octets.now (message_value m)) }
    // What is spelled so is answered.
    ensures only { (m : MessageValue) →
        IsUserMessage octets.now m → IsOkAnd result (λ answer. message_value answer ≡ m) }
    // A fault is the first one.
    ensures fault { IfErr result (IsUserFault octets.now) }
    // The first fault is answered.
    ensures first { (f : AnyFault) → IsUserFault octets.now f → result ≡ Err f }
{
    read_first(octets)
}
