//! What a diagram says of a datagram.

ghost use Rattle.std.specs.Prelude.{◌≡◌, IfOk, option_map, codes};
ghost use Rattle.gtp_user.specs.Message.{content_of};
ghost use Rattle.gtp_v2.specs.Pair.{datagram_seen};
ghost use Rattle.gtp_world.specs.Record.{sent_by};
ghost use Rattle.gtp_replay.specs.Labels.{named, control_names, user_names, AreNames, IsLabel};
ghost use Rattle.gtp_values.specs.declared.plane.Plane.TheVariants as planes;

use gtp_gateway::Plane;
use gtp_lines::text::{put, put_number, put_teid};
use gtp_lines::{body_name, message_name};
use gtp_user::UserBody;
use gtp_v2::{DatagramView, view};
use gtp_values::Teid;
use gtp_world::Datagram;
use std::alloc::{AllocError, Global};

/// A message's name, and the TEID of its header, where it has one.
#[tactic(auto, using(crate::proofs::Appends::appending))]
fn named(alloc: Global, name: &str, teid: Option<Teid>) -> Result<Vec<u8>, AllocError>
    ensures { IfOk result (λ text. text.items ≡ named name.now teid) }
{
    let mut text = Vec::new(alloc);
    put(&mut text, name.as_bytes())?;
    if let Some(teid) = teid {
        put(&mut text, b" ")?;
        put_teid(&mut text, teid)?;
    }
    Ok(text)
}

/// The names of the messages of a control datagram, and the TEID of the first.
#[tactic(auto, using(crate::proofs::Appends::appending))]
fn message_names(alloc: Global, seen: &DatagramView) -> Result<Vec<u8>, AllocError>
    ensures { IfOk result (λ text. text.items
        ≡ control_names (datagram_seen seen.now).first (datagram_seen seen.now).second) }
{
    let first = seen.message();
    let Some(second) = seen.second() else {
        return named(alloc, message_name(first.kind()), first.teid());
    };
    let mut text = Vec::new(alloc);
    put(&mut text, message_name(first.kind()).as_bytes())?;
    put(&mut text, b" + ")?;
    let other = named(alloc, message_name(second.kind()), first.teid())?;
    put(&mut text, &other)?;
    Ok(text)
}

/// That octets are no message.
fn fault(alloc: Global) -> Result<Vec<u8>, AllocError>
    ensures { IfOk result (λ text. text.items ≡ codes "fault") }
{
    let mut text = Vec::new(alloc);
    put(&mut text, b"fault")?;
    Ok(text)
}

/// The names of a control datagram.
fn control_names(alloc: Global, octets: &[u8]) -> Result<Vec<u8>, AllocError>
    ensures { IfOk result (λ text. AreNames planes.Control octets.now text.items) }
{
    match view(octets) {
        Ok(seen) => message_names(alloc, &seen),
        Err(_) => fault(alloc),
    }
}

/// The name of a message of the user plane, and its TEID, where it has one that counts.
fn user_names(alloc: Global, body: &UserBody) -> Result<Vec<u8>, AllocError>
    ensures { IfOk result (λ text. text.items ≡ user_names (content_of body.now)) }
{
    let name = body_name(body).unwrap_or("other");
    match body {
        UserBody::EndMarker { teid }
        | UserBody::Packet { teid, .. }
        | UserBody::Other { teid, .. } => named(alloc, name, Some(*teid)),
        _ => named(alloc, name, None),
    }
}

/// The names of a user datagram.
fn packet_names(alloc: Global, octets: &[u8]) -> Result<Vec<u8>, AllocError>
    ensures { IfOk result (λ text. AreNames planes.User octets.now text.items) }
{
    match gtp_user::decode(octets) {
        Ok(message) => user_names(alloc, &message.body),
        Err(_) => fault(alloc),
    }
}

/// The names of the messages of a datagram, and the TEID of the first.
fn names(alloc: Global, plane: Plane, octets: &[u8]) -> Result<Vec<u8>, AllocError>
    ensures { IfOk result (λ text. AreNames plane octets.now text.items) }
{
    match plane {
        Plane::Control => control_names(alloc, octets),
        Plane::User => packet_names(alloc, octets),
    }
}

/// The number of a datagram, and its names.
#[tactic(auto, using(crate::proofs::Appends::appending))]
pub(crate) fn label(
    alloc: Global,
    number: usize,
    datagram: &Datagram,
) -> Result<Vec<u8>, AllocError>
    ensures { IfOk result (λ text. IsLabel (number, sent_by datagram.now) text.items) }
{
    let mut text = Vec::new(alloc);
    put_number(&mut text, number as u64)?;
    put(&mut text, b" ")?;
    let names = names(alloc, datagram.sent.plane, &datagram.sent.octets)?;
    put(&mut text, &names)?;
    Ok(text)
}
