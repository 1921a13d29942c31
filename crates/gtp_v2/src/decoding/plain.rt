//! Decoding messages that have no fault, in a straight line.

ghost use Rattle.std.specs.Prelude.{◌≡◌, ◌∷◌, Ok, None, IfSome};
ghost use Rattle.gtp_v2.specs.Priority.{PriorityNeedsTeid};
ghost use Rattle.gtp_v2.specs.Body.{message_value, OctetsOnlyWithoutTable};
ghost use Rattle.gtp_v2.specs.Pair.{datagram_value};
ghost use Rattle.gtp_v2.specs.reading.Message.{message_at};
ghost use Rattle.gtp_v2.specs.reading.Pair.{datagram_at};

use crate::body::{has_table, read_body};
use crate::flags::announces_none;
use crate::header::read_header;
use crate::message::Datagram;
use gtp_ie::indexed_at;
use std::alloc::Global;

/// The datagram of a message of a type with a table, which has what its table asks, by one reading; `None` where it is
/// another, has a fault, or memory ran out. It answers no fault and is in line, so that the message is moved once.
#[inline(always)]
fn read_plain(
    alloc: Global,
    first: u8,
    kind: u8,
    high: u8,
    low: u8,
    rest: &[u8],
) -> Option<Datagram>
    ensures message { IfSome result (λ d.
        message_at (first ∷ kind ∷ high ∷ low ∷ rest.now) ≡ Ok (message_value d.message)) }
    ensures alone { IfSome result (λ d. d.second ≡ None) }
    ensures header { IfSome result (λ d. PriorityNeedsTeid d.message.teid d.message.priority) }
    ensures kind { IfSome result (λ d. OctetsOnlyWithoutTable d.message.body) }
{
    if !has_table(kind) {
        return None;
    }
    let Ok(header) = read_header(first, kind, high, low, rest) else {
        return None;
    };
    let Ok(elements) = indexed_at(header.rest, header.at) else {
        return None;
    };
    let Some(body) = read_body(alloc, header.kind, header.teid.is_some(), &elements) else {
        return None;
    };
    Some(Datagram::of(&header, body))
}

/// The same of a datagram, which announces no other message.
#[inline(always)]
#[tactic(auto, unfolding(crate::specs::reading::Pair::datagram_at, crate::specs::reading::Pair::alone_at))]
pub fn read_alone(alloc: Global, octets: &[u8]) -> Option<Datagram>
    ensures messages { IfSome result (λ d. datagram_at octets.now ≡ Ok (datagram_value d)) }
    ensures alone { IfSome result (λ d. d.second ≡ None) }
    ensures header { IfSome result (λ d. PriorityNeedsTeid d.message.teid d.message.priority) }
    ensures kind { IfSome result (λ d. OctetsOnlyWithoutTable d.message.body) }
{
    let [first, kind, high, low, rest @ ..] = octets else {
        return None;
    };
    if !announces_none(*first) {
        return None;
    }
    read_plain(alloc, *first, *kind, *high, *low, rest)
}
