//! Views of messages that have no fault, in a straight line.

ghost use Rattle.std.specs.Prelude.{◌≡◌, ◌∷◌, Ok, IfSome};
ghost use Rattle.gtp_v2.specs.Priority.{PriorityNeedsTeid};
ghost use Rattle.gtp_v2.specs.Pair.{LiesIn, LieIn, OfEach, datagram_seen};
ghost use Rattle.gtp_v2.specs.reading.Message.{message_at};
ghost use Rattle.gtp_v2.specs.reading.Pair.{datagram_at};

use super::{DatagramView, MessageView};
use crate::body::{has_table, passes};
use crate::flags::announces_none;
use crate::header::read_header;
use gtp_ie::indexed_at;

/// A view of a message of a type with a table, which has what its table asks; `None` where it is another or has a
/// fault. It answers no fault and is in line, so that what is viewed is moved once.
#[inline(always)]
fn view_plain<'a>(first: u8, kind: u8, high: u8, low: u8, rest: &'a [u8]) -> Option<MessageView<'a>>
    ensures message { IfSome result (λ v. message_at (first ∷ kind ∷ high ∷ low ∷ rest.now) ≡ Ok v.message) }
    ensures header { IfSome result (λ v. PriorityNeedsTeid v.message.teid v.message.priority) }
    ensures lies { IfSome result (LiesIn (first ∷ kind ∷ high ∷ low ∷ rest.now)) }
{
    if !has_table(kind) {
        return None;
    }
    let Ok(header) = read_header(first, kind, high, low, rest) else {
        return None;
    };
    let Ok(elements) = indexed_at(header.rest, header.at) else {
        return None;
    };
    if !passes(header.kind, header.teid.is_some(), &elements) {
        return None;
    }
    Some(MessageView {
        header,
        elements: Some(elements),
    })
}

/// The same of a datagram, which announces no other message.
#[inline(always)]
#[tactic(auto, unfolding(crate::specs::reading::Pair::datagram_at, crate::specs::reading::Pair::alone_at))]
pub fn view_alone(octets: &[u8]) -> Option<DatagramView<'_>>
    ensures messages { IfSome result (λ v. datagram_at octets.now ≡ Ok (datagram_seen v)) }
    ensures header { IfSome result (λ v.
        OfEach (λ s. PriorityNeedsTeid s.message.teid s.message.priority) v.message v.second) }
    ensures lie { IfSome result (λ v. LieIn octets.now v.message v.second v.back) }
{
    let [first, kind, high, low, rest @ ..] = octets else {
        return None;
    };
    if !announces_none(*first) {
        return None;
    }
    let Some(message) = view_plain(*first, *kind, *high, *low, rest) else {
        return None;
    };
    Some(DatagramView { message, back: &[] })
}
