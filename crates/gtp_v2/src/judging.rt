//! Datagrams judged by tables that the caller hands in.

ghost use Rattle.std.specs.Prelude.{◌≡◌, ◌+◌, ◌/◌, ◌<◌, ◌≤◌, ◌^◌, ◌∷◌, Ok, Err, IfOk, IfErr, length, map};
ghost use Rattle.gtp_values.specs.Steps.{Gives};
ghost use Rattle.gtp_v2.specs.Asked.{line_of, asked_by};
ghost use Rattle.gtp_v2.specs.Pair.{DatagramValue, IsDatagramBy, IsDatagramFaultBy};
ghost use Rattle.gtp_v2.specs.Instances.{IsOfOctets};
ghost use Rattle.gtp_v2.specs.reading.Headed.{headed_of};
ghost use Rattle.gtp_v2.specs.reading.Checked.{forgotten};
ghost use Rattle.gtp_v2.specs.reading.Message.{typed_by, content_by, message_by};
ghost use Rattle.gtp_v2.specs.reading.Pair.{second_by, announced_by, datagram_by};
ghost use Rattle.gtp_v2.specs.reading.Places.{place_of_fault};
ghost use Rattle.gtp_v2.specs.declared.fault.V2Fault.{V2Fault as AnyFault};

use crate::asked::{Others, Tables, first_asked};
use crate::fault::{V2Fault, moved};
use crate::flags::announces_another;
use crate::header::{Header, read_header};
use crate::table::Line;
use crate::viewing::view_typed;
use byteorder::{BigEndian, ByteOrder};

/// That a header has a TEID exactly where one is asked for, that elements follow it, and that these have
/// what the lines ask.
fn judge_typed(has_teid: Option<bool>, lines: &[Line], header: &Header) -> Result<(), V2Fault>
    ensures { Gives (λ u. u) result (forgotten (typed_by has_teid (map line_of lines.now)
        (headed_of header.now))) }
{
    match view_typed(has_teid, lines, header) {
        Ok(_) => Ok(()),
        Err(fault) => Err(fault),
    }
}

/// That what follows a header is what these tables ask of its type.
fn judge_content(tables: &Tables, header: &Header) -> Result<(), V2Fault>
    ensures { Gives (λ u. u) result (forgotten (content_by (asked_by tables.now header.now.kind)
        (headed_of header.now))) }
{
    match first_asked(header.kind, tables.tables) {
        Some(asked) => judge_typed(asked.has_teid, asked.lines, header),
        None => match tables.others {
            Others::Octets => Ok(()),
            Others::Elements => judge_typed(None, &[], header),
        },
    }
}

/// That the message that begins with these four octets and has the rest after them is as these tables ask.
#[tactic(auto, unfolding(crate::specs::reading::Message::message_by))]
fn judge_opened(
    tables: &Tables,
    first: u8,
    kind: u8,
    high: u8,
    low: u8,
    rest: &[u8],
) -> Result<(), V2Fault>
    ensures message { Gives (λ u. u) result
        (forgotten (message_by (asked_by tables.now) (first ∷ kind ∷ high ∷ low ∷ rest.now))) }
    ensures place { IfErr result (λ f. place_of_fault f ≤ 4 + length rest.now) }
{
    let header = match read_header(first, kind, high, low, rest) {
        Ok(header) => header,
        Err(fault) => return Err(fault),
    };
    judge_content(tables, &header)
}

/// The same of octets.
#[tactic(auto, unfolding(crate::specs::reading::Message::message_by))]
fn judge_message(tables: &Tables, octets: &[u8]) -> Result<(), V2Fault>
    ensures message { Gives (λ u. u) result
        (forgotten (message_by (asked_by tables.now) octets.now)) }
    ensures place { IfErr result (λ f. place_of_fault f ≤ length octets.now) }
{
    let [first, kind, high, low, rest @ ..] = octets else {
        return Err(V2Fault::Short { held: octets.len() });
    };
    judge_opened(tables, *first, *kind, *high, *low, rest)
}

/// The same of the second message of a datagram, whose first octet has this place.
#[tactic(auto, unfolding(crate::specs::reading::Pair::second_by))]
fn judge_second(tables: &Tables, octets: &[u8], place: usize) -> Result<(), V2Fault>
    requires { place + length octets.now < 2 ^ 64 }
    ensures { Gives (λ u. u) result (forgotten (second_by (asked_by tables.now) place octets.now)) }
{
    if octets.is_empty() {
        return Err(V2Fault::BadPiggyback { at: place });
    }
    match judge_message(tables, octets) {
        Ok(()) => Ok(()),
        Err(fault) => Err(moved(fault, place)),
    }
}

/// The same of two messages, of which the first begins with these four octets and announces the second.
#[tactic(auto, unfolding(crate::specs::reading::Pair::announced_by, crate::specs::reading::Pair::pair_by))]
fn judge_pair(
    tables: &Tables,
    first: u8,
    kind: u8,
    high: u8,
    low: u8,
    held: &[u8],
) -> Result<(), V2Fault>
    requires announces { first / 16 ≡ 5 }
    requires place { 4 + length held.now < 2 ^ 64 }
    ensures { Gives (λ u. u) result
        (forgotten (announced_by (asked_by tables.now) first kind high low held.now)) }
{
    let stated = usize::from(BigEndian::read_u16(&[high, low]));
    if held.len() < stated {
        return Err(V2Fault::Length {
            stated,
            held: held.len(),
        });
    }
    let (front, back) = held.split_at(stated);
    match judge_opened(tables, first - 16, kind, high, low, front) {
        Ok(()) => judge_second(tables, back, 4 + stated),
        Err(fault) => Err(fault),
    }
}

/// The same of the message or of the two of a datagram.
#[tactic(auto, unfolding(crate::specs::reading::Pair::datagram_by, crate::specs::reading::Pair::alone_by, crate::specs::reading::Message::message_by))]
fn judge_datagram(tables: &Tables, octets: &[u8]) -> Result<(), V2Fault>
    ensures { Gives (λ u. u) result (forgotten (datagram_by (asked_by tables.now) octets.now)) }
{
    let [first, kind, high, low, rest @ ..] = octets else {
        return Err(V2Fault::Short { held: octets.len() });
    };
    if announces_another(*first) {
        judge_pair(tables, *first, *kind, *high, *low, rest)
    } else {
        judge_opened(tables, *first, *kind, *high, *low, rest)
    }
}

/// That a datagram is one message or two, each of which has what these tables ask of its type; else its
/// first fault. Takes no memory.
pub fn judge(tables: &Tables, octets: &[u8]) -> Result<(), V2Fault>
    // What passes is spelled so.
    ensures found { IfOk result (λ _. (d : DatagramValue)
        × IsDatagramBy (asked_by tables.now) octets.now d) }
    // What is spelled so passes.
    ensures only { (d : DatagramValue) →
        IsDatagramBy (asked_by tables.now) octets.now d → result ≡ Ok tt }
    // The first fault is answered.
    ensures first { (f : AnyFault) →
        IsDatagramFaultBy (asked_by tables.now) octets.now f → result ≡ Err f }
    // A fault is the first one.
    ensures fault { IfErr result (λ f. IsDatagramFaultBy (asked_by tables.now) octets.now f) }
    // No fault is out of memory or too long.
    ensures of_octets { IfErr result IsOfOctets }
{
    judge_datagram(tables, octets)
}
