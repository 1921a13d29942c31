//! Datagrams judged where further types of extension headers are understood.

ghost use Rattle.std.specs.Prelude.{◌≡◌, ◌≤◌, length, IfOk, IfErr, Ok, Err};
ghost use Rattle.gtp_values.specs.Steps.{Gives};
ghost use Rattle.gtp_user.specs.declared.fault.UserFault.{UserFault as AnyFault};
ghost use Rattle.gtp_user.specs.Message.{MessageValue};
ghost use Rattle.gtp_user.specs.Datagram.{IsUserMessageBy, IsUserFaultBy};
ghost use Rattle.gtp_user.specs.reading.Walk.{is_understood, front_by, tail_by};
ghost use Rattle.gtp_user.specs.reading.Chained.{front_of};
ghost use Rattle.gtp_user.specs.reading.Message.{judged};

use crate::body::read_body;
use crate::fault::UserFault;
use crate::front::{Front, read_front};
use crate::header::read_header;

/// Whether a type is one of these.
fn is_understood(understood: &[u8], kind: u8) -> bool
    ensures { result ≡ is_understood understood.now kind }
{
    for known in understood {
        if kind == *known {
            return true;
        }
    }
    false
}

/// The header of this type at the start of the last octets of a datagram of `end` octets, where these
/// types are understood: one of these is read as one that need not be understood.
fn judge_front<'a>(
    understood: &[u8],
    kind: u8,
    octets: &'a [u8],
    end: usize,
) -> Result<Front<'a>, UserFault>
    requires { length octets.now ≤ end }
    ensures { Gives front_of result (front_by understood.now end kind octets.now) }
{
    let read_as = if is_understood(understood, kind) {
        1
    } else {
        kind
    };
    read_front(read_as, octets, end)
}

/// The octets after the chain at the start of the last octets of a datagram of `end` octets, its first
/// header of this type.
fn judge_chain<'a>(
    understood: &[u8],
    first: u8,
    octets: &'a [u8],
    end: usize,
) -> Result<&'a [u8], UserFault>
    requires { length octets.now ≤ end }
    ensures rest { Gives (λ rest. rest.now) result (tail_by understood.now end first octets.now) }
    ensures within { IfOk result (λ rest. length rest.now ≤ length octets.now) }
{
    let mut kind = first;
    let mut rest = octets;
    while kind != 0 {
        let front = judge_front(understood, kind, rest, end)?;
        kind = front.next;
        rest = front.rest;
    }
    Ok(rest)
}

/// That a datagram spells a message, where these types of extension headers are understood, by one reading.
#[tactic(auto, unfolding(crate::specs::reading::Message::judged))]
fn judge_message(understood: &[u8], octets: &[u8]) -> Result<(), UserFault>
    ensures { Gives (λ u. u) result (judged understood.now octets.now) }
{
    let header = match read_header(octets) {
        Ok(header) => header,
        Err(fault) => return Err(fault),
    };
    let tail = match judge_chain(understood, header.first, header.rest, octets.len()) {
        Ok(tail) => tail,
        Err(fault) => return Err(fault),
    };
    match read_body(header.kind, header.teid, tail, octets.len()) {
        Ok(_) => Ok(()),
        Err(fault) => Err(fault),
    }
}

/// That a datagram spells a message, by a receiver who understands these types of extension headers beside
/// those that need not be understood; else its first fault. Takes no memory.
pub fn judge(understood: &[u8], octets: &[u8]) -> Result<(), UserFault>
    // What passes is spelled so.
    ensures found { IfOk result (λ _. (m : MessageValue)
        × IsUserMessageBy understood.now octets.now m) }
    // What is spelled so passes.
    ensures only { (m : MessageValue) →
        IsUserMessageBy understood.now octets.now m → result ≡ Ok tt }
    // A fault is the first one.
    ensures fault { IfErr result (λ f. IsUserFaultBy understood.now octets.now f) }
    // The first fault is answered.
    ensures first { (f : AnyFault) →
        IsUserFaultBy understood.now octets.now f → result ≡ Err f }
{
    judge_message(understood, octets)
}
