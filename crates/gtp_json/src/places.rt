//! Where the fault of a datagram lies. Places count octets from the start of the datagram.

ghost use Rattle.std.specs.Prelude.{◌≡◌, ◌↔◌, ◌+◌, ◌*◌, ◌++◌, IsTrue, OnOk, length, codes};
ghost use Rattle.gtp_v2.specs.Pair.{IsDatagramFault};
ghost use Rattle.gtp_v2.specs.declared.fault.V2Fault.TheVariants as faults;
ghost use Rattle.gtp_json.specs.Places.{BeginsFault, LiesAt, user_place as spec_user_place};
ghost use Rattle.gtp_json.specs.User.{some_member};
ghost use Rattle.gtp_json.specs.reading.Second.{IsSecondPlace};
ghost use Rattle.gtp_json.specs.reading.Tokens.{written};

use crate::object::Output;
use byteorder::{BigEndian, ByteOrder};
use gtp_user::UserFault;
use gtp_v2::{V2Fault, view};
use std::alloc::AllocError;

/// The size in two octets, the high one first.
fn size_of(high: u8, low: u8) -> usize
    ensures { result ≡ 256 * high + low }
{
    usize::from(BigEndian::read_u16(&[high, low]))
}

/// Whether a fault is that no message begins at this place.
fn is_missing_at(fault: &V2Fault, place: usize) -> bool
    ensures { IsTrue result ↔ (fault.now ≡ faults.BadPiggyback place) }
{
    match fault {
        V2Fault::BadPiggyback { at } => *at == place,
        V2Fault::Short { .. }
        | V2Fault::Version { .. }
        | V2Fault::Length { .. }
        | V2Fault::FlagT { .. }
        | V2Fault::Missing { .. }
        | V2Fault::Element { .. }
        | V2Fault::Memory
        | V2Fault::TooLong => false,
    }
}

/// Whether octets are a message that is right, and announce another.
fn lacks_second(front: &[u8]) -> bool
    ensures { IsTrue result
        ↔ IsDatagramFault front.now (faults.BadPiggyback (length front.now)) }
{
    match view(front) {
        Ok(_) => false,
        Err(fault) => is_missing_at(&fault, front.len()),
    }
}

/// The place of the second message, which a first one that is right announces.
fn second_place(octets: &[u8]) -> Option<usize>
    ensures { IsSecondPlace octets.now result }
{
    let [_, _, high, low, ..] = octets else {
        return None;
    };
    let size = 4 + size_of(*high, *low);
    let front = octets.get(..size)?;
    lacks_second(front).then_some(size)
}

/// The place of the message at fault.
fn message_place(octets: &[u8]) -> usize
    ensures { BeginsFault octets.now result }
{
    match second_place(octets) {
        Some(place) => place,
        None => 0,
    }
}

/// Where a fault of these octets lies, where what follows its code does not say it.
pub fn fault_place(octets: &[u8], fault: &V2Fault) -> Option<usize>
    ensures { LiesAt octets.now fault.now result }
{
    match fault {
        V2Fault::Missing {
            group: Some(at),
            ..
        } => Some(*at),
        V2Fault::BadPiggyback { .. }
        | V2Fault::Element { .. }
        | V2Fault::Memory
        | V2Fault::TooLong => None,
        V2Fault::Short { .. }
        | V2Fault::Version { .. }
        | V2Fault::Length { .. }
        | V2Fault::FlagT { .. }
        | V2Fault::Missing { group: None, .. } => Some(message_place(octets)),
    }
}

/// The same of a datagram of the user plane.
pub fn user_fault_place(fault: &UserFault) -> Option<usize>
    ensures { result ≡ spec_user_place fault.now }
{
    match fault {
        UserFault::ExtensionNeeded { at, .. } => Some(*at),
        UserFault::ExtensionZero { .. }
        | UserFault::ExtensionPast { .. }
        | UserFault::Element { .. }
        | UserFault::Memory
        | UserFault::TooLong => None,
        UserFault::Short { .. }
        | UserFault::Version { .. }
        | UserFault::Protocol
        | UserFault::Length { .. }
        | UserFault::Missing { .. } => Some(0),
    }
}

/// Writes a place, where there is one.
#[tactic(auto, using(crate::proofs::Tokens::appending))]
pub fn put_at(out: &mut Output, place: Option<usize>) -> Result<(), AllocError>
    ensures ok { OnOk result (out.new ≡ out.old ++ written (some_member (codes "at") place)) }
{
    match place {
        Some(place) => out.number_member("at", place as u64),
        None => Ok(()),
    }
}
