//! Decoding datagrams.

ghost use Rattle.std.specs.Prelude.{◌≡◌, IfOk, Err, IsOkAnd, ◌⊎◌, IfErr};
ghost use Rattle.gtp_v2.specs.Priority.{PriorityNeedsTeid};
ghost use Rattle.gtp_v2.specs.Message.{MessageGives};
ghost use Rattle.gtp_v2.specs.Pair.{DatagramValue, IsDatagram, IsDatagramFault, OfEach, DatagramAllocates, MayAllocate, datagram_value, second_of};
ghost use Rattle.gtp_v2.specs.reading.Pair.{datagram_at};
ghost use Rattle.gtp_v2.specs.Body.{message_value, OctetsOnlyWithoutTable};
ghost use Rattle.gtp_v2.specs.Marks.{MeetsMarks};
ghost use Rattle.gtp_v2.specs.Instances.{InstanceIsSmall};
ghost use Rattle.gtp_v2.specs.declared.fault.V2Fault.{V2Fault as AnyFault};

use crate::fault::V2Fault;
use crate::message::Datagram;
use crate::viewing::view_any;
use std::alloc::Global;

mod plain;

use plain::read_alone;

/// A fault. Not inlined, so that what is built on the other way is written where the caller wants it, and
/// not moved there.
#[cold]
#[inline(never)]
fn refused(fault: V2Fault) -> Result<Datagram, V2Fault>
    ensures { result ≡ Err fault }
{
    Err(fault)
}

/// The messages that a datagram spells, by a view of it. A call of its own, so that its answer is moved only where it is
/// needed.
#[cold]
#[inline(never)]
fn read_viewed(alloc: Global, octets: &[u8]) -> Result<Datagram, V2Fault>
    ensures messages { MessageGives DatagramAllocates datagram_value result (datagram_at octets.now) }
    ensures kind { IfOk result
        (λ d. OfEach (λ m. OctetsOnlyWithoutTable m.body) d.message (second_of d)) }
    ensures header { IfOk result
        (λ d. OfEach (λ m. PriorityNeedsTeid m.teid m.priority) d.message (second_of d)) }
    ensures marks { IfOk result
        (λ d. OfEach (λ m. MeetsMarks (message_value m)) d.message (second_of d)) }
{
    match view_any(octets) {
        Ok(seen) => seen.to_datagram(alloc),
        Err(fault) => refused(fault),
    }
}

/// The same, a message alone first, of a type with a table and without a fault, by one reading: faults, what is rare and
/// memory that ran out are for a view, out of line.
fn read_datagram(alloc: Global, octets: &[u8]) -> Result<Datagram, V2Fault>
    ensures messages { MessageGives DatagramAllocates datagram_value result (datagram_at octets.now) }
    ensures kind { IfOk result
        (λ d. OfEach (λ m. OctetsOnlyWithoutTable m.body) d.message (second_of d)) }
    ensures header { IfOk result
        (λ d. OfEach (λ m. PriorityNeedsTeid m.teid m.priority) d.message (second_of d)) }
    ensures marks { IfOk result
        (λ d. OfEach (λ m. MeetsMarks (message_value m)) d.message (second_of d)) }
{
    if let Some(datagram) = read_alone(alloc, octets) {
        return Ok(datagram);
    }
    match read_viewed(alloc, octets) {
        Ok(datagram) => Ok(datagram),
        Err(fault) => Err(fault),
    }
}

/// The message that a datagram spells, or the two, or its first fault; `Memory` where an allocation was
/// refused, once more after a first refusal, and then the datagram has no fault.
pub fn decode(alloc: Global, octets: &[u8]) -> Result<Datagram, V2Fault>
    // What is answered is spelled so.
    ensures found { IfOk result (λ d. IsDatagram octets.now (datagram_value d)) }
    // What is spelled so is answered, unless memory runs out, which it does only where some is allocated.
    ensures only { (d : DatagramValue) → IsDatagram octets.now d
        → IsOkAnd result (λ x. datagram_value x ≡ d)
        ⊎ ((result ≡ Err V2Fault.Memory) × DatagramAllocates d) }
    // The first fault is answered, whether or not there is memory.
    ensures first { (f : AnyFault) → IsDatagramFault octets.now f → result ≡ Err f }
    // A fault is the first one.
    ensures fault { IfErr result (λ f. (f ≡ V2Fault.Memory) ⊎ IsDatagramFault octets.now f) }
    // An instance that a fault names is below 16.
    ensures instance { IfErr result InstanceIsSmall }
    // Memory runs out only where some is allocated: for a Create Session Request or Response, for a message in which
    // a list has a member, or of which octets are kept, or for a second one.
    ensures memory { result ≡ Err V2Fault.Memory → MayAllocate octets.now }

    // What was decoded meets the conditions of `encode` and the marks of its table.
    ensures kind { IfOk result
        (λ d. OfEach (λ m. OctetsOnlyWithoutTable m.body) d.message (second_of d)) }
    ensures header { IfOk result
        (λ d. OfEach (λ m. PriorityNeedsTeid m.teid m.priority) d.message (second_of d)) }
    ensures marks { IfOk result
        (λ d. OfEach (λ m. MeetsMarks (message_value m)) d.message (second_of d)) }
{
    read_datagram(alloc, octets)
}
