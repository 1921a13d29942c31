//! The first fault of a datagram of the control plane (TS 29.274 7.7).

ghost use Rattle.std.specs.Prelude.{◌≡◌, ◌<◌};
ghost use Rattle.gtp_v2.specs.Instances.{ElementInstanceIsSmall, InstanceIsSmall};
ghost use Rattle.gtp_machine.specs.Reading.{control_fault, request_type, missing_in, defect_in, element_fault, announces, datagram_fault};
ghost use Rattle.gtp_gateway.specs.receive.InvalidRequest.{defect_of, reading_of};

use crate::receive::invalid_request::{Defect, FaultyRequest, Flaw};
use gtp_ie::IeFault;
use gtp_machine::MessageType;
use gtp_v2::flags::announces_another;
use gtp_v2::{BAD_ELEMENT, Head, V2Fault};
use gtp_values::{Below, Teid};

/// The type of a request, where its faults are answered.
fn request_of(kind: u8) -> Option<MessageType>
    ensures { result ≡ request_type kind }
{
    match MessageType::of(kind) {
        Some(message_type) if message_type.is_request() => Some(message_type),
        _ => None,
    }
}

/// A missing element.
fn missing(conditional: bool) -> Defect
    ensures { defect_of result ≡ missing_in conditional }
{
    if conditional {
        Defect::ConditionalMissing
    } else {
        Defect::MandatoryMissing
    }
}

/// An element at fault: of a request that is answered, or of another message.
fn flaw_in(head: &Head, defect: Defect, element: u8, instance: u8) -> Flaw
    requires { instance < 16 }
    ensures { reading_of result
        ≡ defect_in (request_type head.now.kind) head.now (defect_of defect) element instance }
{
    match request_of(head.kind) {
        None => Flaw::Plain(defect.number()),
        Some(kind) => Flaw::Faulty(FaultyRequest {
            kind,
            header: head.teid.unwrap_or(Teid(0)),
            seq: head.seq,
            defect,
            element,
            instance: Below::new(instance),
            sender: head.sender,
        }),
    }
}

/// An element that has no value; one that runs past the end of its list is answered by none.
fn element_flaw(head: &Head, fault: &IeFault) -> Flaw
    requires { ElementInstanceIsSmall fault.now }
    ensures { reading_of result ≡ element_fault head.now fault.now }
{
    match *fault {
        IeFault::ShortValue { kind, instance, .. } => {
            flaw_in(head, Defect::TooShort, kind, instance)
        }
        IeFault::BadValue { kind, instance, .. } => {
            flaw_in(head, Defect::OutOfRange, kind, instance)
        }
        IeFault::Truncated { .. } | IeFault::Memory | IeFault::TooLong => Flaw::Plain(BAD_ELEMENT),
    }
}

/// What is wrong with a message, by its first fault.
fn message_flaw(fault: &V2Fault) -> Flaw
    requires { InstanceIsSmall fault.now }
    ensures { reading_of result ≡ control_fault fault.now }
{
    match fault {
        V2Fault::Missing {
            kind,
            instance,
            conditional,
            head,
            ..
        } => flaw_in(head, missing(*conditional), *kind, *instance),
        V2Fault::Element { fault, head } => element_flaw(head, fault),
        _ => Flaw::Plain(fault.number()),
    }
}

/// Whether the first message of a datagram announces a second one (TS 29.274 5.5.1).
pub fn announces_second(octets: &[u8]) -> bool
    ensures { result ≡ announces octets.now }
{
    match octets {
        [first, _, _, _, ..] => announces_another(*first),
        _ => false,
    }
}

/// What is wrong with a datagram, by its first fault. Where a second message is announced, no fault is
/// answered.
pub fn flaw_of(octets: &[u8], fault: &V2Fault) -> Flaw
    requires { InstanceIsSmall fault.now }
    ensures { reading_of result ≡ datagram_fault (announces octets.now) fault.now }
{
    if announces_second(octets) {
        Flaw::Plain(fault.number())
    } else {
        message_flaw(fault)
    }
}
