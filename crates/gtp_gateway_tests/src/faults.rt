//! What is said of a scenario, a command or a datagram that is refused, and of a run that has no capture.

use gtp_gateway::{CommandFault, DropReason, FaultName, Plane, Refusal};
use gtp_replay::NoCapture;
use gtp_scenario::ReadFault;
use std::alloc::Global;
use std::fmt::Display;
use std::process::Abort;
use std::test::Fail;

/// Each fault is told in its words.
fn are_told<T: Display>(rt: &impl Abort, alloc: Global, rows: &[(T, &str)]) -> Result<(), Fail> {
    for (fault, words) in rows {
        let told = fault.to_string(alloc)?;
        assert!(rt; told.as_str() == *words, "{told}");
    }
    Ok(())
}

/// Why a scenario is not read.
const OF_SCENARIOS: &[(ReadFault, &str)] = &[
    (ReadFault::Refused(gtp_scenario::Refusal::Json), "bad json"),
    (
        ReadFault::Refused(gtp_scenario::Refusal::Head),
        "bad scenario head",
    ),
    (
        ReadFault::Refused(gtp_scenario::Refusal::Event(0)),
        "bad scenario event 0",
    ),
    (
        ReadFault::Refused(gtp_scenario::Refusal::Event(100)),
        "bad scenario event 100",
    ),
    (ReadFault::Memory, "no memory"),
];

/// Why a command is not carried out.
const OF_COMMANDS: &[(CommandFault, &str)] = &[
    (
        CommandFault::Refused(Refusal::NoSuchContext),
        "G1: no such session or bearer",
    ),
    (
        CommandFault::Refused(Refusal::NotActive),
        "G2: the session or bearer is not active",
    ),
    (
        CommandFault::Refused(Refusal::WrongRole),
        "G3: this is a command of the other gateway",
    ),
    (
        CommandFault::Refused(Refusal::SessionsFull),
        "G4 S1: there are 1000 sessions",
    ),
    (
        CommandFault::Refused(Refusal::TeidsUsed),
        "G4 S4: too few TEIDs are left",
    ),
    (
        CommandFault::Refused(Refusal::PendingFull),
        "G4 B1: 256 requests are pending",
    ),
    (
        CommandFault::Refused(Refusal::BearerEnded),
        "G5: an End Marker was sent on this bearer before",
    ),
    (
        CommandFault::Refused(Refusal::PacketTooLong),
        "G7: the payload has more than 65000 octets",
    ),
    (CommandFault::Memory, "no memory"),
];

/// Why a datagram is dropped.
const OF_DATAGRAMS: &[(DropReason, &str)] = &[
    (
        DropReason::Undecodable(FaultName {
            plane: Plane::Control,
            number: 6,
        }),
        "X1: the octets are no message, by fault H6",
    ),
    (
        DropReason::Undecodable(FaultName {
            plane: Plane::User,
            number: 4,
        }),
        "X1: the octets are no message, by fault U4",
    ),
    (
        DropReason::OldCounter,
        "X2: the restart counter is an earlier one",
    ),
    (
        DropReason::NoPending,
        "X3: no request with this sequence number is pending",
    ),
    (
        DropReason::Mismatch,
        "X4: it is no answer to the request with this sequence number",
    ),
    (
        DropReason::ContextNotActive,
        "X5: the session or bearer is not in a state to take it",
    ),
    (DropReason::UnknownContext, "X6: no bearer has this TEID"),
    (
        DropReason::AfterEnd,
        "X7: an End Marker was received on this bearer before",
    ),
    (DropReason::HeldFull, "X8: 4096 answers are held"),
    (DropReason::Unexpected, "X9: this gateway does not take it"),
    (
        DropReason::UnknownExtension,
        "X10: an extension header that must be understood is not known",
    ),
    (
        DropReason::NotPeer,
        "X11: the source address is not the peer's",
    ),
    (
        DropReason::OtherVersion,
        "X12: it is of another version, and the sender is told which one is supported",
    ),
];

/// Why a run has no capture.
const OF_CAPTURES: &[(NoCapture, &str)] = &[
    (
        NoCapture::NoPacket { number: 7 },
        "no packet for datagram 7",
    ),
    (NoCapture::Memory, "no memory"),
];

#[test]
fn faults_in_words(rt: HostRuntime) -> Result<(), Fail> {
    let alloc = rt.alloc();
    are_told(&rt, alloc, OF_SCENARIOS)?;
    are_told(&rt, alloc, OF_COMMANDS)?;
    are_told(&rt, alloc, OF_DATAGRAMS)?;
    are_told(&rt, alloc, OF_CAPTURES)
}
