//! The words and codes of outcomes, and those of planes.

ghost use Rattle.std.specs.Prelude.{◌≡◌, ◌++◌, OnOk, option_map};
ghost use Rattle.gtp_world.specs.Record.{outcome_of};
ghost use Rattle.gtp_outcomes.specs.Outcomes as words;
ghost use Rattle.gtp_outcomes.specs.Outcomes.{refusal_word, limit_word, spaced, drop_word, drop_detail, plane_word, plane_letter, outcome_word, outcome_detail, detail};

use gtp_gateway::{DropReason, FaultName, Outcome, Refusal};
use gtp_lines::text::{put, put_number, put_teid};
use gtp_values::{Plane, Teid};
use gtp_world::EventOutcome;
use std::alloc::AllocError;

/// The code of a refused command.
pub fn refusal_word(refusal: Refusal) -> &'static str
    ensures { result.now ≡ refusal_word refusal }
{
    match refusal {
        Refusal::NoSuchContext => "G1",
        Refusal::NotActive => "G2",
        Refusal::WrongRole => "G3",
        Refusal::SessionsFull | Refusal::TeidsUsed | Refusal::PendingFull => "G4",
        Refusal::BearerEnded => "G5",
        Refusal::PacketTooLong => "G7",
    }
}

/// The code of the limit that was reached, if the command was refused for one.
pub fn limit_word(refusal: Refusal) -> Option<&'static str>
    ensures { option_map (λ word. word.now) result ≡ limit_word refusal }
{
    match refusal {
        Refusal::SessionsFull => Some("S1"),
        Refusal::TeidsUsed => Some("S4"),
        Refusal::PendingFull => Some("B1"),
        _ => None,
    }
}

/// The code of a dropped datagram.
pub fn drop_word(reason: DropReason) -> &'static str
    ensures { result.now ≡ drop_word reason }
{
    match reason {
        DropReason::Undecodable(_) => "X1",
        DropReason::OldCounter => "X2",
        DropReason::NoPending => "X3",
        DropReason::Mismatch => "X4",
        DropReason::ContextNotActive => "X5",
        DropReason::UnknownContext => "X6",
        DropReason::AfterEnd => "X7",
        DropReason::HeldFull => "X8",
        DropReason::Unexpected => "X9",
        DropReason::UnknownExtension => "X10",
        DropReason::NotPeer => "X11",
        DropReason::OtherVersion => "X12",
    }
}

/// The first word of the outcome of a step of a gateway.
pub fn outcome_word(outcome: Outcome) -> &'static str
    ensures { result.now ≡ outcome_word outcome }
{
    match outcome {
        Outcome::Begun(_) => "begun",
        Outcome::GoneOut => "sent",
        Outcome::Refused(refusal) => refusal_word(refusal),
        Outcome::Answered(_) => "answered",
        Outcome::Echoed => "echoed",
        Outcome::Repeated => "repeated",
        Outcome::Opened => "opened",
        Outcome::Closed => "closed",
        Outcome::Clash => "clash",
        Outcome::Rejected(_) => "rejected",
        Outcome::Alive => "alive",
        Outcome::Accepted => "accepted",
        Outcome::Ended => "ended",
        Outcome::Broken => "broken",
        Outcome::Dropped(reason) => drop_word(reason),
    }
}

/// The first word of the outcome of an event. Allocates nothing.
pub fn first_word(outcome: EventOutcome) -> &'static str
    ensures { result.now ≡ words.first_word (outcome_of outcome) }
{
    match outcome {
        EventOutcome::CameTo(outcome) => outcome_word(outcome),
        EventOutcome::Ticked => "ticked",
        EventOutcome::Restarted(_) => "restarted",
        EventOutcome::NoSuchDatagram => "N1",
        EventOutcome::RestartsUsed => "N2",
        EventOutcome::CutTooLong => "N3",
    }
}

/// Whether a command was refused, a datagram was dropped, or an event could not happen. Allocates nothing.
pub fn is_refused(outcome: EventOutcome) -> bool
    ensures { result ≡ words.is_refused (outcome_of outcome) }
{
    match outcome {
        EventOutcome::CameTo(outcome) => {
            matches!(outcome, Outcome::Refused(_) | Outcome::Dropped(_))
        }
        EventOutcome::Ticked | EventOutcome::Restarted(_) => false,
        EventOutcome::NoSuchDatagram | EventOutcome::RestartsUsed | EventOutcome::CutTooLong =>
            true,
    }
}

/// The word for a plane.
pub fn plane_word(plane: Plane) -> &'static str
    ensures { result.now ≡ plane_word plane }
{
    match plane {
        Plane::Control => "control",
        Plane::User => "user",
    }
}

/// The letter of a plane's faults.
pub fn plane_letter(plane: Plane) -> &'static str
    ensures { result.now ≡ plane_letter plane }
{
    match plane {
        Plane::Control => "H",
        Plane::User => "U",
    }
}

/// Appends a space and a number.
#[tactic(auto, using(crate::proofs::Texts::appending))]
fn put_after(out: &mut Vec<u8>, number: u64) -> Result<(), AllocError>
    ensures ok { OnOk result (out.new.items ≡ out.old.items ++ words.after number) }
{
    put(out, b" ")?;
    put_number(out, number)
}

/// Appends the code of the limit that was reached, if the command was refused for one.
#[tactic(auto, using(crate::proofs::Texts::appending))]
fn put_limit(out: &mut Vec<u8>, refusal: Refusal) -> Result<(), AllocError>
    ensures ok { OnOk result (out.new.items ≡ out.old.items ++ spaced (limit_word refusal)) }
{
    match limit_word(refusal) {
        None => Ok(()),
        Some(word) => {
            put(out, b" ")?;
            put(out, word.as_bytes())
        }
    }
}

/// Appends the fault of a datagram that is no message.
#[tactic(auto, using(crate::proofs::Texts::appending))]
fn put_drop_detail(out: &mut Vec<u8>, reason: DropReason) -> Result<(), AllocError>
    ensures ok { OnOk result (out.new.items ≡ out.old.items ++ drop_detail reason) }
{
    let DropReason::Undecodable(FaultName { plane, number }) = reason else {
        return Ok(());
    };
    put(out, b" ")?;
    put(out, plane_letter(plane).as_bytes())?;
    put_number(out, u64::from(number))
}

/// Appends what follows the first word of the outcome of a step.
#[tactic(auto, using(crate::proofs::Texts::appending))]
pub fn put_outcome_detail(out: &mut Vec<u8>, outcome: Outcome) -> Result<(), AllocError>
    ensures ok { OnOk result (out.new.items ≡ out.old.items ++ outcome_detail outcome) }
{
    match outcome {
        Outcome::Begun(Some(teid)) => {
            put(out, b" ")?;
            put_teid(out, Teid(teid))
        }
        Outcome::Refused(refusal) => put_limit(out, refusal),
        Outcome::Answered(cause) => put_after(out, u64::from(cause)),
        Outcome::Rejected(cause) => put_after(out, u64::from(cause)),
        Outcome::Dropped(reason) => put_drop_detail(out, reason),
        _ => Ok(()),
    }
}

/// Appends what follows the first word of the outcome of an event.
#[tactic(auto, using(crate::proofs::Texts::appending))]
pub fn put_detail(out: &mut Vec<u8>, outcome: EventOutcome) -> Result<(), AllocError>
    ensures ok { OnOk result (out.new.items ≡ out.old.items ++ detail (outcome_of outcome)) }
{
    match outcome {
        EventOutcome::CameTo(outcome) => put_outcome_detail(out, outcome),
        EventOutcome::Restarted(counter) => put_after(out, u64::from(counter.0)),
        _ => Ok(()),
    }
}
