//! Outcomes, in numbers.

ghost use Rattle.std.specs.Prelude.{◌≡◌};
ghost use Rattle.gtp_c.specs.Told.{outcome_number, cause_number, fault_number, refusal_number};
ghost use Rattle.gtp_c.specs.Told.{reason_number, outcome_told, second_told};

use gtp_gateway::{DropReason, Outcome, Refusal};

/// What a message or a command came to.
#[repr(C)]
#[derive(Clone, Copy)]
pub struct ToldOutcome {
    /// The outcome's number; 0 for none.
    pub kind: u8,
    /// The cause of an answer, or the rule of a refusal or a drop.
    pub cause: u8,
    /// The fault's number, of what is undecodable.
    pub fault: u8,
}

/// The number of a refusal.
fn number_of_refusal(refusal: Refusal) -> u8
    ensures { result ≡ refusal_number refusal }
{
    match refusal {
        Refusal::NoSuchContext => 1,
        Refusal::NotActive => 2,
        Refusal::WrongRole => 3,
        Refusal::SessionsFull => 4,
        Refusal::TeidsUsed => 5,
        Refusal::PendingFull => 6,
        Refusal::BearerEnded => 7,
        Refusal::PacketTooLong => 8,
    }
}

/// The number of a reason.
fn number_of_reason(reason: DropReason) -> u8
    ensures { result ≡ reason_number reason }
{
    match reason {
        DropReason::Undecodable(_) => 1,
        DropReason::OldCounter => 2,
        DropReason::NoPending => 3,
        DropReason::Mismatch => 4,
        DropReason::ContextNotActive => 5,
        DropReason::UnknownContext => 6,
        DropReason::AfterEnd => 7,
        DropReason::HeldFull => 8,
        DropReason::Unexpected => 9,
        DropReason::UnknownExtension => 10,
        DropReason::NotPeer => 11,
        DropReason::OtherVersion => 12,
    }
}

/// The number of an outcome.
fn number_of(outcome: Outcome) -> u8
    ensures { result ≡ outcome_number outcome }
{
    match outcome {
        Outcome::Begun(_) => 1,
        Outcome::GoneOut => 2,
        Outcome::Refused(_) => 3,
        Outcome::Answered(_) => 4,
        Outcome::Echoed => 5,
        Outcome::Repeated => 6,
        Outcome::Opened => 7,
        Outcome::Closed => 8,
        Outcome::Clash => 9,
        Outcome::Rejected(_) => 10,
        Outcome::Alive => 11,
        Outcome::Accepted => 12,
        Outcome::Ended => 13,
        Outcome::Broken => 14,
        Outcome::Dropped(_) => 15,
    }
}

/// What belongs to an outcome: a cause, or the number of a rule.
fn cause_of(outcome: Outcome) -> u8
    ensures { result ≡ cause_number outcome }
{
    match outcome {
        Outcome::Refused(refusal) => number_of_refusal(refusal),
        Outcome::Answered(cause) => cause,
        Outcome::Rejected(cause) => cause,
        Outcome::Dropped(reason) => number_of_reason(reason),
        _ => 0,
    }
}

/// The fault that belongs to an outcome.
fn fault_of(outcome: Outcome) -> u8
    ensures { result ≡ fault_number outcome }
{
    match outcome {
        Outcome::Dropped(DropReason::Undecodable(name)) => name.number,
        _ => 0,
    }
}

impl ToldOutcome {
    /// What a message came to.
    pub(crate) fn of(outcome: Outcome) -> ToldOutcome
        ensures { result ≡ outcome_told outcome }
    {
        ToldOutcome {
            kind: number_of(outcome),
            cause: cause_of(outcome),
            fault: fault_of(outcome),
        }
    }

    /// What a message came to, where there is one.
    pub(crate) fn of_some(outcome: Option<Outcome>) -> ToldOutcome
        ensures { result ≡ second_told outcome }
    {
        match outcome {
            Some(outcome) => ToldOutcome::of(outcome),
            None => ToldOutcome {
                kind: 0,
                cause: 0,
                fault: 0,
            },
        }
    }
}
