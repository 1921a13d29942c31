//! Datagrams of the control plane that are at fault (TS 29.274 7.7).

ghost use Rattle.std.specs.Prelude.{◌≡◌, true, false, IfOk, OnErr};
ghost use Rattle.gtp_machine.specs.Answer.{fault_number, defect_cause, opened_remote, faulty_header, states_type, tells_version, is_other_version};
ghost use Rattle.std.specs.FinMap as map;
ghost use Rattle.gtp_gateway.specs.receive.InvalidRequest.{defect_of, fault_of, reading_of, dropped_for, IsFaultTaken};
ghost use Rattle.gtp_machine.specs.MessageType.{answers_type};
ghost use Rattle.gtp_gateway.specs.Parts.{node_of};
ghost use Rattle.gtp_gateway.specs.GatewayState.{state_of};
ghost use Rattle.gtp_gateway.specs.receive.Allocations.{FaultSendsOrOpens};
ghost use Rattle.gtp_gateway.specs.declared.receive.invalid_request.Flaw.TheVariants as flaws;

use crate::messages::elements::{fault_cause, written_teid};
use crate::messages::refusal::refusal;
use crate::messages::version_not_supported::version_not_supported;
use crate::parts::Parts;
use crate::receive::arrival::Arrival;
use crate::step::ControlStep;
use gtp_machine::{DropReason, FaultName, MessageType, Outcome, Plane, causes};
use gtp_tables::State;
use gtp_v2::{BAD_ELEMENT, MISSING_ELEMENT, kinds};
use gtp_values::{Below, FTeid, Memory, Seq, Teid};
use std::alloc::Global;

/// The number of the fault of another version than 2: H2.
const OTHER_VERSION: u8 = 2;

/// Why an element of a request cannot be taken (TS 29.274 7.7.6 to 7.7.8).
#[derive(Clone, Copy)]
pub enum Defect {
    MandatoryMissing,
    ConditionalMissing,
    TooShort,
    OutOfRange,
}

/// A request with a faulty element.
#[derive(Clone, Copy)]
pub struct FaultyRequest {
    /// One of those that are answered.
    pub kind: MessageType,
    /// The TEID of its header.
    pub header: Teid,
    pub seq: Seq,
    pub defect: Defect,
    /// The type of the element.
    pub element: u8,
    pub instance: Below<16>,
    /// The sender's F-TEID for the control plane, where it reads.
    pub sender: Option<FTeid>,
}

/// What is wrong with a datagram.
#[derive(Clone, Copy)]
pub enum Flaw {
    /// A fault of octets that are no message, by its printed number.
    Plain(u8),
    /// An element of a request that is answered.
    Faulty(FaultyRequest),
}

impl Defect {
    /// The printed number of the fault: H6 for a missing element, H7 for a bad one.
    pub fn number(self) -> u8
        ensures { result ≡ fault_number (defect_of self) }
    {
        match self {
            Defect::MandatoryMissing | Defect::ConditionalMissing => MISSING_ELEMENT,
            Defect::TooShort | Defect::OutOfRange => BAD_ELEMENT,
        }
    }

    /// The cause that it is answered with.
    pub fn cause(self) -> u8
        ensures { result ≡ defect_cause (defect_of self) }
    {
        match self {
            Defect::MandatoryMissing => causes::MANDATORY_IE_MISSING,
            Defect::ConditionalMissing => causes::CONDITIONAL_IE_MISSING,
            Defect::TooShort => causes::INVALID_LENGTH,
            Defect::OutOfRange => causes::MANDATORY_IE_INCORRECT,
        }
    }
}

/// A datagram with the fault of this printed number is dropped.
fn undecodable(number: u8) -> ControlStep
    ensures { result ≡ dropped_for number }
{
    ControlStep::dropped(DropReason::Undecodable(FaultName {
        plane: Plane::Control,
        number,
    }))
}

/// Whether octets state this type, which is the second octet in each version.
fn states_type(octets: &[u8], kind: u8) -> bool
    ensures { result ≡ states_type octets.now kind }
{
    match octets.get(1) {
        Some(stated) => *stated == kind,
        None => false,
    }
}

/// Whether octets are of another version than 2, which stands in the first three bits.
fn is_other_version(octets: &[u8]) -> bool
    ensures { result ≡ is_other_version octets.now }
{
    match octets.first() {
        Some(first) => *first / 32 != 2,
        None => false,
    }
}

impl Parts {
    /// Whether octets with this fault are answered with the version that is supported (TS 29.274 7.7.2).
    fn tells_version(&self, octets: &[u8], number: u8) -> bool
        ensures { result ≡ tells_version self.now.config.config octets.now number }
    {
        self.config.switches().version_not_supported
            && number == OTHER_VERSION
            && is_other_version(octets)
            && !states_type(octets, kinds::VERSION_NOT_SUPPORTED)
    }

    /// The remote of a session that was opened, or 0.
    fn opened_remote(&self, session: Teid) -> Teid
        ensures { result ≡ opened_remote (map.get self.now.sessions.table session) }
    {
        match self.sessions.get(session) {
            None => Teid(0),
            Some(session) => match session.state {
                State::Pending => Teid(0),
                State::Active | State::Closing => written_teid(session.remote),
            },
        }
    }

    /// The header of the answer to a faulty request (TS 29.274 5.5.2).
    fn faulty_header(&self, faulty: &FaultyRequest) -> Teid
        ensures { result ≡ faulty_header (node_of self.now) faulty.now.kind
            (fault_of faulty.now) }
    {
        match faulty.kind {
            MessageType::CreateSessionRequest => match faulty.sender {
                None => Teid(0),
                Some(sender) => sender.teid(),
            },
            _ => self.opened_remote(faulty.header),
        }
    }

    /// A faulty request is answered with the element at fault; the answer is not held.
    fn answer_fault(
        &self,
        alloc: Global,
        arrival: &Arrival<'_>,
        faulty: &FaultyRequest,
    ) -> Result<ControlStep, Memory>
        requires { answers_type self.now.role faulty.now.kind ≡ true }
        ensures taken { IfOk result (λ step.
            IsFaultTaken arrival.now (reading_of (flaws.Faulty faulty.now))
            (state_of self.now) step) }
        ensures unmade { IfOk result (λ step. step.report.made ≡ false) }
    {
        let cause = fault_cause(faulty.defect.cause(), faulty.element, faulty.instance);
        let header = self.faulty_header(faulty);
        let counter = self.draws.counter();
        let message = refusal(alloc, faulty.kind, header, faulty.seq, cause, counter)?;
        let out = self.reply(alloc, arrival, &message)?;
        Ok(ControlStep::sent(out, Outcome::Answered(faulty.defect.cause())))
    }

    /// Takes octets that are no message, which are dropped. Of another version, they are answered where the gateway does so;
    /// the answer is not held.
    fn take_undecodable(
        &self,
        alloc: Global,
        arrival: &Arrival<'_>,
        number: u8,
    ) -> Result<ControlStep, Memory>
        ensures taken { IfOk result (λ step.
            IsFaultTaken arrival.now (reading_of (flaws.Plain number)) (state_of self.now) step) }
        ensures unmade { IfOk result (λ step. step.report.made ≡ false) }
        ensures memory { OnErr result
            (FaultSendsOrOpens arrival.now (reading_of (flaws.Plain number)) (state_of self.now)) }
    {
        if !self.tells_version(arrival.octets, number) {
            return Ok(undecodable(number));
        }
        let out = self.reply(alloc, arrival, &version_not_supported())?;
        Ok(ControlStep::sent(out, Outcome::Dropped(DropReason::OtherVersion)))
    }

    /// Takes a datagram at fault: a request that the gateway takes is answered, and all else is
    /// dropped. Nothing changes.
    pub fn take_flaw(
        &self,
        alloc: Global,
        arrival: &Arrival<'_>,
        flaw: &Flaw,
    ) -> Result<ControlStep, Memory>
        ensures taken { IfOk result (λ step.
            IsFaultTaken arrival.now (reading_of flaw.now) (state_of self.now) step) }
        ensures unmade { IfOk result (λ step. step.report.made ≡ false) }
        ensures memory { OnErr result
            (FaultSendsOrOpens arrival.now (reading_of flaw.now) (state_of self.now)) }
    {
        match flaw {
            Flaw::Plain(number) => self.take_undecodable(alloc, arrival, *number),
            Flaw::Faulty(faulty) => {
                if faulty.kind.is_answered_by(self.role) {
                    self.answer_fault(alloc, arrival, faulty)
                } else {
                    Ok(undecodable(faulty.defect.number()))
                }
            }
        }
    }
}
