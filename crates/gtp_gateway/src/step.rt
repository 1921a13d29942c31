//! The result of a datagram that was received.

ghost use Rattle.std.specs.Prelude.{◌≡◌};
ghost use Rattle.gtp_gateway.specs.receive.Received.{of_control};

use crate::receive::restart_counter::Heard;
use crate::sent::Sent;
use gtp_machine::{DropReason, Outcome};
use gtp_values::{Counter, Teid};
use std::marker::Model;

/// A packet that was accepted. Contracts see the number of the TEID and the octets.
#[derive(Debug, Drop)]
pub struct Accepted<'a> {
    /// The bearer on which it was received, by the gateway's own TEID.
    pub bearer: Teid,
    /// The packet, borrowed from the datagram.
    pub payload: &'a [u8],
}

impl<'a> Model for Accepted<'a> {
    ghost use Rattle.gtp_gateway.specs.user.Accepted.{Accepted as Packet};

    ghost Value = { Packet };

    ghost view = { λ a. record { bearer = a.bearer; payload = a.payload.now } };
}

/// The report on a datagram that was received.
#[derive(Clone, Copy, Debug, PartialEq, Eq)]
pub struct Report {
    pub outcome: Outcome,
    /// The outcome of the second message of the datagram, where this gateway takes two messages of one, one after the
    /// other (TS 29.274 5.5.1).
    pub second: Option<Outcome>,
    /// The restart counter in the message (TS 23.007 18), also an earlier one: of a control message of the peer, of a
    /// type that this gateway takes, that is neither a repeat nor a faulty request.
    pub heard: Option<Counter>,
    /// That restart counter if it is later than the latest one received before: the peer has restarted, and all sessions
    /// but the pending ones were removed.
    pub restart: Option<Counter>,
    /// Whether a session or bearer was made for a request.
    pub made: bool,
}

/// The result of a datagram that was received: what is sent for it, the packet in it, and the report.
#[derive(Debug, Drop)]
pub struct Step<'a> {
    /// The datagram to be sent for it, if there is one.
    pub out: Option<Sent>,
    /// The packet, if one was accepted.
    pub accepted: Option<Accepted<'a>>,
    pub report: Report,
}

impl Report {
    ghost use Rattle.std.specs.Prelude.{◌≡◌};
    ghost use Rattle.gtp_gateway.specs.receive.Taken.{plain_report};

    /// Nothing but an outcome.
    pub fn of(outcome: Outcome) -> Report
        ensures { result ≡ plain_report outcome }
    {
        Report {
            outcome,
            second: None,
            heard: None,
            restart: None,
            made: false,
        }
    }
}

impl<'a> Step<'a> {
    ghost use Rattle.std.specs.Prelude.{◌≡◌};
    ghost use Rattle.gtp_gateway.specs.user.Receive.{plain_step, accepted_step};

    /// Nothing but an outcome.
    pub(crate) fn of(outcome: Outcome) -> Step<'a>
        ensures { result ≡ plain_step outcome }
    {
        Step {
            out: None,
            accepted: None,
            report: Report::of(outcome),
        }
    }

    /// Nothing but a packet that was accepted.
    pub(crate) fn of_packet(packet: Accepted<'a>) -> Step<'a>
        ensures { result ≡ accepted_step packet.entry }
    {
        Step {
            out: None,
            accepted: Some(packet),
            report: Report::of(Outcome::Accepted),
        }
    }
}

impl<'a> From<ControlStep> for Step<'a> {
    ghost from_gives = { λ step received. received ≡ of_control step };

    fn from(step: ControlStep) -> Step<'a> {
        Step {
            out: step.out,
            accepted: None,
            report: step.report,
        }
    }
}

/// What a datagram of the control plane comes to.
#[derive(Drop)]
pub struct ControlStep {
    /// What is sent for it.
    pub out: Option<Sent>,
    pub report: Report,
}

impl ControlStep {
    ghost use Rattle.std.specs.Prelude.{◌≡◌, None, Some};
    ghost use Rattle.gtp_gateway.specs.receive.RestartCounter.{report_heard};
    ghost use Rattle.gtp_gateway.specs.receive.Taken.{plain_report, followed_by};

    /// The datagram is dropped.
    pub fn dropped(why: DropReason) -> ControlStep
        ensures { result ≡ record { out = None; report = plain_report (Outcome.Dropped why) } }
    {
        ControlStep {
            out: None,
            report: Report::of(Outcome::Dropped(why)),
        }
    }

    /// Nothing is sent for it.
    pub fn quiet(outcome: Outcome) -> ControlStep
        ensures { result ≡ record { out = None; report = plain_report outcome } }
    {
        ControlStep {
            out: None,
            report: Report::of(outcome),
        }
    }

    /// Something is sent for it.
    pub fn sent(out: Sent, outcome: Outcome) -> ControlStep
        ensures { result ≡ record { out = Some out; report = plain_report outcome } }
    {
        ControlStep {
            out: Some(out),
            report: Report::of(outcome),
        }
    }

    /// An answer is sent to a request, for which a context may have been made.
    pub fn answered(out: Sent, cause: u8, made: bool) -> ControlStep
        ensures { result ≡ record {
          out = Some out;
          report = record (plain_report (Outcome.Answered cause)) { made = made };
        } }
    {
        let outcome = Outcome::Answered(cause);
        ControlStep {
            out: Some(out),
            report: Report {
                made,
                ..Report::of(outcome)
            },
        }
    }

    /// The same, where this was heard.
    pub fn hearing(self, heard: Heard) -> ControlStep
        ensures { result ≡ record self { report = report_heard heard self.report } }
    {
        ControlStep {
            out: self.out,
            report: Report {
                heard: heard.told(),
                restart: heard.later(),
                ..self.report
            },
        }
    }

    /// The same of the first of two messages, where this came of the second.
    pub fn followed_by(self, second: ControlStep) -> ControlStep
        ensures { result ≡ followed_by self second }
    {
        ControlStep {
            out: second.out,
            report: Report {
                second: Some(second.report.outcome),
                made: second.report.made,
                ..self.report
            },
        }
    }
}
