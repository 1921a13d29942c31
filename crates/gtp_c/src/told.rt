//! What a step came to, in numbers.

ghost use Rattle.std.specs.Prelude.{◌≡◌};
ghost use Rattle.gtp_c.specs.Common.{flag};
ghost use Rattle.gtp_c.specs.Told.{plain_told, step_told, begun_told, refused_told, tick_told};

use crate::outcome::ToldOutcome;
use gtp_gateway::{Begun, Outcome, Refusal, Step};

/// What a step came to.
#[repr(C)]
#[derive(Clone, Copy)]
pub struct Told {
    /// How many datagrams wait to be taken.
    pub waiting: u64,
    /// The payload of an accepted packet: so many octets, the last ones that were handed in.
    pub payload_len: u64,
    /// How many requests a tick gave up, and how many answers it forgot.
    pub gave_up: u64,
    pub forgot: u64,
    /// The context that a command began, or the bearer of an accepted packet; 0 for none.
    pub teid: u32,
    pub outcome: ToldOutcome,
    /// Of the second message of a datagram.
    pub second: ToldOutcome,
    /// 1 where a context was made for a request.
    pub made: u8,
    /// 1 where the peer told a restart counter, and it.
    pub counted: u8,
    pub counter: u8,
    /// 1 where that is later than the one that was known.
    pub restarted: u8,
}

/// 1 where it holds.
pub(crate) fn bit(holds: bool) -> u8
    ensures { result ≡ flag holds }
{
    if holds { 1 } else { 0 }
}

impl Told {
    /// Of a datagram that came.
    pub(crate) fn of_step(step: &Step<'_>, waiting: usize) -> Told
        ensures { result ≡ step_told step.now waiting }
    {
        let (teid, payload_len) = match &step.accepted {
            Some(accepted) => (accepted.bearer.0, accepted.payload.len() as u64),
            None => (0, 0),
        };
        let (counted, counter) = match step.report.heard {
            Some(counter) => (1, counter.0),
            None => (0, 0),
        };
        Told {
            waiting: waiting as u64,
            payload_len,
            gave_up: 0,
            forgot: 0,
            teid,
            outcome: ToldOutcome::of(step.report.outcome),
            second: ToldOutcome::of_some(step.report.second),
            made: bit(step.report.made),
            counted,
            counter,
            restarted: bit(step.report.restart.is_some()),
        }
    }

    /// Nothing but an outcome and a TEID.
    fn plain(outcome: ToldOutcome, teid: u32, waiting: usize) -> Told
        ensures { result ≡ plain_told outcome teid waiting }
    {
        Told {
            waiting: waiting as u64,
            payload_len: 0,
            gave_up: 0,
            forgot: 0,
            teid,
            outcome,
            second: ToldOutcome::of_some(None),
            made: 0,
            counted: 0,
            counter: 0,
            restarted: 0,
        }
    }

    /// Of a command that was carried out, with the number of its outcome.
    pub(crate) fn of_begun(number: u8, begun: &Begun, waiting: usize) -> Told
        ensures { result ≡ begun_told number begun.now waiting }
    {
        let teid = match begun.teid {
            Some(teid) => teid.0,
            None => 0,
        };
        let outcome = ToldOutcome {
            kind: number,
            cause: 0,
            fault: 0,
        };
        Told::plain(outcome, teid, waiting)
    }

    /// Of a command that was refused.
    pub(crate) fn of_refusal(why: Refusal, waiting: usize) -> Told
        ensures { result ≡ refused_told why waiting }
    {
        Told::plain(ToldOutcome::of(Outcome::Refused(why)), 0, waiting)
    }

    /// Of a tick: how many requests it gave up, and how many answers it forgot.
    pub(crate) fn of_tick(gave_up: usize, forgot: usize, waiting: usize) -> Told
        ensures { result ≡ tick_told gave_up forgot waiting }
    {
        let outcome = ToldOutcome {
            kind: 16,
            cause: 0,
            fault: 0,
        };
        let mut told = Told::plain(outcome, 0, waiting);
        told.gave_up = gave_up as u64;
        told.forgot = forgot as u64;
        told
    }

    /// The same, where so many datagrams wait.
    pub(crate) fn with_waiting(self, waiting: usize) -> Told
        ensures { result ≡ record self { waiting = waiting } }
    {
        let mut told = self;
        told.waiting = waiting as u64;
        told
    }
}
