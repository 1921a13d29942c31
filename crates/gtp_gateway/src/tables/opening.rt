//! What responses come to that open sessions and bearers (TS 29.274 7.2.2, 7.2.4). It is judged
//! before anything changes, by what the restart counter of the response leaves.

ghost use Rattle.std.specs.Prelude.{◌≡◌, ◌<◌, ◌≤◌, Option, None, IfSome, IfNone, IfOk, OnOk, OnErr, length};
ghost use Rattle.gtp_reliable.specs.Pending.{AreDistinct, IsNextFree};
ghost use Rattle.gtp_machine.specs.Choice.{HasPending};
ghost use Rattle.gtp_machine.specs.declared.outcome.Outcome.TheVariants.{Opened};
ghost use Rattle.gtp_gateway.specs.receive.RestartCounter.{IsHeard, node_heard};
ghost use Rattle.gtp_gateway.specs.Parts.{node_of};
ghost use Rattle.gtp_gateway.specs.tables.Opening.{goes_after, waiting_heard, IsWaiting, outcome_by, node_by, with_bearer, IsOpenedAt, CanApply};
ghost use Rattle.gtp_gateway.specs.GatewayState.{state_of};
ghost use Rattle.gtp_gateway.specs.tables.Stays.{OnlyTablesChange};
ghost use Rattle.gtp_gateway.specs.user.Receive.{RequestsWaitOn};
ghost use Rattle.gtp_gateway.specs.receive.Taken.{plain_report};

use crate::command::purpose::Purpose;
use crate::parts::Parts;
use crate::receive::restart_counter::{Heard, is_of_opened};
use crate::step::ControlStep;
use gtp_machine::{DropReason, Outcome};
use gtp_tables::{Bearer, Session, Sessions, View};
use gtp_values::{Cause, Memory, Seq, Teid};

/// What a response comes to.
#[derive(Clone, Copy)]
pub enum ResponseVerdict {
    /// It is dropped.
    Drops(DropReason),
    /// Its request is finished, and what that was about goes.
    Finishes {
        purpose: Purpose,
        outcome: Outcome,
    },
    /// A pending session is opened, and with it its default bearer, which has this TEID.
    OpensSession {
        session: Teid,
        opened: Session,
        teid: Teid,
        bearer: Bearer,
    },
    /// A pending dedicated bearer is opened.
    OpensBearer {
        teid: Teid,
        bearer: Bearer,
    },
}

impl ResponseVerdict {
    ghost use Rattle.std.specs.Prelude.{◌≡◌};
    ghost use Rattle.gtp_machine.specs.declared.outcome.Outcome.TheVariants.{Rejected};
    ghost use Rattle.gtp_gateway.specs.declared.tables.opening.ResponseVerdict.TheVariants as verdicts;
    ghost use Rattle.gtp_gateway.specs.tables.Opening.{outcome_by};

    /// The peer refused what was asked for.
    pub fn rejects(purpose: Purpose, cause: Cause) -> ResponseVerdict
        ensures { result ≡ verdicts.Finishes purpose (Rejected cause.value) }
    {
        ResponseVerdict::Finishes {
            purpose,
            outcome: Outcome::Rejected(cause.value),
        }
    }

    /// What is told of it.
    pub fn outcome(&self) -> Outcome
        ensures { result ≡ outcome_by self.now }
    {
        match *self {
            ResponseVerdict::Drops(why) => Outcome::Dropped(why),
            ResponseVerdict::Finishes { outcome, .. } => outcome,
            ResponseVerdict::OpensSession { .. } | ResponseVerdict::OpensBearer { .. } =>
                Outcome::Opened,
        }
    }
}

/// Whether a request goes as the counter is heard: that is one about a session that was opened, once
/// the peer has restarted.
fn goes_after(heard: Heard, sessions: &Sessions, purpose: &Purpose) -> bool
    ensures { result ≡ goes_after heard sessions.now.table purpose.now }
{
    match heard {
        Heard::Later(_) => is_of_opened(sessions, purpose),
        Heard::Nothing | Heard::First(_) | Heard::Same(_) | Heard::Earlier(_) => false,
    }
}

impl Parts {
    /// What the request of this number is about, where one waits once the counter was heard.
    pub fn waiting_after(&self, seq: Seq, heard: Heard) -> Option<Purpose>
        ensures some { IfSome result (λ purpose.
            IsWaiting (node_heard heard (node_of self.now)) seq purpose) }
        ensures none { IfNone result (HasPending (node_heard heard (node_of self.now)) seq → ⊥) }
    {
        let Some(purpose) = self.waiting(seq) else {
            return None;
        };
        if goes_after(heard, &self.sessions, &purpose) {
            return None;
        }
        Some(purpose)
    }

    /// The number of the next request once the counter was heard, where fewer than 256 wait then.
    pub fn number_after(&self, heard: Heard) -> Option<Seq>
        ensures some { IfSome result (λ seq. IsNextFree self.now.pending.next
            (waiting_heard heard self.now.sessions.table self.now.pending.waiting) seq) }
        ensures few { IfSome result (λ _.
            length (waiting_heard heard self.now.sessions.table self.now.pending.waiting) < 256) }
        ensures none { IfNone result
            (256 ≤ length (waiting_heard heard self.now.sessions.table self.now.pending.waiting)) }
        // What holds of the requests at all times.
        ensures distinct { AreDistinct self.now.pending.waiting }
    {
        match heard {
            Heard::Later(_) => self.number_after_restart(heard),
            Heard::Nothing | Heard::First(_) | Heard::Same(_) | Heard::Earlier(_) => {
                self.pending.next_number()
            }
        }
    }

    /// The same where some of those that wait may go.
    fn number_after_restart(&self, heard: Heard) -> Option<Seq>
        ensures some { IfSome result (λ seq. IsNextFree self.now.pending.next
            (waiting_heard heard self.now.sessions.table self.now.pending.waiting) seq) }
        ensures few { IfSome result (λ _.
            length (waiting_heard heard self.now.sessions.table self.now.pending.waiting) < 256) }
        ensures none { IfNone result
            (256 ≤ length (waiting_heard heard self.now.sessions.table self.now.pending.waiting)) }
        // What holds of the requests at all times.
        ensures distinct { AreDistinct self.now.pending.waiting }
    {
        let sessions = &self.sessions;
        self.pending.next_without(
            |purpose: &Purpose| -> bool
                ensures { result ≡ goes_after heard sessions.entry.now.table purpose.now }
            { goes_after(heard, sessions, purpose) },
        )
    }

    /// Sessions and bearers as they stand once the counter was heard.
    pub fn view_after(&self, heard: Heard) -> View<'_>
        ensures sessions { result.sessions ≡ (node_heard heard (node_of self.now)).sessions }
        ensures bearers { result.bearers ≡ (node_heard heard (node_of self.now)).bearers }
    {
        match heard {
            Heard::Later(_) => View::after_restart(&self.sessions, &self.bearers),
            Heard::Nothing | Heard::First(_) | Heard::Same(_) | Heard::Earlier(_) => {
                View::new(&self.sessions, &self.bearers)
            }
        }
    }

    /// Opens a bearer that has no remote, and hears the counter: `Memory` where an allocation was
    /// refused, and then nothing has changed.
    #[tactic(auto, using(crate::proofs::GivenUp::waiting))]
    fn open_bearer(&mut self, heard: Heard, teid: Teid, bearer: Bearer) -> Result<(), Memory>
        requires weighed { IsHeard heard self.old.peer }
        requires can { IsOpenedAt (node_heard heard (node_of self.old)).bearers teid bearer }
        ensures node { OnOk result (node_of self.new
            ≡ with_bearer teid bearer (node_heard heard (node_of self.old))) }
        ensures waits { RequestsWaitOn (state_of self.old) (state_of self.new) }
        ensures only { OnlyTablesChange self.old self.new }
        ensures draws { self.new.draws ≡ self.old.draws }
        ensures err { OnErr result (state_of self.new ≡ state_of self.old) }
    {
        self.bearers.open(teid, bearer).map_err(|_| Memory)?;
        self.hear(heard);
        Ok(())
    }

    /// Hears the counter of a response, and does what the response comes to: `Memory` where an
    /// allocation was refused, and then nothing has changed.
    #[tactic(auto, using(crate::proofs::GivenUp::waiting))]
    pub fn apply_verdict(
        &mut self,
        seq: Seq,
        heard: Heard,
        verdict: ResponseVerdict,
    ) -> Result<ControlStep, Memory>
        requires weighed { IsHeard heard self.old.peer }
        requires can { CanApply verdict (node_heard heard (node_of self.old)) }
        ensures step { IfOk result (λ step.
            step ≡ record { out = None; report = plain_report (outcome_by verdict) }) }
        ensures node { OnOk result (node_of self.new
            ≡ node_by verdict seq (node_heard heard (node_of self.old))) }
        // An allocation is for what is opened.
        ensures memory { OnErr result (outcome_by verdict ≡ Opened) }
        ensures waits { RequestsWaitOn (state_of self.old) (state_of self.new) }
        ensures only { OnlyTablesChange self.old self.new }
        ensures draws { self.new.draws ≡ self.old.draws }
        ensures err { OnErr result (state_of self.new ≡ state_of self.old) }
    {
        let outcome = verdict.outcome();
        match verdict {
            ResponseVerdict::Drops(_) => self.hear(heard),
            ResponseVerdict::Finishes { purpose, .. } => {
                self.hear(heard);
                self.finish(seq, &purpose);
            }
            ResponseVerdict::OpensSession {
                session,
                opened,
                teid,
                bearer,
            } => {
                self.open_bearer(heard, teid, bearer)?;
                self.sessions.replace(session, opened);
                self.finish_number(seq);
            }
            ResponseVerdict::OpensBearer { teid, bearer } => {
                self.open_bearer(heard, teid, bearer)?;
                self.finish_number(seq);
            }
        }
        Ok(ControlStep::quiet(outcome))
    }
}
