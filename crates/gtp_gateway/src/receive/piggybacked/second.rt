//! The second of two messages in one datagram, and what becomes of the first with it.

ghost use Rattle.std.specs.Prelude.{◌≡◌, ℕ, Option, Some, None, true, ◌<◌, length, IfOk, IfSome, OnOk, OnErr};
ghost use Rattle.std.specs.FinMap as map;
ghost use Rattle.gtp_machine.specs.declared.role.Role.TheVariants.{Serving};
ghost use Rattle.gtp_gateway.specs.declared.tables.change.Change.TheVariants as changes;
ghost use Rattle.gtp_gateway.specs.tables.Change.{changed_by, CanChange};
ghost use Rattle.gtp_gateway.specs.receive.Choosing.{MakesLowestBearer};
ghost use Rattle.gtp_gateway.specs.receive.Queues.{QueuesAfterMessage};
ghost use Rattle.gtp_gateway.specs.receive.CreateBearerRequest.{JudgesCreateBearer, CanGive, HasFitCause, change_for};
ghost use Rattle.gtp_gateway.specs.receive.RestartCounter.{IsHeard, node_heard};
ghost use Rattle.gtp_gateway.specs.receive.Piggybacked.{session_left, node_after_first, state_after_first, MayStand, IsSecondTaken};
ghost use Rattle.gtp_gateway.specs.Parts.{node_of};
ghost use Rattle.gtp_gateway.specs.receive.CreateSessionResponse.{IsOfSession};
ghost use Rattle.gtp_gateway.specs.tables.Opening.{CanApply};
ghost use Rattle.gtp_gateway.specs.GatewayState.{IsSoundState, state_of};
ghost use Rattle.gtp_gateway.specs.tables.Stays.{OnlyTablesChange};
ghost use Rattle.gtp_gateway.specs.receive.Taken.{IsFresh};
ghost use Rattle.gtp_gateway.specs.user.Receive.{RequestsWaitOn};

use crate::parts::Parts;
use crate::receive::arrival::Arrival;
use crate::receive::create_bearer_request::BearerRequest;
use crate::receive::create_bearer_request::judge::{
    CreateBearerAnswer, CreateBearerVerdict, granted_bearer,
};
use crate::receive::restart_counter::Heard;
use crate::step::ControlStep;
use crate::tables::opening::ResponseVerdict;
use gtp_tables::{Bearer, Draws, Session};
use gtp_values::{Memory, Seq, Teid};
use std::alloc::Global;

/// The session under a TEID once a response is applied, by what was there before.
fn session_left(verdict: ResponseVerdict, teid: Teid, before: Option<Session>) -> Option<Session>
    ensures { result ≡ session_left verdict teid before }
{
    match verdict {
        ResponseVerdict::Drops(_) | ResponseVerdict::OpensBearer { .. } => before,
        ResponseVerdict::Finishes { purpose, .. } => {
            if purpose.is_of_session(teid) {
                None
            } else {
                before
            }
        }
        ResponseVerdict::OpensSession {
            session,
            opened,
            ..
        } => {
            if session == teid {
                Some(opened)
            } else {
                before
            }
        }
    }
}

impl Parts {
    /// The session under a TEID, as it stands once the counter was heard and the response is applied.
    fn session_after_first(
        &self,
        heard: Heard,
        verdict: &ResponseVerdict,
        teid: Teid,
    ) -> Option<Session>
        requires { IsOfSession verdict.now (node_heard heard (node_of self.now)) }
        ensures { (number : ℕ) → result
            ≡ map.get (node_after_first heard verdict.now number (node_of self.now)).sessions
            teid }
    {
        let before = self.view_after(heard).session(teid);
        session_left(*verdict, teid, before)
    }

    /// What the second message comes to, once the counter was heard and the response is applied. It
    /// changes nothing.
    pub fn judge_second(
        &self,
        heard: Heard,
        verdict: &ResponseVerdict,
        request: &BearerRequest,
    ) -> Option<CreateBearerVerdict>
        requires whole { IsSoundState (state_of self.now) }
        requires can { CanApply verdict.now (node_heard heard (node_of self.now)) }
        requires of { IsOfSession verdict.now (node_heard heard (node_of self.now)) }
        ensures judged { (number : ℕ) → JudgesCreateBearer request.now
            (node_after_first heard verdict.now number (node_of self.now)) result }
        ensures given { IfSome result (λ v. (number : ℕ) → CanGive
            (map.get (node_after_first heard verdict.now number (node_of self.now)).sessions
            request.now.header) v.answer (node_of self.now)) }
        ensures fit { IfSome result (λ v. HasFitCause v.answer) }
    {
        let found = self.session_after_first(heard, verdict, request.header);
        let view = self.view_after(heard);
        self.judge_create_bearer(request, found, &view)
    }

    /// Makes the bearer of the second message, and applies the first: `Memory` where an allocation was
    /// refused, and then nothing has changed.
    #[tactic(auto, using(crate::proofs::GivenUp::waiting))]
    fn apply_and_make(
        &mut self,
        seq: Seq,
        heard: Heard,
        verdict: ResponseVerdict,
        draws: Draws,
        teid: Teid,
        bearer: Bearer,
    ) -> Result<(), Memory>
        requires weighed { IsHeard heard self.old.peer }
        requires can { CanApply verdict (node_heard heard (node_of self.old)) }
        requires drawn { CanChange (changes.MakesBearer draws teid bearer) (node_of self.old) }
        requires stands { MayStand heard verdict teid bearer (node_of self.old) }
        ensures node { OnOk result (node_of self.new
            ≡ changed_by (changes.MakesBearer draws teid bearer)
            (node_after_first heard verdict seq (node_of self.old))) }
        ensures waits { RequestsWaitOn (state_of self.old) (state_of self.new) }
        ensures only { OnlyTablesChange self.old self.new }
        ensures err { OnErr result (state_of self.new ≡ state_of self.old) }
    {
        self.bearers.add(teid, bearer).map_err(|_| Memory)?;
        if self.apply_verdict(seq, heard, verdict).is_err() {
            self.bearers.remove(teid);
            return Err(Memory);
        }
        self.draws = draws;
        Ok(())
    }

    /// Applies the first message, and makes what the second one is granted: `Memory` where an
    /// allocation was refused, and then nothing has changed.
    #[tactic(auto, using(crate::proofs::GivenUp::waiting))]
    fn apply_both(
        &mut self,
        seq: Seq,
        heard: Heard,
        verdict: ResponseVerdict,
        request: &BearerRequest,
        answer: &CreateBearerAnswer,
    ) -> Result<(), Memory>
        requires weighed { IsHeard heard self.old.peer }
        requires can { CanApply verdict (node_heard heard (node_of self.old)) }
        requires of { IsOfSession verdict (node_heard heard (node_of self.old)) }
        requires given { CanGive (map.get
            (node_after_first heard verdict seq (node_of self.old)).sessions
            request.now.header) answer.now (node_of self.old) }
        ensures node { OnOk result (node_of self.new
            ≡ changed_by (change_for request.now answer.now)
            (node_after_first heard verdict seq (node_of self.old))) }
        ensures waits { RequestsWaitOn (state_of self.old) (state_of self.new) }
        ensures only { OnlyTablesChange self.old self.new }
        ensures err { OnErr result (state_of self.new ≡ state_of self.old) }
    {
        match *answer {
            CreateBearerAnswer::Granted(grant) => {
                let bearer = granted_bearer(request, grant.identity);
                self.apply_and_make(
                    seq,
                    heard,
                    verdict,
                    grant.drawn.draws,
                    grant.drawn.teid,
                    bearer,
                )
            }
            CreateBearerAnswer::Refused { .. } | CreateBearerAnswer::NoResources => {
                let _settled = self.apply_verdict(seq, heard, verdict)?;
                Ok(())
            }
        }
    }

    /// Answers the second message, which was judged, and applies the first.
    #[tactic(auto, using(crate::proofs::QueuesAfter::queues_after))]
    pub fn answer_second(
        &mut self,
        alloc: Global,
        arrival: &Arrival<'_>,
        request: &BearerRequest,
        judged: &CreateBearerVerdict,
        seq: Seq,
        heard: Heard,
        verdict: ResponseVerdict,
    ) -> Result<ControlStep, Memory>
        requires weighed { IsHeard heard self.old.peer }
        requires can { CanApply verdict (node_heard heard (node_of self.old)) }
        requires of { IsOfSession verdict (node_heard heard (node_of self.old)) }
        requires serving { self.old.role ≡ Serving }
        requires few { length self.old.held.pairs < 4096 }
        requires fresh { IsFresh arrival.now (state_of self.old) self.old.held.pairs }
        requires judged { JudgesCreateBearer request.now
            (node_after_first heard verdict seq (node_of self.old)) (Some judged.now) }
        requires given { CanGive (map.get
            (node_after_first heard verdict seq (node_of self.old)).sessions
            request.now.header) judged.now.answer (node_of self.old) }
        requires fit { HasFitCause judged.now.answer }
        ensures taken { IfOk result (λ step. IsSecondTaken arrival.now request.now
            (state_after_first heard verdict seq (state_of self.old)) step (state_of self.new)) }
        ensures unheard { IfOk result (λ step.
            (step.report.heard ≡ None) × (step.report.restart ≡ None)) }
        ensures goes { OnOk result
            (QueuesAfterMessage arrival.now (state_of self.old) (state_of self.new)) }
        ensures choices { IfOk result (λ step.
            step.report.made ≡ true → MakesLowestBearer (node_of self.old) (node_of self.new)) }
        ensures err { OnErr result (state_of self.new ≡ state_of self.old) }
    {
        let message = self.create_bearer_answer(alloc, request, judged)?;
        let ready = self.ready_answer(alloc, arrival, &message)?;
        self.apply_both(seq, heard, verdict, request, &judged.answer)?;
        let out = self.send_answer(arrival, ready);
        let answer = judged.answer;
        Ok(ControlStep::answered(out, answer.cause(), answer.is_granted()))
    }
}
