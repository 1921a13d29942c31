//! Delete Bearer Requests (TS 29.274 7.2.9.2), as the serving gateway takes them.

pub mod dedicated;
pub mod identities;

ghost use Rattle.gtp_gateway.specs.receive.Queues.{QueuesAfterMessage};
ghost use Rattle.std.specs.Prelude.{◌≡◌, ℕ, ◌<◌, List, length, false, IfOk, OnOk, OnErr};
ghost use Rattle.gtp_v2.specs.DeleteBearerRequest.{delete_bearer_request};
ghost use Rattle.gtp_machine.specs.Serving.{DeleteBearerAsked};
ghost use Rattle.gtp_gateway.specs.receive.DeleteBearerRequest.{delete_bearer_by, JudgesDeleteBearer, AnswersDeleteBearer, TakesDeleteBearerRequest};
ghost use Rattle.gtp_gateway.specs.tables.Change.{CanChange};
ghost use Rattle.gtp_gateway.specs.receive.Allocations.{AlwaysSendsOrOpens};
ghost use Rattle.gtp_gateway.specs.Parts.{node_of};
ghost use Rattle.gtp_gateway.specs.GatewayState.{IsSoundState, state_of};
ghost use Rattle.gtp_gateway.specs.receive.Taken.{IsFresh};

use crate::messages::delete_bearer::delete_bearer_response;
use crate::messages::elements::written_teid;
use crate::parts::Parts;
use crate::receive::arrival::Arrival;
use crate::receive::delete_request::DeleteRequest;
use crate::step::ControlStep;
use crate::tables::change::Change;
use gtp_machine::{DropReason, Outcome, causes};
use gtp_v2::MessageView;
use gtp_values::{Below, Memory, Seq, Teid};
use std::alloc::Global;

/// An answer without bearer contexts, and what changes.
#[derive(Clone, Copy)]
pub struct DeleteBearerAnswer {
    pub header: Teid,
    pub cause: u8,
    /// The linked EPS bearer identity.
    pub linked: Option<Below<16>>,
    pub change: Change,
}

/// What a Delete Bearer Request comes to, as far as its list is not looked at.
#[derive(Clone, Copy)]
pub enum DeleteBearerVerdict {
    /// Its session was not opened yet, and it is dropped.
    NotOpened,
    /// It is answered.
    Answered(DeleteBearerAnswer),
    /// It is for the bearers in its list; with the TEID in the header of the answer.
    Bearers { header: Teid },
}

impl Parts {
    /// What a Delete Bearer Request comes to, as far as its list is not looked at. It changes nothing.
    fn judge_delete_bearer(&self, request: &DeleteRequest) -> DeleteBearerVerdict
        ensures { JudgesDeleteBearer request.now (node_of self.now) result }
    {
        let Some(session) = self.sessions.get(request.header) else {
            return DeleteBearerVerdict::Answered(DeleteBearerAnswer {
                header: Teid(0),
                cause: causes::CONTEXT_NOT_FOUND,
                linked: None,
                change: Change::Stays,
            });
        };
        if session.is_pending() {
            return DeleteBearerVerdict::NotOpened;
        }
        let header = written_teid(session.remote);
        let Some(linked) = request.linked else {
            return DeleteBearerVerdict::Bearers { header };
        };
        if !session.is_default(linked) {
            return DeleteBearerVerdict::Answered(DeleteBearerAnswer {
                header,
                cause: causes::CONTEXT_NOT_FOUND,
                linked: None,
                change: Change::Stays,
            });
        }
        DeleteBearerVerdict::Answered(DeleteBearerAnswer {
            header,
            cause: causes::REQUEST_ACCEPTED,
            linked: Some(linked),
            change: Change::RemovesSession(request.header),
        })
    }

    /// Answers a request without bearer contexts.
    #[tactic(auto, using(crate::proofs::QueuesAfter::queues_after))]
    fn answer_delete_bearer(
        &mut self,
        alloc: Global,
        arrival: &Arrival<'_>,
        seq: Seq,
        answer: &DeleteBearerAnswer,
    ) -> Result<ControlStep, Memory>
        requires fresh { IsFresh arrival.now (state_of self.old) self.old.held.pairs }
        requires few { length self.old.held.pairs < 4096 }
        requires can { CanChange answer.now.change (node_of self.old) }
        ensures taken { IfOk result (λ step. AnswersDeleteBearer arrival.now seq answer.now
            (state_of self.old) step (state_of self.new)) }
        ensures goes { OnOk result
            (QueuesAfterMessage arrival.now (state_of self.old) (state_of self.new)) }
        ensures unmade { IfOk result (λ step. step.report.made ≡ false) }
        ensures err { OnErr result (state_of self.new ≡ state_of self.old) }
    {
        let contexts = Vec::new(alloc);
        let counter = self.draws.counter();
        let message = delete_bearer_response(
            answer.header,
            seq,
            answer.cause,
            answer.linked,
            contexts,
            counter,
        );
        let out = self.answer(alloc, arrival, &message, answer.change)?;
        Ok(ControlStep::sent(out, Outcome::Answered(answer.cause)))
    }

    /// Takes a Delete Bearer Request.
    #[tactic(auto, using(crate::proofs::QueuesAfter::queues_after))]
    pub fn take_delete_bearer_request(
        &mut self,
        alloc: Global,
        arrival: &Arrival<'_>,
        view: &MessageView<'_>,
        request: &DeleteRequest,
    ) -> Result<ControlStep, Memory>
        requires whole { IsSoundState (state_of self.old) }
        requires fresh { IsFresh arrival.now (state_of self.old) self.old.held.pairs }
        requires kind { view.now.message.kind ≡ delete_bearer_request.kind }
        ensures taken { IfOk result (λ step. TakesDeleteBearerRequest arrival.now
            view.now.message request.now (state_of self.old) step (state_of self.new)) }
        ensures goes { OnOk result
            (QueuesAfterMessage arrival.now (state_of self.old) (state_of self.new)) }
        ensures unmade { IfOk result (λ step. step.report.made ≡ false) }
        ensures memory { OnErr result ((identities : List ℕ) → AlwaysSendsOrOpens
            (DeleteBearerAsked arrival.now (delete_bearer_by request.now identities))
            (node_of self.old)) }
        ensures err { OnErr result (state_of self.new ≡ state_of self.old) }
    {
        if self.held.is_full() {
            return Ok(ControlStep::dropped(DropReason::HeldFull));
        }
        match self.judge_delete_bearer(request) {
            DeleteBearerVerdict::NotOpened => Ok(ControlStep::dropped(
                DropReason::ContextNotActive,
            )),
            DeleteBearerVerdict::Answered(answer) => {
                self.answer_delete_bearer(alloc, arrival, request.seq, &answer)
            }
            DeleteBearerVerdict::Bearers { header } => {
                self.end_listed(alloc, arrival, view, request, header)
            }
        }
    }
}
