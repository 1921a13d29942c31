//! Delete Session Requests (TS 29.274 7.2.9.1).

ghost use Rattle.gtp_gateway.specs.receive.Queues.{QueuesAfterMessage};
ghost use Rattle.std.specs.Prelude.{◌≡◌, ◌↔◌, false, IsTrue, IfOk, OnOk, OnErr};
ghost use Rattle.gtp_machine.specs.Packet.{IsLinkedTo, DeleteSessionAsked};
ghost use Rattle.gtp_gateway.specs.receive.DeleteSessionRequest.{delete_session_by, JudgesDeleteSession, TakesDeleteSessionRequest};
ghost use Rattle.gtp_gateway.specs.receive.Allocations.{AlwaysSendsOrOpens};
ghost use Rattle.gtp_gateway.specs.Parts.{node_of};
ghost use Rattle.gtp_gateway.specs.GatewayState.{state_of};
ghost use Rattle.gtp_gateway.specs.receive.Taken.{IsFresh};

use crate::messages::delete_session::delete_session_response;
use crate::messages::elements::{plain_cause, written_teid};
use crate::parts::Parts;
use crate::receive::arrival::Arrival;
use crate::receive::delete_request::DeleteRequest;
use crate::step::ControlStep;
use crate::tables::change::Change;
use gtp_machine::{DropReason, Outcome, causes};
use gtp_tables::Session;
use gtp_values::{Below, Memory, Teid};
use std::alloc::Global;

/// What the request comes to: the header and the cause of its answer, and what changes.
#[derive(Clone, Copy)]
pub struct DeleteSessionVerdict {
    pub header: Teid,
    pub cause: u8,
    pub change: Change,
}

/// Whether the linked identity is absent, or the session's default.
fn is_linked_to(linked: Option<Below<16>>, session: &Session) -> bool
    ensures { IsTrue result ↔ IsLinkedTo linked session.now }
{
    match linked {
        None => true,
        Some(identity) => session.is_default(identity),
    }
}

impl Parts {
    /// What a Delete Session Request comes to. It changes nothing.
    fn judge_delete_session(&self, request: &DeleteRequest) -> DeleteSessionVerdict
        ensures { JudgesDeleteSession request.now (node_of self.now) result }
    {
        let Some(session) = self.sessions.get(request.header) else {
            return DeleteSessionVerdict {
                header: Teid(0),
                cause: causes::CONTEXT_NOT_FOUND,
                change: Change::Stays,
            };
        };
        let header = written_teid(session.remote);
        if !is_linked_to(request.linked, &session) {
            return DeleteSessionVerdict {
                header,
                cause: causes::CONTEXT_NOT_FOUND,
                change: Change::Stays,
            };
        }
        DeleteSessionVerdict {
            header,
            cause: causes::REQUEST_ACCEPTED,
            change: Change::RemovesSession(request.header),
        }
    }

    /// Takes a Delete Session Request, in any state of the session.
    #[tactic(auto, using(crate::proofs::QueuesAfter::queues_after))]
    pub fn take_delete_session_request(
        &mut self,
        alloc: Global,
        arrival: &Arrival<'_>,
        request: &DeleteRequest,
    ) -> Result<ControlStep, Memory>
        requires fresh { IsFresh arrival.now (state_of self.old) self.old.held.pairs }
        ensures taken { IfOk result (λ step. TakesDeleteSessionRequest arrival.now request.now
            (state_of self.old) step (state_of self.new)) }
        ensures goes { OnOk result
            (QueuesAfterMessage arrival.now (state_of self.old) (state_of self.new)) }
        ensures unmade { IfOk result (λ step. step.report.made ≡ false) }
        ensures memory { OnErr result (AlwaysSendsOrOpens
            (DeleteSessionAsked arrival.now (delete_session_by request.now)) (node_of self.old)) }
        ensures err { OnErr result (state_of self.new ≡ state_of self.old) }
    {
        if self.held.is_full() {
            return Ok(ControlStep::dropped(DropReason::HeldFull));
        }
        let verdict = self.judge_delete_session(request);
        let message = delete_session_response(
            verdict.header,
            request.seq,
            plain_cause(verdict.cause),
            self.draws.counter(),
        );
        let out = self.answer(alloc, arrival, &message, verdict.change)?;
        Ok(ControlStep::sent(out, Outcome::Answered(verdict.cause)))
    }
}
