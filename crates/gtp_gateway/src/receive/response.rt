//! Responses (TS 29.274 7.6): each fits a request that waits, or is dropped.

ghost use Rattle.gtp_ie.specs.Form.{number_of};
ghost use Rattle.gtp_ie.specs.declared.form.Form.TheVariants as forms;
ghost use Rattle.std.specs.Prelude.{◌≡◌, ◌↔◌, ◌∷◌, [], IsTrue, false, option_map};
ghost use Rattle.gtp_ie.specs.Value.{OfCause};
ghost use Rattle.gtp_v2.specs.Viewed.{row_of, always_has};
ghost use Rattle.gtp_reliable.specs.Pending.{purpose_of};
ghost use Rattle.gtp_machine.specs.Node.{written};
ghost use Rattle.gtp_machine.specs.Removal.{finished_about};
ghost use Rattle.gtp_gateway.specs.Parts.{node_of};
ghost use Rattle.gtp_gateway.specs.command.Purpose.{session_of, bearer_of};
ghost use Rattle.gtp_gateway.specs.GatewayState.{state_of};
ghost use Rattle.gtp_gateway.specs.receive.Response.{EndsAsked, FitsAsked};
ghost use Rattle.gtp_gateway.specs.tables.Stays.{OnlyRemoves};
ghost use Rattle.gtp_gateway.specs.user.Receive.{RequestsWaitOn};

use crate::command::purpose::{Asked, Purpose};
use crate::parts::Parts;
use crate::step::ControlStep;
use gtp_machine::causes::CONTEXT_NOT_FOUND;
use gtp_machine::{DropReason, Outcome};
use gtp_v2::MessageView;
use gtp_values::{Cause, Seq, Teid};

/// What a response says of the request that it answers.
#[derive(Clone, Copy)]
pub struct Response {
    pub seq: Seq,
    /// The TEID of its header.
    pub header: Teid,
    pub cause: Cause,
}

/// What a response says of its request, where the response has a cause.
pub fn response_in(view: &MessageView<'_>) -> Response
    requires { IsTrue (always_has view.now.message.kind (number_of forms.Cause) 0) }
    ensures seq { result.seq ≡ view.now.message.seq }
    ensures header { result.header ≡ written view.now.message.teid }
    ensures cause { row_of (number_of forms.Cause) 0 view.now.message ≡ OfCause result.cause ∷ [] }
{
    Response {
        seq: view.seq(),
        header: view.teid().unwrap_or(Teid(0)),
        cause: view.needed(0),
    }
}

impl Response {
    ghost use Rattle.std.specs.Prelude.{◌≡◌, ◌↔◌, IsTrue};
    ghost use Rattle.gtp_gateway.specs.receive.Response.{Names};

    /// Whether the header names the session that the request is about (TS 29.274 5.5.2): it has the
    /// session's TEID, or 0 with "context not found" where a TEID stood in the request's own.
    pub fn names(&self, request: &Purpose) -> bool
        ensures { IsTrue result ↔ Names self.now request.now }
    {
        request.is_of_session(self.header)
            || (self.header == Teid(0) && self.cause.value == CONTEXT_NOT_FOUND && request.is_named)
    }
}

/// Whether a request asks for this, and is about the session that the response names; an Echo Response names none.
fn fits_asked(purpose: &Purpose, asked: Asked, response: Option<&Response>) -> bool
    ensures { IsTrue result ↔ FitsAsked asked (option_map (λ r. r.now) response.entry) purpose.now }
{
    purpose.asked == asked
        && match response {
            Some(response) => response.names(purpose),
            None => true,
        }
}

impl Parts {
    /// What the request of this number is about, where one waits.
    pub fn waiting(&self, seq: Seq) -> Option<Purpose>
        ensures { result ≡ purpose_of seq self.now.pending.waiting }
    {
        self.pending.matched(seq).copied()
    }

    /// The request of this number is finished, and what it was about goes. Allocates nothing.
    pub fn finish(&mut self, seq: Seq, purpose: &Purpose)
        ensures node { node_of self.new ≡ finished_about (node_of self.old) seq
            (session_of purpose.now) (bearer_of purpose.now) }
        ensures removes { OnlyRemoves self.old self.new }
    {
        match purpose.bearer {
            Some(bearer) => self.remove_bearer(bearer),
            None => match purpose.session {
                Some(session) => self.remove_session(session),
                None => self.finish_number(seq),
            },
        }
    }

    /// Takes a response that only ends its request: the request of this number is finished, and what it was about goes,
    /// where the response fits it. Takes no memory.
    #[tactic(auto, using(crate::proofs::GivenUp::waiting))]
    pub fn end_request(
        &mut self,
        seq: Seq,
        asked: Asked,
        response: Option<&Response>,
        outcome: Outcome,
    ) -> ControlStep
        ensures ended { EndsAsked seq asked (option_map (λ r. r.now) response.entry) outcome
            (state_of self.old) result (state_of self.new) }
        ensures waits { RequestsWaitOn (state_of self.old) (state_of self.new) }
        ensures unmade { result.report.made ≡ false }
    {
        let Some(purpose) = self.waiting(seq) else {
            return ControlStep::dropped(DropReason::NoPending);
        };
        if !fits_asked(&purpose, asked, response) {
            return ControlStep::dropped(DropReason::Mismatch);
        }
        self.finish(seq, &purpose);
        ControlStep::quiet(outcome)
    }
}
