//! Create Bearer Responses (TS 29.274 7.2.4), as the packet gateway takes them.

ghost use Rattle.gtp_gateway.specs.user.Receive.{RequestsWaitOn};
ghost use Rattle.std.specs.Prelude.{◌≡◌, ◌↔◌, false, ℕ, List, Option, Some, IsTrue, IfSome, IfNone, IfOk, OnOk, OnErr};
ghost use Rattle.gtp_v2.specs.Datagram.{IsMessage};
ghost use Rattle.gtp_machine.specs.Message as messages;
ghost use Rattle.gtp_machine.specs.Node.{Active};
ghost use Rattle.gtp_machine.specs.Packet.{CreateBearerAnswered};
ghost use Rattle.gtp_machine.specs.declared.message_type.MessageType.TheVariants as types;
ghost use Rattle.gtp_gateway.specs.receive.CreateBearerResponse.{ReadsCreateBearerResponse, FitsCreateBearerOf, IsAskedBearer, CanOpenIn, SaysCreateBearerResponse, JudgesCreateBearerResponse, TakesCreateBearerResponse};
ghost use Rattle.gtp_gateway.specs.receive.RestartCounter.{IsHeard, node_heard};
ghost use Rattle.gtp_gateway.specs.receive.Allocations.{AlwaysSendsOrOpens};
ghost use Rattle.gtp_gateway.specs.Parts.{node_of};
ghost use Rattle.gtp_machine.specs.MessageType.{type_at};
ghost use Rattle.gtp_gateway.specs.GatewayState.{IsSoundState, state_of};

use crate::command::purpose::{Asked, Purpose};
use crate::parts::Parts;
use crate::receive::response::{Response, response_in};
use crate::receive::response_context::{ResponseContext, accepts, only_context_in};
use crate::receive::restart_counter::Heard;
use crate::step::ControlStep;
use crate::tables::opening::ResponseVerdict;
use gtp_machine::{DropReason, Outcome};
use gtp_tables::{Bearer, State, View};
use gtp_v2::MessageView;
use gtp_values::{Below, Ebi, Memory, Teid};

/// What a Create Bearer Response says.
#[derive(Clone, Copy)]
pub struct BearerResponse {
    pub response: Response,
    /// The bearer context, where it is the only one.
    pub context: Option<ResponseContext>,
}

/// The bearer that was asked for, with its session.
#[derive(Clone, Copy)]
pub struct AskedBearer {
    pub session: Teid,
    pub bearer: Teid,
}

/// What a Create Bearer Response says.
pub fn create_bearer_response_in(view: &MessageView<'_>) -> BearerResponse
    requires spelled { (octets : List ℕ) × IsMessage octets view.now.message }
    requires of { type_at view.now.message.kind ≡ Some types.CreateBearerResponse }
    ensures { ReadsCreateBearerResponse view.now.message result }
{
    BearerResponse {
        response: response_in(view),
        context: only_context_in(view),
    }
}

/// The bearer that a request asks for, where it is a Create Bearer Request for the session that the
/// response names.
fn fits_create_bearer(purpose: &Purpose, response: &Response) -> Option<AskedBearer>
    ensures some { IfSome result (IsAskedBearer purpose.now response.now) }
    ensures none { IfNone result (FitsCreateBearerOf purpose.now response.now → ⊥) }
{
    let Asked::CreateBearer = purpose.asked else {
        return None;
    };
    if !response.names(purpose) {
        return None;
    }
    Some(AskedBearer {
        session: purpose.session?,
        bearer: purpose.bearer?,
    })
}

/// Whether the F-TEID that comes back is the bearer's.
fn returns_bearer(context: &ResponseContext, bearer: Teid) -> bool
    ensures { IsTrue result ↔ (context.now.returned ≡ Some bearer) }
{
    context.returned == Some(bearer)
}

/// The identity with which a bearer of the session can be opened: it is 5 to 15, and no bearer of the
/// session has it, which stands and is not closing.
fn openable(view: &View<'_>, session: Teid, identity: Below<16>) -> Option<Ebi>
    ensures some { IfSome result (λ e.
        (e ≡ identity) × CanOpenIn view.now.sessions view.now.bearers session identity) }
    ensures none { IfNone result
        (CanOpenIn view.now.sessions view.now.bearers session identity → ⊥) }
{
    let identity = Ebi::try_new(identity.number()).ok()?;
    if view.with_identity(session, identity).is_some() {
        return None;
    }
    let Some(at) = view.session(session) else {
        return None;
    };
    if at.is_closing() {
        return None;
    }
    Some(identity)
}

/// A dedicated bearer, opened.
fn opened_dedicated(bearer: &Bearer, user: Option<Teid>, identity: Ebi) -> Bearer
    ensures { result ≡ record bearer.now {
      remote = user;
      identity = Some identity;
      state = Active;
    } }
{
    Bearer {
        remote: user,
        identity: Some(identity),
        state: State::Active,
        ..*bearer
    }
}

impl Parts {
    /// What a Create Bearer Response comes to, once its counter was heard. It changes nothing.
    fn judge_create_bearer_response(&self, answer: &BearerResponse, heard: Heard) -> ResponseVerdict
        requires whole { IsSoundState (state_of self.now) }
        ensures { JudgesCreateBearerResponse answer.now
            (node_heard heard (node_of self.now)) result }
    {
        let Some(purpose) = self.waiting_after(answer.response.seq, heard) else {
            return ResponseVerdict::Drops(DropReason::NoPending);
        };
        let Some(asked) = fits_create_bearer(&purpose, &answer.response) else {
            return ResponseVerdict::Drops(DropReason::Mismatch);
        };
        if !accepts(&answer.response.cause) {
            return ResponseVerdict::rejects(purpose, answer.response.cause);
        }
        let Some(context) = answer.context else {
            return ResponseVerdict::Drops(DropReason::Mismatch);
        };
        if !accepts(&context.cause) {
            return ResponseVerdict::rejects(purpose, context.cause);
        }
        if !returns_bearer(&context, asked.bearer) {
            return ResponseVerdict::Drops(DropReason::Mismatch);
        }
        let view = self.view_after(heard);
        let Some(identity) = openable(&view, asked.session, context.identity) else {
            return ResponseVerdict::Finishes {
                purpose,
                outcome: Outcome::Clash,
            };
        };
        let Some(bearer) = view.bearer(asked.bearer) else {
            unreachable!()
        };
        ResponseVerdict::OpensBearer {
            teid: asked.bearer,
            bearer: opened_dedicated(&bearer, context.user, identity),
        }
    }

    /// Takes a Create Bearer Response: what does not accept, or clashes, removes the pending bearer.
    #[tactic(auto, using(crate::proofs::GivenUp::waiting))]
    pub fn take_create_bearer_response(
        &mut self,
        answer: &BearerResponse,
        heard: Heard,
    ) -> Result<ControlStep, Memory>
        requires whole { IsSoundState (state_of self.old) }
        requires weighed { IsHeard heard self.old.peer }
        ensures taken { IfOk result (λ step. TakesCreateBearerResponse answer.now heard
            (state_of self.old) step (state_of self.new)) }
        ensures waits { OnOk result (RequestsWaitOn (state_of self.old) (state_of self.new)) }
        ensures unmade { IfOk result (λ step. step.report.made ≡ false) }
        ensures memory { OnErr result ((x : messages.CreateBearerResponse)
            → SaysCreateBearerResponse answer.now x
            → AlwaysSendsOrOpens (CreateBearerAnswered x) (node_heard heard (node_of self.old))) }
        ensures err { OnErr result (state_of self.new ≡ state_of self.old) }
    {
        let verdict = self.judge_create_bearer_response(answer, heard);
        self.apply_verdict(answer.response.seq, heard, verdict)
    }
}
