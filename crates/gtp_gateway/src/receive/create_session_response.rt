//! Create Session Responses (TS 29.274 7.2.2), as the serving gateway takes them.

ghost use Rattle.gtp_gateway.specs.user.Receive.{RequestsWaitOn};
ghost use Rattle.std.specs.Prelude.{◌≡◌, ◌↔◌, false, ℕ, List, Option, Some, IsTrue, IfSome, IfNone, IfOk, OnOk, OnErr};
ghost use Rattle.gtp_v2.specs.Datagram.{IsMessage};
ghost use Rattle.gtp_machine.specs.Message as messages;
ghost use Rattle.gtp_machine.specs.Node.{Active};
ghost use Rattle.gtp_machine.specs.Serving.{CreateSessionAnswered};
ghost use Rattle.gtp_machine.specs.declared.message_type.MessageType.TheVariants as types;
ghost use Rattle.gtp_gateway.specs.receive.RestartCounter.{IsHeard, node_heard};
ghost use Rattle.gtp_gateway.specs.receive.Allocations.{AlwaysSendsOrOpens};
ghost use Rattle.gtp_gateway.specs.Parts.{node_of};
ghost use Rattle.gtp_machine.specs.MessageType.{type_at};
ghost use Rattle.gtp_gateway.specs.receive.CreateSessionResponse.{ReadsCreateSessionResponse, FitsCreateSessionOf, IsAskedSession, IsDescribed, SaysCreateSessionResponse, JudgesCreateSessionResponse, JudgesAnswer, TakesCreateSessionResponse};
ghost use Rattle.gtp_gateway.specs.GatewayState.{IsSoundState, state_of};

use crate::command::purpose::{Asked, Purpose};
use crate::parts::Parts;
use crate::receive::response::{Response, response_in};
use crate::receive::response_context::{
    ResponseContext, accepts, address_of, only_context_in, teid_of,
};
use crate::receive::restart_counter::Heard;
use crate::step::ControlStep;
use crate::tables::opening::ResponseVerdict;
use gtp_machine::DropReason;
use gtp_tables::{Bearer, Session, State, View};
use gtp_v2::MessageView;
use gtp_values::{Addr, Memory, Teid};

/// What a Create Session Response says.
#[derive(Clone, Copy)]
pub struct SessionResponse {
    pub response: Response,
    /// The TEID of the packet gateway's F-TEID for the control plane.
    pub control: Option<Teid>,
    /// The address that the session is given.
    pub address: Option<Addr>,
    /// The bearer context, where it is the only one.
    pub context: Option<ResponseContext>,
}

/// The session that was asked for, with its default bearer.
#[derive(Clone, Copy)]
pub struct AskedSession {
    pub session: Teid,
    pub bearer: Teid,
}

/// A session that is pending, with what the response gives it.
#[derive(Clone, Copy)]
pub struct DescribedSession {
    pub session: Session,
    pub context: ResponseContext,
    pub address: Addr,
}

/// What a Create Session Response says.
pub fn create_session_response_in(view: &MessageView<'_>) -> SessionResponse
    requires spelled { (octets : List ℕ) × IsMessage octets view.now.message }
    requires of { type_at view.now.message.kind ≡ Some types.CreateSessionResponse }
    ensures { ReadsCreateSessionResponse view.now.message result }
{
    SessionResponse {
        response: response_in(view),
        control: teid_of(view.value(1)),
        address: address_of(view.value(0)),
        context: only_context_in(view),
    }
}

/// The session that a request asks for, where it is a Create Session Request for the session that
/// the response names. No TEID stands in the header of that request.
fn fits_create_session(purpose: &Purpose, response: &Response) -> Option<AskedSession>
    ensures some { IfSome result (IsAskedSession purpose.now response.now) }
    ensures none { IfNone result (FitsCreateSessionOf purpose.now response.now → ⊥) }
{
    let Asked::CreateSession(bearer) = purpose.asked else {
        return None;
    };
    let session = purpose.session?;
    if session != response.header {
        return None;
    }
    Some(AskedSession { session, bearer })
}

/// What an accepting response describes: one bearer context, of the session's default identity, and
/// an address.
fn described(view: &View<'_>, session: Teid, answer: &SessionResponse) -> Option<DescribedSession>
    ensures some { IfSome result (IsDescribed view.now.sessions session answer.now) }
    ensures none { IfNone result ((d : _)
        → IsDescribed view.now.sessions session answer.now d → ⊥) }
{
    let at = view.session(session)?;
    let context = answer.context?;
    let address = answer.address?;
    if !at.is_default(context.identity) {
        return None;
    }
    Some(DescribedSession {
        session: at,
        context,
        address,
    })
}

/// The session, opened.
fn opened_session(described: &DescribedSession, control: Option<Teid>) -> Session
    ensures { result ≡ record described.now.session {
      remote = control;
      address = Some described.now.address;
      state = Active;
    } }
{
    Session {
        remote: control,
        address: Some(described.address),
        state: State::Active,
        ..described.session
    }
}

/// Its default bearer, opened.
fn opened_default(bearer: &Bearer, user: Option<Teid>) -> Bearer
    ensures { result ≡ record bearer.now { remote = user; state = Active } }
{
    Bearer {
        remote: user,
        state: State::Active,
        ..*bearer
    }
}

impl Parts {
    /// What a Create Session Response comes to, once its counter was heard. It changes nothing.
    fn judge_create_session_response(
        &self,
        answer: &SessionResponse,
        heard: Heard,
    ) -> ResponseVerdict
        requires whole { IsSoundState (state_of self.now) }
        ensures { JudgesCreateSessionResponse answer.now
            (node_heard heard (node_of self.now)) result }
    {
        let Some(purpose) = self.waiting_after(answer.response.seq, heard) else {
            return ResponseVerdict::Drops(DropReason::NoPending);
        };
        let Some(asked) = fits_create_session(&purpose, &answer.response) else {
            return ResponseVerdict::Drops(DropReason::Mismatch);
        };
        if !accepts(&answer.response.cause) {
            return ResponseVerdict::rejects(purpose, answer.response.cause);
        }
        let view = self.view_after(heard);
        let Some(described) = described(&view, asked.session, answer) else {
            return ResponseVerdict::Drops(DropReason::Mismatch);
        };
        if !accepts(&described.context.cause) {
            return ResponseVerdict::rejects(purpose, described.context.cause);
        }
        let Some(bearer) = view.bearer(asked.bearer) else {
            unreachable!()
        };
        ResponseVerdict::OpensSession {
            session: asked.session,
            opened: opened_session(&described, answer.control),
            teid: asked.bearer,
            bearer: opened_default(&bearer, described.context.user),
        }
    }

    /// The same, where a counter of an earlier start may have come with it. It changes nothing.
    pub fn judge_answer(&self, answer: &SessionResponse, heard: Heard) -> ResponseVerdict
        requires whole { IsSoundState (state_of self.now) }
        ensures { JudgesAnswer answer.now heard (node_of self.now) result }
    {
        if heard.is_earlier() {
            return ResponseVerdict::Drops(DropReason::OldCounter);
        }
        self.judge_create_session_response(answer, heard)
    }

    /// Takes a Create Session Response: what does not accept removes the pending session.
    #[tactic(auto, using(crate::proofs::GivenUp::waiting))]
    pub fn take_create_session_response(
        &mut self,
        answer: &SessionResponse,
        heard: Heard,
    ) -> Result<ControlStep, Memory>
        requires whole { IsSoundState (state_of self.old) }
        requires weighed { IsHeard heard self.old.peer }
        ensures taken { IfOk result (λ step. TakesCreateSessionResponse answer.now heard
            (state_of self.old) step (state_of self.new)) }
        ensures waits { OnOk result (RequestsWaitOn (state_of self.old) (state_of self.new)) }
        ensures unmade { IfOk result (λ step. step.report.made ≡ false) }
        ensures memory { OnErr result ((a : messages.CreateSessionResponse)
            → SaysCreateSessionResponse answer.now a
            → AlwaysSendsOrOpens (CreateSessionAnswered a) (node_heard heard (node_of self.old))) }
        ensures err { OnErr result (state_of self.new ≡ state_of self.old) }
    {
        let verdict = self.judge_create_session_response(answer, heard);
        self.apply_verdict(answer.response.seq, heard, verdict)
    }
}
