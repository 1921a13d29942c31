//! Create Session Requests (TS 29.274 7.2.1), as the packet gateway answers them.

pub mod judge;
pub mod read;
pub mod template;

ghost use Rattle.gtp_gateway.specs.receive.Queues.{QueuesAfterMessage};
ghost use Rattle.std.specs.Prelude.{◌≡◌, IfOk, OnOk, OnErr, false, true, length, ◌<◌};
ghost use Rattle.gtp_gateway.specs.tables.Change.{changed_by};
ghost use Rattle.gtp_gateway.specs.receive.Choosing.{MakesLowestSession};
ghost use Rattle.gtp_gateway.specs.receive.CreateSessionRequest.{session_granted, bearer_granted, change_of, grants, CanGrant, IsRefusedSession, IsGrantedSession, TakesCreateSessionRequest};
ghost use Rattle.gtp_machine.specs.Message as messages;
ghost use Rattle.gtp_machine.specs.Packet.{CreateSessionAsked};
ghost use Rattle.gtp_machine.specs.Reading.{control_message};
ghost use Rattle.gtp_gateway.specs.messages.Own.{IsOwn};
ghost use Rattle.gtp_gateway.specs.receive.RestartCounter.{IsHeard, node_heard};
ghost use Rattle.gtp_gateway.specs.receive.Allocations.{AlwaysSendsOrOpens};
ghost use Rattle.gtp_gateway.specs.Parts.{node_of};
ghost use Rattle.gtp_gateway.specs.GatewayState.{IsSoundState, state_of};
ghost use Rattle.gtp_gateway.specs.tables.Stays.{OnlyTablesChange};
ghost use Rattle.gtp_gateway.specs.user.Receive.{RequestsWaitOn};
ghost use Rattle.gtp_gateway.specs.receive.Taken.{IsFresh};
ghost use Rattle.gtp_values.specs.Cause.{is_accepting_value};

use crate::messages::create_session::{create_session_response, session_cause};
use crate::messages::elements::own_end;
use crate::messages::refusal::refusal;
use crate::parts::Parts;
use crate::receive::arrival::Arrival;
use crate::receive::create_session_request::judge::{CreateSessionVerdict, SessionGrant, refused};
use crate::receive::create_session_request::read::SessionRequest;
use crate::receive::restart_counter::Heard;
use crate::step::ControlStep;
use gtp_machine::interface_types::{S5S8_PGW_GTP_C, S5S8_PGW_GTP_U};
use gtp_machine::{DropReason, MessageType};
use gtp_tables::{Bearer, Kind, Session, State, Subscriber};
use gtp_v2::Message;
use gtp_values::{Cause, Memory};
use std::alloc::Global;

/// The session that is granted, active at once.
fn granted_session(request: &SessionRequest, grant: &SessionGrant) -> Session
    ensures { result ≡ session_granted request.now grant.now }
{
    Session {
        remote: Some(request.control.teid()),
        subscriber: Subscriber {
            imsi: request.imsi,
            access_point: request.access_point,
            identity: grant.identity,
        },
        address: Some(grant.address),
        state: State::Active,
    }
}

/// Its default bearer.
fn granted_bearer(request: &SessionRequest, grant: &SessionGrant) -> Bearer
    ensures { result ≡ bearer_granted request.now grant.now }
{
    Bearer {
        remote: Some(request.default.user.teid()),
        session: grant.drawn.control,
        identity: Some(grant.identity),
        kind: Kind::Default,
        state: State::Active,
        ended: false,
    }
}

impl Parts {
    /// A session is made with its default bearer, once a counter was heard: `Memory` where an
    /// allocation was refused, and then nothing has changed.
    #[tactic(auto, using(crate::proofs::GivenUp::waiting))]
    fn make_granted(
        &mut self,
        request: &SessionRequest,
        grant: &SessionGrant,
        heard: Heard,
    ) -> Result<(), Memory>
        requires weighed { IsHeard heard self.old.peer }
        requires can { CanGrant grant.now (node_of self.old) }
        ensures node { OnOk result (node_of self.new
            ≡ changed_by (change_of request.now grant.now) (node_heard heard (node_of self.old))) }
        ensures waits { RequestsWaitOn (state_of self.old) (state_of self.new) }
        ensures only { OnlyTablesChange self.old self.new }
        ensures err { OnErr result (state_of self.new ≡ state_of self.old) }
    {
        self.sessions.reserve_one().map_err(|_| Memory)?;
        self.bearers
            .add(grant.drawn.user, granted_bearer(request, grant))
            .map_err(|_| Memory)?;
        self.hear(heard);
        self.sessions
            .add(grant.drawn.control, granted_session(request, grant));
        self.draws = grant.drawn.draws;
        Ok(())
    }

    /// The answer that grants a session.
    fn granting(
        &self,
        alloc: Global,
        request: &SessionRequest,
        grant: &SessionGrant,
    ) -> Result<Message, Memory>
        ensures says { IfOk result (λ message. control_message message
            ≡ grants request.now grant.now (node_of self.now)) }
        ensures own { IfOk result (λ message. IsOwn message) }
    {
        let own = self.config.own();
        let control = own_end(S5S8_PGW_GTP_C, grant.drawn.control, own.control);
        let user = own_end(S5S8_PGW_GTP_U, grant.drawn.user, own.user);
        create_session_response(
            alloc,
            request,
            control,
            user,
            grant.address,
            self.draws.counter(),
        )
    }

    /// Refuses a Create Session Request, once its counter was heard.
    #[tactic(auto, using(crate::proofs::QueuesAfter::queues_after))]
    fn refuse_session(
        &mut self,
        alloc: Global,
        arrival: &Arrival<'_>,
        request: &SessionRequest,
        cause: Cause,
        heard: Heard,
    ) -> Result<ControlStep, Memory>
        requires weighed { IsHeard heard self.old.peer }
        requires refuses { is_accepting_value cause.value ≡ false }
        requires few { length self.old.held.pairs < 4096 }
        requires fresh { IsFresh arrival.now (state_of self.old) self.old.held.pairs }
        ensures refused { IfOk result (λ step. IsRefusedSession arrival.now request.now cause
            heard (state_of self.old) step (state_of self.new)) }
        ensures goes { OnOk result
            (QueuesAfterMessage arrival.now (state_of self.old) (state_of self.new)) }
        ensures err { OnErr result (state_of self.new ≡ state_of self.old) }
    {
        let number = cause.value;
        let header = request.control.teid();
        let counter = self.draws.counter();
        let message = refusal(
            alloc,
            MessageType::CreateSessionRequest,
            header,
            request.seq,
            cause,
            counter,
        )?;
        let ready = self.ready_answer(alloc, arrival, &message)?;
        self.hear(heard);
        let out = self.send_answer(arrival, ready);
        Ok(ControlStep::answered(out, number, false))
    }

    /// Grants a Create Session Request, once its counter was heard.
    #[tactic(auto, using(crate::proofs::QueuesAfter::queues_after))]
    fn grant_session(
        &mut self,
        alloc: Global,
        arrival: &Arrival<'_>,
        request: &SessionRequest,
        grant: &SessionGrant,
        heard: Heard,
    ) -> Result<ControlStep, Memory>
        requires weighed { IsHeard heard self.old.peer }
        requires can { CanGrant grant.now (node_of self.old) }
        requires few { length self.old.held.pairs < 4096 }
        requires fresh { IsFresh arrival.now (state_of self.old) self.old.held.pairs }
        ensures granted { IfOk result (λ step.
            IsGrantedSession arrival.now request.now grant.now
            heard (state_of self.old) step (state_of self.new)) }
        ensures goes { OnOk result
            (QueuesAfterMessage arrival.now (state_of self.old) (state_of self.new)) }
        ensures err { OnErr result (state_of self.new ≡ state_of self.old) }
    {
        let message = self.granting(alloc, request, grant)?;
        let ready = self.ready_answer(alloc, arrival, &message)?;
        self.make_granted(request, grant, heard)?;
        let out = self.send_answer(arrival, ready);
        Ok(ControlStep::answered(out, session_cause(request.pdn, grant.address), true))
    }

    /// Takes a Create Session Request, with the counter that it brought.
    #[tactic(auto, using(crate::proofs::QueuesAfter::queues_after))]
    pub fn take_create_session_request(
        &mut self,
        alloc: Global,
        arrival: &Arrival<'_>,
        request: &SessionRequest,
        heard: Heard,
    ) -> Result<ControlStep, Memory>
        requires whole { IsSoundState (state_of self.old) }
        requires weighed { IsHeard heard self.old.peer }
        requires fresh { IsFresh arrival.now (state_of self.old) self.old.held.pairs }
        ensures taken { IfOk result (λ step. TakesCreateSessionRequest arrival.now request.now
            heard (state_of self.old) step (state_of self.new)) }
        ensures goes { OnOk result
            (QueuesAfterMessage arrival.now (state_of self.old) (state_of self.new)) }
        ensures choices { IfOk result (λ step.
            step.report.made ≡ true → MakesLowestSession (node_of self.old) (node_of self.new)) }
        ensures memory { OnErr result ((q : messages.CreateSessionRequest)
            → AlwaysSendsOrOpens (CreateSessionAsked arrival.now q)
            (node_heard heard (node_of self.old))) }
        ensures err { OnErr result (state_of self.new ≡ state_of self.old) }
    {
        if self.held.is_full() {
            self.hear(heard);
            return Ok(ControlStep::dropped(DropReason::HeldFull));
        }
        match self.judge_create_session(request, heard) {
            CreateSessionVerdict::Refused(cause) => {
                self.refuse_session(alloc, arrival, request, cause, heard)
            }
            CreateSessionVerdict::Granted(grant) => {
                self.grant_session(alloc, arrival, request, &grant, heard)
            }
            CreateSessionVerdict::GrantedWith { grant, added } => {
                self.grant_with(alloc, arrival, request, &grant, &added, heard)
            }
        }
    }
}
