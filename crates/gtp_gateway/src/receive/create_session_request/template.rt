//! A session that is granted with the bearer of its access point's template.

ghost use Rattle.gtp_gateway.specs.receive.Queues.{QueuesAfterMessage};
ghost use Rattle.std.specs.Prelude.{◌≡◌, IfOk, OnOk, OnErr, true, length, ◌<◌};
ghost use Rattle.gtp_gateway.specs.receive.CreateSessionRequest.{session_granted, CanGrant, CanAdd, asked_with, grants_with, made_with, IsGrantedWith};
ghost use Rattle.gtp_machine.specs.Reading.{control_message};
ghost use Rattle.gtp_gateway.specs.messages.Own.{IsOwn};
ghost use Rattle.gtp_gateway.specs.tables.Teids.{IsThirdDrawn};
ghost use Rattle.gtp_gateway.specs.messages.Sent.{ReadsBack};
ghost use Rattle.gtp_gateway.specs.messages.Spelled.{message_in, messages_in, AreSpelled, AreSpelledAll};
ghost use Rattle.gtp_machine.specs.Spelling.{spelled_all};
ghost use Rattle.gtp_gateway.specs.tables.Opening.{waiting_heard};
ghost use Rattle.gtp_machine.specs.Message.{Create_bearer_request};
ghost use Rattle.gtp_gateway.specs.receive.RestartCounter.{IsHeard, node_heard};
ghost use Rattle.gtp_gateway.specs.Parts.{node_of};
ghost use Rattle.gtp_gateway.specs.GatewayState.{IsSoundState, state_of};
ghost use Rattle.gtp_gateway.specs.tables.Stays.{OnlyTablesChange};
ghost use Rattle.gtp_gateway.specs.user.Receive.{RequestsWaitOn};
ghost use Rattle.gtp_gateway.specs.receive.Taken.{IsFresh};

use crate::command::purpose::{Asked, Purpose};
use crate::messages::create_bearer::create_bearer_request;
use crate::messages::create_session::session_cause;
use crate::messages::elements::{is_there, own_end};
use crate::messages::encode::{EncodedPair, encode_both};
use crate::parts::Parts;
use crate::receive::arrival::Arrival;
use crate::receive::create_session_request::judge::{AddedBearer, SessionGrant};
use crate::receive::create_session_request::read::SessionRequest;
use crate::receive::create_session_request::{granted_bearer, granted_session};
use crate::receive::restart_counter::Heard;
use crate::step::ControlStep;
use crate::tables::contexts::pending_dedicated;
use gtp_machine::interface_types::S5S8_PGW_GTP_U;
use gtp_v2::Message;
use gtp_values::Memory;
use std::alloc::Global;

impl Parts {
    /// The request of the template's bearer.
    fn template_request(
        &self,
        alloc: Global,
        request: &SessionRequest,
        grant: &SessionGrant,
        added: &AddedBearer,
    ) -> Result<Message, Memory>
        ensures says { IfOk result (λ message. control_message message ≡ Create_bearer_request
            (asked_with (session_granted request.now grant.now) added.now (node_of self.now))) }
        ensures own { IfOk result (λ message. IsOwn message) }
    {
        let session = granted_session(request, grant);
        let user = own_end(S5S8_PGW_GTP_U, added.drawn.teid, self.config.own().user);
        let template = added.template;
        create_bearer_request(alloc, &session, added.seq, template.tft, template.qos, user)
    }

    /// The answer that grants the session, and the request of the template's bearer, as octets.
    fn encode_granted(
        &self,
        alloc: Global,
        request: &SessionRequest,
        grant: &SessionGrant,
        added: &AddedBearer,
    ) -> Result<EncodedPair, Memory>
        ensures spelled { IfOk result (λ p. p.both.items
            ≡ spelled_all (grants_with request.now grant.now added.now (node_of self.now))) }
        ensures read { IfOk result (λ p. messages_in p.both.items
            ≡ grants_with request.now grant.now added.now (node_of self.now)) }
        ensures back { IfOk result (λ _.
            ReadsBack (grants_with request.now grant.now added.now (node_of self.now))) }
        ensures kept { IfOk result (λ p. AreSpelledAll p.both.items) }
        ensures alone { IfOk result (λ p. message_in p.second.items ≡ Create_bearer_request
            (asked_with (session_granted request.now grant.now) added.now (node_of self.now))) }
        ensures alone_kept { IfOk result (λ p. AreSpelled p.second.items) }
    {
        let message = self.granting(alloc, request, grant)?;
        let asked = self.template_request(alloc, request, grant, added)?;
        encode_both(alloc, &message, &asked)
    }

    /// A session is made with its default bearer and the bearer of the template, once a counter was
    /// heard: `Memory` where an allocation was refused, and then nothing has changed.
    #[tactic(auto, using(crate::proofs::GivenUp::waiting))]
    fn make_granted_with(
        &mut self,
        request: &SessionRequest,
        grant: &SessionGrant,
        added: &AddedBearer,
        heard: Heard,
    ) -> Result<(), Memory>
        requires weighed { IsHeard heard self.old.peer }
        requires can { CanGrant grant.now (node_of self.old) }
        requires third { IsThirdDrawn grant.now.drawn added.now.drawn (node_of self.old) }
        ensures node { OnOk result (node_of self.new
            ≡ made_with request.now grant.now added.now (node_heard heard (node_of self.old))) }
        ensures waits { RequestsWaitOn (state_of self.old) (state_of self.new) }
        ensures waiting { OnOk result (self.new.pending.waiting
            ≡ waiting_heard heard self.old.sessions.table self.old.pending.waiting) }
        ensures next { self.new.pending.next ≡ self.old.pending.next }
        ensures ready { self.old.pending.has_room ≡ true → self.new.pending.has_room ≡ true }
        ensures only { OnlyTablesChange self.old self.new }
        ensures err { OnErr result (state_of self.new ≡ state_of self.old) }
    {
        let control = grant.drawn.control;
        let user = grant.drawn.user;
        self.sessions.reserve_one().map_err(|_| Memory)?;
        self.bearers
            .add(user, granted_bearer(request, grant))
            .map_err(|_| Memory)?;
        let dedicated = pending_dedicated(control);
        if self.bearers.add(added.drawn.teid, dedicated).is_err() {
            self.bearers.remove(user);
            return Err(Memory);
        }
        self.hear(heard);
        self.sessions.add(control, granted_session(request, grant));
        self.draws = added.drawn.draws;
        Ok(())
    }

    /// Grants a Create Session Request, once its counter was heard, and begins the bearer of the
    /// template: both messages are one datagram, which is held; the request alone is sent again.
    pub fn grant_with(
        &mut self,
        alloc: Global,
        arrival: &Arrival<'_>,
        request: &SessionRequest,
        grant: &SessionGrant,
        added: &AddedBearer,
        heard: Heard,
    ) -> Result<ControlStep, Memory>
        requires whole { IsSoundState (state_of self.old) }
        requires weighed { IsHeard heard self.old.peer }
        requires can { CanGrant grant.now (node_of self.old) }
        requires add { CanAdd grant.now.drawn added.now heard (state_of self.old) }
        requires few { length self.old.held.pairs < 4096 }
        requires fresh { IsFresh arrival.now (state_of self.old) self.old.held.pairs }
        ensures granted { IfOk result (λ step.
            IsGrantedWith arrival.now request.now grant.now added.now
            heard (state_of self.old) step (state_of self.new)) }
        ensures goes { OnOk result
            (QueuesAfterMessage arrival.now (state_of self.old) (state_of self.new)) }
        ensures err { OnErr result (state_of self.new ≡ state_of self.old) }
    {
        let encoded = self.encode_granted(alloc, request, grant, added)?;
        let ready = self.ready_octets(alloc, arrival, encoded.both)?;
        self.pending.reserve().map_err(|_| Memory)?;
        self.make_granted_with(request, grant, added, heard)?;
        let purpose = Purpose {
            asked: Asked::CreateBearer,
            session: Some(grant.drawn.control),
            bearer: Some(added.drawn.teid),
            is_named: is_there(request.control.teid()),
        };
        self.begin_kept(added.seq, encoded.second, purpose);
        let out = self.send_answer(arrival, ready);
        Ok(ControlStep::answered(out, session_cause(request.pdn, grant.address), true))
    }
}
