//! Delete Bearer Requests for the dedicated bearers of a list.

ghost use Rattle.gtp_gateway.specs.receive.Queues.{QueuesAfterMessage};
ghost use Rattle.gtp_gateway.specs.user.Receive.{RequestsWaitOn};
ghost use Rattle.std.specs.Prelude.{◌≡◌, ◌<◌, ◌≤◌, [], map, length, false, Some, None, IfOk, OnOk, OnErr};
ghost use Rattle.gtp_v2.specs.DeleteBearerRequest.{delete_bearer_request};
ghost use Rattle.gtp_machine.specs.Element.{cause_of};
ghost use Rattle.gtp_machine.specs.Message.{Delete_bearer_response};
ghost use Rattle.gtp_machine.specs.Reading.{control_message};
ghost use Rattle.gtp_machine.specs.Serving.{delete_bearer_cause};
ghost use Rattle.gtp_gateway.specs.receive.DeleteBearerRequest.{NamesOne, NamesEach, number_in, identity_named, removed_by, without_each, IsForBearers, EndsNamed, TakesDeleteBearerRequest};
ghost use Rattle.gtp_gateway.specs.messages.Own.{IsOwn};
ghost use Rattle.gtp_gateway.specs.Parts.{node_of};
ghost use Rattle.gtp_gateway.specs.GatewayState.{IsSoundState, state_of};
ghost use Rattle.gtp_gateway.specs.tables.Stays.{OnlyTablesChange};
ghost use Rattle.gtp_gateway.specs.receive.Taken.{IsFresh};

use crate::messages::delete_bearer::delete_bearer_response;
use crate::parts::Parts;
use crate::receive::arrival::Arrival;
use crate::receive::delete_bearer_request::DeleteBearerAnswer;
use crate::receive::delete_bearer_request::identities::{
    NamedBearer, cause_of_all, contexts_of, has_too_many, identities_in, is_named,
};
use crate::receive::delete_request::DeleteRequest;
use crate::step::ControlStep;
use crate::tables::change::Change;
use gtp_machine::{Outcome, causes};
use gtp_v2::{EbiValue, Message, MessageView};
use gtp_values::{Ebi, Memory, Seq, Teid};
use std::alloc::Global;

impl Parts {
    /// The session's dedicated bearer with the identity, where it does not go for one before.
    fn bearer_for(&self, session: Teid, identity: EbiValue, before: &[NamedBearer]) -> Option<Teid>
        requires whole { IsSoundState (state_of self.now) }
        ensures { NamesOne (node_of self.now) session before.now identity.0 result }
    {
        let Ok(identity) = Ebi::try_from(identity) else {
            return None;
        };
        let Some(dedicated) = self.dedicated(session, identity) else {
            return None;
        };
        let teid = dedicated.teid;
        if is_named(before, teid) {
            return None;
        }
        Some(teid)
    }

    /// The bearers that go for the identities of a list, each once. Nothing changes yet.
    fn name_each(
        &self,
        alloc: Global,
        session: Teid,
        identities: &[EbiValue],
    ) -> Result<Vec<NamedBearer>, Memory>
        requires whole { IsSoundState (state_of self.now) }
        ensures identities { IfOk result (λ named.
            map identity_named named.items ≡ map number_in identities.now) }
        ensures names { IfOk result (λ named.
            NamesEach (node_of self.now) session [] named.items) }
    {
        let mut named = Vec::new(alloc);
        for identity in identities {
            let teid = self.bearer_for(session, *identity, named.as_slice());
            named.push(NamedBearer {
                identity: *identity,
                teid,
            })?;
        }
        Ok(named)
    }

    /// The bearers go, in turn, with the requests about them. Allocates nothing.
    #[tactic(auto, using(crate::proofs::GivenUp::waiting))]
    fn end_each(&mut self, named: &[NamedBearer])
        ensures node { node_of self.new ≡ without_each named.now (node_of self.old) }
        ensures waits { RequestsWaitOn (state_of self.old) (state_of self.new) }
        ensures only { OnlyTablesChange self.old self.new }
    {
        for n in named {
            if let Some(teid) = n.teid {
                self.remove_bearer(teid);
            }
        }
    }

    /// The answer that tells of each bearer in the list.
    fn named_response(
        &self,
        alloc: Global,
        header: Teid,
        seq: Seq,
        named: &[NamedBearer],
    ) -> Result<Message, Memory>
        requires { length named.now ≤ 11 }
        ensures says { IfOk result (λ message. control_message message
            ≡ Delete_bearer_response (record {
              header = header;
              number = seq;
              cause = cause_of (delete_bearer_cause (map removed_by named.now));
              linked = None;
              contexts = map removed_by named.now;
              recovery = Some (node_of self.now).counter;
            })) }
        ensures own { IfOk result (λ message. IsOwn message) }
    {
        let contexts = contexts_of(alloc, named)?;
        let cause = cause_of_all(named);
        let counter = self.draws.counter();
        Ok(delete_bearer_response(header, seq, cause, None, contexts, counter))
    }

    /// Ends the dedicated bearers with these identities. All allocations come first.
    #[tactic(auto, using(crate::proofs::QueuesAfter::queues_after))]
    fn end_named(
        &mut self,
        alloc: Global,
        arrival: &Arrival<'_>,
        request: &DeleteRequest,
        header: Teid,
        identities: &[EbiValue],
    ) -> Result<ControlStep, Memory>
        requires whole { IsSoundState (state_of self.old) }
        requires fresh { IsFresh arrival.now (state_of self.old) self.old.held.pairs }
        requires few { length self.old.held.pairs < 4096 }
        requires asked { IsForBearers request.now header (node_of self.old) }
        requires short { length identities.now ≤ 11 }
        ensures taken { IfOk result (λ step. EndsNamed arrival.now request.now identities.now
            (state_of self.old) step (state_of self.new)) }
        ensures goes { OnOk result
            (QueuesAfterMessage arrival.now (state_of self.old) (state_of self.new)) }
        ensures unmade { IfOk result (λ step. step.report.made ≡ false) }
        ensures err { OnErr result (state_of self.new ≡ state_of self.old) }
    {
        let named = self.name_each(alloc, request.header, identities)?;
        let bearers = named.as_slice();
        let message = self.named_response(alloc, header, request.seq, bearers)?;
        let ready = self.ready_answer(alloc, arrival, &message)?;
        self.end_each(bearers);
        let outcome = Outcome::Answered(cause_of_all(bearers));
        Ok(ControlStep::sent(self.send_answer(arrival, ready), outcome))
    }

    /// Takes a Delete Bearer Request for the bearers in its list, which is counted before memory is
    /// taken for it.
    #[tactic(auto, using(crate::proofs::QueuesAfter::queues_after))]
    pub fn end_listed(
        &mut self,
        alloc: Global,
        arrival: &Arrival<'_>,
        view: &MessageView<'_>,
        request: &DeleteRequest,
        header: Teid,
    ) -> Result<ControlStep, Memory>
        requires whole { IsSoundState (state_of self.old) }
        requires fresh { IsFresh arrival.now (state_of self.old) self.old.held.pairs }
        requires few { length self.old.held.pairs < 4096 }
        requires asked { IsForBearers request.now header (node_of self.old) }
        requires kind { view.now.message.kind ≡ delete_bearer_request.kind }
        ensures taken { IfOk result (λ step. TakesDeleteBearerRequest arrival.now
            view.now.message request.now (state_of self.old) step (state_of self.new)) }
        ensures goes { OnOk result
            (QueuesAfterMessage arrival.now (state_of self.old) (state_of self.new)) }
        ensures unmade { IfOk result (λ step. step.report.made ≡ false) }
        ensures err { OnErr result (state_of self.new ≡ state_of self.old) }
    {
        if has_too_many(view) {
            let answer = DeleteBearerAnswer {
                header,
                cause: causes::REQUEST_REJECTED,
                linked: None,
                change: Change::Stays,
            };
            return self.answer_delete_bearer(alloc, arrival, request.seq, &answer);
        }
        let identities = identities_in(alloc, view)?;
        self.end_named(alloc, arrival, request, header, identities.as_slice())
    }
}
