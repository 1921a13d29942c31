//! Sessions and bearers that go, and the requests about them.

ghost use Rattle.std.specs.Prelude.{◌≡◌, ◌==◌, not, filter, IsSome};
ghost use Rattle.std.specs.FinMap as map;
ghost use Rattle.gtp_machine.specs.Removal.{without_session, without_bearer, session_closing};
ghost use Rattle.gtp_tables.specs.BySession.{IsInPlace};
ghost use Rattle.gtp_gateway.specs.Parts.{node_of};
ghost use Rattle.gtp_gateway.specs.GatewayState.{state_of, queues_of};
ghost use Rattle.gtp_gateway.specs.tables.Stays.{OnlyTablesChange, OnlyRemoves};
ghost use Rattle.gtp_gateway.specs.user.Receive.{RequestsWaitOn};
ghost use Rattle.gtp_gateway.specs.tables.Removal.{goes_with_session, goes_with_bearer};

use crate::command::purpose::Purpose;
use crate::parts::Parts;
use gtp_tables::{Bearer, Session, State};
use gtp_values::{Seq, Teid};

impl Parts {
    /// A session goes, with its bearers and the requests about it. Allocates nothing.
    pub fn remove_session(&mut self, session: Teid)
        ensures node { node_of self.new ≡ without_session (node_of self.old) session }
        ensures waiting { self.new.pending.waiting
            ≡ filter (λ w. not (goes_with_session session w.purpose)) self.old.pending.waiting }
        ensures removes { OnlyRemoves self.old self.new }
    {
        self.pending.finish_where(
            |purpose: &Purpose| -> bool
                ensures { result ≡ goes_with_session session purpose.now }
            { purpose.is_of_session(session) },
        );
        self.bearers.remove_of_session(session);
        self.sessions.remove(session);
    }

    /// A bearer goes, with the requests about it. Allocates nothing.
    pub fn remove_bearer(&mut self, bearer: Teid)
        ensures node { node_of self.new ≡ without_bearer (node_of self.old) bearer }
        ensures waiting { self.new.pending.waiting
            ≡ filter (λ w. not (goes_with_bearer bearer w.purpose)) self.old.pending.waiting }
        ensures removes { OnlyRemoves self.old self.new }
    {
        self.pending.finish_where(
            |purpose: &Purpose| -> bool
                ensures { result ≡ goes_with_bearer bearer purpose.now }
            { purpose.is_of_bearer(bearer) },
        );
        self.bearers.remove(bearer);
    }

    /// A bearer is put in the place of one of the same session with the same remote. Allocates nothing.
    #[tactic(auto, using(crate::proofs::UserRows::all_wait))]
    pub fn replace_bearer(&mut self, teid: Teid, bearer: Bearer)
        requires { IsInPlace self.old.bearers teid bearer }
        ensures node { node_of self.new ≡ record (node_of self.old) {
          bearers = map.insert (node_of self.old).bearers teid bearer;
        } }
        ensures queues { queues_of self.new ≡ queues_of self.old }
        ensures pending { self.new.pending ≡ self.old.pending }
        ensures waits { RequestsWaitOn (state_of self.old) (state_of self.new) }
        ensures only { OnlyTablesChange self.old self.new }
        ensures draws { self.new.draws ≡ self.old.draws }
    {
        self.bearers.replace(teid, bearer);
    }

    /// A session that stands, and its bearers, are closing. Allocates nothing.
    #[tactic(auto, using(crate::proofs::UserRows::all_wait))]
    pub fn close_session(&mut self, teid: Teid, session: Session)
        requires { IsSome (map.get self.old.sessions.table teid) }
        ensures node { node_of self.new ≡ session_closing (node_of self.old) teid session }
        ensures pending { self.new.pending ≡ self.old.pending }
        ensures waits { RequestsWaitOn (state_of self.old) (state_of self.new) }
        ensures only { OnlyTablesChange self.old self.new }
        ensures draws { self.new.draws ≡ self.old.draws }
    {
        let closing = Session {
            state: State::Closing,
            ..session
        };
        self.sessions.replace(teid, closing);
        self.bearers.close_of_session(teid);
    }

    /// The request of this number waits no longer; what it was about stays. Allocates nothing.
    pub fn finish_number(&mut self, seq: Seq)
        ensures node { node_of self.new ≡ record (node_of self.old) {
          pending = map.remove (node_of self.old).pending seq;
        } }
        ensures waiting { self.new.pending.waiting
            ≡ filter (λ w. not (w.seq == seq)) self.old.pending.waiting }
        ensures removes { OnlyRemoves self.old self.new }
    {
        self.pending.finish(seq);
    }
}
