//! What a step changes of sessions and bearers.

ghost use Rattle.std.specs.Prelude.{◌≡◌, ◌<◌, true, OnOk, OnErr};
ghost use Rattle.gtp_gateway.specs.tables.Change.{changed_by, keeps_requests, CanChange};
ghost use Rattle.std.specs.FinMap as map;
ghost use Rattle.gtp_gateway.specs.declared.tables.change.Change.TheVariants as changes;
ghost use Rattle.gtp_gateway.specs.Parts.{node_of};
ghost use Rattle.gtp_gateway.specs.GatewayState.{state_of};
ghost use Rattle.gtp_gateway.specs.tables.Stays.{OnlyTablesChange};
ghost use Rattle.gtp_gateway.specs.user.Receive.{RequestsWaitOn};

use crate::parts::Parts;
use gtp_tables::{Bearer, Draws, Session, TablesFault};
use gtp_values::{Memory, Teid};

/// What a step changes of sessions and bearers.
#[derive(Clone, Copy)]
pub enum Change {
    Stays,
    /// A bearer is put in the place of one with the same remote.
    Replaces {
        teid: Teid,
        bearer: Bearer,
    },
    /// A bearer is made, under a TEID that was drawn.
    MakesBearer {
        draws: Draws,
        teid: Teid,
        bearer: Bearer,
    },
    /// A session is made with its default bearer, under two TEIDs that were drawn.
    MakesSession {
        draws: Draws,
        control: Teid,
        session: Session,
        user: Teid,
        bearer: Bearer,
    },
    /// A session and its bearers are closing.
    ClosesSession {
        teid: Teid,
        session: Session,
    },
    /// A session goes, with its bearers and the requests about it.
    RemovesSession(Teid),
}

impl Parts {
    /// A bearer is made: `Memory` where an allocation was refused, and then nothing has changed.
    #[tactic(auto, using(crate::proofs::UserRows::all_wait))]
    fn make_bearer(&mut self, draws: Draws, teid: Teid, bearer: Bearer) -> Result<(), Memory>
        requires { CanChange (changes.MakesBearer draws teid bearer) (node_of self.old) }
        ensures node { OnOk result (node_of self.new
            ≡ changed_by (changes.MakesBearer draws teid bearer) (node_of self.old)) }
        ensures pending { self.new.pending ≡ self.old.pending }
        ensures waits { RequestsWaitOn (state_of self.old) (state_of self.new) }
        ensures only { OnlyTablesChange self.old self.new }
        ensures err { OnErr result (state_of self.new ≡ state_of self.old) }
    {
        self.bearers.add(teid, bearer).map_err(|_| Memory)?;
        self.draws = draws;
        Ok(())
    }

    /// Room for one more session.
    fn prepare_session(&mut self) -> Result<(), Memory>
        requires { map.len self.old.sessions.table < 1000 }
        ensures ok { OnOk result
            (self.new.sessions ≡ record self.old.sessions { has_room = true }) }
        ensures same { state_of self.new ≡ state_of self.old }
        ensures pending { self.new.pending ≡ self.old.pending }
        ensures only { OnlyTablesChange self.old self.new }
        ensures bearers { self.new.bearers ≡ self.old.bearers }
        ensures draws { self.new.draws ≡ self.old.draws }
    {
        match self.sessions.prepare() {
            Ok(()) => Ok(()),
            Err(TablesFault::SessionsFull) => unreachable!(),
            Err(_) => Err(Memory),
        }
    }

    /// A session is made with its default bearer: `Memory` where an allocation was refused, and then
    /// nothing has changed.
    #[tactic(auto, using(crate::proofs::UserRows::all_wait))]
    fn make_session(
        &mut self,
        draws: Draws,
        control: Teid,
        session: Session,
        user: Teid,
        bearer: Bearer,
    ) -> Result<(), Memory>
        requires { CanChange (changes.MakesSession draws control session user bearer)
            (node_of self.old) }
        ensures node { OnOk result (node_of self.new
            ≡ changed_by (changes.MakesSession draws control session user bearer)
            (node_of self.old)) }
        ensures pending { self.new.pending ≡ self.old.pending }
        ensures waits { RequestsWaitOn (state_of self.old) (state_of self.new) }
        ensures only { OnlyTablesChange self.old self.new }
        ensures err { OnErr result (state_of self.new ≡ state_of self.old) }
    {
        self.prepare_session()?;
        self.bearers.add(user, bearer).map_err(|_| Memory)?;
        self.sessions.add(control, session);
        self.draws = draws;
        Ok(())
    }

    /// Changes sessions and bearers: `Memory` where an allocation was refused, and then nothing has
    /// changed.
    #[tactic(auto, using(crate::proofs::UserRows::all_wait))]
    pub fn apply(&mut self, change: Change) -> Result<(), Memory>
        requires { CanChange change (node_of self.old) }
        ensures node { OnOk result (node_of self.new ≡ changed_by change (node_of self.old)) }
        ensures pending { OnOk result (keeps_requests change ≡ true
            → self.new.pending ≡ self.old.pending) }
        ensures next { self.new.pending.next ≡ self.old.pending.next }
        ensures waits { RequestsWaitOn (state_of self.old) (state_of self.new) }
        ensures only { OnlyTablesChange self.old self.new }
        ensures err { OnErr result (state_of self.new ≡ state_of self.old) }
    {
        match change {
            Change::Stays => {}
            Change::Replaces { teid, bearer } => self.replace_bearer(teid, bearer),
            Change::MakesBearer {
                draws,
                teid,
                bearer,
            } => self.make_bearer(draws, teid, bearer)?,
            Change::MakesSession {
                draws,
                control,
                session,
                user,
                bearer,
            } => self.make_session(draws, control, session, user, bearer)?,
            Change::ClosesSession { teid, session } => self.close_session(teid, session),
            Change::RemovesSession(session) => self.remove_session(session),
        }
        Ok(())
    }
}
