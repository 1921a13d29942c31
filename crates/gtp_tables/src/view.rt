//! What is asked of sessions and bearers before anything changes.

ghost use Rattle.std.specs.Prelude.{◌≡◌, ◌↔◌, ◌≤◌, true, not, filter, length};
ghost use Rattle.std.specs.Prelude.{IsTrue, IfOk, IfErr, IfSome, IfNone};
ghost use Rattle.std.specs.FinMap as map;
ghost use Rattle.gtp_tables.specs.Contexts.{left, is_pending, is_opened, is_seen, are_seen};
ghost use Rattle.gtp_tables.specs.Identity.{IsUnused, IsLowestUnused, IsBearerWith, HasAll};
ghost use Rattle.gtp_tables.specs.Free.{IsLowestPart, IsLowestGiven, AreUsedUp};
ghost use Rattle.gtp_tables.specs.declared.pool.IpVersion.TheVariants as versions;

use crate::bearers::Bearers;
use crate::context::{Bearer, Session, State};
use crate::fault::TablesFault;
use crate::pool::{Asked, Pools, is_seen};
use crate::sessions::{MOST, Sessions};
use gtp_values::{Addr, Ebi, Teid};
use std::marker::Model;

/// Sessions and bearers that a message is judged by: all, or what a restart of the peer leaves,
/// where the message brings a later restart counter (TS 23.007 18). Nothing has changed yet, and no
/// question takes memory. Contracts see the sessions and the bearers that are left.
#[derive(Drop)]
pub struct View<'a> {
    sessions: &'a Sessions,
    bearers: &'a Bearers,
    restarted: bool,
}

impl<'a> Model for View<'a> {
    ghost use Rattle.gtp_tables.specs.Contexts.{Contexts, contexts_code, seen};
    ghost use Rattle.gtp_tables.specs.contracts.context.Bearer as bearer;
    ghost use Rattle.gtp_tables.specs.contracts.context.Session as session;

    ghost Value = { Contexts };

    ghost coded = { contexts_code session.the_row.coded bearer.the_row.coded };

    ghost view = { λ a. seen a.restarted (record {
      sessions = a.sessions.now.table;
      bearers = a.bearers.now;
    }) };
}

impl<'a> View<'a> {
    /// All that stands.
    pub fn new(sessions: &'a Sessions, bearers: &'a Bearers) -> View<'a>
        ensures { result ≡ record { sessions = sessions.now.table; bearers = bearers.now } }
    {
        View {
            sessions,
            bearers,
            restarted: false,
        }
    }

    /// What a restart of the peer leaves: pending sessions and their bearers.
    pub fn after_restart(sessions: &'a Sessions, bearers: &'a Bearers) -> View<'a>
        ensures { result ≡ left (record { sessions = sessions.now.table; bearers = bearers.now }) }
    {
        View {
            sessions,
            bearers,
            restarted: true,
        }
    }

    /// The session under a TEID.
    pub fn session(&self, teid: Teid) -> Option<Session>
        ensures { result ≡ map.get self.now.sessions teid }
    {
        match self.sessions.get(teid) {
            Some(session) if is_seen(&session, self.restarted) => Some(session),
            _ => None,
        }
    }

    /// How many sessions there are.
    pub fn session_count(&self) -> usize
        ensures { result ≡ map.len self.now.sessions }
    {
        if self.restarted {
            return count_left(self.sessions.values());
        }
        self.sessions.len()
    }

    /// Whether there is no place for one more session.
    pub fn is_full(&self) -> bool
        ensures { IsTrue result ↔ (1000 ≤ map.len self.now.sessions) }
    {
        self.session_count() >= MOST
    }

    /// The lowest address that no session has, of each version that is asked for and has one.
    fn lowest_parts(&self, pools: &Pools, asked: Asked) -> (Option<[u8; 4]>, Option<[u8; 16]>)
        ensures v4 { IsLowestPart self.now.sessions pools.now asked versions.V4 result.0 }
        ensures v6 { IsLowestPart self.now.sessions pools.now asked versions.V6 result.1 }
    {
        let places = self.sessions.lowest_places(pools, asked, self.restarted);
        (pools.v4.at_found(places.v4), pools.v6.at_found(places.v6))
    }

    /// An address of the versions that are asked for: of each the lowest that no session has. A version
    /// of which there is none is left out; `PoolEmpty` where none is left.
    pub fn lowest_free_address(&self, pools: &Pools, asked: Asked) -> Result<Addr, TablesFault>
        ensures free { IfOk result (λ address.
            IsLowestGiven self.now.sessions pools.now asked address) }
        ensures none { IfErr result (λ _. AreUsedUp self.now.sessions pools.now asked) }
        ensures fault { IfErr result (λ fault. fault ≡ TablesFault.PoolEmpty) }
    {
        match self.lowest_parts(pools, asked) {
            (None, None) => Err(TablesFault::PoolEmpty),
            (v4, v6) => Ok(Addr::of(v4, v6)),
        }
    }

    /// The bearer under a TEID.
    pub fn bearer(&self, teid: Teid) -> Option<Bearer>
        ensures { result ≡ map.get self.now.bearers teid }
    {
        match self.bearers.get(teid) {
            Some(bearer) if are_seen(self.sessions, bearer.session, self.restarted) => {
                Some(bearer)
            }
            _ => None,
        }
    }

    /// The bearer of the session that has the identity, whatever its state: the one under the
    /// lowest TEID.
    pub fn with_identity(&self, session: Teid, identity: Ebi) -> Option<Teid>
        ensures found { IfSome result (λ teid.
            IsBearerWith self.now.bearers session identity teid) }
        ensures none { IfNone result (IsUnused self.now.bearers session identity) }
    {
        if are_seen(self.sessions, session, self.restarted) {
            self.bearers.with_identity(session, identity)
        } else {
            None
        }
    }

    /// The lowest identity from 5 to 15 that no bearer of the session has, `NoBearerIdentity` where
    /// there is none.
    pub fn lowest_free_identity(&self, session: Teid) -> Result<Ebi, TablesFault>
        ensures free { IfOk result (λ identity.
            IsLowestUnused self.now.bearers session identity) }
        ensures none { IfErr result (λ _. HasAll self.now.bearers session) }
        ensures fault { IfErr result (λ fault. fault ≡ TablesFault.NoBearerIdentity) }
    {
        for number in 5..16u8 {
            let Ok(identity) = Ebi::try_new(number) else {
                unreachable!()
            };
            if self.with_identity(session, identity).is_none() {
                return Ok(identity);
            }
        }
        Err(TablesFault::NoBearerIdentity)
    }
}

/// Removes what a restart of the peer ends: opened sessions with their bearers. Takes no memory.
pub fn end_opened(sessions: &mut Sessions, bearers: &mut Bearers)
    ensures sessions { sessions.new ≡ record sessions.old {
      table = (left (record {
        sessions = sessions.old.table;
        bearers = bearers.old;
      })).sessions;
    } }
    ensures bearers { bearers.new ≡ (left (record {
      sessions = sessions.old.table;
      bearers = bearers.old;
    })).bearers }
{
    bearers.remove_where(
        |bearer: &Bearer| -> bool
            ensures { result ≡ is_opened (map.get sessions.entry.now.table bearer.now.session) }
        { !are_seen(sessions, bearer.session, true) },
    );
    sessions.remove_where(
        |session: &Session| -> bool
            ensures { result ≡ not (is_pending session.now.state) }
        { session.state != State::Pending },
    );
}

/// How many of the sessions a restart leaves.
fn count_left(sessions: &[Session]) -> usize
    ensures { result ≡ length (filter (is_seen true) sessions.now) }
{
    sessions
        .iter()
        .filter(|session| is_seen(session, true))
        .count()
}

/// Whether the bearers of the session under a TEID are seen: those of an opened session not after a
/// restart.
fn are_seen(sessions: &Sessions, session: Teid, restarted: bool) -> bool
    ensures { result ≡ are_seen restarted (map.get sessions.now.table session) }
{
    match sessions.get(session) {
        Some(session) => is_seen(&session, restarted),
        None => true,
    }
}
