//! Contexts of both gateways that name each other.

ghost use Rattle.std.specs.Prelude.{◌≡◌, ◌↔◌, option_map, IsTrue};
ghost use Rattle.std.specs.Iterator.{YieldsFirstBy, item_count};
ghost use Rattle.gtp_machine.specs.Safety.{Agree};
ghost use Rattle.gtp_world.specs.Naming.{pair_of, leads_to, session_leads, bearer_leads, partner, AgreeingSessions, AgreeingBearers, AgreeAt};

use gtp_gateway::{Bearer, BearerList, Gateway, Session, SessionList, State, Teid};
use std::marker::Model;

/// A context of each gateway, both active, each under the TEID that the other has for it.
#[derive(Clone, Copy, Debug, PartialEq, Eq)]
pub enum Mutual {
    Session { serving: Teid, packet: Teid },
    Bearer { serving: Teid, packet: Teid },
}

/// The TEID that an active context has for its peer's.
fn leads_to(state: State, remote: Option<Teid>) -> Option<Teid>
    ensures { result ≡ leads_to state remote }
{
    match state {
        State::Active => remote,
        State::Pending | State::Closing => None,
    }
}

/// The session of the other gateway that a session names, and that names it.
fn session_partner(others: &Gateway, own: Teid, session: &Session) -> Option<Teid>
    ensures { result
        ≡ partner session_leads others.now.node.sessions own session.now }
{
    let there = leads_to(session.state, session.remote)?;
    match others.session(there) {
        Some(other) if leads_to(other.state, other.remote) == Some(own) => Some(there),
        _ => None,
    }
}

/// The bearer of the other gateway that a bearer names, and that names it.
fn bearer_partner(others: &Gateway, own: Teid, bearer: &Bearer) -> Option<Teid>
    ensures { result
        ≡ partner bearer_leads others.now.node.bearers own bearer.now }
{
    let there = leads_to(bearer.state, bearer.remote)?;
    match others.bearer(there) {
        Some(other) if leads_to(other.state, other.remote) == Some(own) => Some(there),
        _ => None,
    }
}

/// Sessions that name each other, in order of the first gateway's TEIDs. Contracts see those that
/// are left.
#[derive(Drop)]
struct MutualSessions<'a> {
    sessions: SessionList<'a>,
    others: &'a Gateway,
}

impl<'a> Model for MutualSessions<'a> {
    ghost use Rattle.std.specs.Prelude.{List};
    ghost use Rattle.gtp_world.specs.Naming.{Pair, session_pairs};

    ghost Value = { List Pair };

    ghost view = { λ a. session_pairs a.others.now.node.sessions a.sessions };
}

impl<'a> Iterator for MutualSessions<'a> {
    type Item = Mutual;

    ghost next_gives = { YieldsFirstBy pair_of (λ es. es) };

    ghost remaining = { item_count (λ es. es) };

    fn next(&mut self) -> Option<Mutual> {
        while let Some((serving, session)) = self.sessions.next() {
            if let Some(packet) = session_partner(self.others, serving, &session) {
                return Some(Mutual::Session { serving, packet });
            }
        }
        None
    }
}

/// Bearers that name each other, in order of the first gateway's TEIDs. Contracts see those that are
/// left.
#[derive(Drop)]
struct MutualBearers<'a> {
    bearers: BearerList<'a>,
    others: &'a Gateway,
}

impl<'a> Model for MutualBearers<'a> {
    ghost use Rattle.std.specs.Prelude.{List};
    ghost use Rattle.gtp_world.specs.Naming.{Pair, bearer_pairs};

    ghost Value = { List Pair };

    ghost view = { λ a. bearer_pairs a.others.now.node.bearers a.bearers };
}

impl<'a> Iterator for MutualBearers<'a> {
    type Item = Mutual;

    ghost next_gives = { YieldsFirstBy pair_of (λ es. es) };

    ghost remaining = { item_count (λ es. es) };

    fn next(&mut self) -> Option<Mutual> {
        while let Some((serving, bearer)) = self.bearers.next() {
            if let Some(packet) = bearer_partner(self.others, serving, &bearer) {
                return Some(Mutual::Bearer { serving, packet });
            }
        }
        None
    }
}

/// Contexts that name each other: sessions before bearers, each in order of the serving gateway's
/// TEIDs. Contracts see those that are left.
#[derive(Drop)]
pub struct Mutuals<'a> {
    sessions: MutualSessions<'a>,
    bearers: MutualBearers<'a>,
}

impl<'a> Model for Mutuals<'a> {
    ghost use Rattle.std.specs.Prelude.{List, ◌++◌};
    ghost use Rattle.gtp_world.specs.Naming.{Pair};

    ghost Value = { List Pair };

    ghost view = { λ a. a.sessions ++ a.bearers };
}

impl<'a> Mutuals<'a> {
    ghost use Rattle.std.specs.Prelude.{◌++◌};
    ghost use Rattle.std.specs.FinMap as map;
    ghost use Rattle.gtp_world.specs.Naming.{session_pairs, bearer_pairs};

    /// All of both gateways. Allocates nothing.
    pub fn of(serving: &'a Gateway, packet: &'a Gateway) -> Mutuals<'a>
        ensures { result
            ≡ session_pairs packet.now.node.sessions (map.entries serving.now.node.sessions)
            ++ bearer_pairs packet.now.node.bearers (map.entries serving.now.node.bearers) }
    {
        Mutuals {
            sessions: MutualSessions {
                sessions: serving.sessions(),
                others: packet,
            },
            bearers: MutualBearers {
                bearers: serving.bearers(),
                others: packet,
            },
        }
    }
}

impl<'a> Iterator for Mutuals<'a> {
    type Item = Mutual;

    ghost next_gives = { YieldsFirstBy pair_of (λ es. es) };

    ghost remaining = { item_count (λ es. es) };

    fn next(&mut self) -> Option<Mutual> {
        if let Some(pair) = self.sessions.next() {
            return Some(pair);
        }
        self.bearers.next()
    }
}

/// Whether two sessions have the same subscriber, access point, default identity and address.
fn have_same(serving: &Session, packet: &Session) -> bool
    ensures { IsTrue result ↔ Agree serving.now packet.now }
{
    serving.subscriber == packet.subscriber && serving.address == packet.address
}

/// Whether there are both sessions, and they agree.
fn sessions_agree(serving: &Gateway, packet: &Gateway, own: Teid, other: Teid) -> bool
    ensures { IsTrue result ↔ AgreeingSessions serving.now.node packet.now.node own other }
{
    match (serving.session(own), packet.session(other)) {
        (Some(own), Some(other)) => have_same(&own, &other),
        _ => false,
    }
}

/// Whether there are both bearers, and they agree.
fn bearers_agree(serving: &Gateway, packet: &Gateway, own: Teid, other: Teid) -> bool
    ensures { IsTrue result ↔ AgreeingBearers serving.now.node packet.now.node own other }
{
    match (serving.bearer(own), packet.bearer(other)) {
        (Some(own), Some(other)) => {
            own.identity == other.identity
                && sessions_agree(serving, packet, own.session, other.session)
        }
        _ => false,
    }
}

/// Whether there are both contexts, and they agree.
pub fn do_agree(serving: &Gateway, packet: &Gateway, pair: &Mutual) -> bool
    ensures { IsTrue result ↔ AgreeAt serving.now.node packet.now.node (pair_of pair.now) }
{
    match pair {
        Mutual::Session {
            serving: own,
            packet: other,
        } => sessions_agree(serving, packet, *own, *other),
        Mutual::Bearer {
            serving: own,
            packet: other,
        } => bearers_agree(serving, packet, *own, *other),
    }
}
