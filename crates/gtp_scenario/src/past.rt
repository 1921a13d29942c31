//! What has happened before an entry that names something.

ghost use Rattle.std.specs.Prelude.{◌≡◌, ◌++◌, ◌-◌, ◌==◌, not, map, replicate, slice_get, IfOk, OnOk};
ghost use Rattle.std.specs.FinMap.{entries as entries_in};
ghost use Rattle.std.specs.List.{filter, flat_map, range_with_len};
ghost use Rattle.gtp_world.specs.Events.{event_of};
ghost use Rattle.gtp_scenario.specs.Entries.{events_in};
ghost use Rattle.gtp_scenario.specs.Past.{just_begun, undelivered, Happens, Happen, newest, is_session_of, is_bearer_of, is_identity, last_where, session_named, bearer_named, node_in};
ghost use Rattle.gtp_scenario.specs.Views.{entry as entry_view, past as past_view};

use crate::entry::Entry;
use crate::name::{BearerName, SessionName};
use gtp_gateway::{Bearer, Ebi, Gateway, Role, Session, Teid};
use gtp_values::Memory;
use gtp_world::{Event, World, WorldConfig};
use std::alloc::Global;

/// Both gateways, and the numbers of the datagrams that were sent and not delivered since, in the order in which they
/// were sent.
#[derive(Drop)]
pub struct Past {
    world: World,
    waiting: Vec<u64>,
}

/// Takes a number out of those that wait.
fn take_out(waiting: &mut Vec<u64>, number: u64)
    ensures { waiting.new.items ≡ filter (λ n. not (n == number)) waiting.old.items }
{
    waiting.retain(|n| *n != number);
}

/// Takes out the number of the datagram that an event delivers.
fn deliver(waiting: &mut Vec<u64>, event: &Event)
    ensures { waiting.new.items ≡ undelivered (event_of event.now) waiting.old.items }
{
    match event {
        Event::Deliver(number) => take_out(waiting, *number),
        _ => (),
    }
}

/// Appends the numbers from one to before another.
fn put_numbers(waiting: &mut Vec<u64>, first: usize, end: usize) -> Result<(), Memory>
    ensures { OnOk result (waiting.new.items
        ≡ waiting.old.items ++ range_with_len first (end - first)) }
{
    for number in first..end {
        waiting.push(number as u64)?;
    }
    Ok(())
}

/// Whether a session has this name.
fn is_session_of(name: &SessionName, session: &Session) -> bool
    ensures { result ≡ is_session_of name.now session.now }
{
    let subscriber = &session.subscriber;
    subscriber.imsi.digits() == name.imsi.digits()
        && subscriber.access_point.octets() == name.access_point.octets()
}

/// The session of this name at a gateway.
fn session_named(name: &SessionName, gateway: &Gateway) -> Option<Teid>
    ensures { result ≡ session_named name.now gateway.now.node }
{
    let mut found = None;
    for (own, session) in gateway.sessions() {
        if is_session_of(name, &session) {
            found = Some(own);
        }
    }
    found
}

fn is_identity(identity: Ebi, found: Option<Ebi>) -> bool
    ensures { result ≡ is_identity identity found }
{
    match found {
        Some(found) => found.number() == identity.number(),
        None => false,
    }
}

/// Whether a bearer is one of this session, with this identity.
fn is_bearer_of(session: Teid, identity: Ebi, bearer: &Bearer) -> bool
    ensures { result ≡ is_bearer_of session identity bearer.now }
{
    bearer.session == session && is_identity(identity, bearer.identity)
}

/// The bearer of this identity of a session at a gateway.
fn bearer_of(session: Teid, identity: Ebi, gateway: &Gateway) -> Option<Teid>
    ensures { result ≡ last_where (is_bearer_of session identity)
        (entries_in gateway.now.node.bearers) }
{
    let mut found = None;
    for (own, bearer) in gateway.bearers() {
        if is_bearer_of(session, identity, &bearer) {
            found = Some(own);
        }
    }
    found
}

/// The bearer of this name at a gateway.
fn bearer_named(name: &BearerName, gateway: &Gateway) -> Option<Teid>
    ensures { result ≡ bearer_named name.now gateway.now.node }
{
    let session = session_named(&name.session, gateway)?;
    bearer_of(session, name.identity, gateway)
}

impl Past {
    /// Both gateways, just started.
    pub(crate) fn start(alloc: Global, config: &WorldConfig) -> Result<Past, Memory>
        ensures { IfOk result (λ past. past_view past ≡ just_begun config.now) }
    {
        let world = World::start(alloc, config)?;
        let waiting = Vec::new(alloc);
        Ok(Past { world, waiting })
    }

    /// Lets an event happen.
    pub(crate) fn happen(&mut self, alloc: Global, event: &Event) -> Result<(), Memory>
        ensures { OnOk result
            (Happens (past_view self.old) (event_of event.now) (past_view self.new)) }
    {
        let first = self.world.datagrams().len();
        self.world.step(alloc, event)?;
        let end = self.world.datagrams().len();
        deliver(&mut self.waiting, event);
        put_numbers(&mut self.waiting, first, end)
    }

    /// Lets an event happen so often.
    fn repeat(&mut self, alloc: Global, event: &Event, times: u32) -> Result<(), Memory>
        ensures { OnOk result (Happen (past_view self.old)
            (replicate times (event_of event.now)) (past_view self.new)) }
    {
        for _ in 0..times {
            self.happen(alloc, event)?;
        }
        Ok(())
    }

    /// Lets the events of these entries happen.
    pub(crate) fn follow(&mut self, alloc: Global, entries: &[Entry]) -> Result<(), Memory>
        ensures { OnOk result (Happen (past_view self.old)
            (flat_map events_in (map entry_view entries.now)) (past_view self.new)) }
    {
        for entry in entries {
            self.repeat(alloc, &entry.event, entry.times)?;
        }
        Ok(())
    }

    /// The first datagram that waits.
    pub(crate) fn first_waiting(&self) -> Option<u64>
        ensures { result ≡ slice_get (past_view self.now).waiting 0 }
    {
        self.waiting.first().copied()
    }

    /// The datagram that was sent last.
    pub(crate) fn newest(&self) -> Option<u64>
        ensures { result ≡ newest (past_view self.now) }
    {
        let last = self.world.datagrams().len().checked_sub(1)?;
        Some(last as u64)
    }

    /// The session of this name at a gateway.
    pub(crate) fn session(&self, node: Role, name: &SessionName) -> Option<Teid>
        ensures { result ≡ session_named name.now (node_in (past_view self.now) node) }
    {
        session_named(name, self.world.gateway(node))
    }

    /// The bearer of this name at a gateway.
    pub(crate) fn bearer(&self, node: Role, name: &BearerName) -> Option<Teid>
        ensures { result ≡ bearer_named name.now (node_in (past_view self.now) node) }
    {
        bearer_named(name, self.world.gateway(node))
    }
}
