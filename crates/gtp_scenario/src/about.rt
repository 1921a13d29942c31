//! Events about a session or bearer that an entry names.

ghost use Rattle.std.specs.Prelude.{◌≡◌, Some, option_map};
ghost use Rattle.gtp_world.specs.Events.{event_of};
ghost use Rattle.gtp_scenario.specs.Named.{delete_session_named, release_session_named, create_bearer_named, delete_bearer_named};
ghost use Rattle.gtp_scenario.specs.Named.{end_marker_named, send_named, event_about, entry_about, expected_of, delivery};
ghost use Rattle.gtp_scenario.specs.Steps.{Gives};
ghost use Rattle.gtp_scenario.specs.Trees.{view};
ghost use Rattle.gtp_scenario.specs.Views.{entry as entry_view};

use crate::defaults::qos;
use crate::entry::{Entry, copied};
use crate::event::{ebi_at, node_at, payload_at, tft_at};
use crate::fault::Fault;
use crate::members::{has_only, text_at, text_if};
use crate::reason::kind::{EventKind, kind_of};
use crate::tree::Tree;
use gtp_gateway::Teid;
use gtp_world::Event;
use std::alloc::Global;

#[tactic(auto, unfolding(crate::specs::Named::delete_session_named))]
fn delete_session_named(session: Teid, value: &Tree<'_, '_>) -> Option<Event>
    ensures { option_map event_of result ≡ delete_session_named session (view value.now) }
{
    has_only(value, &["do", "expect", "session"]).then_some(Event::DeleteSession(session))
}

#[tactic(auto, unfolding(crate::specs::Named::release_session_named))]
fn release_session_named(session: Teid, value: &Tree<'_, '_>) -> Option<Event>
    ensures { option_map event_of result ≡ release_session_named session (view value.now) }
{
    has_only(value, &["do", "expect", "session"]).then_some(Event::ReleaseSession(session))
}

#[tactic(auto, unfolding(crate::specs::Named::create_bearer_named))]
fn create_bearer_named(alloc: Global, session: Teid, value: &Tree<'_, '_>) -> Result<Event, Fault>
    ensures { Gives event_of result (create_bearer_named session (view value.now)) }
{
    if !has_only(value, &["do", "expect", "session", "tft"]) {
        return Err(Fault::Wrong);
    }
    let tft = tft_at(alloc, value)?;
    Ok(Event::CreateBearer {
        session,
        tft,
        qos: qos(),
    })
}

#[tactic(auto, unfolding(crate::specs::Named::delete_bearer_named))]
fn delete_bearer_named(session: Teid, value: &Tree<'_, '_>) -> Option<Event>
    ensures { option_map event_of result ≡ delete_bearer_named session (view value.now) }
{
    if !has_only(value, &["do", "expect", "session", "ebi"]) {
        return None;
    }
    let ebi = ebi_at(value)?;
    Some(Event::DeleteBearer { session, ebi })
}

#[tactic(auto, unfolding(crate::specs::Named::end_marker_named))]
fn end_marker_named(bearer: Teid, value: &Tree<'_, '_>) -> Option<Event>
    ensures { option_map event_of result ≡ end_marker_named bearer (view value.now) }
{
    has_only(value, &["do", "expect", "bearer"]).then_some(Event::EndMarker(bearer))
}

#[tactic(auto, unfolding(crate::specs::Named::send_named))]
fn send_named(alloc: Global, bearer: Teid, value: &Tree<'_, '_>) -> Result<Event, Fault>
    ensures { Gives event_of result (send_named bearer (view value.now)) }
{
    if !has_only(value, &["do", "expect", "node", "bearer", "payload"]) {
        return Err(Fault::Wrong);
    }
    let node = node_at(value).ok_or(Fault::Wrong)?;
    let payload = payload_at(alloc, value)?;
    Ok(Event::SendUser {
        node,
        bearer,
        payload,
    })
}

/// The event of this kind about the session or bearer with this TEID.
fn event_about(
    alloc: Global,
    kind: EventKind,
    teid: Teid,
    value: &Tree<'_, '_>,
) -> Result<Event, Fault>
    ensures { Gives event_of result (event_about kind teid (view value.now)) }
{
    match kind {
        EventKind::DeleteSession => delete_session_named(teid, value).ok_or(Fault::Wrong),
        EventKind::ReleaseSession => release_session_named(teid, value).ok_or(Fault::Wrong),
        EventKind::CreateBearer => create_bearer_named(alloc, teid, value),
        EventKind::DeleteBearer => delete_bearer_named(teid, value).ok_or(Fault::Wrong),
        EventKind::EndMarker => end_marker_named(teid, value).ok_or(Fault::Wrong),
        EventKind::Send => send_named(alloc, teid, value),
        _ => Err(Fault::Wrong),
    }
}

/// The entry about the session or bearer with this TEID.
#[tactic(auto, unfolding(crate::specs::Named::entry_about))]
pub(crate) fn entry_about(alloc: Global, teid: Teid, value: &Tree<'_, '_>) -> Result<Entry, Fault>
    ensures { Gives entry_view result (entry_about teid (view value.now)) }
{
    let word = text_at(value, "do").ok_or(Fault::Wrong)?;
    let kind = kind_of(word).ok_or(Fault::Wrong)?;
    let event = event_about(alloc, kind, teid, value)?;
    let expect = text_if(value, "expect").ok_or(Fault::Wrong)?;
    let expect = copied(alloc, expect)?;
    Ok(Entry {
        event,
        times: 1,
        expect,
    })
}

/// What is expected of a delivery without a number.
#[tactic(auto, unfolding(crate::specs::Named::expected_of))]
pub(crate) fn expected_of<'a>(value: &Tree<'_, 'a>) -> Option<Option<&'a str>>
    ensures { option_map (option_map (λ s. s.now)) result ≡ expected_of (view value.now) }
{
    if !has_only(value, &["do", "expect", "datagram"]) {
        return None;
    }
    text_if(value, "expect")
}

/// The delivery of the datagram with this number.
pub(crate) fn delivery(alloc: Global, expect: Option<&str>, number: u64) -> Result<Entry, Fault>
    ensures { Gives entry_view result
        (Some (delivery (option_map (λ s. s.now) expect.entry) number)) }
{
    let expect = copied(alloc, expect)?;
    Ok(Entry {
        event: Event::Deliver(number),
        times: 1,
        expect,
    })
}
