//! Events, by the word that names them.

ghost use Rattle.std.specs.Prelude.{◌≡◌, option_map};
ghost use Rattle.gtp_world.specs.Events.{event_of};
ghost use Rattle.gtp_scenario.specs.Steps.{Gives};
ghost use Rattle.gtp_scenario.specs.Events.{role_of, node_at, teid_at, ebi_at, pdn_at, subscriber_at, tft_at, payload_at};
ghost use Rattle.gtp_scenario.specs.Events.{create_session_of, lone_teid_of, delete_session_of, release_session_of, end_marker_of, create_bearer_of, delete_bearer_of};
ghost use Rattle.gtp_scenario.specs.Events.{lone_node_of, echo_of, restart_of, tick_of, send_of, deliver_of, cut_of, event_named};
ghost use Rattle.gtp_scenario.specs.Trees.{view};

use crate::defaults::{qos, session_for};
use crate::fault::Fault;
use crate::members::{has_only, number_at, number_or, text_at, within};
use crate::text::{apn_of, imsi_of, octets_of, teid_of};
use crate::tree::Tree;
use gtp_gateway::{Ebi, PdnType, Role, Subscriber, Teid, Tft};
use gtp_values::Below;
use gtp_world::Event;
use std::alloc::Global;

/// A gateway, by its name: `serving` or `packet`.
pub fn role_of(text: &str) -> Option<Role>
    ensures { result ≡ role_of text.now }
{
    match text {
        "serving" => Some(Role::Serving),
        "packet" => Some(Role::Packet),
        _ => None,
    }
}

#[tactic(auto, unfolding(crate::specs::Events::node_at))]
pub(crate) fn node_at(value: &Tree<'_, '_>) -> Option<Role>
    ensures { result ≡ node_at (view value.now) }
{
    role_of(text_at(value, "node")?)
}

/// The TEID under `teid`: eight hexadecimal digits.
#[tactic(auto, unfolding(crate::specs::Events::teid_at))]
pub fn teid_at(value: &Tree<'_, '_>) -> Option<Teid>
    ensures { result ≡ teid_at (view value.now) }
{
    teid_of(text_at(value, "teid")?)
}

/// The identity of a bearer under `ebi`: 5 to 15.
#[tactic(auto, unfolding(crate::specs::Events::ebi_at))]
pub(crate) fn ebi_at(value: &Tree<'_, '_>) -> Option<Ebi>
    ensures { result ≡ ebi_at (view value.now) }
{
    let number = within(5, 15, number_at(value, "ebi")?)?;
    Ebi::try_new(number as u8).ok()
}

/// The PDN type under `pdn`: 0 to 7, and 1 (IPv4) where there is none.
#[tactic(auto, unfolding(crate::specs::Events::pdn_at))]
fn pdn_at(value: &Tree<'_, '_>) -> Option<PdnType>
    ensures { option_map (λ pdn. pdn.0) result ≡ pdn_at (view value.now) }
{
    let number = within(0, 7, number_or(value, "pdn", 1)?)?;
    Some(PdnType(Below::new(number as u8)))
}

/// The subscriber under `imsi`, `apn` and `ebi`.
#[tactic(auto, unfolding(crate::specs::Events::subscriber_at))]
fn subscriber_at(value: &Tree<'_, '_>) -> Option<Subscriber>
    ensures { result ≡ subscriber_at (view value.now) }
{
    Some(Subscriber {
        imsi: imsi_of(text_at(value, "imsi")?)?,
        access_point: apn_of(text_at(value, "apn")?)?,
        identity: ebi_at(value)?,
    })
}

/// The traffic flow template under `tft`: at most 255 octets in hexadecimal.
#[tactic(auto, unfolding(crate::specs::Events::tft_at))]
pub(crate) fn tft_at(alloc: Global, value: &Tree<'_, '_>) -> Result<Tft, Fault>
    ensures { Gives (λ tft. tft) result (tft_at (view value.now)) }
{
    let text = text_at(value, "tft").ok_or(Fault::Wrong)?;
    let octets = octets_of(alloc, text)?;
    Tft::try_new(octets.as_slice()).map_err(|_| Fault::Wrong)
}

/// The packet under `payload`, in hexadecimal.
#[tactic(auto, unfolding(crate::specs::Events::payload_at))]
pub fn payload_at(alloc: Global, value: &Tree<'_, '_>) -> Result<Vec<u8>, Fault>
    ensures { Gives (λ octets. octets.items) result (payload_at (view value.now)) }
{
    let text = text_at(value, "payload").ok_or(Fault::Wrong)?;
    octets_of(alloc, text)
}

#[tactic(auto, unfolding(crate::specs::Events::create_session_of))]
fn create_session_of(value: &Tree<'_, '_>) -> Option<Event>
    ensures { option_map event_of result ≡ create_session_of (view value.now) }
{
    if !has_only(value, &["do", "expect", "imsi", "apn", "ebi", "pdn"]) {
        return None;
    }
    let subscriber = subscriber_at(value)?;
    let pdn = pdn_at(value)?;
    Some(Event::CreateSession(session_for(subscriber, pdn)))
}

/// The TEID of an event that has no key of its own beside it.
#[tactic(auto, unfolding(crate::specs::Events::lone_teid_of))]
fn lone_teid_of(value: &Tree<'_, '_>) -> Option<Teid>
    ensures { result ≡ lone_teid_of (view value.now) }
{
    if !has_only(value, &["do", "expect", "teid"]) {
        return None;
    }
    teid_at(value)
}

#[tactic(auto, unfolding(crate::specs::Events::delete_session_of))]
fn delete_session_of(value: &Tree<'_, '_>) -> Option<Event>
    ensures { option_map event_of result ≡ delete_session_of (view value.now) }
{
    Some(Event::DeleteSession(lone_teid_of(value)?))
}

#[tactic(auto, unfolding(crate::specs::Events::release_session_of))]
fn release_session_of(value: &Tree<'_, '_>) -> Option<Event>
    ensures { option_map event_of result ≡ release_session_of (view value.now) }
{
    Some(Event::ReleaseSession(lone_teid_of(value)?))
}

#[tactic(auto, unfolding(crate::specs::Events::end_marker_of))]
fn end_marker_of(value: &Tree<'_, '_>) -> Option<Event>
    ensures { option_map event_of result ≡ end_marker_of (view value.now) }
{
    Some(Event::EndMarker(lone_teid_of(value)?))
}

#[tactic(auto, unfolding(crate::specs::Events::create_bearer_of))]
fn create_bearer_of(alloc: Global, value: &Tree<'_, '_>) -> Result<Event, Fault>
    ensures { Gives event_of result (create_bearer_of (view value.now)) }
{
    if !has_only(value, &["do", "expect", "teid", "tft"]) {
        return Err(Fault::Wrong);
    }
    let session = teid_at(value).ok_or(Fault::Wrong)?;
    let tft = tft_at(alloc, value)?;
    Ok(Event::CreateBearer {
        session,
        tft,
        qos: qos(),
    })
}

#[tactic(auto, unfolding(crate::specs::Events::delete_bearer_of))]
fn delete_bearer_of(value: &Tree<'_, '_>) -> Option<Event>
    ensures { option_map event_of result ≡ delete_bearer_of (view value.now) }
{
    if !has_only(value, &["do", "expect", "teid", "ebi"]) {
        return None;
    }
    let session = teid_at(value)?;
    let ebi = ebi_at(value)?;
    Some(Event::DeleteBearer { session, ebi })
}

/// The gateway of an event that has no key of its own beside it.
#[tactic(auto, unfolding(crate::specs::Events::lone_node_of))]
fn lone_node_of(value: &Tree<'_, '_>) -> Option<Role>
    ensures { result ≡ lone_node_of (view value.now) }
{
    if !has_only(value, &["do", "expect", "node"]) {
        return None;
    }
    node_at(value)
}

#[tactic(auto, unfolding(crate::specs::Events::echo_of))]
fn echo_of(value: &Tree<'_, '_>) -> Option<Event>
    ensures { option_map event_of result ≡ echo_of (view value.now) }
{
    Some(Event::Echo(lone_node_of(value)?))
}

#[tactic(auto, unfolding(crate::specs::Events::restart_of))]
fn restart_of(value: &Tree<'_, '_>) -> Option<Event>
    ensures { option_map event_of result ≡ restart_of (view value.now) }
{
    Some(Event::Restart(lone_node_of(value)?))
}

#[tactic(auto, unfolding(crate::specs::Events::tick_of))]
fn tick_of(value: &Tree<'_, '_>) -> Option<Event>
    ensures { option_map event_of result ≡ tick_of (view value.now) }
{
    if !has_only(value, &["do", "expect", "node", "times"]) {
        return None;
    }
    Some(Event::Tick(node_at(value)?))
}

#[tactic(auto, unfolding(crate::specs::Events::send_of))]
fn send_of(alloc: Global, value: &Tree<'_, '_>) -> Result<Event, Fault>
    ensures { Gives event_of result (send_of (view value.now)) }
{
    if !has_only(value, &["do", "expect", "node", "teid", "payload"]) {
        return Err(Fault::Wrong);
    }
    let node = node_at(value).ok_or(Fault::Wrong)?;
    let bearer = teid_at(value).ok_or(Fault::Wrong)?;
    let payload = payload_at(alloc, value)?;
    Ok(Event::SendUser {
        node,
        bearer,
        payload,
    })
}

#[tactic(auto, unfolding(crate::specs::Events::deliver_of))]
fn deliver_of(value: &Tree<'_, '_>) -> Option<Event>
    ensures { option_map event_of result ≡ deliver_of (view value.now) }
{
    if !has_only(value, &["do", "expect", "datagram"]) {
        return None;
    }
    Some(Event::Deliver(number_at(value, "datagram")?))
}

#[tactic(auto, unfolding(crate::specs::Events::cut_of))]
fn cut_of(value: &Tree<'_, '_>) -> Option<Event>
    ensures { option_map event_of result ≡ cut_of (view value.now) }
{
    if !has_only(value, &["do", "expect", "datagram", "length"]) {
        return None;
    }
    let datagram = number_at(value, "datagram")?;
    let length = number_at(value, "length")?;
    Some(Event::Cut { datagram, length })
}

/// The event that the value of `do` names, and this object is.
#[tactic(auto, unfolding(crate::specs::Events::event_named))]
pub fn event_named(alloc: Global, word: &str, value: &Tree<'_, '_>) -> Result<Event, Fault>
    ensures { Gives event_of result (event_named word.now (view value.now)) }
{
    match word {
        "create_session" => create_session_of(value).ok_or(Fault::Wrong),
        "delete_session" => delete_session_of(value).ok_or(Fault::Wrong),
        "release_session" => release_session_of(value).ok_or(Fault::Wrong),
        "end_marker" => end_marker_of(value).ok_or(Fault::Wrong),
        "create_bearer" => create_bearer_of(alloc, value),
        "delete_bearer" => delete_bearer_of(value).ok_or(Fault::Wrong),
        "echo" => echo_of(value).ok_or(Fault::Wrong),
        "restart" => restart_of(value).ok_or(Fault::Wrong),
        "tick" => tick_of(value).ok_or(Fault::Wrong),
        "send" => send_of(alloc, value),
        "deliver" => deliver_of(value).ok_or(Fault::Wrong),
        "cut" => cut_of(value).ok_or(Fault::Wrong),
        _ => Err(Fault::Wrong),
    }
}
