//! Names of datagrams, sessions and bearers, which entries have in place of numbers.

ghost use Rattle.std.specs.Prelude.{◌≡◌};
ghost use Rattle.gtp_scenario.specs.Names.{session_name_of, bearer_name_of};
ghost use Rattle.gtp_scenario.specs.Named.{session_at, bearer_at, bearer_sent_on, datagram_at, name_for, name_of};
ghost use Rattle.gtp_scenario.specs.Trees.{view};

use crate::event::{ebi_at, node_at};
use crate::members::{as_text, has_only, text_at, value_at};
use crate::reason::kind::{EventKind, kind_of};
use crate::text::{apn_of, imsi_of};
use crate::tree::Tree;
use gtp_gateway::{Apn, Ebi, Role};
use gtp_values::Imsi;

/// A session, by its subscriber and its access point.
#[derive(Clone, Copy, Debug, PartialEq, Eq)]
pub struct SessionName {
    pub imsi: Imsi,
    pub access_point: Apn,
}

/// A bearer, by its session and its EPS bearer identity.
#[derive(Clone, Copy, Debug, PartialEq, Eq)]
pub struct BearerName {
    pub session: SessionName,
    pub identity: Ebi,
}

/// What an entry names in place of a number.
#[derive(Clone, Copy, Debug, PartialEq, Eq)]
pub enum Name {
    /// The datagram that was sent last.
    Newest,
    /// Every datagram that was sent and not delivered, with those that their deliveries send.
    All,
    /// A session at a gateway.
    Session(Role, SessionName),
    /// A bearer at a gateway.
    Bearer(Role, BearerName),
}

/// The session of a subscriber at an access point.
#[tactic(auto, unfolding(crate::specs::Names::session_name_of))]
pub(crate) fn session_name_of(value: &Tree<'_, '_>) -> Option<SessionName>
    ensures { result ≡ session_name_of (view value.now) }
{
    if !has_only(value, &["imsi", "apn"]) {
        return None;
    }
    Some(SessionName {
        imsi: imsi_of(text_at(value, "imsi")?)?,
        access_point: apn_of(text_at(value, "apn")?)?,
    })
}

/// The bearer of such a session with an identity.
#[tactic(auto, unfolding(crate::specs::Names::bearer_name_of))]
pub(crate) fn bearer_name_of(value: &Tree<'_, '_>) -> Option<BearerName>
    ensures { result ≡ bearer_name_of (view value.now) }
{
    if !has_only(value, &["imsi", "apn", "ebi"]) {
        return None;
    }
    let imsi = imsi_of(text_at(value, "imsi")?)?;
    let access_point = apn_of(text_at(value, "apn")?)?;
    let identity = ebi_at(value)?;
    let session = SessionName { imsi, access_point };
    Some(BearerName { session, identity })
}

/// The session under `session`, at this gateway.
#[tactic(auto, unfolding(crate::specs::Named::session_at))]
fn session_at(node: Role, value: &Tree<'_, '_>) -> Option<Name>
    ensures { result ≡ session_at node (view value.now) }
{
    let found = value_at(value, "session")?;
    Some(Name::Session(node, session_name_of(&found)?))
}

/// The bearer under `bearer`, at this gateway.
#[tactic(auto, unfolding(crate::specs::Named::bearer_at))]
fn bearer_at(node: Role, value: &Tree<'_, '_>) -> Option<Name>
    ensures { result ≡ bearer_at node (view value.now) }
{
    let found = value_at(value, "bearer")?;
    Some(Name::Bearer(node, bearer_name_of(&found)?))
}

/// The bearer under `bearer`, at the gateway under `node`.
#[tactic(auto, unfolding(crate::specs::Named::bearer_sent_on))]
fn bearer_sent_on(value: &Tree<'_, '_>) -> Option<Name>
    ensures { result ≡ bearer_sent_on (view value.now) }
{
    bearer_at(node_at(value)?, value)
}

/// The datagrams that are delivered where `datagram` is absent, or is `all`.
#[tactic(auto, unfolding(crate::specs::Named::datagram_at))]
fn datagram_at(value: &Tree<'_, '_>) -> Option<Name>
    ensures { result ≡ datagram_at (view value.now) }
{
    let Some(found) = value_at(value, "datagram") else {
        return Some(Name::Newest);
    };
    match as_text(&found)? {
        "all" => Some(Name::All),
        _ => None,
    }
}

/// What an event of this kind names.
fn name_for(kind: EventKind, value: &Tree<'_, '_>) -> Option<Name>
    ensures { result ≡ name_for kind (view value.now) }
{
    match kind {
        EventKind::Deliver => datagram_at(value),
        EventKind::DeleteSession => session_at(Role::Serving, value),
        EventKind::ReleaseSession | EventKind::CreateBearer | EventKind::DeleteBearer => {
            session_at(Role::Packet, value)
        }
        EventKind::EndMarker => bearer_at(Role::Packet, value),
        EventKind::Send => bearer_sent_on(value),
        _ => None,
    }
}

/// What an entry names; nothing where it has each number, and where it is none.
#[tactic(auto, unfolding(crate::specs::Named::name_of))]
pub(crate) fn name_of(value: &Tree<'_, '_>) -> Option<Name>
    ensures { result ≡ name_of (view value.now) }
{
    let kind = kind_of(text_at(value, "do")?)?;
    name_for(kind, value)
}
