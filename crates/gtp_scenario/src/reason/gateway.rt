//! What is wrong with the head of a gateway by itself.

ghost use Rattle.std.specs.Prelude.{◌≡◌, Some, None, codes, IfOk, MatchOption};
ghost use Rattle.gtp_scenario.specs.Keys.{peer_keys};
ghost use Rattle.gtp_scenario.specs.Reasons.{role_at, IsFlaw, IsFlawAt, IsFlawOfKey, IsGatewayFlaw};
ghost use Rattle.gtp_scenario.specs.declared.reason.key.Key.TheVariants as keys;
ghost use Rattle.gtp_scenario.specs.reading.Faultless.{IsGateway, IsGatewayAs, IsPeerAt};
ghost use Rattle.gtp_scenario.specs.Trees.{view};

use crate::event::role_of;
use crate::members::{has, is_object, text_at, value_at};
use crate::reason::flaw::{ObjectFlaw, flaw_of};
use crate::reason::key::Key;
use crate::reason::packet::{PacketFlaw, packet_flaw};
use crate::tree::Tree;
use gtp_gateway::Role;
use gtp_values::Memory;
use std::alloc::Global;

/// The keys of a serving gateway by itself, in order.
const SERVING_KEYS: [Key; 9] = [
    Key::Role,
    Key::ControlAddress,
    Key::UserAddress,
    Key::Peer,
    Key::Counter,
    Key::T3Response,
    Key::N3Requests,
    Key::Hold,
    Key::Switches,
];

/// The keys of a packet gateway by itself, in order.
const PACKET_KEYS: [Key; 15] = [
    Key::Role,
    Key::ControlAddress,
    Key::UserAddress,
    Key::Peer,
    Key::Counter,
    Key::T3Response,
    Key::N3Requests,
    Key::Hold,
    Key::Apns,
    Key::Pool,
    Key::Count,
    Key::Pool6,
    Key::Count6,
    Key::Templates,
    Key::Switches,
];

/// The keys of its peer, in order.
const PEER_KEYS: [Key; 2] = [Key::ControlAddress, Key::UserAddress];

/// What is wrong with the head of a gateway by itself: one of these.
#[derive(Debug, Drop)]
pub enum GatewayFlaw {
    /// It is no object, or its key `role` is missing or names no gateway.
    Role(ObjectFlaw),
    /// It is a serving gateway, and something is wrong with its keys.
    Serving(ObjectFlaw),
    /// It is a packet gateway, and something is wrong with it.
    Packet(PacketFlaw),
    /// Something is wrong with the keys of its peer.
    Peer(ObjectFlaw),
}

/// The gateway that a head says to be.
fn role_at(value: &Tree<'_, '_>) -> Option<Role>
    ensures { result ≡ role_at (view value.now) }
{
    role_of(text_at(value, "role")?)
}

/// What is wrong with a head that says no gateway.
fn role_flaw(value: &Tree<'_, '_>) -> ObjectFlaw
    requires { role_at (view value.now) ≡ None }
    ensures { IsFlawOfKey keys.Role (view value.now) result }
{
    if !is_object(value) {
        return ObjectFlaw::NoObject;
    }
    if has(value, "role") {
        ObjectFlaw::Bad(Key::Role)
    } else {
        ObjectFlaw::Missing(Key::Role)
    }
}

/// What is wrong with a head that says this gateway, beside its peer.
fn own_flaw(alloc: Global, role: Role, value: &Tree<'_, '_>) -> Result<Option<GatewayFlaw>, Memory>
    requires { role_at (view value.now) ≡ Some role }
    ensures { IfOk result (λ flaw. MatchOption flaw (IsGatewayAs role (view value.now))
        (IsGatewayFlaw (view value.now))) }
{
    match role {
        Role::Serving => match flaw_of(alloc, &SERVING_KEYS, value)? {
            Some(flaw) => Ok(Some(GatewayFlaw::Serving(flaw))),
            None => Ok(None),
        },
        Role::Packet => match packet_flaw(alloc, &PACKET_KEYS, value)? {
            Some(flaw) => Ok(Some(GatewayFlaw::Packet(flaw))),
            None => Ok(None),
        },
    }
}

fn peer_flaw(alloc: Global, value: &Tree<'_, '_>) -> Result<Option<ObjectFlaw>, Memory>
    ensures { IfOk result (λ flaw. MatchOption flaw (IsPeerAt (view value.now))
        (IsFlawAt (IsFlaw peer_keys) (codes "peer") (view value.now))) }
{
    match value_at(value, "peer") {
        Some(peer) => flaw_of(alloc, &PEER_KEYS, &peer),
        None => Ok(None),
    }
}

/// What is wrong with the head of a gateway by itself; `None` if nothing is. `Memory` if an allocation was refused.
pub fn gateway_flaw(alloc: Global, value: &Tree<'_, '_>) -> Result<Option<GatewayFlaw>, Memory>
    ensures { IfOk result (λ flaw. MatchOption flaw (IsGateway (view value.now))
        (IsGatewayFlaw (view value.now))) }
{
    let Some(role) = role_at(value) else {
        return Ok(Some(GatewayFlaw::Role(role_flaw(value))));
    };
    if let Some(flaw) = own_flaw(alloc, role, value)? {
        return Ok(Some(flaw));
    }
    match peer_flaw(alloc, value)? {
        Some(flaw) => Ok(Some(GatewayFlaw::Peer(flaw))),
        None => Ok(None),
    }
}
