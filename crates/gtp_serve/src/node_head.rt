//! The first line to a node: its gateways, and how they are set up.

ghost use Rattle.std.specs.Prelude.{◌≡◌, ◌≤◌, ◌+◌, ◌*◌, ◌^◌, ◌<◌, ◌++◌, drop, map, IfSome, IfNone};
ghost use Rattle.std.specs.Int.{w64, to_be_bytes};
ghost use Rattle.gtp_tables.specs.Pool.{prefix_of};
ghost use Rattle.gtp_scenario.specs.Steps.{Gives};
ghost use Rattle.gtp_scenario.specs.Trees.{view, items_view};
ghost use Rattle.gtp_serve.specs.NodeHeads.{peer_of, peers_in, peers_at, pool_for, prefixes_for, pools_for, serving_for, packet_for, settings_for, all_settings, node_keys, node_as, node_of, node_in, settings_in};
ghost use Rattle.gtp_serve.specs.Views.{node_by};

use crate::head::{addresses_at, with_access_points, without_access_points};
use gtp_gateway::{Addresses, Config, Counter, Pool, Pools, Prefixes, Role};
use gtp_scenario::{
    Fault, Items, Tree, access_points_at, as_list, counter_at, has_only, json_of, pools_at,
    role_of, switches_at, text_at, timers_at, value_at, with_templates_at,
};
use json::Scratch;
use std::alloc::Global;

/// A node, as it starts.
#[derive(Debug, Drop)]
pub struct NodeHead {
    pub role: Role,
    /// Its restart counter (TS 23.007 18).
    pub counter: Counter,
    /// The settings of the gateway for each peer, in order.
    pub configs: Vec<Config>,
}

// ---- peers

/// The addresses of a peer.
#[tactic(auto, unfolding(crate::specs::NodeHeads::peer_of))]
pub(crate) fn peer_of(value: &Tree<'_, '_>) -> Option<Addresses>
    ensures { result ≡ peer_of (view value.now) }
{
    if !has_only(value, &["control", "user"]) {
        return None;
    }
    addresses_at(value)
}

/// Peers, in order.
fn peers_in(alloc: Global, mut values: Items<'_, '_>) -> Result<Vec<Addresses>, Fault>
    ensures { Gives (λ peers. peers.items) result (peers_in (items_view values.entry)) }
{
    let mut peers = Vec::new(alloc);
    while let Some(value) = values.next() {
        peers.push(peer_of(&value).ok_or(Fault::Wrong)?)?;
    }
    Ok(peers)
}

#[tactic(auto, unfolding(crate::specs::NodeHeads::peers_at))]
fn peers_at(alloc: Global, value: &Tree<'_, '_>) -> Result<Vec<Addresses>, Fault>
    ensures { Gives (λ peers. peers.items) result (peers_at (view value.now)) }
{
    let values = value_at(value, "peers").ok_or(Fault::Wrong)?;
    let values = as_list(&values).ok_or(Fault::Wrong)?;
    peers_in(alloc, values)
}

// ---- the addresses that a gateway gives

/// The number so many times so many behind this one, where 64 bits hold it.
fn behind(start: u64, place: usize, count: u32) -> Option<u64>
    ensures some { IfSome result (λ number. number ≡ start + place * count) }
    ensures none { IfNone result (2 ^ 64 ≤ start + place * count) }
{
    let offset = (place as u64).checked_mul(u64::from(count))?;
    start.checked_add(offset)
}

/// The addresses of the gateway at a place.
fn pool_for(place: usize, pool: Pool) -> Option<Pool>
    ensures { result ≡ pool_for place pool }
{
    let start = behind(u64::from(pool.start()), place, pool.count())?;
    let start = u32::try_from(start).ok()?;
    Pool::try_new(start, pool.count()).ok()
}

/// The number of an address's prefix, its first eight octets.
fn prefix_of(octets: [u8; 16]) -> u64
    ensures value { result ≡ prefix_of octets }
    ensures range { result < 2 ^ 64 }
{
    match octets.first_chunk::<8>() {
        Some(front) => u64::from_be_bytes(*front),
        None => unreachable!(),
    }
}

/// An address with another prefix.
fn with_prefix(prefix: u64, octets: [u8; 16]) -> [u8; 16]
    ensures octets { result ≡ to_be_bytes w64 prefix ++ drop 8 octets }
    ensures prefix { prefix_of result ≡ prefix }
{
    let mut moved = octets;
    moved[..8].copy_from_slice(&prefix.to_be_bytes());
    moved
}

/// The IPv6 addresses of the gateway at a place.
fn prefixes_for(place: usize, pool: Prefixes) -> Option<Prefixes>
    ensures { result ≡ prefixes_for place pool }
{
    let prefix = behind(prefix_of(pool.start()), place, pool.count())?;
    Prefixes::try_new(with_prefix(prefix, pool.start()), pool.count()).ok()
}

#[tactic(auto, unfolding(crate::specs::NodeHeads::pools_for))]
fn pools_for(place: usize, pools: Pools) -> Option<Pools>
    ensures { result ≡ pools_for place pools }
{
    Some(Pools {
        v4: pool_for(place, pools.v4)?,
        v6: prefixes_for(place, pools.v6)?,
    })
}

// ---- the settings of the gateway for a peer

#[tactic(auto, unfolding(crate::specs::NodeHeads::serving_for))]
fn serving_for(alloc: Global, value: &Tree<'_, '_>, peer: Addresses) -> Option<Config>
    ensures { result ≡ serving_for (view value.now) peer }
{
    let own = addresses_at(value)?;
    let timers = timers_at(value)?;
    let switches = switches_at(value)?;
    Some(without_access_points(alloc, own, peer, timers).with_switches(switches))
}

#[tactic(auto, unfolding(crate::specs::NodeHeads::packet_for))]
fn packet_for(
    alloc: Global,
    value: &Tree<'_, '_>,
    peer: Addresses,
    place: usize,
) -> Result<Config, Fault>
    ensures { Gives (λ config. config) result (packet_for (view value.now) peer place) }
{
    let own = addresses_at(value).ok_or(Fault::Wrong)?;
    let timers = timers_at(value).ok_or(Fault::Wrong)?;
    let access_points = access_points_at(alloc, value)?;
    let pools = pools_at(value).ok_or(Fault::Wrong)?;
    let pools = pools_for(place, pools).ok_or(Fault::Wrong)?;
    let switches = switches_at(value).ok_or(Fault::Wrong)?;
    let config = with_access_points(own, peer, access_points, pools, timers).with_switches(
        switches,
    );
    with_templates_at(alloc, config, value)
}

/// The settings of the gateway of this role for a peer, at a place.
fn settings_for(
    alloc: Global,
    role: Role,
    value: &Tree<'_, '_>,
    peer: Addresses,
    place: usize,
) -> Result<Config, Fault>
    ensures { Gives (λ config. config) result (settings_for role (view value.now) peer place) }
{
    match role {
        Role::Serving => serving_for(alloc, value, peer).ok_or(Fault::Wrong),
        Role::Packet => packet_for(alloc, value, peer, place),
    }
}

/// Those of peers in order.
fn all_settings(
    alloc: Global,
    role: Role,
    value: &Tree<'_, '_>,
    peers: &[Addresses],
) -> Result<Vec<Config>, Fault>
    ensures { Gives (λ configs. configs.items) result
        (all_settings role (view value.now) 0 peers.now) }
{
    let mut configs = Vec::new(alloc);
    let mut rest = peers;
    while let Some((peer, behind)) = rest.split_first() {
        let place = configs.len();
        configs.push(settings_for(alloc, role, value, *peer, place)?)?;
        rest = behind;
    }
    Ok(configs)
}

// ---- whole heads

/// The keys that a head has.
fn node_keys(role: Role) -> &'static [&'static str]
    ensures { map (λ key. key.now) result.now ≡ node_keys role }
{
    match role {
        Role::Serving => &[
            "role", "control", "user", "peers", "counter", "t3", "n3", "hold", "switches",
        ],
        Role::Packet => &[
            "role",
            "control",
            "user",
            "peers",
            "counter",
            "t3",
            "n3",
            "hold",
            "apns",
            "pool",
            "count",
            "pool6",
            "count6",
            "templates",
            "switches",
        ],
    }
}

#[tactic(auto, unfolding(crate::specs::NodeHeads::node_as))]
fn node_as(alloc: Global, role: Role, value: &Tree<'_, '_>) -> Result<NodeHead, Fault>
    ensures { Gives node_by result (node_as role (view value.now)) }
{
    if !has_only(value, node_keys(role)) {
        return Err(Fault::Wrong);
    }
    let own = addresses_at(value).ok_or(Fault::Wrong)?;
    let _needed = settings_for(alloc, role, value, own, 0)?;
    let counter = counter_at(value).ok_or(Fault::Wrong)?;
    let peers = peers_at(alloc, value)?;
    let configs = all_settings(alloc, role, value, &peers)?;
    Ok(NodeHead {
        role,
        counter,
        configs,
    })
}

#[tactic(auto, unfolding(crate::specs::NodeHeads::node_of))]
fn node_of(alloc: Global, value: &Tree<'_, '_>) -> Result<NodeHead, Fault>
    ensures { Gives node_by result (node_of (view value.now)) }
{
    let word = text_at(value, "role").ok_or(Fault::Wrong)?;
    let role = role_of(word).ok_or(Fault::Wrong)?;
    node_as(alloc, role, value)
}

/// The node that a line says: a JSON object as that of a gateway (`head_in`), with `peers`, a list of the addresses of peers, in place
/// of `peer`. Each peer of a packet gateway has `count` addresses of its own, from `pool` on those of the first peer, behind them
/// those of the next, and so with `pool6` and `count6`. `Wrong` if the line is no such object, or addresses end before the last
/// peer has its own; `Memory` if an allocation was refused.
#[tactic(auto, unfolding(crate::specs::NodeHeads::node_in))]
pub fn node_in(alloc: Global, line: &[u8]) -> Result<NodeHead, Fault>
    ensures { Gives node_by result (node_in line.now) }
{
    let mut scratch = Scratch::new(alloc);
    let tape = json_of(alloc, line, &mut scratch)?;
    node_of(alloc, &Tree::root(&tape))
}

/// The settings that the line of a node has for a further peer, at a place.
#[tactic(auto, unfolding(crate::specs::NodeHeads::settings_in))]
pub(crate) fn settings_in(
    alloc: Global,
    role: Role,
    line: &[u8],
    peer: Addresses,
    place: usize,
) -> Result<Config, Fault>
    ensures { Gives (λ config. config) result (settings_in role line.now peer place) }
{
    let mut scratch = Scratch::new(alloc);
    let tape = json_of(alloc, line, &mut scratch)?;
    settings_for(alloc, role, &Tree::root(&tape), peer, place)
}
