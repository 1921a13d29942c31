//! The first line: which gateway it is, and how it is set up.

ghost use Rattle.std.specs.Prelude.{◌≡◌, ◌≤◌, [], length, option_map};
ghost use Rattle.gtp_scenario.specs.Heads.{AreTimers};
ghost use Rattle.gtp_scenario.specs.Steps.{Gives};
ghost use Rattle.gtp_scenario.specs.Trees.{view};
ghost use Rattle.gtp_tables.specs.Pool.{no_prefixes};
ghost use Rattle.gtp_gateway.specs.Settings.{settings_of};
ghost use Rattle.gtp_scenario.specs.Heads.{no_pool, no_pools};
ghost use Rattle.gtp_serve.specs.Heads.{ip_of, ip_at, addresses_at, peer_at, serving_of, packet_of, head_as, head_of, head_in};
ghost use Rattle.gtp_serve.specs.Views.{head_by};

use gtp_gateway::{Addresses, Apn, Config, Counter, Ip, Pool, Pools, Role, Timers};
use gtp_scenario::{
    Fault, Tree, access_points_at, address_of, counter_at, has_only, ipv6_of, json_of, pools_at,
    role_of, switches_at, text_at, timers_at, value_at, with_templates_at,
};
use json::Scratch;
use std::alloc::Global;

/// A gateway by itself, as it starts.
#[derive(Debug, Drop)]
pub struct Head {
    pub role: Role,
    pub config: Config,
    /// Its restart counter (TS 23.007 18).
    pub counter: Counter,
}

/// An address: IPv4 in dotted decimal, or IPv6 as 32 hexadecimal digits.
#[tactic(auto, unfolding(crate::specs::Heads::ip_of))]
fn ip_of(text: &str) -> Option<Ip>
    ensures { result ≡ ip_of text.now }
{
    match address_of(text) {
        Some(address) => Some(Ip::V4(address.octets())),
        None => Some(Ip::V6(ipv6_of(text)?)),
    }
}

#[tactic(auto, unfolding(crate::specs::Heads::ip_at))]
pub(crate) fn ip_at(value: &Tree<'_, '_>, key: &str) -> Option<Ip>
    ensures { result ≡ ip_at key.now (view value.now) }
{
    ip_of(text_at(value, key)?)
}

/// The address on each plane.
#[tactic(auto, unfolding(crate::specs::Heads::addresses_at))]
pub(crate) fn addresses_at(value: &Tree<'_, '_>) -> Option<Addresses>
    ensures { result ≡ addresses_at (view value.now) }
{
    Some(Addresses {
        control: ip_at(value, "control")?,
        user: ip_at(value, "user")?,
    })
}

/// The addresses of the other gateway.
#[tactic(auto, unfolding(crate::specs::Heads::peer_at))]
fn peer_at(value: &Tree<'_, '_>) -> Option<Addresses>
    ensures { result ≡ peer_at (view value.now) }
{
    let peer = value_at(value, "peer")?;
    if !has_only(&peer, &["control", "user"]) {
        return None;
    }
    addresses_at(&peer)
}

/// No addresses.
fn no_pool() -> Pool
    ensures { result ≡ no_pool }
{
    match Pool::try_new(0, 0) {
        Ok(pool) => pool,
        Err(_) => unreachable!(),
    }
}

/// The settings of a gateway without access points.
pub(crate) fn without_access_points(
    alloc: Global,
    own: Addresses,
    peer: Addresses,
    timers: Timers,
) -> Config
    requires { AreTimers timers }
    ensures { result ≡ settings_of own peer [] no_pools timers }
{
    match Config::try_new(own, peer, Vec::new(alloc), no_pool(), timers) {
        Ok(config) => config,
        Err(_) => unreachable!(),
    }
}

/// The settings of a gateway with access points.
pub(crate) fn with_access_points(
    own: Addresses,
    peer: Addresses,
    access_points: Vec<Apn>,
    pools: Pools,
    timers: Timers,
) -> Config
    requires range { AreTimers timers }
    requires few { length access_points.items ≤ 16 }
    ensures { result ≡ settings_of own peer access_points.items pools timers }
{
    let Ok(config) = Config::try_new(own, peer, access_points, pools.v4, timers) else {
        unreachable!()
    };
    match config.with_pool6(pools.v6.start(), pools.v6.count()) {
        Ok(config) => config,
        Err(_) => unreachable!(),
    }
}

/// A serving gateway.
#[tactic(auto, unfolding(crate::specs::Heads::serving_of))]
fn serving_of(alloc: Global, value: &Tree<'_, '_>) -> Option<Head>
    ensures { option_map head_by result ≡ serving_of (view value.now) }
{
    if !has_only(
        value,
        &[
            "role", "control", "user", "peer", "counter", "t3", "n3", "hold", "switches",
        ],
    ) {
        return None;
    }
    let own = addresses_at(value)?;
    let peer = peer_at(value)?;
    let counter = counter_at(value)?;
    let timers = timers_at(value)?;
    let switches = switches_at(value)?;
    Some(Head {
        role: Role::Serving,
        config: without_access_points(alloc, own, peer, timers).with_switches(switches),
        counter,
    })
}

/// A packet gateway.
#[tactic(auto, unfolding(crate::specs::Heads::packet_of))]
fn packet_of(alloc: Global, value: &Tree<'_, '_>) -> Result<Head, Fault>
    ensures { Gives head_by result (packet_of (view value.now)) }
{
    if !has_only(
        value,
        &[
            "role",
            "control",
            "user",
            "peer",
            "counter",
            "t3",
            "n3",
            "hold",
            "apns",
            "pool",
            "count",
            "pool6",
            "count6",
            "templates",
            "switches",
        ],
    ) {
        return Err(Fault::Wrong);
    }
    let own = addresses_at(value).ok_or(Fault::Wrong)?;
    let peer = peer_at(value).ok_or(Fault::Wrong)?;
    let counter = counter_at(value).ok_or(Fault::Wrong)?;
    let timers = timers_at(value).ok_or(Fault::Wrong)?;
    let access_points = access_points_at(alloc, value)?;
    let pools = pools_at(value).ok_or(Fault::Wrong)?;
    let switches = switches_at(value).ok_or(Fault::Wrong)?;
    let config = with_access_points(own, peer, access_points, pools, timers).with_switches(
        switches,
    );
    let config = with_templates_at(alloc, config, value)?;
    Ok(Head {
        role: Role::Packet,
        config,
        counter,
    })
}

/// The gateway of this role.
fn head_as(alloc: Global, role: Role, value: &Tree<'_, '_>) -> Result<Head, Fault>
    ensures { Gives head_by result (head_as role (view value.now)) }
{
    match role {
        Role::Serving => serving_of(alloc, value).ok_or(Fault::Wrong),
        Role::Packet => packet_of(alloc, value),
    }
}

#[tactic(auto, unfolding(crate::specs::Heads::head_of))]
fn head_of(alloc: Global, value: &Tree<'_, '_>) -> Result<Head, Fault>
    ensures { Gives head_by result (head_of (view value.now)) }
{
    let word = text_at(value, "role").ok_or(Fault::Wrong)?;
    let role = role_of(word).ok_or(Fault::Wrong)?;
    head_as(alloc, role, value)
}

/// The gateway that a line says: a JSON object with its `role` (`serving` or `packet`), its addresses `control` and `user`, those
/// of its `peer`, and its restart counter `counter`; `t3`, `n3` and `hold` where they are not 3, 3 and 60 ticks, and `switches` where
/// it has some; and of a packet gateway `apns`, `pool` and `count`, and where it has them `pool6` and `count6`, and `templates`. Each key comes once, and no
/// other one. `Wrong` if the line is no such object, `Memory` if an allocation was refused.
#[tactic(auto, unfolding(crate::specs::Heads::head_in))]
pub fn head_in(alloc: Global, line: &[u8]) -> Result<Head, Fault>
    ensures { Gives head_by result (head_in line.now) }
{
    let mut scratch = Scratch::new(alloc);
    let tape = json_of(alloc, line, &mut scratch)?;
    head_of(alloc, &Tree::root(&tape))
}
