//! Both gateways of a scenario.

ghost use Rattle.std.specs.Prelude.{◌≡◌, ◌≤◌, length, nat_le, if◌then◌else◌, None, IfOk, IfSome, option_map};
ghost use Rattle.std.specs.Int.{from_be_bytes};
ghost use Rattle.gtp_world.specs.Runs.{AreFacing};
ghost use Rattle.gtp_scenario.specs.Events.{qos as fixed_qos};
ghost use Rattle.gtp_scenario.specs.Steps.{Gives};
ghost use Rattle.gtp_scenario.specs.Json.{count_of};
ghost use Rattle.gtp_scenario.specs.Heads.{AreTimers, address_at, addresses_at, counter_at, access_point_of, access_points_in, access_points_at};
ghost use Rattle.gtp_machine.specs.Config.{no_switches};
ghost use Rattle.gtp_scenario.specs.Heads.{switch_on, switches_in, switches_at};
ghost use Rattle.gtp_scenario.specs.Heads.{pool_from, pool_at, prefixes_from, prefixes_at, pools_at, no_pool, time_at, timers_at};
ghost use Rattle.gtp_scenario.specs.Heads.{serving_of, packet_of, set_up, configured, with_this, with_each, with_templates_at, setup_of, events_at};
ghost use Rattle.gtp_scenario.specs.Trees.{view, items_view};
ghost use Rattle.gtp_scenario.specs.Views.{serving_head, packet_head};

use crate::defaults::qos;
use crate::event::tft_at;
use crate::fault::Fault;
use crate::members::{
    Items, as_list, as_text, has, has_only, number_at, number_or, text_at, value_at, within,
};
use crate::text::{address_of, apn_of, ipv6_of};
use crate::tree::Tree;
use gtp_gateway::{Addresses, Apn, Config, Counter, Ip, Pool, Pools, Prefixes, Switches, Timers};
use gtp_values::Tft;
use gtp_world::WorldConfig;
use std::alloc::Global;

/// The most access points of a gateway.
const MOST_ACCESS_POINTS: usize = 16;

/// The serving gateway's part of a head.
#[derive(Clone, Copy)]
struct ServingHead {
    own: Addresses,
    counter: Counter,
    switches: Switches,
}

/// The packet gateway's part of a head.
#[derive(Drop)]
struct PacketHead {
    own: Addresses,
    counter: Counter,
    access_points: Vec<Apn>,
    pools: Pools,
    switches: Switches,
}

#[tactic(auto, unfolding(crate::specs::Heads::address_at))]
fn address_at(value: &Tree<'_, '_>, key: &str) -> Option<Ip>
    ensures { result ≡ address_at key.now (view value.now) }
{
    let address = address_of(text_at(value, key)?)?;
    Some(Ip::V4(address.octets()))
}

/// The address on each plane.
#[tactic(auto, unfolding(crate::specs::Heads::addresses_at))]
fn addresses_at(value: &Tree<'_, '_>) -> Option<Addresses>
    ensures { result ≡ addresses_at (view value.now) }
{
    Some(Addresses {
        control: address_at(value, "control")?,
        user: address_at(value, "user")?,
    })
}

/// The restart counter under `counter`: 0 to 255.
#[tactic(auto, unfolding(crate::specs::Heads::counter_at))]
pub fn counter_at(value: &Tree<'_, '_>) -> Option<Counter>
    ensures { option_map (λ counter. counter.0) result ≡ counter_at (view value.now) }
{
    let number = within(0, 255, number_at(value, "counter")?)?;
    Some(Counter(number as u8))
}

#[tactic(auto, unfolding(crate::specs::Heads::access_point_of))]
fn access_point_of(value: &Tree<'_, '_>) -> Option<Apn>
    ensures { result ≡ access_point_of (view value.now) }
{
    apn_of(as_text(value)?)
}

/// Access points, in order, unless there are too many.
pub(crate) fn access_points_in(alloc: Global, mut values: Items<'_, '_>) -> Result<Vec<Apn>, Fault>
    ensures read { Gives (λ v. v.items) result
        (if nat_le (count_of (items_view values.entry)) 16
        then access_points_in (items_view values.entry) else None) }
    ensures few { IfOk result (λ v. length v.items ≤ 16) }
{
    let mut access_points = Vec::new(alloc);
    while let Some(value) = values.next() {
        if access_points.len() == MOST_ACCESS_POINTS {
            return Err(Fault::Wrong);
        }
        access_points.push(access_point_of(&value).ok_or(Fault::Wrong)?)?;
    }
    Ok(access_points)
}

/// The access point names under `apns`, at most 16.
#[tactic(auto, unfolding(crate::specs::Heads::access_points_at))]
pub fn access_points_at(alloc: Global, value: &Tree<'_, '_>) -> Result<Vec<Apn>, Fault>
    ensures read { Gives (λ v. v.items) result (access_points_at (view value.now)) }
    ensures few { IfOk result (λ v. length v.items ≤ 16) }
{
    let values = value_at(value, "apns").ok_or(Fault::Wrong)?;
    let values = as_list(&values).ok_or(Fault::Wrong)?;
    access_points_in(alloc, values)
}

/// Addresses in a row, the first of them as a number.
fn pool_from(start: u32, count: u32) -> Option<Pool>
    requires { count ≤ 65536 }
    ensures { result ≡ pool_from start count }
{
    Pool::try_new(start, count).ok()
}

#[tactic(auto, unfolding(crate::specs::Heads::pool_at))]
pub(crate) fn pool_at(value: &Tree<'_, '_>) -> Option<Pool>
    ensures { result ≡ pool_at (view value.now) }
{
    let start = address_of(text_at(value, "pool")?)?;
    let count = within(0, 65_536, number_at(value, "count")?)?;
    pool_from(u32::from_be_bytes(start.octets()), count)
}

/// IPv6 addresses, one under each of some prefixes in a row.
fn prefixes_from(start: [u8; 16], count: u32) -> Option<Prefixes>
    requires { count ≤ 65536 }
    ensures { result ≡ prefixes_from start count }
{
    Prefixes::try_new(start, count).ok()
}

#[tactic(auto, unfolding(crate::specs::Heads::prefixes_at))]
pub(crate) fn prefixes_at(value: &Tree<'_, '_>) -> Option<Prefixes>
    ensures { result ≡ prefixes_at (view value.now) }
{
    if !has(value, "pool6") && !has(value, "count6") {
        return Some(Prefixes::none());
    }
    let start = ipv6_of(text_at(value, "pool6")?)?;
    let count = within(0, 65_536, number_at(value, "count6")?)?;
    prefixes_from(start, count)
}

/// The addresses of each version: `pool` and `count`, and `pool6` and `count6` or neither.
#[tactic(auto, unfolding(crate::specs::Heads::pools_at))]
pub fn pools_at(value: &Tree<'_, '_>) -> Option<Pools>
    ensures { result ≡ pools_at (view value.now) }
{
    Some(Pools {
        v4: pool_at(value)?,
        v6: prefixes_at(value)?,
    })
}

/// A time in ticks, which may be absent.
fn time_at(value: &Tree<'_, '_>, key: &str, absent: u32, low: u32, high: u32) -> Option<u32>
    ensures read { result ≡ time_at key.now absent low high (view value.now) }
    ensures range { IfSome result (λ time. (low ≤ time) × (time ≤ high)) }
{
    within(low, high, number_or(value, key, u64::from(absent))?)
}

/// The timers under `t3`, `n3` and `hold`, in ticks: 3, 3 and 60 where they are absent.
#[tactic(auto, unfolding(crate::specs::Heads::timers_at))]
pub fn timers_at(value: &Tree<'_, '_>) -> Option<Timers>
    ensures read { result ≡ timers_at (view value.now) }
    ensures range { IfSome result AreTimers }
{
    let default = Timers::default();
    Some(Timers {
        t3: time_at(value, "t3", default.t3, 1, 1_000)?,
        n3: time_at(value, "n3", default.n3, 0, 100)?,
        hold: time_at(value, "hold", default.hold, 1, 100_000)?,
    })
}

/// These switches, and the one that a word names on.
fn switch_on(switches: Switches, word: &str) -> Option<Switches>
    ensures { result ≡ switch_on word.now switches }
{
    let mut more = switches;
    if word == "network_identifiers" {
        more.network_identifiers = true;
    } else if word == "version_not_supported" {
        more.version_not_supported = true;
    } else {
        return None;
    }
    Some(more)
}

/// Switches, by their words.
pub(crate) fn switches_in(mut words: Items<'_, '_>) -> Option<Switches>
    ensures { result ≡ switches_in (items_view words.entry) no_switches }
{
    let mut switches = Switches::default();
    while let Some(word) = words.next() {
        switches = switch_on(switches, as_text(&word)?)?;
    }
    Some(switches)
}

/// The switches under `switches`, which may be absent.
#[tactic(auto, unfolding(crate::specs::Heads::switches_at))]
pub fn switches_at(value: &Tree<'_, '_>) -> Option<Switches>
    ensures { result ≡ switches_at (view value.now) }
{
    match value_at(value, "switches") {
        None => Some(Switches::default()),
        Some(words) => switches_in(as_list(&words)?),
    }
}

#[tactic(auto, unfolding(crate::specs::Heads::serving_of))]
fn serving_of(value: &Tree<'_, '_>) -> Option<ServingHead>
    ensures { option_map serving_head result ≡ serving_of (view value.now) }
{
    if !has_only(value, &["control", "user", "counter", "switches"]) {
        return None;
    }
    Some(ServingHead {
        own: addresses_at(value)?,
        counter: counter_at(value)?,
        switches: switches_at(value)?,
    })
}

#[tactic(auto, unfolding(crate::specs::Heads::packet_of))]
fn packet_of(alloc: Global, value: &Tree<'_, '_>) -> Result<PacketHead, Fault>
    ensures read { Gives packet_head result (packet_of (view value.now)) }
    ensures few { IfOk result (λ head. length head.access_points.items ≤ 16) }
{
    if !has_only(
        value,
        &[
            "control",
            "user",
            "counter",
            "apns",
            "pool",
            "count",
            "pool6",
            "count6",
            "templates",
            "switches",
        ],
    ) {
        return Err(Fault::Wrong);
    }
    let own = addresses_at(value).ok_or(Fault::Wrong)?;
    let counter = counter_at(value).ok_or(Fault::Wrong)?;
    let access_points = access_points_at(alloc, value)?;
    let pools = pools_at(value).ok_or(Fault::Wrong)?;
    let switches = switches_at(value).ok_or(Fault::Wrong)?;
    Ok(PacketHead {
        own,
        counter,
        access_points,
        pools,
        switches,
    })
}

/// No addresses.
fn no_pool() -> Pool
    ensures { result ≡ no_pool }
{
    match Pool::try_new(0, 0) {
        Ok(pool) => pool,
        Err(_) => unreachable!(),
    }
}

/// The settings of both gateways, as each other's peers.
fn set_up(
    alloc: Global,
    timers: Timers,
    serving: ServingHead,
    packet: PacketHead,
) -> (Config, Config)
    requires range { AreTimers timers }
    requires few { length packet.access_points.items ≤ 16 }
    ensures serving { result.0 ≡ (set_up timers (serving_head serving) (packet_head packet)).serving }
    ensures packet { result.1 ≡ (set_up timers (serving_head serving) (packet_head packet)).packet }
{
    let none = Vec::new(alloc);
    let PacketHead {
        own,
        access_points,
        pools,
        switches,
        ..
    } = packet;
    let Ok(from_serving) = Config::try_new(serving.own, own, none, no_pool(), timers) else {
        unreachable!()
    };
    let Ok(from_packet) = Config::try_new(own, serving.own, access_points, pools.v4, timers) else {
        unreachable!()
    };
    let Ok(from_packet) = from_packet.with_pool6(pools.v6.start(), pools.v6.count()) else {
        unreachable!()
    };
    (
        from_serving.with_switches(serving.switches),
        from_packet.with_switches(switches),
    )
}

/// The settings with a template of an access point, if that is one of theirs.
fn put_template(config: Config, access_point: &Apn, tft: &Tft) -> Option<Config>
    ensures { result ≡ configured config
        (record { access_point = access_point.now; tft = tft.now; qos = fixed_qos }) }
{
    config.with_template(access_point, tft, &qos()).ok()
}

/// The settings with the template that a value is.
#[tactic(auto, unfolding(crate::specs::Heads::template_of))]
fn with_this(alloc: Global, config: Config, value: &Tree<'_, '_>) -> Result<Config, Fault>
    ensures { Gives (λ config. config) result (with_this (view value.now) config) }
{
    if !has_only(value, &["apn", "tft"]) {
        return Err(Fault::Wrong);
    }
    let name = text_at(value, "apn").ok_or(Fault::Wrong)?;
    let name = apn_of(name).ok_or(Fault::Wrong)?;
    let tft = tft_at(alloc, value)?;
    put_template(config, &name, &tft).ok_or(Fault::Wrong)
}

/// The settings with each of these templates, one after the other.
fn with_each(alloc: Global, mut config: Config, mut values: Items<'_, '_>) -> Result<Config, Fault>
    ensures { Gives (λ config. config) result (with_each (items_view values.entry) config) }
{
    while let Some(value) = values.next() {
        config = with_this(alloc, config, &value)?;
    }
    Ok(config)
}

/// The settings with the templates under `templates`, which may be absent.
#[tactic(auto, unfolding(crate::specs::Heads::with_templates_at))]
pub fn with_templates_at(
    alloc: Global,
    config: Config,
    value: &Tree<'_, '_>,
) -> Result<Config, Fault>
    ensures { Gives (λ config. config) result (with_templates_at (view value.now) config) }
{
    match value_at(value, "templates") {
        None => Ok(config),
        Some(templates) => { with_each(alloc, config, as_list(&templates).ok_or(Fault::Wrong)?) }
    }
}

/// Two gateways that are each other's peers.
fn world_of(
    from_serving: Config,
    from_packet: Config,
    serving: Counter,
    packet: Counter,
) -> WorldConfig
    requires { AreFacing from_serving from_packet }
    ensures { result ≡ record {
      serving = from_serving;
      packet = from_packet;
      serving_counter = serving.0;
      packet_counter = packet.0;
    } }
{
    match WorldConfig::try_new(from_serving, from_packet, [serving, packet]) {
        Ok(config) => config,
        Err(_) => unreachable!(),
    }
}

/// All of a scenario but its events.
#[tactic(auto, unfolding(crate::specs::Heads::setup_of))]
pub(crate) fn setup_of(alloc: Global, value: &Tree<'_, '_>) -> Result<WorldConfig, Fault>
    ensures { Gives (λ config. config) result (setup_of (view value.now)) }
{
    if !has_only(value, &["serving", "packet", "t3", "n3", "hold", "events"]) {
        return Err(Fault::Wrong);
    }
    let timers = timers_at(value).ok_or(Fault::Wrong)?;
    let serving = value_at(value, "serving").ok_or(Fault::Wrong)?;
    let serving = serving_of(&serving).ok_or(Fault::Wrong)?;
    let said = value_at(value, "packet").ok_or(Fault::Wrong)?;
    let packet = packet_of(alloc, &said)?;
    let counter = packet.counter;
    let (from_serving, from_packet) = set_up(alloc, timers, serving, packet);
    let from_packet = with_templates_at(alloc, from_packet, &said)?;
    Ok(world_of(from_serving, from_packet, serving.counter, counter))
}

/// The list of events.
#[tactic(auto, unfolding(crate::specs::Heads::events_at))]
pub(crate) fn events_at<'t, 'a>(value: &Tree<'t, 'a>) -> Option<Items<'t, 'a>>
    ensures { option_map items_view result ≡ events_at (view value.now) }
{
    as_list(&value_at(value, "events")?)
}
