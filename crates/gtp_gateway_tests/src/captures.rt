//! Captures of runs between gateways whose addresses are not of IPv4, which no scenario says.

use gtp_gateway::{Addresses, Config, Counter, Ip, Pool, Role, Timers};
use gtp_replay::{NoCapture, capture};
use gtp_world::{Event, World, WorldConfig};
use std::alloc::Global;
use std::test::Fail;

const V4: Ip = Ip::V4([10, 0, 0, 1]);

const FIRST_V6: Ip = Ip::V6([0x20, 1, 0xd, 0xb8, 0, 0, 0, 0, 0, 0, 0, 0, 0, 0, 0, 1]);

const SECOND_V6: Ip = Ip::V6([0x20, 1, 0xd, 0xb8, 0, 0, 0, 0, 0, 0, 0, 0, 0, 0, 0, 2]);

/// The same address on both planes.
fn on_both(ip: Ip) -> Addresses {
    Addresses {
        control: ip,
        user: ip,
    }
}

/// A gateway without access points and addresses to give.
fn config_of(alloc: Global, own: Ip, peer: Ip) -> Result<Config, Fail> {
    let pool = Pool::try_new(0, 0)?;
    let names = Vec::new(alloc);
    Ok(Config::try_new(on_both(own), on_both(peer), names, pool, Timers::default())?)
}

/// Both gateways, at these addresses.
fn both(alloc: Global, serving: Ip, packet: Ip) -> Result<WorldConfig, Fail> {
    let from = config_of(alloc, serving, packet)?;
    let to = config_of(alloc, packet, serving)?;
    Ok(WorldConfig::try_new(from, to, [Counter(1), Counter(1)])?)
}

/// The size of a capture of two Echo Requests, one from each gateway.
fn captured(alloc: Global, serving: Ip, packet: Ip) -> Result<Result<usize, NoCapture>, Fail> {
    let config = both(alloc, serving, packet)?;
    let mut world = World::start(alloc, &config)?;
    world.step(alloc, &Event::Echo(Role::Serving))?;
    world.step(alloc, &Event::Echo(Role::Packet))?;
    Ok(capture(alloc, &world).map(|octets| octets.len()))
}

/// Over IPv6 each record has 16 octets, a packet's header 40, one of UDP 8, and an Echo Request 13.
#[test]
fn addresses_of_one_version(rt: HostRuntime) -> Result<(), Fail> {
    let size = captured(rt.alloc(), FIRST_V6, SECOND_V6)?;
    assert!(rt; size == Ok(24 + 2 * (16 + 40 + 8 + 13)), "{size:?}");
    Ok(())
}

#[test]
fn addresses_of_two_versions(rt: HostRuntime) -> Result<(), Fail> {
    let size = captured(rt.alloc(), V4, FIRST_V6)?;
    assert!(rt; size == Err(NoCapture::NoPacket { number: 0 }), "{size:?}");
    Ok(())
}
