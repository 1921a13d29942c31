//! The gateways of a node, each with its peer.

ghost use Rattle.std.specs.Prelude.{◌≡◌, ◌<◌, ◌-◌, ◌++◌, [], ◌∷◌, length, take, vec_capacity, IsOk, IfOk, IfErr, IfSome, IfNone, OnOk, OnErr};
ghost use Rattle.gtp_node.specs.Routing.{peers_of, no_peers, addresses_on, with_peer, IsFirstAt, NoneHas, IsRouted, PeerMayRunOut};

use crate::places::Places;
use gtp_gateway::{Addresses, Config, Gateway, Role, Step};
use gtp_values::{Counter, Endpoint, Ip, Memory, Plane};
use std::alloc::Global;

/// The gateways of a node under one pair of own addresses, one for each peer, in the order in which the peers were
/// added. A command, a tick or a question is a call of the gateway at the peer's place.
#[derive(Drop)]
pub struct Node {
    /// The peers' addresses on the control plane.
    pub control: Places<Ip>,
    /// The peers' addresses on the user plane.
    pub user: Places<Ip>,
    pub gateways: Vec<Gateway>,
}

/// What a datagram came to, and the place of the peer that it came from.
#[derive(Debug, Drop)]
pub struct Routed<'a> {
    pub place: usize,
    pub step: Step<'a>,
}

impl Node {
    /// A node without peers. Takes no memory.
    pub fn new(alloc: Global) -> Node
        ensures { peers_of result ≡ no_peers }
    {
        Node {
            control: Places::new(alloc),
            user: Places::new(alloc),
            gateways: Vec::new(alloc),
        }
    }

    /// Adds the addresses of a peer. `Memory` if an allocation was refused.
    fn enter(&mut self, at: Addresses) -> Result<(), Memory>
        ensures control { OnOk result (self.new.control ≡ self.old.control ++ at.control ∷ []) }
        ensures user { OnOk result (self.new.user ≡ self.old.user ++ at.user ∷ []) }
        ensures gateways { self.new.gateways ≡ self.old.gateways }
        ensures err { OnErr result (peers_of self.new ≡ peers_of self.old) }
    {
        self.control.push(at.control)?;
        if self.user.push(at.user).is_err() {
            self.control.pop();
            return Err(Memory);
        }
        Ok(())
    }

    /// Takes the addresses of the last peer away.
    fn leave(&mut self)
        ensures control { self.new.control ≡ take (length self.old.control - 1) self.old.control }
        ensures user { self.new.user ≡ take (length self.old.user - 1) self.old.user }
        ensures gateways { self.new.gateways ≡ self.old.gateways }
    {
        self.control.pop();
        self.user.pop();
    }

    /// Puts a gateway behind the others, in the room that was made, and returns its place.
    fn put(&mut self, gateway: Gateway) -> Result<usize, Memory>
        requires { length self.old.gateways.items < vec_capacity self.old.gateways }
        ensures place { IfOk result (λ place. place ≡ length self.old.gateways.items) }
        ensures gateways { self.new.gateways.items ≡ self.old.gateways.items ++ gateway ∷ [] }
        ensures control { self.new.control ≡ self.old.control }
        ensures user { self.new.user ≡ self.old.user }
        ensures ok { IsOk result }
    {
        let place = self.gateways.len();
        match self.gateways.push(gateway) {
            Ok(()) => Ok(place),
            Err(_) => unreachable!(),
        }
    }

    /// Adds the peer of these settings, with a gateway that starts with this restart counter (TS 23.007 18), and
    /// returns its place. `Memory` if an allocation was refused.
    pub fn add(
        &mut self,
        alloc: Global,
        role: Role,
        config: &Config,
        counter: Counter,
    ) -> Result<usize, Memory>
        ensures added { OnOk result
            (peers_of self.new ≡ with_peer role config.now counter.0 (peers_of self.old)) }
        ensures place { IfOk result (λ place. place ≡ length (peers_of self.old).gateways) }
        ensures err { OnErr result (peers_of self.new ≡ peers_of self.old) }
    {
        if self.gateways.try_reserve(1).is_err() {
            return Err(Memory);
        }
        self.enter(config.peer())?;
        match Gateway::start(alloc, role, config, counter) {
            Ok(gateway) => self.put(gateway),
            Err(_) => {
                self.leave();
                Err(Memory)
            }
        }
    }

    /// The place of the first peer that has this address on the plane. Takes time that grows with the logarithm of
    /// their number, and no memory.
    pub fn place_of(&self, plane: Plane, address: &Ip) -> Option<usize>
        ensures some { IfSome result (IsFirstAt (addresses_on plane (peers_of self.now)) address.now) }
        ensures none { IfNone result (NoneHas (addresses_on plane (peers_of self.now)) address.now) }
    {
        match plane {
            Plane::Control => self.control.place_of(address),
            Plane::User => self.user.place_of(address),
        }
    }

    /// Takes a datagram: the gateway of the first peer that has the address of the source receives it, and all others
    /// stay as they are. Of no peer, nothing is done, and there is no answer. `Memory` if an allocation was refused.
    pub fn receive<'a>(
        &mut self,
        alloc: Global,
        source: Endpoint,
        plane: Plane,
        octets: &'a [u8],
    ) -> Result<Option<Routed<'a>>, Memory>
        ensures routed { IfOk result (λ routed.
            IsRouted plane source octets.now (peers_of self.old) routed (peers_of self.new)) }
        // Memory can run out only for a datagram of a peer: one of no peer is dropped whether or not there is memory.
        ensures memory { IfErr result (λ _. PeerMayRunOut plane source octets.now (peers_of self.old)) }
        ensures err { OnErr result (peers_of self.new ≡ peers_of self.old) }
    {
        let Some(place) = self.place_of(plane, &source.ip) else {
            return Ok(None);
        };
        let Some(gateway) = self.gateways.get_mut(place) else {
            return Ok(None);
        };
        match gateway.receive(alloc, source, plane, octets) {
            Ok(step) => Ok(Some(Routed { place, step })),
            Err(fault) => Err(fault),
        }
    }
}
