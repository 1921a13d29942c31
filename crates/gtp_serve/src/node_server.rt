//! A node behind lines.

ghost use Rattle.std.specs.Prelude.{◌≡◌, option_map, IfOk};
ghost use Rattle.gtp_json.specs.Tree.{line_of};
ghost use Rattle.gtp_node.specs.Routing.{peers_of, no_peers};
ghost use Rattle.gtp_serve.specs.Served.{OrStays, IsLineOf, HasAnswer};
ghost use Rattle.gtp_serve.specs.NodeAnswers.{NodeStarts, SaysNoNode, NodeDoes, DoesOfNode, OfPeer, Routes, Adds, with_peers, routed_json, HasRole};
ghost use Rattle.gtp_serve.specs.Asked.{IsAsked};
ghost use Rattle.gtp_serve.specs.NodeAsked.{IsNodeAsked};
ghost use Rattle.gtp_serve.specs.Views.{request_by, node_request_by};

use crate::answering::request_line;
use crate::node_head::{node_in, settings_in};
use crate::node_request::{NodeRequest, node_request_in};
use crate::reply::{not_peer_line, step_line, word_line};
use crate::request::Request;
use crate::server::Server;
use gtp_gateway::{Addresses, Config, Counter, Endpoint, Plane, Role};
use gtp_node::{Node, Routed};
use gtp_scenario::Fault;
use gtp_values::Memory;
use std::alloc::{AllocError, Global};
use std::marker::Model;

/// A node, with the line that it started by, the role of its gateways and its restart counter. Contracts see the peers.
#[derive(Drop)]
pub struct NodeServer {
    head: Vec<u8>,
    role: Role,
    counter: Counter,
    node: Node,
}

impl Model for NodeServer {
    ghost use Rattle.std.specs.Coded.{codes};
    ghost use Rattle.gtp_node.specs.Routing.{peers_of};
    ghost use Rattle.gtp_gateway.specs.contracts.gateway.Gateway.{the_row as gateway_row};
    ghost use Rattle.gtp_values.specs.contracts.address.Ip.{the_row as address_row};
    ghost use Rattle.gtp_machine.specs.contracts.role.Role.{the_row as role_row};
    ghost use Rattle.gtp_serve.specs.NodeAnswers.{NodeState, HasRole};

    ghost Value = { NodeState };

    ghost coded = { Prim.hlevel (codes, gateway_row.coded, address_row.coded, role_row.coded) };

    ghost view = { λ s. record {
      head = s.head.items;
      role = s.role;
      counter = s.counter.0;
      peers = peers_of s.node;
    } };

    ghost invariant = { λ s. HasRole s.role (peers_of s.node).gateways };
}

/// The node of these settings.
fn node_for(alloc: Global, role: Role, counter: Counter, configs: &[Config]) -> Result<Node, Memory>
    ensures peers { IfOk result (λ node.
        peers_of node ≡ with_peers role counter.0 configs.now no_peers) }
    ensures role { IfOk result (λ node. HasRole role (peers_of node).gateways) }
{
    let mut node = Node::new(alloc);
    let mut rest = configs;
    while let Some((config, behind)) = rest.split_first() {
        node.add(alloc, role, config, counter)?;
        rest = behind;
    }
    Ok(node)
}

/// The octets of a line, to be kept.
fn kept(alloc: Global, line: &[u8]) -> Result<Vec<u8>, AllocError>
    ensures { IfOk result (λ kept. kept.items ≡ line.now) }
{
    let mut kept = Vec::new(alloc);
    kept.extend_from_slice(line)?;
    Ok(kept)
}

/// The line of what a datagram came to.
fn routed_line(alloc: Global, routed: Option<&Routed<'_>>) -> Result<Vec<u8>, AllocError>
    ensures { IfOk result (λ text.
        text.items ≡ line_of (routed_json (option_map (λ r. r.now) routed.entry))) }
{
    match routed {
        Some(routed) => step_line(alloc, Some(routed.place), &routed.step),
        None => not_peer_line(alloc),
    }
}

impl NodeServer {
    /// Does what is asked of the gateway at a place, and the line that answers it.
    fn ask(&mut self, alloc: Global, place: u64, request: &Request) -> Result<Vec<u8>, AllocError>
        requires { IsAsked request.now }
        ensures answered { IfOk result (λ text. IsLineOf
            (OrStays (DoesOfNode (OfPeer place (request_by request.now)))) self.old self.new text.items) }
        ensures done { HasAnswer
            (OrStays (DoesOfNode (OfPeer place (request_by request.now)))) self.old self.new }
    {
        let place = place as usize;
        let Some(gateway) = self.node.gateways.get_mut(place) else {
            return word_line(alloc, None, "no peer");
        };
        request_line(alloc, Some(place), self.role, gateway, request)
    }

    /// Lets the gateway of its peer take a datagram, and the line that answers it.
    fn route(
        &mut self,
        alloc: Global,
        plane: Plane,
        source: Endpoint,
        octets: &[u8],
    ) -> Result<Vec<u8>, AllocError>
        ensures answered { IfOk result (λ text. IsLineOf
            (OrStays (DoesOfNode (Routes plane source octets.now))) self.old self.new text.items) }
        ensures done { HasAnswer
            (OrStays (DoesOfNode (Routes plane source octets.now))) self.old self.new }
    {
        let routed = match self.node.receive(alloc, source, plane, octets) {
            Ok(routed) => routed,
            Err(_) => return word_line(alloc, None, "no memory"),
        };
        routed_line(alloc, routed.as_ref())
    }

    /// Adds a peer, and the line that answers it.
    fn join(&mut self, alloc: Global, peer: Addresses) -> Result<Vec<u8>, AllocError>
        ensures answered { IfOk result (λ text. IsLineOf
            (OrStays (DoesOfNode (Adds peer))) self.old self.new text.items) }
        ensures done { HasAnswer (OrStays (DoesOfNode (Adds peer))) self.old self.new }
    {
        let place = self.node.gateways.len();
        let config = match settings_in(alloc, self.role, &self.head, peer, place) {
            Ok(config) => config,
            Err(Fault::Wrong) => return word_line(alloc, None, "no addresses"),
            Err(Fault::Memory) => return word_line(alloc, None, "no memory"),
        };
        match self.node.add(alloc, self.role, &config, self.counter) {
            Ok(place) => word_line(alloc, Some(place), "added"),
            Err(_) => word_line(alloc, None, "no memory"),
        }
    }

    /// Does what is asked, and the line that answers it.
    fn obey(&mut self, alloc: Global, request: &NodeRequest) -> Result<Vec<u8>, AllocError>
        requires { IsNodeAsked request.now }
        ensures answered { IfOk result (λ text. IsLineOf
            (OrStays (DoesOfNode (node_request_by request.now))) self.old self.new text.items) }
        ensures done { HasAnswer
            (OrStays (DoesOfNode (node_request_by request.now))) self.old self.new }
    {
        match request {
            NodeRequest::OfPeer { place, request } => self.ask(alloc, *place, request),
            NodeRequest::Route {
                plane,
                source,
                octets,
            } => self.route(alloc, *plane, *source, octets.as_slice()),
            NodeRequest::Add(peer) => self.join(alloc, *peer),
        }
    }
}

impl Server for NodeServer {
    ghost Starts = { NodeStarts };

    ghost SaysNone = { SaysNoNode };

    ghost Does = { NodeDoes };

    fn start(alloc: Global, line: &[u8]) -> Result<NodeServer, Fault> {
        let head = node_in(alloc, line)?;
        let Ok(node) = node_for(alloc, head.role, head.counter, &head.configs) else {
            return Err(Fault::Memory);
        };
        match kept(alloc, line) {
            Ok(line) => Ok(NodeServer {
                head: line,
                role: head.role,
                counter: head.counter,
                node,
            }),
            Err(_) => Err(Fault::Memory),
        }
    }

    fn answer(&mut self, alloc: Global, line: &[u8]) -> Result<Vec<u8>, AllocError> {
        match node_request_in(alloc, line) {
            Ok(request) => self.obey(alloc, &request),
            Err(Fault::Wrong) => word_line(alloc, None, "bad line"),
            Err(Fault::Memory) => word_line(alloc, None, "no memory"),
        }
    }
}
