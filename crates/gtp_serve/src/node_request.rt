//! The other lines to a node: what is asked of it.

ghost use Rattle.std.specs.Prelude.{◌≡◌, option_map, IfOk, IfSome};
ghost use Rattle.gtp_scenario.specs.Steps.{Gives};
ghost use Rattle.gtp_scenario.specs.Trees.{view};
ghost use Rattle.gtp_serve.specs.NodeAnswers.{of_peer, routes, adds, node_request_named, node_request_of, node_request_in};
ghost use Rattle.gtp_serve.specs.NodeAsked.{IsNodeAsked};
ghost use Rattle.gtp_serve.specs.Views.{request_by, node_request_by};

use crate::node_head::peer_of;
use crate::request::{Request, receive_of, request_of};
use gtp_gateway::{Addresses, Endpoint, Plane};
use gtp_scenario::{Fault, Tree, has_only, json_of, number_at, text_at, value_at};
use json::Scratch;
use std::alloc::Global;

/// What is asked of a node.
#[derive(Debug, Drop)]
pub enum NodeRequest {
    /// Something of the gateway of the peer at a place.
    OfPeer {
        place: u64,
        request: Request,
    },
    /// To take a datagram.
    Route {
        plane: Plane,
        source: Endpoint,
        octets: Vec<u8>,
    },
    /// To add a peer.
    Add(Addresses),
}

/// A line to the gateway of a peer.
#[tactic(auto, unfolding(crate::specs::NodeAnswers::of_peer))]
fn of_peer(alloc: Global, value: &Tree<'_, '_>) -> Result<NodeRequest, Fault>
    ensures read { Gives node_request_by result (of_peer (view value.now)) }
    ensures asked { IfOk result IsNodeAsked }
{
    if !has_only(value, &["peer", "line"]) {
        return Err(Fault::Wrong);
    }
    let place = number_at(value, "peer").ok_or(Fault::Wrong)?;
    let line = value_at(value, "line").ok_or(Fault::Wrong)?;
    let request = request_of(alloc, &line)?;
    Ok(NodeRequest::OfPeer { place, request })
}

/// A datagram that goes to the gateway of its peer.
fn routes(request: Request) -> Option<NodeRequest>
    ensures read { option_map node_request_by result ≡ routes (request_by request) }
    ensures asked { IfSome result IsNodeAsked }
{
    match request {
        Request::Receive {
            plane,
            source,
            octets,
        } => Some(NodeRequest::Route {
            plane,
            source,
            octets,
        }),
        _ => None,
    }
}

/// A peer that is added.
#[tactic(auto, unfolding(crate::specs::NodeAnswers::adds))]
fn adds(value: &Tree<'_, '_>) -> Option<NodeRequest>
    ensures read { option_map node_request_by result ≡ adds (view value.now) }
    ensures asked { IfSome result IsNodeAsked }
{
    if !has_only(value, &["do", "peer"]) {
        return None;
    }
    let peer = peer_of(&value_at(value, "peer")?)?;
    Some(NodeRequest::Add(peer))
}

#[tactic(auto, unfolding(crate::specs::NodeAnswers::node_request_named))]
fn node_request_named(alloc: Global, word: &str, value: &Tree<'_, '_>) -> Result<NodeRequest, Fault>
    ensures read { Gives node_request_by result (node_request_named word.now (view value.now)) }
    ensures asked { IfOk result IsNodeAsked }
{
    match word {
        "receive" => routes(receive_of(alloc, value)?).ok_or(Fault::Wrong),
        "add" => adds(value).ok_or(Fault::Wrong),
        _ => Err(Fault::Wrong),
    }
}

#[tactic(auto, unfolding(crate::specs::NodeAnswers::node_request_of))]
fn node_request_of(alloc: Global, value: &Tree<'_, '_>) -> Result<NodeRequest, Fault>
    ensures read { Gives node_request_by result (node_request_of (view value.now)) }
    ensures asked { IfOk result IsNodeAsked }
{
    match text_at(value, "do") {
        None => of_peer(alloc, value),
        Some(word) => node_request_named(alloc, word, value),
    }
}

/// What a line asks of a node: a JSON object. `{"peer":PLACE,"line":LINE}` has a line to the gateway of the peer at that place, which
/// is one of `request_in`. `{"do":"receive",..}` is as there, and goes to the gateway of the peer that it comes from.
/// `{"do":"add","peer":{"control":ADDRESS,"user":ADDRESS}}` adds a peer. `Wrong` if the line is no such object, `Memory` if an
/// allocation was refused.
#[tactic(auto, unfolding(crate::specs::NodeAnswers::node_request_in))]
pub fn node_request_in(alloc: Global, line: &[u8]) -> Result<NodeRequest, Fault>
    ensures read { Gives node_request_by result (node_request_in line.now) }
    ensures asked { IfOk result IsNodeAsked }
{
    let mut scratch = Scratch::new(alloc);
    let tape = json_of(alloc, line, &mut scratch)?;
    node_request_of(alloc, &Tree::root(&tape))
}
