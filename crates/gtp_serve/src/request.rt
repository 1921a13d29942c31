//! The other lines: what is asked of the gateway.

ghost use Rattle.std.specs.Prelude.{◌≡◌, true, option_map, IfOk, IfSome};
ghost use Rattle.gtp_scenario.specs.Steps.{Gives};
ghost use Rattle.gtp_scenario.specs.Trees.{view};
ghost use Rattle.gtp_world.specs.Events.{event_of};
ghost use Rattle.gtp_serve.specs.Requests.{Receives, plane_of, plane_at, endpoint_of, source_at, octets_at, receive_of, lone, send_of, commanded, command_named, request_named, request_of, request_in};
ghost use Rattle.gtp_serve.specs.Requests.{Commands, Ticks, Lists};
ghost use Rattle.gtp_machine.specs.Input.{Send_echo};
ghost use Rattle.gtp_serve.specs.Views.{request_by};
ghost use Rattle.gtp_serve.specs.Asked.{IsAsked};

use crate::head::ip_at;
use gtp_gateway::{Endpoint, Plane, Role};
use gtp_scenario::{
    Fault, Tree, event_named, has, has_only, json_of, number_at, octets_of, payload_at, teid_at,
    text_at, value_at, within,
};
use gtp_world::Event;
use json::Scratch;
use std::alloc::Global;

/// What is asked of a gateway.
#[derive(Debug, Drop)]
pub enum Request {
    /// To do what a command says. Whichever gateway it names, it is this one's.
    Command(Event),
    /// To take a datagram.
    Receive {
        plane: Plane,
        source: Endpoint,
        octets: Vec<u8>,
    },
    /// To let a tick pass.
    Tick,
    /// To list its contexts.
    Contexts,
}

fn plane_of(text: &str) -> Option<Plane>
    ensures { result ≡ plane_of text.now }
{
    match text {
        "control" => Some(Plane::Control),
        "user" => Some(Plane::User),
        _ => None,
    }
}

#[tactic(auto, unfolding(crate::specs::Requests::plane_at))]
fn plane_at(value: &Tree<'_, '_>) -> Option<Plane>
    ensures { result ≡ plane_at (view value.now) }
{
    plane_of(text_at(value, "plane")?)
}

/// An address and a port.
#[tactic(auto, unfolding(crate::specs::Requests::endpoint_of))]
fn endpoint_of(value: &Tree<'_, '_>) -> Option<Endpoint>
    ensures { result ≡ endpoint_of (view value.now) }
{
    if !has_only(value, &["address", "port"]) {
        return None;
    }
    let ip = ip_at(value, "address")?;
    let port = within(0, 65_535, number_at(value, "port")?)?;
    Some(Endpoint {
        ip,
        port: port as u16,
    })
}

#[tactic(auto, unfolding(crate::specs::Requests::source_at))]
fn source_at(value: &Tree<'_, '_>) -> Option<Endpoint>
    ensures { result ≡ source_at (view value.now) }
{
    endpoint_of(&value_at(value, "from")?)
}

#[tactic(auto, unfolding(crate::specs::Requests::octets_at))]
fn octets_at(alloc: Global, value: &Tree<'_, '_>) -> Result<Vec<u8>, Fault>
    ensures { Gives (λ octets. octets.items) result (octets_at (view value.now)) }
{
    octets_of(alloc, text_at(value, "octets").ok_or(Fault::Wrong)?)
}

#[tactic(auto, unfolding(crate::specs::Requests::receive_of))]
pub(crate) fn receive_of(alloc: Global, value: &Tree<'_, '_>) -> Result<Request, Fault>
    ensures read { Gives request_by result (receive_of (view value.now)) }
    ensures asked { IfOk result IsAsked }
{
    if !has_only(value, &["do", "plane", "from", "octets"]) {
        return Err(Fault::Wrong);
    }
    let plane = plane_at(value).ok_or(Fault::Wrong)?;
    let source = source_at(value).ok_or(Fault::Wrong)?;
    let octets = octets_at(alloc, value)?;
    Ok(Request::Receive {
        plane,
        source,
        octets,
    })
}

/// A request that has no key of its own.
fn lone(request: Request, value: &Tree<'_, '_>) -> Result<Request, Fault>
    requires { IsAsked request }
    ensures read { Gives request_by result (lone (request_by request) (view value.now)) }
    ensures asked { IfOk result IsAsked }
{
    if !has_only(value, &["do"]) {
        return Err(Fault::Wrong);
    }
    Ok(request)
}

/// A packet is to be sent on a bearer.
#[tactic(auto, unfolding(crate::specs::Requests::send_of))]
fn send_of(alloc: Global, value: &Tree<'_, '_>) -> Result<Request, Fault>
    ensures read { Gives request_by result (send_of (view value.now)) }
    ensures asked { IfOk result IsAsked }
{
    if !has_only(value, &["do", "teid", "payload"]) {
        return Err(Fault::Wrong);
    }
    let bearer = teid_at(value).ok_or(Fault::Wrong)?;
    let payload = payload_at(alloc, value)?;
    Ok(Request::Command(Event::SendUser {
        node: Role::Serving,
        bearer,
        payload,
    }))
}

/// The command of an event that is one.
fn commanded(event: Event) -> Option<Request>
    ensures read { option_map request_by result ≡ commanded (event_of event) }
    ensures asked { IfSome result IsAsked }
{
    match event {
        Event::Tick(_) | Event::Deliver(_) | Event::Cut { .. } | Event::Restart(_) => None,
        event => Some(Request::Command(event)),
    }
}

/// A command as an event of a scenario says it.
#[tactic(auto, unfolding(crate::specs::Requests::command_named))]
fn command_named(alloc: Global, word: &str, value: &Tree<'_, '_>) -> Result<Request, Fault>
    ensures read { Gives request_by result (command_named word.now (view value.now)) }
    ensures asked { IfOk result IsAsked }
{
    if has(value, "expect") {
        return Err(Fault::Wrong);
    }
    commanded(event_named(alloc, word, value)?).ok_or(Fault::Wrong)
}

#[tactic(auto, unfolding(crate::specs::Requests::request_named))]
fn request_named(alloc: Global, word: &str, value: &Tree<'_, '_>) -> Result<Request, Fault>
    ensures read { Gives request_by result (request_named word.now (view value.now)) }
    ensures asked { IfOk result IsAsked }
{
    match word {
        "receive" => receive_of(alloc, value),
        "tick" => lone(Request::Tick, value),
        "contexts" => lone(Request::Contexts, value),
        "echo" => lone(Request::Command(Event::Echo(Role::Serving)), value),
        "send" => send_of(alloc, value),
        _ => command_named(alloc, word, value),
    }
}

#[tactic(auto, unfolding(crate::specs::Requests::request_of))]
pub(crate) fn request_of(alloc: Global, value: &Tree<'_, '_>) -> Result<Request, Fault>
    ensures read { Gives request_by result (request_of (view value.now)) }
    ensures asked { IfOk result IsAsked }
{
    let word = text_at(value, "do").ok_or(Fault::Wrong)?;
    request_named(alloc, word, value)
}

/// What a line asks: a JSON object with `do`, a word, and its keys, each once, and no other one. `receive` has `plane` (`control`
/// or `user`), `from` (an object with `address` and `port`) and `octets`; `send` has `teid` and `payload`; `echo`, `tick` and
/// `contexts` have none; `create_session`, `delete_session`, `create_bearer`, `delete_bearer`, `release_session` and
/// `end_marker` have those of the events of scenarios but `expect`. `Wrong` if the line is no such object, `Memory` if an
/// allocation was refused.
#[tactic(auto, unfolding(crate::specs::Requests::request_in))]
pub fn request_in(alloc: Global, line: &[u8]) -> Result<Request, Fault>
    ensures read { Gives request_by result (request_in line.now) }
    ensures asked { IfOk result IsAsked }
{
    let mut scratch = Scratch::new(alloc);
    let tape = json_of(alloc, line, &mut scratch)?;
    request_of(alloc, &Tree::root(&tape))
}
