//! What a gateway answers to a request.

ghost use Rattle.std.specs.Prelude.{◌≡◌, true, IfOk};
ghost use Rattle.gtp_world.specs.Commands.{command_of, is_command};
ghost use Rattle.gtp_serve.specs.Answers.{Does};
ghost use Rattle.gtp_serve.specs.Served.{OrStays, IsLineOf, HasAnswer};
ghost use Rattle.gtp_serve.specs.Asked.{IsAsked};
ghost use Rattle.gtp_serve.specs.Requests.{Commands, Receives, Ticks};
ghost use Rattle.gtp_serve.specs.Views.{request_by};

use crate::reply::{begun_line, contexts_line, refused_line, step_line, ticked_line, word_line};
use crate::request::Request;
use gtp_gateway::{CommandFault, Endpoint, Gateway, Plane, Role};
use gtp_world::{Event, run_command};
use std::alloc::{AllocError, Global};

/// Lets the gateway do what a command says, and the line that answers it.
fn command_line(
    alloc: Global,
    peer: Option<usize>,
    gateway: &mut Gateway,
    event: &Event,
) -> Result<Vec<u8>, AllocError>
    requires { is_command event.now ≡ true }
    ensures answered { IfOk result (λ text. IsLineOf
        (OrStays (Does peer (Commands (command_of event.now)))) gateway.old gateway.new text.items) }
    ensures done { HasAnswer
        (OrStays (Does peer (Commands (command_of event.now)))) gateway.old gateway.new }
    ensures role { gateway.new.role ≡ gateway.old.role }
{
    match run_command(gateway, alloc, event) {
        Ok(begun) => begun_line(alloc, peer, event, &begun),
        Err(CommandFault::Refused(why)) => refused_line(alloc, peer, why),
        Err(CommandFault::Memory) => word_line(alloc, None, "no memory"),
    }
}

/// Lets the gateway take a datagram, and the line that answers it.
#[tactic(auto, using(crate::proofs::Roles::received_role))]
fn receive_line(
    alloc: Global,
    peer: Option<usize>,
    gateway: &mut Gateway,
    plane: Plane,
    source: Endpoint,
    octets: &[u8],
) -> Result<Vec<u8>, AllocError>
    ensures answered { IfOk result (λ text. IsLineOf
        (OrStays (Does peer (Receives plane source octets.now))) gateway.old gateway.new text.items) }
    ensures done { HasAnswer
        (OrStays (Does peer (Receives plane source octets.now))) gateway.old gateway.new }
    ensures role { gateway.new.role ≡ gateway.old.role }
{
    match gateway.receive(alloc, source, plane, octets) {
        Ok(step) => step_line(alloc, peer, &step),
        Err(_) => word_line(alloc, None, "no memory"),
    }
}

/// Lets a tick pass, and the line that answers it.
fn tick_line(
    alloc: Global,
    peer: Option<usize>,
    gateway: &mut Gateway,
) -> Result<Vec<u8>, AllocError>
    ensures answered { IfOk result (λ text. IsLineOf (OrStays (Does peer Ticks)) gateway.old gateway.new text.items) }
    ensures done { HasAnswer (OrStays (Does peer Ticks)) gateway.old gateway.new }
    ensures role { gateway.new.role ≡ gateway.old.role }
{
    match gateway.tick(alloc) {
        Ok(ticked) => ticked_line(alloc, peer, &ticked),
        Err(_) => word_line(alloc, None, "no memory"),
    }
}

/// Does what is asked of a gateway of this role, and the line that answers it, where it has the place of a peer, with that.
pub fn request_line(
    alloc: Global,
    peer: Option<usize>,
    role: Role,
    gateway: &mut Gateway,
    request: &Request,
) -> Result<Vec<u8>, AllocError>
    requires asked { IsAsked request.now }
    requires role { role ≡ gateway.old.role }
    ensures answered { IfOk result (λ text. IsLineOf
        (OrStays (Does peer (request_by request.now))) gateway.old gateway.new text.items) }
    ensures done { HasAnswer (OrStays (Does peer (request_by request.now))) gateway.old gateway.new }
    ensures role { gateway.new.role ≡ gateway.old.role }
{
    match request {
        Request::Command(event) => command_line(alloc, peer, gateway, event),
        Request::Receive {
            plane,
            source,
            octets,
        } => receive_line(alloc, peer, gateway, *plane, *source, octets.as_slice()),
        Request::Tick => tick_line(alloc, peer, gateway),
        Request::Contexts => contexts_line(alloc, peer, role, gateway),
    }
}
