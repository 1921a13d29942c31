//! Commands of a world.

ghost use Rattle.std.specs.Prelude.{◌≡◌, true, option_map, IfOk, OnErr};
ghost use Rattle.gtp_gateway.specs.command.Command.{IsCarriedOut, IsRefusedWhere, IsTimed, outcome_by};
ghost use Rattle.gtp_world.specs.Commands.{command_of, is_command};

use crate::event::Event;
use gtp_gateway::{Begun, CommandFault, Gateway, Outcome, Teid};
use std::alloc::Global;

/// Tells a gateway to do it.
pub fn run_command(
    gateway: &mut Gateway,
    alloc: Global,
    event: &Event,
) -> Result<Begun, CommandFault>
    requires { is_command event.now ≡ true }
    ensures done { IfOk result (λ begun.
        IsCarriedOut (command_of event.now) gateway.old begun gateway.new) }
    ensures timed { IfOk result (λ begun.
        IsTimed (command_of event.now) gateway.old begun gateway.new) }
    ensures refused { IsRefusedWhere (command_of event.now) gateway.old result }
    ensures err { OnErr result (gateway.new ≡ gateway.old) }
{
    match event {
        Event::CreateSession(spec) => gateway.create_session(alloc, spec),
        Event::DeleteSession(session) => gateway.delete_session(alloc, *session),
        Event::CreateBearer { session, tft, qos } => {
            gateway.create_bearer(alloc, *session, tft, qos)
        }
        Event::DeleteBearer { session, ebi } => gateway.delete_bearer(alloc, *session, *ebi),
        Event::ReleaseSession(session) => gateway.release_session(alloc, *session),
        Event::EndMarker(bearer) => gateway.end_marker(alloc, *bearer),
        Event::Echo(_) => gateway.echo(alloc),
        Event::SendUser {
            bearer,
            payload,
            ..
        } => gateway.send_user(alloc, *bearer, payload.as_slice()),
        Event::Tick(_) | Event::Deliver(_) | Event::Cut { .. } | Event::Restart(_) => {
            unreachable!()
        }
    }
}

/// What a command comes to where it is carried out, for this context.
pub fn outcome_of(event: &Event, teid: Option<Teid>) -> Outcome
    requires { is_command event.now ≡ true }
    ensures { result ≡ outcome_by (command_of event.now) teid }
{
    match event {
        Event::EndMarker(_) | Event::SendUser { .. } => Outcome::GoneOut,
        _ => Outcome::Begun(teid.map(|t| t.0)),
    }
}
