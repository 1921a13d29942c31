//! The words by which scenarios and reports name gateways and events.

ghost use Rattle.std.specs.Prelude.{◌≡◌};
ghost use Rattle.gtp_world.specs.Events.{event_of};
ghost use Rattle.gtp_scenario.specs.Words.{role_text, word_of};

use gtp_gateway::Role;
use gtp_world::Event;

/// The word for a gateway.
pub fn name_of(role: Role) -> &'static str
    ensures { result.now ≡ role_text role }
{
    match role {
        Role::Serving => "serving",
        Role::Packet => "packet",
    }
}

/// The word for what happens: the value of the key `do`.
pub fn word_of(event: &Event) -> &'static str
    ensures { result.now ≡ word_of (event_of event.now) }
{
    match event {
        Event::CreateSession(_) => "create_session",
        Event::DeleteSession(_) => "delete_session",
        Event::CreateBearer { .. } => "create_bearer",
        Event::DeleteBearer { .. } => "delete_bearer",
        Event::ReleaseSession(_) => "release_session",
        Event::EndMarker(_) => "end_marker",
        Event::Echo(_) => "echo",
        Event::SendUser { .. } => "send",
        Event::Tick(_) => "tick",
        Event::Deliver(_) => "deliver",
        Event::Cut { .. } => "cut",
        Event::Restart(_) => "restart",
    }
}
