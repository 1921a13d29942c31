//! The events of a scenario, each as often as its entry says.

ghost use Rattle.std.specs.Prelude.{◌≡◌, ◌++◌, map, replicate, IfOk, OnOk};
ghost use Rattle.std.specs.List.{flat_map};
ghost use Rattle.gtp_machine.specs.Input.{Send_user};
ghost use Rattle.gtp_machine.specs.World.{Does};
ghost use Rattle.gtp_world.specs.Events.{event_of};
ghost use Rattle.gtp_scenario.specs.Entries.{events_in};
ghost use Rattle.gtp_scenario.specs.Views.{entry as entry_view};

use crate::entry::Entry;
use gtp_gateway::{Role, Teid};
use gtp_values::Memory;
use gtp_world::Event;
use std::alloc::Global;

/// A copy of a packet that is handed in.
fn send_copy(alloc: Global, node: Role, bearer: Teid, payload: &[u8]) -> Result<Event, Memory>
    ensures { IfOk result (λ e. event_of e ≡ Does node (Send_user bearer payload.now)) }
{
    let payload = Vec::from_slice(alloc, payload)?;
    Ok(Event::SendUser {
        node,
        bearer,
        payload,
    })
}

/// A copy of an event.
fn copy_of(alloc: Global, event: &Event) -> Result<Event, Memory>
    ensures { IfOk result (λ e. event_of e ≡ event_of event.now) }
{
    Ok(match event {
        Event::CreateSession(spec) => Event::CreateSession(*spec),
        Event::DeleteSession(session) => Event::DeleteSession(*session),
        Event::CreateBearer { session, tft, qos } => Event::CreateBearer {
            session: *session,
            tft: *tft,
            qos: *qos,
        },
        Event::DeleteBearer { session, ebi } => Event::DeleteBearer {
            session: *session,
            ebi: *ebi,
        },
        Event::ReleaseSession(session) => Event::ReleaseSession(*session),
        Event::EndMarker(bearer) => Event::EndMarker(*bearer),
        Event::Echo(node) => Event::Echo(*node),
        Event::SendUser {
            node,
            bearer,
            payload,
        } => return send_copy(alloc, *node, *bearer, payload.as_slice()),
        Event::Tick(node) => Event::Tick(*node),
        Event::Deliver(datagram) => Event::Deliver(*datagram),
        Event::Cut { datagram, length } => Event::Cut {
            datagram: *datagram,
            length: *length,
        },
        Event::Restart(node) => Event::Restart(*node),
    })
}

/// Appends copies of an event.
fn push_copies(
    alloc: Global,
    events: &mut Vec<Event>,
    event: &Event,
    times: u32,
) -> Result<(), Memory>
    ensures { OnOk result (map event_of events.new.items
        ≡ map event_of events.old.items ++ replicate times (event_of event.now)) }
{
    for _ in 0..times {
        let copy = copy_of(alloc, event)?;
        events.push(copy)?;
    }
    Ok(())
}

/// The events of the entries in order, each as often as its entry says.
pub fn events_of(alloc: Global, entries: &[Entry]) -> Result<Vec<Event>, Memory>
    ensures events { IfOk result (λ v. map event_of v.items
        ≡ flat_map events_in (map entry_view entries.now)) }
{
    let mut events = Vec::new(alloc);
    for entry in entries {
        push_copies(alloc, &mut events, &entry.event, entry.times)?;
    }
    Ok(events)
}
