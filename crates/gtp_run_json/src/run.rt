//! A run as JSON.

ghost use Rattle.std.specs.Prelude.{IfOk, map};
ghost use Rattle.gtp_world.specs.Events.{event_of};
ghost use Rattle.gtp_run_json.specs.Run.{IsRunJson, IsReadBack};

use crate::ending::end_line;
use crate::happened::put_events;
use gtp_values::Memory;
use gtp_world::{Event, World};
use std::alloc::Global;

/// A world in which these events happened, as JSON, in ASCII, an object a line: each event, with its outcome and what it
/// sent; then what stands at the end: the contexts, those that name each other and whether they agree, the packets that
/// were accepted and whether they are owed, and the number of late deliveries. `Memory` where an allocation was refused.
pub fn run_json(alloc: Global, events: &[Event], world: &World) -> Result<Vec<u8>, Memory>
    ensures text { IfOk result (λ text. IsRunJson (map event_of events.now) world.now text.items) }
    // A reader of JSON finds these objects in the lines.
    ensures reads_back { IfOk result (λ text.
        IsReadBack (map event_of events.now) world.now text.items) }
{
    let mut out = Vec::new(alloc);
    put_events(&mut out, alloc, events, world.datagrams(), world.outcomes())?;
    let end = end_line(alloc, world)?;
    out.extend_from_slice(&end)?;
    Ok(out)
}
