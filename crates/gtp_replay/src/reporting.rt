//! The report of a world.

mod contexts;
mod events;
mod verdicts;

ghost use Rattle.std.specs.Prelude.{◌≡◌, ◌++◌, OnOk, IfOk, map};
ghost use Rattle.gtp_world.specs.Events.{event_of};
ghost use Rattle.gtp_replay.specs.Report.{late_line, IsReport};

use crate::reporting::contexts::put_contexts;
use crate::reporting::events::put_events;
use crate::reporting::verdicts::{put_all_mutual, put_all_taken};
pub(crate) use events::{put_told, put_told_words};
use gtp_gateway::Role;
use gtp_lines::text::{put, put_number};
use gtp_values::Memory;
use gtp_world::{Event, World};
use std::alloc::{AllocError, Global};

/// Appends the number of late deliveries.
#[tactic(auto, using(crate::proofs::Appends::appending))]
fn put_late(out: &mut Vec<u8>, late: usize) -> Result<(), AllocError>
    ensures ok { OnOk result (out.new.items ≡ out.old.items ++ late_line late) }
{
    put(out, b"late ")?;
    put_number(out, late as u64)?;
    put(out, b"\n")
}

/// The report of a world in which these events happened, in ASCII: the events, each with its outcome and what it sent;
/// the contexts at the end; those that name each other, and whether they agree; the packets that were accepted, and
/// whether they are owed; the number of late deliveries. `Memory` if an allocation was refused.
#[tactic(auto, using(crate::proofs::Appends::appending))]
pub fn report(alloc: Global, events: &[Event], world: &World) -> Result<Vec<u8>, Memory>
    ensures { IfOk result (λ text. IsReport (map event_of events.now) world.now text.items) }
{
    let mut out = Vec::new(alloc);
    put_events(&mut out, events, world.datagrams(), world.outcomes())?;
    put_contexts(&mut out, Role::Serving, world.gateway(Role::Serving))?;
    put_contexts(&mut out, Role::Packet, world.gateway(Role::Packet))?;
    put_all_mutual(&mut out, world)?;
    put_all_taken(&mut out, world)?;
    put_late(&mut out, world.late())?;
    Ok(out)
}
