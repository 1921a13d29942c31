//! What happened in a run, event by event.

ghost use Rattle.std.specs.Prelude.{◌≡◌, All, IfOk, map};
ghost use Rattle.gtp_world.specs.Events.{event_of};
ghost use Rattle.gtp_world.specs.Record.{told_by};
ghost use Rattle.gtp_replay.specs.Rows.{all_from};
ghost use Rattle.gtp_replay.specs.RowViews.{numbered, happened_of, IsNumbered};

use gtp_world::{Datagram, Event, Note};
use std::alloc::{AllocError, Global};

/// An event, and what it came to.
#[derive(Clone, Copy)]
pub(crate) struct Happened<'a> {
    pub(crate) event: &'a Event,
    pub(crate) note: &'a Note,
    /// The number of the first datagram that it sent.
    pub(crate) first: usize,
    /// The datagrams that it sent.
    pub(crate) sent: &'a [Datagram],
}

/// All events that have a note, each with the datagrams that it sent.
pub(crate) fn all_that_happened<'a>(
    alloc: Global,
    events: &'a [Event],
    datagrams: &'a [Datagram],
    notes: &'a [Note],
) -> Result<Vec<Happened<'a>>, AllocError>
    ensures all { IfOk result (λ all. map happened_of all.items ≡ all_from
        (numbered datagrams.now) (map event_of events.now) (map told_by notes.now)) }
    ensures each { IfOk result (λ all. All IsNumbered all.items) }
{
    let mut all = Vec::new(alloc);
    let mut next = 0;
    let mut rest = datagrams;
    for (event, note) in events.iter().zip(notes) {
        let count = rest.len().min(note.sent);
        let (sent, others) = rest.split_at(count);
        all.push(Happened {
            event,
            note,
            first: next,
            sent,
        })?;
        next += count;
        rest = others;
    }
    Ok(all)
}
