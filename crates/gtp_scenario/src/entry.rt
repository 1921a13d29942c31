//! Entries of the list of events.

ghost use Rattle.std.specs.Prelude.{Some, option_map, string_bytes};
ghost use Rattle.gtp_scenario.specs.Steps.{Gives};
ghost use Rattle.gtp_scenario.specs.Entries.{entry_of};
ghost use Rattle.gtp_scenario.specs.Trees.{view};
ghost use Rattle.gtp_scenario.specs.Views.{entry as entry_view};

use crate::event::event_named;
use crate::fault::Fault;
use crate::members::{number_or, text_at, text_if, within};
use crate::tree::Tree;
use gtp_world::Event;
use std::alloc::Global;

/// An event of a scenario.
#[derive(Debug, Drop)]
pub struct Entry {
    pub event: Event,
    /// How often the event happens: 1 to 1,000 for a tick, once for every other event.
    pub times: u32,
    /// The first word of the outcome that the event must have each time. `None`: any outcome but a refusal (G), a drop
    /// (X) or an impossible event (N).
    pub expect: Option<String>,
}

/// A text of our own.
pub(crate) fn copied(alloc: Global, text: Option<&str>) -> Result<Option<String>, Fault>
    ensures { Gives (option_map (λ s. string_bytes s)) result
        (Some (option_map (λ s. s.now) text.entry)) }
{
    match text {
        None => Ok(None),
        Some(text) => Ok(Some(String::from_str(alloc, text)?)),
    }
}

/// An entry that has all of its numbers.
#[tactic(auto, unfolding(crate::specs::Entries::entry_of))]
pub(crate) fn entry_of(alloc: Global, value: &Tree<'_, '_>) -> Result<Entry, Fault>
    ensures { Gives entry_view result (entry_of (view value.now)) }
{
    let word = text_at(value, "do").ok_or(Fault::Wrong)?;
    let event = event_named(alloc, word, value)?;
    let times = number_or(value, "times", 1).ok_or(Fault::Wrong)?;
    let times = within(1, 1000, times).ok_or(Fault::Wrong)?;
    let expect = text_if(value, "expect").ok_or(Fault::Wrong)?;
    let expect = copied(alloc, expect)?;
    Ok(Entry {
        event,
        times,
        expect,
    })
}
