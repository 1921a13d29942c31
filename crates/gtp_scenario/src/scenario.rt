//! Scenarios: the settings of two gateways, and a list of events.

ghost use Rattle.std.specs.Prelude.{◌≡◌};
ghost use Rattle.gtp_scenario.specs.Steps.{Gives, ReadsAs};
ghost use Rattle.gtp_scenario.specs.Scenarios.{json_of, head_in, IsReading};
ghost use Rattle.gtp_scenario.specs.Trees.{view};
ghost use Rattle.gtp_scenario.specs.Views.{head as head_view, scenario as scenario_view};

use crate::entry::Entry;
use crate::fault::{Fault, ReadFault, Refusal};
use crate::halt::ListFault;
use crate::head::{events_at, setup_of};
use crate::items::entries_of;
use crate::members::Items;
use crate::tree::{Tree, tape_of};
use gtp_world::WorldConfig;
use json::{Scratch, Tape};
use std::alloc::Global;

/// The most octets of a scenario.
pub(crate) const MOST_OCTETS: usize = 16_777_216;

/// The settings of two gateways, and the entries of a list of events.
#[derive(Debug, Drop)]
pub struct Scenario {
    pub config: WorldConfig,
    /// The entries, in order: at most 100,000 events in all.
    pub entries: Vec<Entry>,
}

/// The value of a text of JSON (RFC 8259) of at most 16,777,216 octets.
#[tactic(auto, unfolding(crate::specs::Scenarios::json_of))]
pub fn json_of<'a>(
    alloc: Global,
    octets: &'a [u8],
    scratch: &'a mut Scratch,
) -> Result<Tape<'a>, Fault>
    ensures { Gives view result (json_of octets.now) }
{
    if octets.len() > MOST_OCTETS {
        return Err(Fault::Wrong);
    }
    match str::from_utf8(octets) {
        Ok(text) => tape_of(alloc, text, scratch),
        Err(_) => Err(Fault::Wrong),
    }
}

/// What is set up, and the list of events.
#[derive(Drop)]
pub struct Head<'t, 'a> {
    pub(crate) config: WorldConfig,
    pub(crate) values: Items<'t, 'a>,
}

#[tactic(auto, unfolding(crate::specs::Scenarios::head_in))]
pub(crate) fn head_in<'t, 'a>(alloc: Global, value: &Tree<'t, 'a>) -> Result<Head<'t, 'a>, Fault>
    ensures { Gives head_view result (head_in (view value.now)) }
{
    let config = setup_of(alloc, value)?;
    let values = events_at(value).ok_or(Fault::Wrong)?;
    Ok(Head { config, values })
}

/// Reads a scenario from its octets. They are refused with the first of these errors: `Json`, they are not JSON, or
/// more than 16,777,216 octets; `Head`, a key beside the entries of `events` is missing, unknown or has a bad value;
/// `Event`, an entry of `events` is bad, names what is not there, or is the first one past 100,000 events. `Memory` if
/// an allocation was refused.
pub fn read_scenario(alloc: Global, octets: &[u8]) -> Result<Scenario, ReadFault>
    ensures read { ReadsAs scenario_view result (IsReading octets.now) }
{
    let mut scratch = Scratch::new(alloc);
    let tape = json_of(alloc, octets, &mut scratch);
    let tape = tape.map_err(|fault| fault.refused(Refusal::Json))?;
    let head = head_in(alloc, &Tree::root(&tape));
    let Head { config, values } = head.map_err(|fault| fault.refused(Refusal::Head))?;
    match entries_of(alloc, &config, values) {
        Ok(entries) => Ok(Scenario { config, entries }),
        Err(ListFault::Halted(halted)) => Err(ReadFault::Refused(Refusal::Event(halted.place))),
        Err(ListFault::Memory) => Err(ReadFault::Memory),
    }
}
