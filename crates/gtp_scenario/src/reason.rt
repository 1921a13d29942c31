//! Why octets are no scenario: a second reading, which says what is wrong and where.

pub(crate) mod event;
pub(crate) mod flaw;
pub(crate) mod gateway;
pub(crate) mod head;
pub(crate) mod key;
pub(crate) mod kind;
pub(crate) mod not_json;
pub(crate) mod packet;
mod said;
pub(crate) mod template;
pub(crate) mod wanted;

ghost use Rattle.std.specs.Prelude.{◌≡◌, true, is_some, Some, None, IfOk, IfSome, option_map};
ghost use Rattle.serde_json.specs.Find.{get_item};
ghost use Rattle.gtp_scenario.specs.Reasons.{IsSo, IsSaid, IsEntryFlaw, IsEventAt, refusal_of, IsExplained};
ghost use Rattle.gtp_scenario.specs.Named.{name_of, IsRight};
ghost use Rattle.gtp_scenario.specs.reading.Halted.{IsHaltedIn, IsNothing, IsFlawFor};
ghost use Rattle.gtp_scenario.specs.Scenarios.{head_in, IsReadOn, IsReadIn, IsReading};
ghost use Rattle.gtp_scenario.specs.Trees.{view, items_view};
ghost use Rattle.gtp_scenario.specs.Views.{head as head_view};

use crate::fault::{Fault, Refusal};
use crate::halt::{Halt, Halted, ListFault};
use crate::head::events_at;
use crate::items::entries_of;
use crate::members::Items;
use crate::name::name_of;
use crate::reason::event::{EventFlaw, entry_flaw};
use crate::reason::head::{HeadFlaw, head_flaw};
use crate::reason::not_json::{JsonFlaw, json_flaw};
use crate::scenario::{Head, head_in, json_of};
use crate::tree::Tree;
use gtp_values::Memory;
use json::Scratch;
use std::alloc::Global;

/// Why octets are no scenario. `Display` gives a line of English, without characters that a terminal acts on: a key or
/// a word of the scenario is cut to 64 octets.
#[derive(Debug, Drop)]
pub enum Reason {
    /// They are no JSON.
    Json(JsonFlaw),
    /// Something is wrong beside the entries of `events`.
    Head(HeadFlaw),
    /// Something is wrong with the entry of `events` at this place, counted from 0.
    Event(usize, EventFlaw),
}

/// The item at a place of a list.
fn item_at<'t, 'a>(mut values: Items<'t, 'a>, place: usize) -> Option<Tree<'t, 'a>>
    ensures { option_map view result ≡ get_item place (items_view values.entry) }
{
    for _ in 0..place {
        values.next()?;
    }
    values.next()
}

/// That what an entry names is not there.
fn nothing_flaw(entry: &Tree<'_, '_>) -> EventFlaw
    requires { is_some (name_of (view entry.now)) ≡ true }
    ensures { IsNothing (view entry.now) result }
{
    match name_of(entry) {
        Some(name) => EventFlaw::Nothing(name),
        None => unreachable!(),
    }
}

/// What is wrong with an entry that is none.
fn wrong_flaw(alloc: Global, entry: &Tree<'_, '_>) -> Result<EventFlaw, Memory>
    requires { IsRight (view entry.now) → ⊥ }
    ensures { IfOk result (IsEntryFlaw (view entry.now)) }
{
    match entry_flaw(alloc, entry)? {
        Some(flaw) => Ok(flaw),
        None => unreachable!(),
    }
}

/// What is wrong with an entry at which reading the list of events stops so.
fn flaw_for(alloc: Global, halt: Halt, entry: &Tree<'_, '_>) -> Result<EventFlaw, Memory>
    requires named { halt ≡ Halt.Nothing → is_some (name_of (view entry.now)) ≡ true }
    requires wrong { halt ≡ Halt.Wrong → IsRight (view entry.now) → ⊥ }
    ensures { IfOk result (IsFlawFor halt (view entry.now)) }
{
    match halt {
        Halt::TooMany => Ok(EventFlaw::TooMany),
        Halt::Nothing => Ok(nothing_flaw(entry)),
        Halt::Wrong => wrong_flaw(alloc, entry),
    }
}

/// What is wrong with the entry at which reading the list of events stops.
fn event_flaw(alloc: Global, value: &Tree<'_, '_>, halted: Halted) -> Result<EventFlaw, Memory>
    requires { IsHaltedIn (view value.now) halted }
    ensures { IfOk result (IsEventAt (view value.now) halted.place) }
{
    let Some(values) = events_at(value) else {
        unreachable!()
    };
    let Some(entry) = item_at(values, halted.place) else {
        unreachable!()
    };
    let flaw = flaw_for(alloc, halted.halt, &entry)?;
    Ok(flaw)
}

/// What is wrong with a head that is none.
fn bad_head(alloc: Global, value: &Tree<'_, '_>) -> Result<Reason, Memory>
    requires { head_in (view value.now) ≡ None }
    ensures refusal { IfOk result (λ reason. refusal_of reason ≡ Refusal.Head) }
    ensures so { IfOk result (IsSaid (view value.now)) }
{
    match head_flaw(alloc, value)? {
        Some(flaw) => Ok(Reason::Head(flaw)),
        None => unreachable!(),
    }
}

/// Why the events after a head are none, if they are none.
fn list_reason(
    alloc: Global,
    value: &Tree<'_, '_>,
    head: Head<'_, '_>,
) -> Result<Option<Reason>, Memory>
    requires { head_in (view value.now) ≡ Some (head_view head) }
    ensures refusal { IfOk result (IsExplained (IsReadOn (head_view head.entry))) }
    ensures so { IfOk result (λ reason. IfSome reason (IsSaid (view value.now))) }
{
    let Head { config, values } = head;
    match entries_of(alloc, &config, values) {
        Ok(_) => Ok(None),
        Err(ListFault::Halted(halted)) => {
            let flaw = event_flaw(alloc, value, halted)?;
            Ok(Some(Reason::Event(halted.place, flaw)))
        }
        Err(ListFault::Memory) => Err(Memory),
    }
}

/// Why data are no scenario, if they are none.
#[tactic(auto, using(crate::proofs::Explaining::explains_head))]
fn data_reason(alloc: Global, value: &Tree<'_, '_>) -> Result<Option<Reason>, Memory>
    ensures refusal { IfOk result (IsExplained (IsReadIn (head_in (view value.now)))) }
    ensures so { IfOk result (λ reason. IfSome reason (IsSaid (view value.now))) }
{
    match head_in(alloc, value) {
        Ok(head) => list_reason(alloc, value, head),
        Err(Fault::Wrong) => Ok(Some(bad_head(alloc, value)?)),
        Err(Fault::Memory) => Err(Memory),
    }
}

/// Why octets are no scenario, and `None` where they are one. It reads them again, so call it only after
/// `read_scenario` has refused them. A `Json`, `Head` or `Event` has a reason of that kind, an `Event` at its place.
/// `Memory` if an allocation was refused.
///
/// Of several flaws it tells one; of the keys of an object that are missing or bad the first, in the order of
/// `docs/FORMATS.md`. Which of two kinds of flaw it tells, no clause says.
pub fn reason_of(alloc: Global, octets: &[u8]) -> Result<Option<Reason>, Memory>
    // There is a reason exactly where the octets are refused, and it is one for that refusal.
    ensures refusal { IfOk result (IsExplained (IsReading octets.now)) }
    // What it says of the octets is so.
    ensures so { IfOk result (λ reason. IfSome reason (IsSo octets.now)) }
{
    let mut scratch = Scratch::new(alloc);
    match json_of(alloc, octets, &mut scratch) {
        Ok(tape) => data_reason(alloc, &Tree::root(&tape)),
        Err(Fault::Wrong) => Ok(Some(Reason::Json(json_flaw(alloc, octets)?))),
        Err(Fault::Memory) => Err(Memory),
    }
}
