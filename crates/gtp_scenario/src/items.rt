//! Lists of events, item by item.

ghost use Rattle.std.specs.Prelude.{◌≡◌, ◌<◌, ◌^◌, ◌≤◌, ◌++◌, ◌+◌, Some, map, take, length, IfOk, OnOk, option_map};
ghost use Rattle.gtp_world.specs.Runs.{Setup};
ghost use Rattle.gtp_scenario.specs.declared.name.Name.TheVariants as names;
ghost use Rattle.gtp_scenario.specs.Halts.{ReadsItem, ReadsList};
ghost use Rattle.gtp_scenario.specs.Named.{name_of, entry_about};
ghost use Rattle.gtp_scenario.specs.Past.{just_begun};
ghost use Rattle.gtp_scenario.specs.Scenarios.{count_in, one_within, whole_entry, named_entry, delivery_of, Follow, AreDelivered, IsReadBy, IsListRead};
ghost use Rattle.gtp_scenario.specs.Trees.{view, items_view};
ghost use Rattle.gtp_scenario.specs.Views.{entry as entry_view, past as past_view};

use crate::about::{delivery, entry_about, expected_of};
use crate::entry::{Entry, entry_of};
use crate::halt::{Halt, ItemFault, ListFault};
use crate::members::Items;
use crate::name::{BearerName, Name, SessionName, name_of};
use crate::past::Past;
use crate::tree::Tree;
use gtp_gateway::{Role, Teid};
use gtp_values::Memory;
use gtp_world::{Event, WorldConfig};
use std::alloc::Global;

/// The most events of a scenario; an entry counts as often as it happens.
const MOST_EVENTS: u32 = 100_000;

/// The entries that an item of the list comes to.
#[derive(Drop)]
struct Item {
    entries: Vec<Entry>,
    /// How many of the entries before it that had not happened, and then of its own, happened to read it.
    followed: usize,
}

/// An entry, if there is room for its events.
fn one_within(alloc: Global, room: u32, entry: Entry) -> Result<Vec<Entry>, ItemFault>
    ensures { ReadsItem (λ v. map entry_view v.items) result
        (λ reading. reading ≡ one_within room (entry_view entry)) }
{
    if entry.times > room {
        return Err(ItemFault::Halted(Halt::TooMany));
    }
    let mut entries = Vec::new(alloc);
    entries.push(entry)?;
    Ok(entries)
}

/// An entry that has all of its numbers.
#[tactic(auto, unfolding(crate::specs::Scenarios::whole_entry))]
fn whole_entry(alloc: Global, room: u32, value: &Tree<'_, '_>) -> Result<Vec<Entry>, ItemFault>
    ensures { ReadsItem (λ v. map entry_view v.items) result
        (λ reading. reading ≡ whole_entry room (view value.now)) }
{
    let entry = entry_of(alloc, value)?;
    one_within(alloc, room, entry)
}

/// The delivery of this datagram, if there is one.
#[tactic(auto, unfolding(crate::specs::Scenarios::named_entry))]
fn newest_entry(
    alloc: Global,
    room: u32,
    number: Option<u64>,
    value: &Tree<'_, '_>,
) -> Result<Vec<Entry>, ItemFault>
    ensures { ReadsItem (λ v. map entry_view v.items) result
        (λ reading. reading ≡ named_entry room number (delivery_of (view value.now))) }
{
    let number = number.ok_or(ItemFault::Halted(Halt::Nothing))?;
    let expect = expected_of(value).ok_or(ItemFault::Halted(Halt::Wrong))?;
    let entry = delivery(alloc, expect, number)?;
    one_within(alloc, room, entry)
}

/// The entry about the session or bearer with this TEID, if there is one.
#[tactic(auto, unfolding(crate::specs::Scenarios::named_entry))]
fn context_entry(
    alloc: Global,
    room: u32,
    teid: Option<Teid>,
    value: &Tree<'_, '_>,
) -> Result<Vec<Entry>, ItemFault>
    ensures { ReadsItem (λ v. map entry_view v.items) result (λ reading. reading
        ≡ named_entry room teid (λ teid. entry_about teid (view value.now))) }
{
    let teid = teid.ok_or(ItemFault::Halted(Halt::Nothing))?;
    let entry = entry_about(alloc, teid, value)?;
    one_within(alloc, room, entry)
}

/// Delivers all that wait, until none does, if there is room for so many events.
fn deliver_all(
    alloc: Global,
    past: &mut Past,
    room: u32,
    expect: Option<&str>,
) -> Result<Vec<Entry>, ItemFault>
    ensures read { ReadsItem (λ v. map entry_view v.items) result
        (AreDelivered room (option_map (λ s. s.now) expect.entry) (past_view past.old)) }
    ensures followed { IfOk result (λ v.
        Follow (past_view past.old) (map entry_view v.items) (past_view past.new)) }
{
    let mut entries = Vec::new(alloc);
    while let Some(number) = past.first_waiting() {
        if entries.len() == room as usize {
            return Err(ItemFault::Halted(Halt::TooMany));
        }
        past.happen(alloc, &Event::Deliver(number))?;
        entries.push(delivery(alloc, expect, number)?)?;
    }
    Ok(entries)
}

/// The delivery of the datagram that was sent last.
fn read_newest(
    alloc: Global,
    past: &mut Past,
    pending: &[Entry],
    room: u32,
    value: &Tree<'_, '_>,
) -> Result<Vec<Entry>, ItemFault>
    ensures read { ReadsItem (λ v. map entry_view v.items) result
        (IsReadBy (Some names.Newest) (Follow (past_view past.old) (map entry_view pending.now))
        room (view value.now)) }
    ensures followed { OnOk result
        (Follow (past_view past.old) (map entry_view pending.now) (past_view past.new)) }
{
    past.follow(alloc, pending)?;
    newest_entry(alloc, room, past.newest(), value)
}

/// The deliveries of all that wait.
#[tactic(auto, using(crate::proofs::Happened::follow_on))]
fn read_all(
    alloc: Global,
    past: &mut Past,
    pending: &[Entry],
    room: u32,
    value: &Tree<'_, '_>,
) -> Result<Vec<Entry>, ItemFault>
    ensures read { ReadsItem (λ v. map entry_view v.items) result
        (IsReadBy (Some names.All) (Follow (past_view past.old) (map entry_view pending.now))
        room (view value.now)) }
    ensures followed { IfOk result (λ v. Follow (past_view past.old)
        (map entry_view pending.now ++ map entry_view v.items) (past_view past.new)) }
{
    let Some(expect) = expected_of(value) else {
        return Err(ItemFault::Halted(Halt::Wrong));
    };
    past.follow(alloc, pending)?;
    deliver_all(alloc, past, room, expect)
}

/// The entry about a session.
fn read_session(
    alloc: Global,
    past: &mut Past,
    pending: &[Entry],
    room: u32,
    node: Role,
    name: &SessionName,
    value: &Tree<'_, '_>,
) -> Result<Vec<Entry>, ItemFault>
    ensures read { ReadsItem (λ v. map entry_view v.items) result
        (IsReadBy (Some (names.Session node name.now))
        (Follow (past_view past.old) (map entry_view pending.now)) room (view value.now)) }
    ensures followed { OnOk result
        (Follow (past_view past.old) (map entry_view pending.now) (past_view past.new)) }
{
    past.follow(alloc, pending)?;
    context_entry(alloc, room, past.session(node, name), value)
}

/// The entry about a bearer.
fn read_bearer(
    alloc: Global,
    past: &mut Past,
    pending: &[Entry],
    room: u32,
    node: Role,
    name: &BearerName,
    value: &Tree<'_, '_>,
) -> Result<Vec<Entry>, ItemFault>
    ensures read { ReadsItem (λ v. map entry_view v.items) result
        (IsReadBy (Some (names.Bearer node name.now))
        (Follow (past_view past.old) (map entry_view pending.now)) room (view value.now)) }
    ensures followed { OnOk result
        (Follow (past_view past.old) (map entry_view pending.now) (past_view past.new)) }
{
    past.follow(alloc, pending)?;
    context_entry(alloc, room, past.bearer(node, name), value)
}

/// What an item comes to, where the entries `pending` before it have not happened in the past.
fn read_item(
    alloc: Global,
    past: &mut Past,
    pending: &[Entry],
    room: u32,
    value: &Tree<'_, '_>,
) -> Result<Item, ItemFault>
    ensures read { ReadsItem (λ item. map entry_view item.entries.items) result
        (IsReadBy (name_of (view value.now))
        (Follow (past_view past.old) (map entry_view pending.now)) room (view value.now)) }
    ensures within { IfOk result (λ item.
        item.followed ≤ length pending.now + length item.entries.items) }
    ensures followed { IfOk result (λ item. Follow (past_view past.old)
        (take item.followed (map entry_view pending.now ++ map entry_view item.entries.items))
        (past_view past.new)) }
{
    let followed = pending.len();
    match name_of(value) {
        None => Ok(Item {
            entries: whole_entry(alloc, room, value)?,
            followed: 0,
        }),
        Some(Name::Newest) => Ok(Item {
            entries: read_newest(alloc, past, pending, room, value)?,
            followed,
        }),
        Some(Name::All) => {
            let entries = read_all(alloc, past, pending, room, value)?;
            let followed = followed + entries.len();
            Ok(Item { entries, followed })
        }
        Some(Name::Session(node, name)) => Ok(Item {
            entries: read_session(alloc, past, pending, room, node, &name, value)?,
            followed,
        }),
        Some(Name::Bearer(node, name)) => Ok(Item {
            entries: read_bearer(alloc, past, pending, room, node, &name, value)?,
            followed,
        }),
    }
}

/// How many events entries have.
fn count_in(entries: &[Entry]) -> u32
    requires { count_in (map entry_view entries.now) < 2 ^ 32 }
    ensures { result ≡ count_in (map entry_view entries.now) }
{
    let mut count = 0;
    for entry in entries {
        count += entry.times;
    }
    count
}

/// The next place of a list.
fn after(place: usize) -> Result<usize, Memory>
    ensures { IfOk result (λ next. next ≡ place + 1) }
{
    // There is one: no list in memory has 2^64 items.
    place.checked_add(1).ok_or(Memory)
}

/// The entries of a list of events, where nothing has happened before.
fn entries_after(
    alloc: Global,
    past: &mut Past,
    mut values: Items<'_, '_>,
) -> Result<Vec<Entry>, ListFault>
    ensures { (setup : Setup) → past_view past.old ≡ just_begun setup
        → ReadsList (λ v. map entry_view v.items) result
        (IsListRead setup (items_view values.entry)) }
{
    let mut entries = Vec::new(alloc);
    let mut followed: usize = 0;
    let mut room = MOST_EVENTS;
    let mut place: usize = 0;
    while let Some(value) = values.next() {
        let read = read_item(alloc, past, &entries[followed..], room, &value);
        let mut item = match read {
            Ok(item) => item,
            Err(fault) => return Err(fault.at(place)),
        };
        followed += item.followed;
        room -= count_in(&item.entries);
        entries.append(&mut item.entries)?;
        place = after(place)?;
    }
    Ok(entries)
}

/// The entries of a list of events, and those that its names stand for.
pub(crate) fn entries_of(
    alloc: Global,
    config: &WorldConfig,
    values: Items<'_, '_>,
) -> Result<Vec<Entry>, ListFault>
    ensures { ReadsList (λ v. map entry_view v.items) result
        (IsListRead config.now (items_view values.entry)) }
{
    let mut past = Past::start(alloc, config)?;
    let entries = entries_after(alloc, &mut past, values);
    drop(past);
    entries
}
