//! The rows of a diagram of a run, which are drawn as lines of text or as a picture.

ghost use Rattle.std.specs.Prelude.{◌≡◌, ◌++◌, ◌+◌, ◌<◌, ◌≤◌, ◌^◌, List, All, OnOk, IfOk, map, length, take, get_or, slice_get, option_map, false};
ghost use Rattle.std.specs.List.{flat_map};
ghost use Rattle.gtp_world.specs.Events.{event_of};
ghost use Rattle.gtp_world.specs.Record.{sent_by, told_by, outcome_of};
ghost use Rattle.gtp_replay.specs.Rows as spec;
ghost use Rattle.gtp_replay.specs.Rows.{Numbered, can_happen, number_in, brought_by, comes_by, coming_of, is_idle, ticks_at, idle_node, is_idle_at, idle_next, event_row, lost_rows, idle_rows, rows_at, rows_in, rows_of};
ghost use Rattle.gtp_replay.specs.RowViews.{numbered_from, numbered, happened_of, row_of, IsNumbered, AreFlags, marked};

use crate::happened::{Happened, all_that_happened};
use gtp_gateway::Role;
use gtp_world::{Datagram, Event, EventOutcome, Note, World};
use std::alloc::{AllocError, Global};

/// How a datagram comes.
#[derive(Clone, Copy)]
pub(crate) enum Coming {
    First,
    Again,
    /// So many of its first octets come.
    CutTo(u64),
}

/// A row of a diagram.
#[derive(Clone, Copy)]
pub(crate) enum Row<'a> {
    /// By the event at this place a datagram comes.
    Comes {
        place: usize,
        number: usize,
        datagram: &'a Datagram,
        coming: Coming,
        note: &'a Note,
    },
    /// A datagram never comes.
    Lost {
        number: usize,
        datagram: &'a Datagram,
    },
    /// Any other event at this place.
    Happens {
        place: usize,
        event: &'a Event,
        note: &'a Note,
    },
    /// So many ticks from this place on, in which nothing is done.
    Idles {
        place: usize,
        node: Role,
        count: usize,
    },
}

// ---- which datagrams come

/// Whether an event could happen.
fn can_happen(outcome: EventOutcome) -> bool
    ensures { result ≡ can_happen (outcome_of outcome) }
{
    !matches!(
        outcome,
        EventOutcome::NoSuchDatagram | EventOutcome::CutTooLong
    )
}

/// The number of the datagram that an event names.
fn number_in(event: &Event) -> Option<u64>
    ensures { result ≡ number_in (event_of event.now) }
{
    match event {
        Event::Deliver(number) => Some(*number),
        Event::Cut { datagram, .. } => Some(*datagram),
        _ => None,
    }
}

/// The datagram with a number, under it.
#[tactic(auto, using(crate::proofs::Flags::is_there, crate::proofs::Flags::is_nowhere))]
fn datagram_at(number: u64, datagrams: &[Datagram]) -> Option<(usize, &Datagram)>
    ensures { option_map (λ d. (d.0, sent_by d.1.now)) result ≡ slice_get (numbered datagrams.now) number }
{
    let number = number as usize;
    if number >= datagrams.len() {
        return None;
    }
    Some((number, &datagrams[number]))
}

/// The datagram that comes by an event.
fn brought_by<'a>(one: &Happened<'_>, datagrams: &'a [Datagram]) -> Option<(usize, &'a Datagram)>
    ensures { option_map (λ d. (d.0, sent_by d.1.now)) result
        ≡ brought_by (numbered datagrams.now) (happened_of one.now) }
{
    if !can_happen(one.note.outcome) {
        return None;
    }
    datagram_at(number_in(one.event)?, datagrams)
}

/// Whether a flag is there and set.
fn is_set(flags: &[bool], number: usize) -> bool
    ensures { result ≡ get_or flags.now number false }
{
    match flags.get(number) {
        Some(flag) => *flag,
        None => false,
    }
}

/// Sets the flag of a datagram that comes by an event, if one does.
fn mark(flags: &mut Vec<bool>, brought: Option<(usize, &Datagram)>)
    ensures { flags.new.items ≡ marked flags.old.items (option_map (λ d. (d.0, sent_by d.1.now)) brought.entry) }
{
    let Some((number, _)) = brought else {
        return;
    };
    if number < flags.len() {
        flags[number] = true;
    }
}

/// Which of these datagrams come at some time.
fn all_that_come<'a>(
    alloc: Global,
    all: &[Happened<'a>],
    datagrams: &'a [Datagram],
) -> Result<Vec<bool>, AllocError>
    ensures { IfOk result (λ flags.
        AreFlags (comes_by (numbered datagrams.now) (map happened_of all.now)) flags.items) }
{
    let mut comes = Vec::new(alloc);
    comes.resize(datagrams.len(), false)?;
    for one in all {
        mark(&mut comes, brought_by(one, datagrams));
    }
    Ok(comes)
}

/// How a datagram comes by an event, where it came before or not.
fn coming_of(event: &Event, again: bool) -> Coming
    ensures { result ≡ coming_of (event_of event.now) again }
{
    match event {
        Event::Cut { length, .. } => Coming::CutTo(*length),
        _ if again => Coming::Again,
        _ => Coming::First,
    }
}

// ---- ticks in which nothing is done

/// Whether nothing was sent, given up or forgotten.
fn is_idle(note: &Note) -> bool
    ensures { result ≡ is_idle (told_by note.now) }
{
    note.sent == 0 && note.gave_up.is_empty() && note.forgotten.is_empty()
}

/// The gateway of a tick.
fn ticks_at(event: &Event) -> Option<Role>
    ensures { result ≡ ticks_at (event_of event.now) }
{
    match event {
        Event::Tick(node) => Some(*node),
        _ => None,
    }
}

/// The gateway at which an event is a tick in which nothing is done.
fn idle_node(one: &Happened<'_>) -> Option<Role>
    ensures { result ≡ idle_node (happened_of one.now) }
{
    if is_idle(one.note) {
        ticks_at(one.event)
    } else {
        None
    }
}

/// Whether it is one at this gateway.
fn is_idle_at(node: Role, found: Option<Role>) -> bool
    ensures { result ≡ is_idle_at node found }
{
    matches!(
        (node, found),
        (Role::Serving, Some(Role::Serving)) | (Role::Packet, Some(Role::Packet))
    )
}

/// How many such ticks come next at this gateway, one after the other.
fn idle_next(node: Role, after: &[Happened<'_>]) -> usize
    ensures value { result ≡ idle_next node (map happened_of after.now) }
    ensures few { result ≤ length after.now }
{
    let mut count = 0;
    for one in after {
        if !is_idle_at(node, idle_node(one)) {
            return count;
        }
        count += 1;
    }
    count
}

// ---- rows

/// The row of an event, where these datagrams came before.
fn event_row<'a>(
    datagrams: &'a [Datagram],
    came: &[bool],
    place: usize,
    one: &Happened<'a>,
) -> Row<'a>
    ensures { (before : List spec.Happened) → AreFlags (comes_by (numbered datagrams.now) before) came.now →
        row_of result ≡ event_row (numbered datagrams.now) before place (happened_of one.now) }
{
    match brought_by(one, datagrams) {
        Some((number, datagram)) => Row::Comes {
            place,
            number,
            datagram,
            coming: coming_of(one.event, is_set(came, number)),
            note: one.note,
        },
        None => Row::Happens {
            place,
            event: one.event,
            note: one.note,
        },
    }
}

/// Appends the row of a datagram, if it never comes.
fn put_lost_row<'a>(
    rows: &mut Vec<Row<'a>>,
    comes: &[bool],
    number: usize,
    datagram: &'a Datagram,
) -> Result<(), AllocError>
    ensures ok { (datagrams : List Numbered) (all : List spec.Happened) → AreFlags (comes_by datagrams all) comes.now →
        OnOk result (map row_of rows.new.items ≡ map row_of rows.old.items
        ++ lost_rows datagrams all (number, sent_by datagram.now)) }
{
    if is_set(comes, number) {
        return Ok(());
    }
    rows.push(Row::Lost { number, datagram })?;
    Ok(())
}

/// Appends the rows of those datagrams that never come.
fn put_lost_rows<'a>(
    rows: &mut Vec<Row<'a>>,
    comes: &[bool],
    first: usize,
    sent: &'a [Datagram],
) -> Result<(), AllocError>
    requires { first + length sent.now < 2 ^ 64 }
    ensures ok { (datagrams : List Numbered) (all : List spec.Happened) → AreFlags (comes_by datagrams all) comes.now →
        OnOk result (map row_of rows.new.items ≡ map row_of rows.old.items
        ++ flat_map (lost_rows datagrams all) (numbered_from first sent.now)) }
{
    for (place, datagram) in sent.iter().enumerate() {
        put_lost_row(rows, comes, first + place, datagram)?;
    }
    Ok(())
}

/// Appends the row of ticks in which nothing is done, if this is the first of them.
fn put_idle_row<'a>(
    rows: &mut Vec<Row<'a>>,
    place: usize,
    last: Option<Role>,
    node: Role,
    after: &[Happened<'_>],
) -> Result<(), AllocError>
    ensures ok { OnOk result (map row_of rows.new.items ≡ map row_of rows.old.items
        ++ idle_rows place last node (map happened_of after.now)) }
{
    if is_idle_at(node, last) {
        return Ok(());
    }
    let count = 1 + idle_next(node, after);
    rows.push(Row::Idles { place, node, count })?;
    Ok(())
}

/// Appends the rows at a place, where the event before was an idle tick at the gateway `last`, and these come after it.
fn put_rows_at<'a>(
    rows: &mut Vec<Row<'a>>,
    datagrams: &'a [Datagram],
    comes: &[bool],
    came: &[bool],
    place: usize,
    last: Option<Role>,
    one: &Happened<'a>,
    after: &[Happened<'_>],
) -> Result<(), AllocError>
    requires { IsNumbered one.now }
    ensures ok { (all : List spec.Happened) → AreFlags (comes_by (numbered datagrams.now) all) comes.now →
        AreFlags (comes_by (numbered datagrams.now) (take place all)) came.now →
        OnOk result (map row_of rows.new.items ≡ map row_of rows.old.items
        ++ rows_at (numbered datagrams.now) all place last (happened_of one.now) (map happened_of after.now)) }
{
    match idle_node(one) {
        Some(node) => put_idle_row(rows, place, last, node, after),
        None => {
            rows.push(event_row(datagrams, came, place, one))?;
            put_lost_rows(rows, comes, one.first, one.sent)
        }
    }
}

/// The rows of all that happened.
fn rows_in<'a>(
    alloc: Global,
    datagrams: &'a [Datagram],
    all: &[Happened<'a>],
) -> Result<Vec<Row<'a>>, AllocError>
    requires { All IsNumbered all.now }
    ensures { IfOk result (λ rows. map row_of rows.items
        ≡ rows_in (numbered datagrams.now) (map happened_of all.now)) }
{
    let comes = all_that_come(alloc, all, datagrams)?;
    let mut came = Vec::new(alloc);
    came.resize(datagrams.len(), false)?;
    let mut rows = Vec::new(alloc);
    let mut last = None;
    for (place, one) in all.iter().enumerate() {
        let after = &all[place + 1..];
        put_rows_at(&mut rows, datagrams, &comes, &came, place, last, one, after)?;
        mark(&mut came, brought_by(one, datagrams));
        last = idle_node(one);
    }
    Ok(rows)
}

/// The rows of a run of these events, in their order.
pub(crate) fn rows_of<'a>(
    alloc: Global,
    events: &'a [Event],
    world: &'a World,
) -> Result<Vec<Row<'a>>, AllocError>
    ensures { IfOk result (λ rows. map row_of rows.items
        ≡ rows_of (map event_of events.now) world.now.log.datagrams world.now.log.notes) }
{
    let datagrams = world.datagrams();
    let all = all_that_happened(alloc, events, datagrams, world.outcomes())?;
    rows_in(alloc, datagrams, &all)
}
