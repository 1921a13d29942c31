//! A run as a sequence diagram in plain text.

ghost use Rattle.std.specs.Prelude.{◌≡◌, ◌++◌, ◌-◌, OnOk, IfOk, map, length, replicate};
ghost use Rattle.gtp_world.specs.Events.{event_of};
ghost use Rattle.gtp_world.specs.Record.{sent_by, told_by};
ghost use Rattle.gtp_replay.specs.RowViews.{row_of};
ghost use Rattle.gtp_replay.specs.Rows.{rows_of};
ghost use Rattle.gtp_replay.specs.Diagram.{filled, place_text, no_place, marked, arrow, short_arrow, coming_text, counted, stands_at, mark_of, some_of, tick_label, event_label, event_end, IsLine, EachHas, IsDiagram};

use crate::labels::label;
use crate::reporting::put_told;
use crate::rows::{Coming, Row, rows_of};
use gtp_gateway::Role;
use gtp_lines::text::{put, put_number};
use gtp_scenario::word_of;
use gtp_values::Memory;
use gtp_world::{Event, Note, World};
use itoa::Buffer;
use std::alloc::{AllocError, Global};

/// The first line: which gateway has which line.
const HEAD: &[u8] =
    b"event  serving                                                     packet  outcome\n";

/// The column of the serving gateway's line, from 0.
const SERVING: usize = 7;

/// The column of the packet gateway's line.
const PACKET: usize = 72;

// ---- pieces of a line

/// Fills a line up to a column.
#[tactic(auto, using(crate::proofs::Pictures::filled_up, crate::proofs::Pictures::filled_over))]
fn fill(line: &mut Vec<u8>, column: usize, octet: u8) -> Result<(), AllocError>
    ensures ok { OnOk result (line.new.items ≡ filled column octet line.old.items) }
{
    if line.len() >= column {
        return Ok(());
    }
    line.resize(column, octet)
}

/// A line with the place of an event.
fn line_at(alloc: Global, place: usize) -> Result<Vec<u8>, AllocError>
    ensures { IfOk result (λ line. line.items ≡ place_text place) }
{
    let mut buffer = Buffer::new();
    let digits = buffer.format(place as u64);
    let mut line = Vec::new(alloc);
    fill(&mut line, 5usize.saturating_sub(digits.len()), b' ')?;
    put(&mut line, digits.as_bytes())?;
    fill(&mut line, SERVING, b' ')?;
    Ok(line)
}

/// A line without a place.
fn line_of_none(alloc: Global) -> Result<Vec<u8>, AllocError>
    ensures { IfOk result (λ line. line.items ≡ no_place) }
{
    let mut line = Vec::new(alloc);
    fill(&mut line, SERVING, b' ')?;
    Ok(line)
}

/// Appends a mark on the line of a gateway, and what it means.
#[tactic(auto, using(crate::proofs::Appends::appending))]
fn put_mark(line: &mut Vec<u8>, node: Role, mark: &[u8], label: &[u8]) -> Result<(), AllocError>
    ensures ok { OnOk result (line.new.items ≡ marked line.old.items node mark.now label.now) }
{
    match node {
        Role::Serving => {
            put(line, mark)?;
            put(line, b" ")?;
            put(line, label)?;
            fill(line, PACKET, b' ')?;
            put(line, b"|")
        }
        Role::Packet => {
            put(line, b"|")?;
            fill(line, (PACKET - 1).saturating_sub(label.len()), b' ')?;
            put(line, label)?;
            put(line, b" ")?;
            put(line, mark)
        }
    }
}

/// Appends an arrow from a gateway to the other.
#[tactic(auto, using(crate::proofs::Appends::appending))]
fn put_arrow(line: &mut Vec<u8>, from: Role, label: &[u8]) -> Result<(), AllocError>
    ensures ok { OnOk result (line.new.items ≡ arrow line.old.items from label.now) }
{
    match from {
        Role::Serving => {
            put(line, b"|--- ")?;
            put(line, label)?;
            put(line, b" ")?;
            fill(line, PACKET - 1, b'-')?;
            put(line, b">|")
        }
        Role::Packet => {
            put(line, b"|<-- ")?;
            put(line, label)?;
            put(line, b" ")?;
            fill(line, PACKET, b'-')?;
            put(line, b"|")
        }
    }
}

/// A line with an arrow that ends before the other gateway.
#[tactic(auto, using(crate::proofs::Appends::appending))]
fn short_arrow(alloc: Global, from: Role, label: &[u8]) -> Result<Vec<u8>, AllocError>
    ensures { IfOk result (λ line. line.items ≡ short_arrow from label.now) }
{
    let mut line = line_of_none(alloc)?;
    match from {
        Role::Serving => {
            put(&mut line, b"|--- ")?;
            put(&mut line, label)?;
            put(&mut line, b" ---x")?;
            fill(&mut line, PACKET, b' ')?;
            put(&mut line, b"|")?;
        }
        Role::Packet => {
            put(&mut line, b"|")?;
            fill(&mut line, (PACKET - 9).saturating_sub(label.len()), b' ')?;
            put(&mut line, b"x--- ")?;
            put(&mut line, label)?;
            put(&mut line, b" ---|")?;
        }
    }
    Ok(line)
}

// ---- words

/// Appends how a datagram comes, where that is not the first time, and whole.
#[tactic(auto, using(crate::proofs::Appends::appending))]
pub(crate) fn put_coming(label: &mut Vec<u8>, coming: Coming) -> Result<(), AllocError>
    ensures ok { OnOk result (label.new.items ≡ label.old.items ++ coming_text coming) }
{
    match coming {
        Coming::First => Ok(()),
        Coming::Again => put(label, b" (again)"),
        Coming::CutTo(size) => {
            put(label, b" (cut to ")?;
            put_number(label, size)?;
            put(label, b")")
        }
    }
}

/// A number and a word, in its plural where the number is not 1.
#[tactic(auto, using(crate::proofs::Appends::appending))]
pub(crate) fn counted(alloc: Global, count: usize, word: &[u8]) -> Result<Vec<u8>, AllocError>
    ensures { IfOk result (λ text. text.items ≡ counted count word.now) }
{
    let mut text = Vec::new(alloc);
    put_number(&mut text, count as u64)?;
    put(&mut text, b" ")?;
    put(&mut text, word)?;
    if count != 1 {
        put(&mut text, b"s")?;
    }
    Ok(text)
}

/// The gateway at whose line an event stands.
pub(crate) fn stands_at(event: &Event) -> Role
    ensures { result ≡ stands_at (event_of event.now) }
{
    match event {
        Event::Tick(node) | Event::Restart(node) => *node,
        _ => event.role().unwrap_or(Role::Serving),
    }
}

/// The mark of an event.
fn mark_of(event: &Event) -> &'static str
    ensures { result.now ≡ mark_of (event_of event.now) }
{
    match event {
        Event::Restart(_) => "#",
        Event::Tick(_) => "~",
        _ => "o",
    }
}

/// Appends how many there are, if there are some.
#[tactic(auto, using(crate::proofs::Appends::appending))]
fn put_some_of(label: &mut Vec<u8>, words: &[u8], count: usize) -> Result<(), AllocError>
    ensures ok { OnOk result (label.new.items ≡ label.old.items ++ some_of words.now count) }
{
    if count == 0 {
        return Ok(());
    }
    put(label, words)?;
    put_number(label, count as u64)
}

/// Appends what a tick did.
#[tactic(auto, using(crate::proofs::Appends::appending))]
fn put_tick(label: &mut Vec<u8>, note: &Note) -> Result<(), AllocError>
    ensures ok { OnOk result (label.new.items ≡ label.old.items ++ tick_label (told_by note.now)) }
{
    put(label, b"tick")?;
    put_some_of(label, b", sends again ", note.sent)?;
    put_some_of(label, b", gives up ", note.gave_up.len())?;
    put_some_of(label, b", forgets ", note.forgotten.len())
}

/// What an event is.
#[tactic(auto, using(crate::proofs::Appends::appending))]
pub(crate) fn event_label(alloc: Global, event: &Event, note: &Note) -> Result<Vec<u8>, AllocError>
    ensures { IfOk result (λ label. label.items ≡ event_label (event_of event.now) (told_by note.now)) }
{
    let mut label = Vec::new(alloc);
    match event {
        Event::Tick(_) => put_tick(&mut label, note)?,
        Event::Deliver(number) => {
            put(&mut label, b"deliver ")?;
            put_number(&mut label, *number)?;
        }
        Event::Cut { datagram, .. } => {
            put(&mut label, b"cut ")?;
            put_number(&mut label, *datagram)?;
        }
        _ => put(&mut label, word_of(event).as_bytes())?,
    }
    Ok(label)
}

/// Appends what an event came to, and ends the line.
#[tactic(auto, using(crate::proofs::Appends::appending))]
fn put_event_end(line: &mut Vec<u8>, event: &Event, note: &Note) -> Result<(), AllocError>
    ensures ok { OnOk result (line.new.items
        ≡ line.old.items ++ event_end (event_of event.now) (told_by note.now)) }
{
    match event {
        Event::Tick(_) => put(line, b"\n"),
        _ => {
            put(line, b"  ")?;
            put_told(line, note)
        }
    }
}

// ---- lines

/// The line of a row.
#[tactic(auto, using(crate::proofs::Appends::appending))]
fn line_of(alloc: Global, row: &Row<'_>) -> Result<Vec<u8>, AllocError>
    ensures { IfOk result (λ line. IsLine (row_of row.now) line.items) }
{
    match row {
        Row::Comes {
            place,
            number,
            datagram,
            coming,
            note,
        } => {
            let mut label = label(alloc, *number, datagram)?;
            put_coming(&mut label, *coming)?;
            let mut line = line_at(alloc, *place)?;
            put_arrow(&mut line, datagram.node, &label)?;
            put(&mut line, b"  ")?;
            put_told(&mut line, note)?;
            Ok(line)
        }
        Row::Lost { number, datagram } => {
            let label = label(alloc, *number, datagram)?;
            let mut line = short_arrow(alloc, datagram.node, &label)?;
            put(&mut line, b"  lost\n")?;
            Ok(line)
        }
        Row::Happens { place, event, note } => {
            let label = event_label(alloc, event, note)?;
            let mut line = line_at(alloc, *place)?;
            put_mark(
                &mut line,
                stands_at(event),
                mark_of(event).as_bytes(),
                &label,
            )?;
            put_event_end(&mut line, event, note)?;
            Ok(line)
        }
        Row::Idles { place, node, count } => {
            let label = counted(alloc, *count, b"tick")?;
            let mut line = line_at(alloc, *place)?;
            put_mark(&mut line, *node, b"~", &label)?;
            put(&mut line, b"\n")?;
            Ok(line)
        }
    }
}

/// The lines of rows, behind the head.
fn drawn(alloc: Global, rows: &[Row<'_>]) -> Result<Vec<u8>, AllocError>
    ensures { IfOk result (λ text. IsDiagram (map row_of rows.now) text.items) }
{
    let mut text = Vec::new(alloc);
    put(&mut text, HEAD)?;
    for row in rows {
        let line = line_of(alloc, row)?;
        put(&mut text, &line)?;
    }
    Ok(text)
}

/// The run of these events as a sequence diagram in plain text of at most 100 columns, or more where two messages come:
/// one line for each datagram that is delivered, with its number, names, TEID and outcome; one for each that is never
/// delivered; commands, restarts and ticks beside the line of their gateway. `Memory` if an allocation was refused.
pub fn diagram(alloc: Global, events: &[Event], world: &World) -> Result<Vec<u8>, Memory>
    ensures { IfOk result (λ text. IsDiagram
        (rows_of (map event_of events.now) world.now.log.datagrams world.now.log.notes) text.items) }
{
    let rows = rows_of(alloc, events, world)?;
    Ok(drawn(alloc, &rows)?)
}
