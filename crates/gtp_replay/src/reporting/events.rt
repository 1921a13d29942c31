//! The lines of events.

ghost use Rattle.std.specs.Prelude.{◌≡◌, ◌+◌, ◌<◌, ◌^◌, ◌++◌, OnOk, map, option_map, length};
ghost use Rattle.std.specs.List.{flat_map, enumerate_from};
ghost use Rattle.gtp_reliable.specs.Forgotten.{question_of};
ghost use Rattle.gtp_gateway.specs.Tick.{asked_by, arrivals_of};
ghost use Rattle.gtp_world.specs.Events.{event_of};
ghost use Rattle.gtp_world.specs.Record.{sent_by, told_by};
ghost use Rattle.gtp_replay.specs.Events.{second_text, learned_text, told_words, told_text, head_line, sent_line, gave_up_line, forgot_line, event_lines, events_text};

use gtp_gateway::{Counter, Outcome, Request, Seq};
use gtp_lines::text::{put, put_number, put_octets};
use gtp_outcomes::{first_word, outcome_word, plane_word, put_detail, put_outcome_detail};
use gtp_scenario::word_of;
use gtp_world::{Datagram, Event, Note};
use std::alloc::AllocError;

/// Appends the counter of a restart of the peer that was learned, if one was.
#[tactic(auto, using(crate::proofs::Appends::appending))]
fn put_learned(out: &mut Vec<u8>, restart: Option<Counter>) -> Result<(), AllocError>
    ensures ok { OnOk result (out.new.items
        ≡ out.old.items ++ learned_text (option_map (λ c. c.0) restart)) }
{
    let Some(counter) = restart else {
        return Ok(());
    };
    put(out, b" restart ")?;
    put_number(out, u64::from(counter.0))
}

/// Appends what the second of two messages came to, where there was one.
#[tactic(auto, using(crate::proofs::Appends::appending))]
fn put_second(out: &mut Vec<u8>, second: Option<Outcome>) -> Result<(), AllocError>
    ensures ok { OnOk result (out.new.items ≡ out.old.items ++ second_text second) }
{
    let Some(outcome) = second else {
        return Ok(());
    };
    put(out, b" then ")?;
    put(out, outcome_word(outcome).as_bytes())?;
    put_outcome_detail(out, outcome)
}

/// Appends the words of the outcome of an event.
#[tactic(auto, using(crate::proofs::Appends::appending))]
pub(crate) fn put_told_words(out: &mut Vec<u8>, note: &Note) -> Result<(), AllocError>
    ensures ok { OnOk result (out.new.items ≡ out.old.items ++ told_words (told_by note.now)) }
{
    put(out, first_word(note.outcome).as_bytes())?;
    put_detail(out, note.outcome)?;
    put_second(out, note.second)?;
    put_learned(out, note.restart)
}

/// Appends these words, and ends the line.
#[tactic(auto, using(crate::proofs::Appends::appending))]
pub(crate) fn put_told(out: &mut Vec<u8>, note: &Note) -> Result<(), AllocError>
    ensures ok { OnOk result (out.new.items ≡ out.old.items ++ told_text (told_by note.now)) }
{
    put_told_words(out, note)?;
    put(out, b"\n")
}

/// Appends an event and its outcome.
#[tactic(auto, using(crate::proofs::Appends::appending))]
fn put_head(out: &mut Vec<u8>, place: usize, event: &Event, note: &Note) -> Result<(), AllocError>
    ensures ok { OnOk result (out.new.items
        ≡ out.old.items ++ head_line place (event_of event.now) (told_by note.now)) }
{
    put(out, b"event ")?;
    put_number(out, place as u64)?;
    put(out, b" ")?;
    put(out, word_of(event).as_bytes())?;
    put(out, b" ")?;
    put_told(out, note)
}

/// Appends a datagram that was sent, under its number.
#[tactic(auto, using(crate::proofs::Appends::appending))]
fn put_sent(out: &mut Vec<u8>, number: usize, datagram: &Datagram) -> Result<(), AllocError>
    ensures ok { OnOk result (out.new.items
        ≡ out.old.items ++ sent_line (number, sent_by datagram.now)) }
{
    put(out, b"  sent ")?;
    put_number(out, number as u64)?;
    put(out, b" ")?;
    put(out, plane_word(datagram.sent.plane).as_bytes())?;
    put(out, b" ")?;
    put_octets(out, datagram.sent.octets.as_slice())?;
    put(out, b"\n")
}

/// Appends datagrams that were sent, the first under this number.
fn put_all_sent(out: &mut Vec<u8>, first: usize, datagrams: &[Datagram]) -> Result<(), AllocError>
    requires { first + length datagrams.now < 2 ^ 64 }
    ensures ok { OnOk result (out.new.items ≡ out.old.items
        ++ flat_map sent_line (enumerate_from first (map sent_by datagrams.now))) }
{
    for (place, datagram) in datagrams.iter().enumerate() {
        put_sent(out, first + place, datagram)?;
    }
    Ok(())
}

/// Appends a request that was given up.
#[tactic(auto, using(crate::proofs::Appends::appending))]
fn put_gave_up(out: &mut Vec<u8>, seq: Seq) -> Result<(), AllocError>
    ensures ok { OnOk result (out.new.items ≡ out.old.items ++ gave_up_line seq) }
{
    put(out, b"  gave-up ")?;
    put_number(out, u64::from(seq.number()))?;
    put(out, b"\n")
}

/// Appends all requests that were given up.
fn put_all_gave_up(out: &mut Vec<u8>, gave_up: &[Seq]) -> Result<(), AllocError>
    ensures ok { OnOk result (out.new.items
        ≡ out.old.items ++ flat_map gave_up_line gave_up.now) }
{
    for seq in gave_up {
        put_gave_up(out, *seq)?;
    }
    Ok(())
}

/// Appends a request whose answer was forgotten.
#[tactic(auto, using(crate::proofs::Appends::appending))]
fn put_forgot(out: &mut Vec<u8>, request: &Request) -> Result<(), AllocError>
    ensures ok { OnOk result (out.new.items
        ≡ out.old.items ++ forgot_line (asked_by (question_of request.now))) }
{
    put(out, b"  forgot ")?;
    put_octets(out, request.octets.as_slice())?;
    put(out, b"\n")
}

/// Appends all requests whose answers were forgotten.
fn put_all_forgot(out: &mut Vec<u8>, forgotten: &[Request]) -> Result<(), AllocError>
    ensures ok { OnOk result (out.new.items
        ≡ out.old.items ++ flat_map forgot_line (arrivals_of forgotten.now)) }
{
    for request in forgotten {
        put_forgot(out, request)?;
    }
    Ok(())
}

/// Appends the lines of an event that sent these datagrams, the first under this number.
#[tactic(auto, using(crate::proofs::Appends::appending))]
fn put_event(
    out: &mut Vec<u8>,
    place: usize,
    event: &Event,
    note: &Note,
    first: usize,
    sent: &[Datagram],
) -> Result<(), AllocError>
    requires { first + length sent.now < 2 ^ 64 }
    ensures ok { OnOk result (out.new.items ≡ out.old.items ++ event_lines place
        (enumerate_from first (map sent_by sent.now)) (event_of event.now) (told_by note.now)) }
{
    put_head(out, place, event, note)?;
    put_all_sent(out, first, sent)?;
    put_all_gave_up(out, note.gave_up.as_slice())?;
    put_all_forgot(out, note.forgotten.as_slice())
}

/// Appends the lines of all events.
pub(crate) fn put_events(
    out: &mut Vec<u8>,
    events: &[Event],
    datagrams: &[Datagram],
    notes: &[Note],
) -> Result<(), AllocError>
    ensures ok { OnOk result (out.new.items ≡ out.old.items ++ events_text
        (map event_of events.now) (map sent_by datagrams.now) (map told_by notes.now)) }
{
    let mut next = 0;
    let mut rest = datagrams;
    for (place, (event, note)) in events.iter().zip(notes).enumerate() {
        let count = rest.len().min(note.sent);
        let (sent, others) = rest.split_at(count);
        put_event(out, place, event, note, next, sent)?;
        next += count;
        rest = others;
    }
    Ok(())
}
