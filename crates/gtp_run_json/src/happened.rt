//! Events as JSON.

ghost use Rattle.std.specs.Prelude.{◌≡◌, ◌+◌, ◌<◌, ◌^◌, ◌++◌, OnOk, IfOk, map, option_map, length, codes, string_bytes};
ghost use Rattle.std.specs.List.{flat_map, enumerate_from};
ghost use Rattle.json.specs.Tree.{json_tokens};
ghost use Rattle.gtp_reliable.specs.Forgotten.{question_of};
ghost use Rattle.gtp_gateway.specs.Tick.{asked_by, arrivals_of};
ghost use Rattle.gtp_world.specs.Events.{event_of};
ghost use Rattle.gtp_world.specs.Record.{outcome_of, sent_by, told_by};
ghost use Rattle.gtp_outcomes.specs.Outcomes.{fault_word};
ghost use Rattle.gtp_json.specs.Tree.{number_of, line_of};
ghost use Rattle.gtp_json.specs.reading.Tokens.{written};
ghost use Rattle.gtp_run_json.specs.Run.{ReadsAsItself, AllRead};
ghost use Rattle.gtp_run_json.specs.Happened.{drop_members, outcome_details, outcome_members, event_details, came_members, second_members, learned_members, told_members, sent_json, sent_members, gave_up_members, forgot_json, forgot_members, head_members, left_members, event_json, events_json};

use crate::members::{put_some_number, put_some_word, put_teid};
use gtp_gateway::{Counter, DropReason, FaultName, Outcome, Request, Seq};
use gtp_json::Output;
use gtp_outcomes::{first_word, limit_word, outcome_word, plane_letter, plane_word};
use gtp_scenario::word_of;
use gtp_values::Teid;
use gtp_world::{Datagram, Event, EventOutcome, Note};
use itoa::Buffer;
use std::alloc::{AllocError, Global};

/// The code of a fault.
fn fault_string(alloc: Global, fault: FaultName) -> Result<String, AllocError>
    ensures { IfOk result (λ text. string_bytes text ≡ fault_word fault) }
{
    let mut number = Buffer::new();
    let mut text = String::new(alloc);
    text.push_str(plane_letter(fault.plane))?;
    text.push_str(number.format(u64::from(fault.number)))?;
    Ok(text)
}

/// Writes the fault of a datagram that is no message.
#[tactic(auto, using(gtp_json::proofs::Tokens::appending))]
fn put_fault(out: &mut Output, reason: DropReason) -> Result<(), AllocError>
    ensures ok { OnOk result (out.new ≡ out.old ++ written (drop_members reason)) }
{
    let DropReason::Undecodable(fault) = reason else {
        return Ok(());
    };
    let text = fault_string(out.alloc(), fault)?;
    out.string_member("fault", &text)
}

/// Writes what follows the first word of the outcome of a step.
#[tactic(auto, using(gtp_json::proofs::Tokens::appending))]
fn put_outcome_details(out: &mut Output, outcome: Outcome) -> Result<(), AllocError>
    ensures ok { OnOk result (out.new ≡ out.old ++ written (outcome_details outcome)) }
{
    match outcome {
        Outcome::Begun(Some(teid)) => put_teid(out, "teid", Teid(teid)),
        Outcome::Refused(refusal) => put_some_word(out, "limit", limit_word(refusal)),
        Outcome::Answered(cause) => out.number_member("cause", u64::from(cause)),
        Outcome::Rejected(cause) => out.number_member("cause", u64::from(cause)),
        Outcome::Dropped(reason) => put_fault(out, reason),
        _ => Ok(()),
    }
}

/// Writes the outcome of a step.
#[tactic(auto, using(gtp_json::proofs::Tokens::appending))]
fn put_outcome(out: &mut Output, outcome: Outcome) -> Result<(), AllocError>
    ensures ok { OnOk result (out.new ≡ out.old ++ written (outcome_members outcome)) }
{
    out.string_member("outcome", outcome_word(outcome))?;
    put_outcome_details(out, outcome)
}

/// Writes what follows the first word of the outcome of an event.
#[tactic(auto, using(gtp_json::proofs::Tokens::appending))]
fn put_event_details(out: &mut Output, outcome: EventOutcome) -> Result<(), AllocError>
    ensures ok { OnOk result
        (out.new ≡ out.old ++ written (event_details (outcome_of outcome))) }
{
    match outcome {
        EventOutcome::CameTo(outcome) => put_outcome_details(out, outcome),
        EventOutcome::Restarted(counter) => out.number_member("counter", u64::from(counter.0)),
        _ => Ok(()),
    }
}

/// Writes the outcome of an event.
#[tactic(auto, using(gtp_json::proofs::Tokens::appending))]
pub fn put_came(out: &mut Output, outcome: EventOutcome) -> Result<(), AllocError>
    ensures ok { OnOk result (out.new ≡ out.old ++ written (came_members (outcome_of outcome))) }
{
    out.string_member("outcome", first_word(outcome))?;
    put_event_details(out, outcome)
}

/// Writes what the second of two messages came to, where there was one.
#[tactic(auto, using(gtp_json::proofs::Tokens::nesting))]
pub fn put_second(out: &mut Output, second: Option<Outcome>) -> Result<(), AllocError>
    ensures ok { OnOk result (out.new ≡ out.old ++ written (second_members second)) }
{
    let Some(outcome) = second else {
        return Ok(());
    };
    out.key("then")?;
    out.begin_object()?;
    put_outcome(out, outcome)?;
    out.end_object()
}

/// Writes the counter of a restart of the peer that was learned, if one was.
pub fn put_learned(out: &mut Output, restart: Option<Counter>) -> Result<(), AllocError>
    ensures ok { OnOk result (out.new
        ≡ out.old ++ written (learned_members (option_map (λ c. c.0) restart))) }
{
    put_some_number(out, "restart", restart.map(|counter| u64::from(counter.0)))
}

/// Writes what an event came to.
#[tactic(auto, using(gtp_json::proofs::Tokens::appending))]
fn put_told(out: &mut Output, note: &Note) -> Result<(), AllocError>
    ensures ok { OnOk result (out.new ≡ out.old ++ written (told_members (told_by note.now))) }
{
    put_came(out, note.outcome)?;
    put_second(out, note.second)?;
    put_learned(out, note.restart)
}

/// Writes what happened, and what it came to.
#[tactic(auto, using(gtp_json::proofs::Tokens::appending))]
fn put_head(out: &mut Output, place: usize, event: &Event, note: &Note) -> Result<(), AllocError>
    ensures ok { OnOk result (out.new
        ≡ out.old ++ written (head_members place (event_of event.now) (told_by note.now))) }
{
    out.number_member("event", place as u64)?;
    out.string_member("do", word_of(event))?;
    put_told(out, note)
}

/// Writes a datagram that was sent, under its number.
#[tactic(auto, using(gtp_json::proofs::Tokens::nesting))]
fn put_datagram(out: &mut Output, number: usize, datagram: &Datagram) -> Result<(), AllocError>
    ensures ok { OnOk result (out.new
        ≡ out.old ++ json_tokens (sent_json (number, sent_by datagram.now))) }
{
    out.begin_object()?;
    out.number_member("datagram", number as u64)?;
    out.string_member("plane", plane_word(datagram.sent.plane))?;
    out.hex_member("octets", datagram.sent.octets.as_slice())?;
    out.end_object()
}

/// Writes datagrams that were sent, the first under this number.
fn put_all_datagrams(
    out: &mut Output,
    first: usize,
    datagrams: &[Datagram],
) -> Result<(), AllocError>
    requires { first + length datagrams.now < 2 ^ 64 }
    ensures ok { OnOk result (out.new ≡ out.old ++ flat_map json_tokens
        (map sent_json (enumerate_from first (map sent_by datagrams.now)))) }
{
    for (place, datagram) in datagrams.iter().enumerate() {
        put_datagram(out, first + place, datagram)?;
    }
    Ok(())
}

/// Writes the member of the datagrams that were sent.
#[tactic(auto, using(crate::proofs::Arrays::listing))]
fn put_sent(out: &mut Output, first: usize, datagrams: &[Datagram]) -> Result<(), AllocError>
    requires { first + length datagrams.now < 2 ^ 64 }
    ensures ok { OnOk result (out.new ≡ out.old
        ++ written (sent_members (enumerate_from first (map sent_by datagrams.now)))) }
{
    out.key("sent")?;
    out.begin_array()?;
    put_all_datagrams(out, first, datagrams)?;
    out.end_array()
}

/// Writes sequence numbers.
fn put_all_numbers(out: &mut Output, numbers: &[Seq]) -> Result<(), AllocError>
    ensures ok { OnOk result
        (out.new ≡ out.old ++ flat_map json_tokens (map number_of numbers.now)) }
{
    for seq in numbers {
        out.number(u64::from(seq.number()))?;
    }
    Ok(())
}

/// Writes the member of the requests that were given up.
#[tactic(auto, using(crate::proofs::Arrays::listing))]
pub fn put_gave_up(out: &mut Output, gave_up: &[Seq]) -> Result<(), AllocError>
    ensures ok { OnOk result (out.new ≡ out.old ++ written (gave_up_members gave_up.now)) }
{
    out.key("gave_up")?;
    out.begin_array()?;
    put_all_numbers(out, gave_up)?;
    out.end_array()
}

/// Writes the octets of requests.
fn put_all_requests(out: &mut Output, requests: &[Request]) -> Result<(), AllocError>
    ensures ok { OnOk result (out.new
        ≡ out.old ++ flat_map json_tokens (map forgot_json (arrivals_of requests.now))) }
{
    for request in requests {
        out.hex(request.octets.as_slice())?;
    }
    Ok(())
}

/// Writes the member of the requests whose answers were forgotten.
#[tactic(auto, using(crate::proofs::Arrays::listing))]
pub fn put_forgot(out: &mut Output, forgotten: &[Request]) -> Result<(), AllocError>
    ensures ok { OnOk result
        (out.new ≡ out.old ++ written (forgot_members (arrivals_of forgotten.now))) }
{
    out.key("forgot")?;
    out.begin_array()?;
    put_all_requests(out, forgotten)?;
    out.end_array()
}

/// Writes what an event left.
#[tactic(auto, using(gtp_json::proofs::Tokens::appending))]
fn put_left(
    out: &mut Output,
    note: &Note,
    first: usize,
    sent: &[Datagram],
) -> Result<(), AllocError>
    requires { first + length sent.now < 2 ^ 64 }
    ensures ok { OnOk result (out.new ≡ out.old ++ written
        (left_members (enumerate_from first (map sent_by sent.now)) (told_by note.now))) }
{
    put_sent(out, first, sent)?;
    put_gave_up(out, note.gave_up.as_slice())?;
    put_forgot(out, note.forgotten.as_slice())
}

/// The line of an event that sent these datagrams, the first under this number.
#[tactic(auto, using(gtp_json::proofs::Tokens::nesting))]
fn event_line(
    alloc: Global,
    place: usize,
    event: &Event,
    note: &Note,
    first: usize,
    sent: &[Datagram],
) -> Result<Vec<u8>, AllocError>
    requires { first + length sent.now < 2 ^ 64 }
    ensures text { IfOk result (λ text. text.items ≡ line_of (event_json place
        (enumerate_from first (map sent_by sent.now)) (event_of event.now) (told_by note.now))) }
    ensures reads_back { IfOk result (λ text. ReadsAsItself (event_json place
        (enumerate_from first (map sent_by sent.now)) (event_of event.now) (told_by note.now))) }
{
    let mut out = Output::new(alloc);
    out.begin_object()?;
    put_head(&mut out, place, event, note)?;
    put_left(&mut out, note, first, sent)?;
    out.end_object()?;
    out.into_line()
}

/// Appends the lines of all events.
pub fn put_events(
    out: &mut Vec<u8>,
    alloc: Global,
    events: &[Event],
    datagrams: &[Datagram],
    notes: &[Note],
) -> Result<(), AllocError>
    ensures ok { OnOk result (out.new.items ≡ out.old.items ++ flat_map line_of (events_json
        (map event_of events.now) (map sent_by datagrams.now) (map told_by notes.now))) }
    ensures reads_back { OnOk result (AllRead (events_json
        (map event_of events.now) (map sent_by datagrams.now) (map told_by notes.now))) }
{
    let mut next = 0;
    let mut rest = datagrams;
    for (place, (event, note)) in events.iter().zip(notes).enumerate() {
        let count = rest.len().min(note.sent);
        let (sent, others) = rest.split_at(count);
        let line = event_line(alloc, place, event, note, next, sent)?;
        out.extend_from_slice(&line)?;
        next += count;
        rest = others;
    }
    Ok(())
}
