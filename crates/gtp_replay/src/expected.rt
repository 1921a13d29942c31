//! Whether events had the outcomes that a scenario expects.

ghost use Rattle.std.specs.Prelude.{◌≡◌, ◌<◌, IfSome, length, map, option_map, string_bytes};
ghost use Rattle.gtp_world.specs.Record.{told_by};
ghost use Rattle.gtp_scenario.specs.Views.{entry as entry_view};
ghost use Rattle.gtp_replay.specs.Expected.{is_second_refused, told_is_met, unmet_among, first_unmet};

use gtp_gateway::Outcome;
use gtp_outcomes::{first_word, is_refused};
use gtp_scenario::Entry;
use gtp_world::{EventOutcome, Note};

/// Whether the second of two messages was dropped, where there was one.
fn is_second_refused(second: Option<Outcome>) -> bool
    ensures { result ≡ is_second_refused second }
{
    match second {
        None => false,
        Some(outcome) => is_refused(EventOutcome::CameTo(outcome)),
    }
}

/// Whether an outcome is expected: this first word, or else any that is no refusal.
fn is_met(expect: &Option<String>, note: &Note) -> bool
    ensures { result ≡ told_is_met (option_map (λ s. string_bytes s) expect.now)
        (told_by note.now) }
{
    match expect {
        None => !is_refused(note.outcome) && !is_second_refused(note.second),
        Some(word) => word.as_str() == first_word(note.outcome),
    }
}

/// The place of the first of these that is not expected.
fn unmet_among(expect: &Option<String>, notes: &[Note]) -> Option<usize>
    ensures value { result ≡ unmet_among (option_map (λ s. string_bytes s) expect.now)
        (map told_by notes.now) }
    ensures among { IfSome result (λ place. place < length notes.now) }
{
    notes.iter().position(|note| !is_met(expect, note))
}

/// The number of the first event that had not the outcome that its entry expects.
pub(crate) fn first_unmet(entries: &[Entry], notes: &[Note]) -> Option<usize>
    ensures { result ≡ first_unmet (map entry_view entries.now) (map told_by notes.now) }
{
    let mut rest = notes;
    for entry in entries {
        let before = notes.len() - rest.len();
        let count = rest.len().min(entry.times as usize);
        let (its, others) = rest.split_at(count);
        if let Some(place) = unmet_among(&entry.expect, its) {
            return Some(before + place);
        }
        rest = others;
    }
    None
}
