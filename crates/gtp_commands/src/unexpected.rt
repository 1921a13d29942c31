//! What standard error says of a run that did not come to what its scenario expects.

use gtp_scenario::{Entry, Scenario, read_scenario};
use std::alloc::Global;
use std::io;

/// The word that an event is expected to come to, by its number from 0; each entry has as many events as `times` says.
fn expected_of(entries: &[Entry], event: usize) -> Option<&str> {
    let mut before = 0_usize;
    for entry in entries {
        before = before.saturating_add(entry.times as usize);
        if event < before {
            return entry.expect.as_deref();
        }
    }
    None
}

/// The scenario of these octets, where memory suffices.
fn scenario_in(alloc: Global, octets: Option<&[u8]>) -> Option<Scenario> {
    read_scenario(alloc, octets?).ok()
}

/// Says which event of the scenario of these octets, of a file or of standard input, is the first that did not come to
/// what is expected of it.
pub fn hint_of_unmet<R: Eprint>(
    rt: &R,
    alloc: Global,
    name: &str,
    event: usize,
    octets: Option<&[u8]>,
) -> io::Result<()> {
    let Some(scenario) = scenario_in(alloc, octets) else {
        return Ok(());
    };
    match expected_of(&scenario.entries, event) {
        Some(word) => eprintln!(rt;
            "gtpshow: {name}: event {event} came to something else than {word:?}, which its entry expects"
        ),
        None => eprintln!(rt;
            "gtpshow: {name}: event {event} was refused, dropped or impossible, and its entry expects none of these"
        ),
    }
}
