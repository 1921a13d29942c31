//! Runs of a world that end early, and go on.

use crate::stop::Stop;
use crate::trial::{Early, Trial};
use gtp_replay::report;
use gtp_world::{Event, RunFault, World, WorldConfig};

/// The report of a world, which is made again if it was refused memory.
fn report_of(trial: &mut Trial, events: &[Event], world: Option<&World>) -> Result<Vec<u8>, Stop> {
    let world = world.ok_or(Stop::Wrong("a run that was made again"))?;
    if let Ok(text) = report(trial.alloc, events, world) {
        return Ok(text);
    }
    trial.was_refused = true;
    report(trial.alloc, events, world).map_err(|_| Stop::Wrong("a report that was made again"))
}

/// The world of a run of these events, in which nothing is refused.
fn fresh(trial: &Trial, config: &WorldConfig, events: &[Event]) -> Option<World> {
    World::run(trial.alloc, config, events).ok()
}

/// The report of that run.
fn fresh_report(
    trial: &mut Trial,
    config: &WorldConfig,
    events: &[Event],
) -> Result<Vec<u8>, Stop> {
    let world = fresh(trial, config, events);
    let report = report_of(trial, events, world.as_ref());
    drop(world);
    report
}

/// The world of a run of these events, which may end early.
fn first(trial: &mut Trial, config: &WorldConfig, events: &[Event]) -> Option<World> {
    match World::run(trial.alloc, config, events) {
        Ok(world) => Some(world),
        Err(RunFault::At { at, world }) => {
            trial.early = Some(Early::At(at));
            Some(world)
        }
        Err(RunFault::Start) => {
            trial.early = Some(Early::Start);
            None
        }
    }
}

/// Whether a world has the report of a run of the events before the one at which its run ended early.
fn is_as_before(
    trial: &mut Trial,
    config: &WorldConfig,
    past: &[Event],
    world: Option<&World>,
) -> Result<bool, Stop> {
    if trial.early.is_none() {
        return Ok(true);
    }
    trial.was_refused = true;
    if world.is_none() {
        return Ok(true);
    }
    let fresh = fresh_report(trial, config, past)?;
    report_of(trial, past, world).map(|text| text == fresh)
}

/// The world of a run that goes on with the rest of its events, or is made again if it had not begun.
fn gone_on(
    trial: &Trial,
    config: &WorldConfig,
    rest: &[Event],
    world: Option<World>,
) -> Option<World> {
    match world {
        Some(world) => world.resume(trial.alloc, rest).ok(),
        None => fresh(trial, config, rest),
    }
}

/// The report of the run of these events.
pub fn report_of_run(
    trial: &mut Trial,
    config: &WorldConfig,
    events: &[Event],
) -> Result<Vec<u8>, Stop> {
    let world = first(trial, config, events);
    let (past, rest) = events.split_at(trial.past(events.len()));
    let is_as_before = is_as_before(trial, config, past, world.as_ref());
    let world = gone_on(trial, config, rest, world);
    let report = report_of(trial, events, world.as_ref());
    drop(world);
    if is_as_before? {
        report
    } else {
        Err(Stop::Wrong("the world of a run that ended early"))
    }
}
