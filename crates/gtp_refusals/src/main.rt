//! What the libraries leave when an allocation is refused. `tests/refused/check` refuses each allocation of this program
//! in turn, from outside. A run, a report, a datagram that is decoded or encoded must then leave everything as before, and
//! succeed when the call is made again, or the run goes on. Any other refused allocation ends the program.
//!
//! The scenario is on standard input. Standard output has the report of its run, and in hexadecimal the datagrams of a
//! session and a dedicated bearer. Exit status: 0 if nothing was refused; 3 if an allocation was refused
//! and everything was as it must be, and standard error tells where the run ended, if it ended early; 1 if something was
//! not as it must be, which standard error names.
#![tactic(auto)]

mod codec;
mod runs;
mod stop;
mod trial;

use crate::codec::put_datagrams;
use crate::runs::report_of_run;
use crate::stop::Stop;
use crate::trial::{Early, Trial};
use gtp_scenario::{Scenario, events_of, read_scenario};
use std::alloc::Global;
use std::io::{self, Write};
use std::process::ExitCode;

/// The scenario on standard input.
fn scenario<R: Input + AllocGlobal>(rt: &R, alloc: Global) -> Result<Scenario, Stop> {
    let text = io::read_to_string(alloc, rt.reader()).map_err(|_| Stop::Refused)?;
    read_scenario(alloc, text.as_bytes()).map_err(Stop::from)
}

/// The report of the run of a scenario, and the datagrams.
fn output_of(trial: &mut Trial, scenario: &Scenario) -> Result<Vec<u8>, Stop> {
    let events = events_of(trial.alloc, &scenario.entries).map_err(|_| Stop::Refused)?;
    let report = report_of_run(trial, &scenario.config, &events);
    drop(events);
    let mut text = report?;
    put_datagrams(&mut text, trial)?;
    Ok(text)
}

/// Prints the output.
fn run<R: Print + Input + AllocGlobal>(rt: &R) -> Result<Trial, Stop> {
    let mut trial = Trial::new(rt.alloc());
    let scenario = scenario(rt, trial.alloc)?;
    let output = output_of(&mut trial, &scenario);
    drop(scenario);
    io::writer(rt)
        .write_all(&output?)
        .map_err(|_| Stop::Wrong("standard output"))?;
    Ok(trial)
}

/// Tells where the run ended early.
fn tell<R: Eprint>(rt: &R, early: Early) {
    let _ = match early {
        Early::Start => eprintln!(rt; "the run ended at its start"),
        Early::At(at) => eprintln!(rt; "the run ended at event {at}"),
    };
}

/// The exit status, where everything was as it must be.
fn status<R: Eprint>(rt: &R, trial: &Trial) -> u8 {
    if let Some(early) = trial.early {
        tell(rt, early);
    }
    if trial.was_refused { 3 } else { 0 }
}

fn main(rt: HostRuntime) -> ExitCode {
    match run(&rt) {
        Ok(trial) => ExitCode::from(status(&rt, &trial)),
        Err(Stop::Refused) => ExitCode::from(3),
        Err(Stop::Wrong(what)) => {
            let _ = eprintln!(rt; "not as it must be: {what}");
            ExitCode::from(1)
        }
    }
}
