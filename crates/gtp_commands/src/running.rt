//! Each command, carried out on what its words ask for.

ghost use Rattle.std.specs.Prelude.{◌≤◌, IfOk};

use crate::capturing::capture_file;
use crate::command::{Failure, command};
use crate::dumping::{dump_printed, interface_of};
use crate::explaining::{explain_code, explain_type};
use crate::flags::{
    capture_asked, dump_asked, plane_of, replay_form_asked, status_printed, type_of_word,
    type_written, unread_words,
};
use crate::hinting::{
    hint_of_context, hint_of_elsewhere, hint_of_octets, hint_of_version, hint_of_words,
};
use crate::replaying::replay_file;
use crate::serving::{gateway_printed, node_printed};
use crate::showing::{show, show_word};
use clap::ArgMatches;
use clap::error::ErrorKind;
use gtp_codes::parts;
use gtp_counted::Counted;
use gtp_interfaces::Interface;
use gtp_lines::Plane;
use gtp_names::all_names;
use std::alloc::Global;
use std::rt::{Env, Files};
use std::{env, io};

/// Prints the datagram of the arguments, or those of standard input for `-`, and returns the exit status.
fn decode<R: Print + Eprint + Input>(
    rt: &R,
    alloc: Global,
    asked: &ArgMatches,
) -> Result<u8, Failure>
    ensures { IfOk result (λ status. status ≤ 2) }
{
    let digits = asked.get_str("octets").unwrap_or("");
    let asked = match dump_asked(all_names(), asked) {
        Ok(asked) => asked,
        Err(failure) => return Err(failure),
    };
    if digits == "-" {
        return dump_printed(rt, alloc, asked);
    }
    if !matches!(asked.form, gtp_dump::Form::Lines) {
        let status = show_word(alloc, &mut Counted::new(io::writer(rt)), asked, digits)?;
        if status == 1 && interface_of(asked.form) == Interface::S5S8 {
            let _ = hint_of_elsewhere(rt, alloc, asked.plane, digits);
        }
        return Ok(status);
    }
    let plane = plane_of(asked.plane);
    let status = show(alloc, &mut Counted::new(io::writer(rt)), plane, digits)?;
    if status == 1 {
        let _ = hint_of_version(rt, alloc, plane, digits);
    }
    if status == 1 && plane == Plane::Control {
        let _ = hint_of_context(rt, alloc, digits);
        let _ = hint_of_octets(rt, alloc, digits);
    }
    if status == 1 {
        let _ = hint_of_elsewhere(rt, alloc, Some(plane), digits);
    }
    Ok(status)
}

/// Shows the capture of the arguments, and returns the exit status.
fn capture<R: Print + Eprint + Input + Files>(
    rt: &R,
    alloc: Global,
    asked: &ArgMatches,
) -> Result<u8, Failure>
    ensures { IfOk result (λ status. status ≤ 2) }
{
    let file = asked.get_str("file").unwrap_or("-");
    match capture_asked(all_names(), asked) {
        Ok(asked) => capture_file(rt, alloc, &asked, file),
        Err(failure) => Err(failure),
    }
}

/// Replays the scenario of the arguments, and returns the exit status.
fn replay<R: Print + Eprint + Input + Files>(
    rt: &R,
    alloc: Global,
    asked: &ArgMatches,
) -> Result<u8, Failure>
    ensures { IfOk result (λ status. status ≤ 2) }
{
    replay_file(
        rt,
        alloc,
        replay_form_asked(asked),
        asked.get_str("file").unwrap_or("-"),
    )
}

/// Explains a type by the word for what has it and by its number, and returns the exit status.
fn explain_typed<R: Print>(rt: &R, alloc: Global, word: &str, kind: &str) -> Result<u8, Failure>
    ensures { IfOk result (λ status. status ≤ 2) }
{
    let what = type_of_word(word).ok_or(Failure::BadCode)?;
    let kind = type_written(what, kind).ok_or(Failure::BadCode)?;
    let mut out = Counted::new(io::writer(rt));
    explain_type(alloc, &all_names(), what, kind, &mut out)
}

/// Explains the code or the type of the arguments, or all codes, and returns the exit status.
fn explain<R: Print>(rt: &R, alloc: Global, asked: &ArgMatches) -> Result<u8, Failure>
    ensures { IfOk result (λ status. status ≤ 2) }
{
    let word = asked.get_str("code");
    if let Some(kind) = asked.get_str("type") {
        return explain_typed(rt, alloc, word.unwrap_or(""), kind);
    }
    let mut out = Counted::new(io::writer(rt));
    explain_code(alloc, &parts(), word, &mut out)
}

/// Carries out the command of the arguments, and returns the exit status.
fn carry_out<R: Print + Eprint + Input + Files>(
    rt: &R,
    alloc: Global,
    matches: &ArgMatches,
) -> Result<u8, Failure>
    ensures { IfOk result (λ status. status ≤ 2) }
{
    match matches.subcommand() {
        Some(("decode", asked)) => decode(rt, alloc, asked),
        Some(("capture", asked)) => capture(rt, alloc, asked),
        Some(("replay", asked)) => replay(rt, alloc, asked),
        Some(("gateway", _)) => gateway_printed(rt, alloc),
        Some(("node", _)) => node_printed(rt, alloc),
        Some(("explain", asked)) => explain(rt, alloc, asked),
        _ => Ok(2),
    }
}

/// Carries out the command line of the environment: `decode`, `capture`, `replay`, `gateway`, `node` or `explain`. The exit status that
/// the program ends with, at most 2; or why the command ended early.
pub fn run<R: Print + Eprint + Input + Env + Files + AllocGlobal>(rt: &R) -> Result<u8, Failure>
    ensures { IfOk result (λ status. status ≤ 2) }
{
    let alloc: Global = rt.alloc();
    let words: Vec<String> = env::args(rt)
        .map_err(unread_words)?
        .collect(alloc)
        .map_err(|_| Failure::Memory)?;
    let command = command(alloc).map_err(|_| Failure::Memory)?;
    let matches = match command.try_get_matches_from(words.as_slice()) {
        Ok(matches) => matches,
        Err(error) if error.kind() == ErrorKind::OutOfMemory => return Err(Failure::Memory),
        Err(error) => {
            let status = status_printed(error.print(rt), error.use_stderr())?;
            if error.kind() == ErrorKind::UnknownArgument {
                let _ = hint_of_words(rt, &words);
            }
            return Ok(status);
        }
    };
    carry_out(rt, alloc, &matches)
}
