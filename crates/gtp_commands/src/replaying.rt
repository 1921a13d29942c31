//! Replaying a scenario.

ghost use Rattle.std.specs.Prelude.{◌≡◌, ◌≢◌, ◌-◌, ◌^◌, ◌<◌, ◌≤◌, ℕ, Err, IfOk, IfErr, IfSome};
ghost use Rattle.std.specs.IoError.{error_kind};
ghost use Rattle.gtp_counted.specs.Counts.{inner_of, failures_of};
ghost use Rattle.gtp_replay.specs.Told.{HasNoCapture, Told};
ghost use Rattle.gtp_commands.specs.Status.{verdict_status};
ghost use Rattle.gtp_commands.specs.Replayed.{IsReplayed};
ghost use Rattle.gtp_commands.specs.Stops.{TellsReads, TellsWrites, StopsReplay};

use crate::command::Failure;
use crate::hinting::hint_of_scenario;
use crate::unexpected::hint_of_unmet;
use crate::watched_readers::Kept;
use gtp_counted::Counted;
use gtp_replay::{Form, Verdict, replay};
use std::alloc::Global;
use std::io::{ErrorKind, Read, Write};
use std::rt::Files;
use std::{fs, io};

/// The exit status of a replay.
fn status(verdict: Verdict) -> u8
    ensures { result ≡ verdict_status verdict }
{
    match verdict {
        Verdict::Expected => 0,
        Verdict::Unexpected { .. } => 1,
        Verdict::Bad => 2,
    }
}

/// Replays the scenario of a reader.
fn replay_from<I: Read, W: Write>(
    alloc: Global,
    form: Form,
    reader: &mut Counted<I>,
    writer: &mut Counted<W>,
) -> Result<Verdict, Failure>
    requires reads { failures_of reader.old < 2 ^ 64 - 1 }
    requires writes { failures_of writer.old < 2 ^ 64 - 1 }
    ensures replayed { IfOk result (λ verdict. IfSome (I.remaining (inner_of reader.old)) (λ octets.
        Told form octets verdict
        (W.contents (inner_of writer.old)) (W.contents (inner_of writer.new)))) }
    ensures reads { TellsReads result reader.old reader.new }
    ensures writes { TellsWrites result writer.old writer.new }
    ensures unread { result ≡ Err Failure.Read → writer.new ≡ writer.old }
    ensures memory { result ≡ Err Failure.Memory → writer.new ≡ writer.old }
    ensures no_packet { (number : ℕ) → result ≡ Err (Failure.NoPacket number)
        → (writer.new ≡ writer.old) × IfSome (I.remaining (inner_of reader.old)) (λ octets.
        HasNoCapture form octets number) }
    ensures kind { IfErr result StopsReplay }
{
    Ok(replay(alloc, form, reader, writer)?)
}

/// The error for a file that cannot be opened: no memory if that is its kind, and else a failed read.
pub fn unopened(error: io::Error) -> Failure
    ensures memory { error_kind error ≡ ErrorKind.OutOfMemory → result ≡ Failure.Memory }
    ensures read { error_kind error ≢ ErrorKind.OutOfMemory → result ≡ Failure.Read }
{
    match error.kind() {
        ErrorKind::OutOfMemory => Failure::Memory,
        _ => Failure::Read,
    }
}

/// Says on standard error why these octets are no scenario, or which event did not come to what is expected.
fn hint_of_verdict<R: Eprint>(
    rt: &R,
    alloc: Global,
    name: &str,
    verdict: Verdict,
    octets: Option<&[u8]>,
) -> io::Result<()> {
    match verdict {
        Verdict::Expected => Ok(()),
        Verdict::Unexpected { event } => hint_of_unmet(rt, alloc, name, event, octets),
        Verdict::Bad => hint_of_scenario(rt, alloc, name, octets),
    }
}

/// Replays the scenario of a reader, says on standard error why it is none, or which event did not come to what is expected, and
/// returns the exit status.
fn replay_told<R: Eprint, I: Read + Drop, W: Write>(
    rt: &R,
    alloc: Global,
    form: Form,
    name: &str,
    reader: I,
    writer: &mut Counted<W>,
) -> Result<u8, Failure>
    requires { failures_of writer.old < 2 ^ 64 - 1 }
    ensures replayed { IfOk result (λ status. IfSome (I.remaining reader) (λ octets.
        IsReplayed form octets (W.contents (inner_of writer.old))
        (W.contents (inner_of writer.new)) status)) }
    ensures small { IfOk result (λ status. status ≤ 2) }
    ensures writes { TellsWrites result writer.old writer.new }
    ensures unread { result ≡ Err Failure.Read → writer.new ≡ writer.old }
    ensures memory { result ≡ Err Failure.Memory → writer.new ≡ writer.old }
    ensures kind { IfErr result StopsReplay }
{
    let mut reader = Counted::new(Kept::new(alloc, reader));
    let verdict = replay_from(alloc, form, &mut reader, writer)?;
    let kept = reader.into_inner();
    let _ = hint_of_verdict(rt, alloc, name, verdict, kept.octets());
    Ok(status(verdict))
}

/// Replays the scenario of this file, or of standard input for `-`, and returns the exit status.
pub fn replay_file<R: Print + Eprint + Input + Files>(
    rt: &R,
    alloc: Global,
    form: Form,
    name: &str,
) -> Result<u8, Failure>
    ensures { IfOk result (λ status. status ≤ 2) }
{
    let mut writer = Counted::new(io::writer(rt));
    if name == "-" {
        return replay_told(rt, alloc, form, "standard input", rt.reader(), &mut writer);
    }
    let file = fs::open(rt, name).map_err(unopened)?;
    replay_told(rt, alloc, form, name, file, &mut writer)
}
