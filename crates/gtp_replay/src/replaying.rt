//! Replays: from the octets of a scenario to those of a text of its run.

ghost use Rattle.std.specs.Prelude.{◌≡◌, ◌≢◌, ◌+◌, ◌-◌, ◌^◌, ◌<◌, ℕ, map, IfOk, IfErr, IfSome};
ghost use Rattle.gtp_world.specs.Events.{event_of};
ghost use Rattle.gtp_world.specs.Runs.{RanWhole};
ghost use Rattle.gtp_scenario.specs.Views.{scenario as scenario_view};
ghost use Rattle.gtp_replay.specs.Ran.{IsRan};
ghost use Rattle.gtp_counted.specs.Counts.{inner_of, failures_of};
ghost use Rattle.gtp_replay.specs.Streams.{ConsumesUpTo};
ghost use Rattle.gtp_replay.specs.Captures.{IsFirstWithoutPacket};
ghost use Rattle.gtp_replay.specs.Faults.{IsMemoryOr};
ghost use Rattle.gtp_replay.specs.Told.{refusal_line, verdict_on, IsText, TellsScenario, LacksPacket, Tells, HasNoCapture, Told, ToldFront};

use crate::capturing::capture;
use crate::drawing::diagram;
use crate::expected::first_unmet;
use crate::picture::svg;
use crate::reporting::report;
use crate::streams::{read_octets, write_octets};
use crate::verdict::{ReplayFault, Verdict};
use gtp_counted::Counted;
use gtp_lines::text::{put, put_number};
use gtp_run_json::run_json;
use gtp_scenario::{ReadFault, Refusal, Scenario, events_of, read_scenario};
use gtp_world::{Event, World, WorldConfig};
use std::alloc::Global;
use std::io::{Read, Write};

/// One octet more than a scenario may have.
const MOST_READ: usize = 16_777_217;

/// The line of a refusal.
#[tactic(auto, using(crate::proofs::Appends::appending))]
fn refusal_text(alloc: Global, refusal: Refusal) -> Result<Vec<u8>, ReplayFault>
    ensures text { IfOk result (λ text. text.items ≡ refusal_line refusal) }
    ensures err { IfErr result (λ e. e ≡ ReplayFault.Memory) }
{
    let mut text = Vec::new(alloc);
    match refusal {
        Refusal::Json => put(&mut text, b"bad json")?,
        Refusal::Head => put(&mut text, b"bad scenario head")?,
        Refusal::Event(place) => {
            put(&mut text, b"bad scenario event ")?;
            put_number(&mut text, place as u64)?;
        }
    }
    put(&mut text, b"\n")?;
    Ok(text)
}

/// What is written of a run.
#[derive(Clone, Copy, Debug, PartialEq, Eq)]
pub enum Form {
    /// The text of `report`.
    Report,
    /// The text of `diagram`.
    Diagram,
    /// The picture of `svg`.
    Svg,
    /// The packet capture of `capture`.
    Capture,
    /// The JSON of `run_json`.
    Json,
}

/// A run of a scenario: its events, and the world that they leave.
#[derive(Drop)]
struct Ran {
    events: Vec<Event>,
    world: World,
}

/// The world that these events of a scenario leave.
fn world_of(alloc: Global, config: &WorldConfig, events: &[Event]) -> Option<World>
    ensures { IfSome result (λ world. RanWhole config.now (map event_of events.now) world) }
{
    World::run(alloc, config, events).ok()
}

/// Runs a scenario.
fn run_scenario(alloc: Global, scenario: &Scenario) -> Result<Ran, ReplayFault>
    ensures ran { IfOk result (λ ran. IsRan (scenario_view scenario.now) ran) }
    ensures err { IfErr result (λ e. e ≡ ReplayFault.Memory) }
{
    let events = events_of(alloc, &scenario.entries)?;
    let Some(world) = world_of(alloc, &scenario.config, &events) else {
        return Err(ReplayFault::Memory);
    };
    Ok(Ran { events, world })
}

/// Whether each event of a scenario came to what is expected.
fn judged(scenario: &Scenario, world: &World) -> Verdict
    ensures { result ≡ verdict_on (scenario_view scenario.now) world.now }
{
    match first_unmet(&scenario.entries, world.outcomes()) {
        None => Verdict::Expected,
        Some(event) => Verdict::Unexpected { event },
    }
}

/// The text of a run: `NoPacket` of a capture alone.
fn text_of(alloc: Global, form: Form, ran: &Ran) -> Result<Vec<u8>, ReplayFault>
    ensures text { IfOk result (λ text. IsText form
        (map event_of ran.now.events.items) ran.now.world text.items) }
    ensures fault { IfErr result (λ e. IsMemoryOr e (λ number. (form ≡ Form.Capture)
        × IsFirstWithoutPacket ran.now.world.log.datagrams number)) }
{
    Ok(match form {
        Form::Report => report(alloc, &ran.events, &ran.world)?,
        Form::Diagram => diagram(alloc, &ran.events, &ran.world)?,
        Form::Svg => svg(alloc, &ran.events, &ran.world)?,
        Form::Capture => capture(alloc, &ran.world)?,
        Form::Json => run_json(alloc, &ran.events, &ran.world)?,
    })
}

/// The text of a run of a scenario, and whether each event came to what it expects.
fn told_of(
    alloc: Global,
    form: Form,
    scenario: &Scenario,
    ran: &Ran,
) -> Result<(Vec<u8>, Verdict), ReplayFault>
    ensures told { IsRan (scenario_view scenario.now) ran.now → IfOk result (λ p.
        TellsScenario form (scenario_view scenario.now) p.0.items p.1) }
    ensures fault { IsRan (scenario_view scenario.now) ran.now → IfErr result (λ e.
        IsMemoryOr e (LacksPacket form (scenario_view scenario.now))) }
{
    let text = text_of(alloc, form, ran)?;
    Ok((text, judged(scenario, &ran.world)))
}

/// The text of a scenario, and whether each event came to what it expects.
fn told(alloc: Global, form: Form, scenario: &Scenario) -> Result<(Vec<u8>, Verdict), ReplayFault>
    ensures told { IfOk result (λ p.
        TellsScenario form (scenario_view scenario.now) p.0.items p.1) }
    ensures fault { IfErr result (λ e. IsMemoryOr e
        (LacksPacket form (scenario_view scenario.now))) }
{
    let ran = run_scenario(alloc, scenario)?;
    let told = told_of(alloc, form, scenario, &ran);
    drop(ran);
    told
}

/// What is written for these octets, and the result of the replay.
fn answered(alloc: Global, form: Form, octets: &[u8]) -> Result<(Vec<u8>, Verdict), ReplayFault>
    ensures told { IfOk result (λ p. Tells form octets.now p.0.items p.1) }
    ensures fault { IfErr result (λ e. IsMemoryOr e (HasNoCapture form octets.now)) }
{
    match read_scenario(alloc, octets) {
        Ok(scenario) => told(alloc, form, &scenario),
        Err(ReadFault::Refused(refusal)) => Ok((refusal_text(alloc, refusal)?, Verdict::Bad)),
        Err(ReadFault::Memory) => Err(ReplayFault::Memory),
    }
}

/// Reads a scenario, runs it, and writes the run in a form: of the world that its events leave, or, if the octets are not a
/// scenario, one line with the first error in them. At most 16,777,217 octets are read, one past the limit of a
/// scenario. The text is complete before its first octet is written. `Read` or `Write` if a call of the reader or the
/// writer failed, `Memory` if an allocation was refused, and `NoPacket` where `capture` answers it.
pub fn replay<R: Read, W: Write>(
    alloc: Global,
    form: Form,
    reader: &mut Counted<R>,
    writer: &mut Counted<W>,
) -> Result<Verdict, ReplayFault>
    requires reads { failures_of reader.old < 2 ^ 64 - 1 }
    requires writes { failures_of writer.old < 2 ^ 64 - 1 }
    // The text is that of a world that the events leave, or the line of the refusal; the verdict is that of the same octets.
    ensures written { IfOk result (λ verdict. IfSome (R.remaining (inner_of reader.old)) (λ octets.
        Told form octets verdict
        (W.contents (inner_of writer.old)) (W.contents (inner_of writer.new)))) }
    ensures consumed { ConsumesUpTo 16777217
        (R.remaining (inner_of reader.old)) (R.remaining (inner_of reader.new)) }
    // `Read` means one more failed call of the reader, and every other result none; likewise `Write`.
    ensures read { result ≡ Err ReplayFault.Read
        → failures_of reader.new ≡ failures_of reader.old + 1 }
    ensures reads_on { result ≢ Err ReplayFault.Read
        → failures_of reader.new ≡ failures_of reader.old }
    ensures write { result ≡ Err ReplayFault.Write
        → failures_of writer.new ≡ failures_of writer.old + 1 }
    ensures writes_on { result ≢ Err ReplayFault.Write
        → failures_of writer.new ≡ failures_of writer.old }
    // A failed write leaves a beginning of such a text, and any other fault leaves the writer alone.
    ensures front { result ≡ Err ReplayFault.Write
        → IfSome (R.remaining (inner_of reader.old)) (λ octets. ToldFront form octets
        (W.contents (inner_of writer.old)) (W.contents (inner_of writer.new))) }
    ensures unread { result ≡ Err ReplayFault.Read → writer.new ≡ writer.old }
    ensures memory { result ≡ Err ReplayFault.Memory → writer.new ≡ writer.old }
    // `NoPacket` means that a capture of these octets is wanted, and names the first datagram that no packet carries.
    ensures no_packet { (number : ℕ) → result ≡ Err (ReplayFault.NoPacket number)
        → (writer.new ≡ writer.old) × IfSome (R.remaining (inner_of reader.old)) (λ octets.
        HasNoCapture form octets number) }
{
    let octets = read_octets(alloc, reader, MOST_READ)?;
    let (text, verdict) = answered(alloc, form, &octets)?;
    write_octets(writer, &text)?;
    Ok(verdict)
}
