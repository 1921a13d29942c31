//! Showing a capture.

ghost use Rattle.std.specs.Prelude.{◌≡◌, ◌≢◌, ◌-◌, ◌^◌, ◌<◌, ◌≤◌, ◌⊎◌, ◌++◌, ℕ, length, decimal, Err, IfOk, IfErr, IfSome, IfNone, OnOk};
ghost use Rattle.std.specs.Io.KnownBytes.{Appends};
ghost use Rattle.gtp_counted.specs.Counts.{inner_of, failures_of};
ghost use Rattle.gtp_counted.specs.Streams.{WritesFront};
ghost use Rattle.gtp_capture.specs.Seen.{seen_of};
ghost use Rattle.gtp_capture.specs.reading.Packet.{packet_of};
ghost use Rattle.gtp_commands.specs.Captured.{nothing_shown, is_cut, counted, counts_line, counts_json, last_line, capture_status, IsShownAs, IsFull, TakesFrame, RefusesFrame, AreFramesShown, IsCaptureShown, IsBrokenShown, IsFirstShown, IsNextShown, IsCountShown, IsNoCapture};
ghost use Rattle.gtp_commands.specs.Stops.{TellsReads, TellsClosed, StopsCounts, StopsCapture};

use crate::command::Failure;
use crate::dumping::BUFFERED;
use crate::hinting::{hint_of_broken, hint_of_capture, hint_of_interface};
use crate::replaying::unopened;
use crate::watched_readers::Watched;
use gtp_capture::{CaptureFault, Captured, Packet, Ports, Refused, Sink, Stop, read_capture};
use gtp_counted::{Counted, Failed};
use gtp_dump::count_elsewhere;
use gtp_json::{Members, frame_json};
use gtp_lines::text::{put, put_number};
use gtp_lines::{Filter, Form, Interface, Shown, frame_lines};
use gtp_values::Memory;
use std::alloc::{AllocError, Global};
use std::fs;
use std::io::{self, BufReader, BufWriter, ErrorKind, Read, Write};
use std::rt::Files;

/// Why a write failed: the output is closed, or else it is a failed write.
pub fn unwritten(failed: Failed) -> Failure
    ensures closed { result ≡ Failure.Closed → failed.kind ≡ ErrorKind.BrokenPipe }
    ensures write { result ≡ Failure.Write → failed.kind ≢ ErrorKind.BrokenPipe }
    ensures kind { (result ≡ Failure.Closed) ⊎ (result ≡ Failure.Write) }
{
    match failed.kind {
        ErrorKind::BrokenPipe => Failure::Closed,
        _ => Failure::Write,
    }
}

/// What was shown of a capture.
#[derive(Clone, Copy, Debug, PartialEq, Eq)]
pub struct Counts {
    /// The datagrams.
    pub gtp: u64,
    /// Those of them with a fault.
    pub faults: u64,
    /// Those of which the capture has not all octets.
    pub cut: u64,
    /// Those that are in fragments.
    pub fragments: u64,
}

/// Whether the capture has not all octets of a datagram that is in no fragments.
fn is_cut(packet: &Packet) -> bool
    ensures { result ≡ is_cut (packet_of packet.now) }
{
    if packet.fragment {
        return false;
    }
    packet.octets.len() < usize::from(packet.had)
}

impl Counts {
    /// The counts with one datagram more. None where one of them is at its end.
    fn counted(self, packet: &Packet, faulty: bool) -> Option<Counts>
        ensures more { IfSome result (λ counts.
            counts ≡ counted self (packet_of packet.now) faulty) }
        ensures full { IfNone result (IsFull self) }
    {
        Some(Counts {
            gtp: self.gtp.checked_add(1)?,
            faults: self.faults.checked_add(u64::from(faulty))?,
            cut: self.cut.checked_add(u64::from(is_cut(packet)))?,
            fragments: self.fragments.checked_add(u64::from(packet.fragment))?,
        })
    }
}

/// Appends a word and a number.
#[tactic(auto, using(crate::proofs::Texts::appending))]
fn put_count(out: &mut Vec<u8>, word: &str, count: u64) -> Result<(), AllocError>
    ensures ok { OnOk result (out.new.items ≡ out.old.items ++ (word.now ++ decimal count)) }
{
    put(out, word.as_bytes())?;
    put_number(out, count)
}

/// The same as a JSON object.
#[tactic(auto, using(crate::proofs::Texts::appending))]
fn counts_object(alloc: Global, frames: u64, counts: Counts) -> Result<Vec<u8>, AllocError>
    ensures { IfOk result (λ text. text.items ≡ counts_json frames counts) }
{
    let mut text = Vec::new(alloc);
    put_count(&mut text, "{\"frames\":", frames)?;
    put_count(&mut text, ",\"gtp\":", counts.gtp)?;
    put_count(&mut text, ",\"faults\":", counts.faults)?;
    put_count(&mut text, ",\"cut\":", counts.cut)?;
    put_count(&mut text, ",\"fragments\":", counts.fragments)?;
    put(&mut text, b"}\n")?;
    Ok(text)
}

/// The last line of a capture in a form.
fn last_line(
    alloc: Global,
    form: CaptureForm,
    frames: u64,
    counts: Counts,
) -> Result<Vec<u8>, AllocError>
    ensures { IfOk result (λ text. text.items ≡ last_line form frames counts) }
{
    match form {
        CaptureForm::Text(_) => counts_text(alloc, frames, counts),
        CaptureForm::Json(_) => counts_object(alloc, frames, counts),
    }
}

/// The last line of a capture, which counts.
#[tactic(auto, using(crate::proofs::Texts::appending))]
fn counts_text(alloc: Global, frames: u64, counts: Counts) -> Result<Vec<u8>, AllocError>
    ensures { IfOk result (λ text. text.items ≡ counts_line frames counts) }
{
    let mut text = Vec::new(alloc);
    put_count(&mut text, "frames ", frames)?;
    put_count(&mut text, " gtp ", counts.gtp)?;
    put_count(&mut text, " faults ", counts.faults)?;
    put_count(&mut text, " cut ", counts.cut)?;
    put_count(&mut text, " fragments ", counts.fragments)?;
    put(&mut text, b"\n")?;
    Ok(text)
}

/// In which form the datagrams of a capture are shown.
#[derive(Clone, Copy, Debug)]
pub enum CaptureForm {
    /// As lines.
    Text(Form),
    /// As JSON objects, one a line, of these members.
    Json(Members),
}

/// Which datagrams of a capture are shown, and in which form.
#[derive(Clone, Copy)]
pub struct FramesAsked {
    pub form: CaptureForm,
    /// What they have to have.
    pub filter: Filter,
    /// Whether only those at fault are shown.
    pub only_faults: bool,
}

/// What is shown of a datagram.
fn shown_as(alloc: Global, form: CaptureForm, captured: &Captured) -> Result<Shown, Memory>
    ensures { IfOk result (λ shown.
        IsShownAs form (seen_of captured.now) shown.text.items shown.faulty) }
{
    match form {
        CaptureForm::Text(form) => frame_lines(alloc, form, captured),
        CaptureForm::Json(members) => frame_json(alloc, members, captured),
    }
}

/// The interface by which a form judges.
fn interface_of(form: CaptureForm) -> Interface {
    match form {
        CaptureForm::Text(Form::All(_, interface))
        | CaptureForm::Json(Members::All { interface, .. }) => interface,
        _ => Interface::S5S8,
    }
}

/// A writer of the lines of datagrams, in a form.
#[derive(Drop)]
pub struct FrameWriter<'a, W> {
    alloc: Global,
    asked: &'a FramesAsked,
    out: Counted<W>,
    counts: Counts,
    /// How many of the datagrams at fault that were shown name an interface other than S5/S8.
    elsewhere: u64,
    /// Why a datagram was not shown.
    unshown: Option<Failure>,
}

impl<'a, W: Write> FrameWriter<'a, W> {
    /// A writer that has shown no datagram.
    fn new(alloc: Global, asked: &'a FramesAsked, out: W) -> FrameWriter<'a, W>
        ensures asked { result.asked.now ≡ asked.now }
        ensures out { inner_of result.out ≡ out }
        ensures writes { failures_of result.out ≡ 0 }
        ensures counts { result.counts ≡ nothing_shown }
    {
        FrameWriter {
            alloc,
            asked,
            out: Counted::new(out),
            counts: Counts {
                gtp: 0,
                faults: 0,
                cut: 0,
                fragments: 0,
            },
            elsewhere: 0,
            unshown: None,
        }
    }
}

impl<'a, W: Write> Sink for FrameWriter<'a, W> {
    ghost takes = { λ before d after. TakesFrame W.contents before d after };

    ghost refuses = { λ before d after. RefusesFrame W.contents before d after };

    fn take(&mut self, captured: &Captured) -> Result<(), Refused> {
        if !self.asked.filter.chooses(&captured.packet) {
            return Ok(());
        }
        let Ok(shown) = shown_as(self.alloc, self.asked.form, captured) else {
            self.unshown = Some(Failure::Memory);
            return Err(Refused);
        };
        if self.asked.only_faults && !shown.faulty {
            return Ok(());
        }
        let Some(counts) = self.counts.counted(&captured.packet, shown.faulty) else {
            self.unshown = Some(Failure::TooLong);
            return Err(Refused);
        };
        if let Err(failed) = self.out.write_all(&shown.text) {
            self.unshown = Some(unwritten(failed));
            return Err(Refused);
        }
        self.counts = counts;
        let packet = &captured.packet;
        let elsewhere = count_elsewhere(shown.faulty, packet.plane, packet.octets);
        self.elsewhere = self.elsewhere.saturating_add(elsewhere);
        Ok(())
    }
}

/// Writes the lines of the datagrams of a capture, by these ports, and returns how many frames it has. The errors are those of
/// `capture_from`.
fn frames_from<I: Read, W: Write>(
    alloc: Global,
    ports: Ports,
    reader: &mut Counted<I>,
    writer: &mut FrameWriter<W>,
) -> Result<u64, Failure>
    requires counts { writer.old.counts ≡ nothing_shown }
    requires reads { failures_of reader.old < 2 ^ 64 - 1 }
    requires writes { failures_of writer.old.out < 2 ^ 64 - 1 }
    ensures shown { IfOk result (λ frames. IfSome (I.remaining (inner_of reader.old)) (λ file.
        AreFramesShown writer.old.asked.now ports file
        (W.contents (inner_of writer.old.out)) (W.contents (inner_of writer.new.out))
        frames writer.new.counts)) }
    ensures broken { (at : ℕ) → result ≡ Err (Failure.BrokenCapture at) →
        IfSome (I.remaining (inner_of reader.old)) (λ file.
        IsBrokenShown writer.old.asked.now ports file
        (W.contents (inner_of writer.old.out)) (W.contents (inner_of writer.new.out)) at) }
    ensures bad { result ≡ Err Failure.BadCapture →
        IfSome (I.remaining (inner_of reader.old)) (λ file. IsNoCapture file
        (W.contents (inner_of writer.old.out)) (W.contents (inner_of writer.new.out))) }
    ensures first { (result ≡ Err Failure.Memory) ⊎ (result ≡ Err Failure.Read)
        ⊎ (result ≡ Err Failure.TooLong) → IfSome (I.remaining (inner_of reader.old)) (λ file.
        IsFirstShown writer.old.asked.now ports file
        (W.contents (inner_of writer.old.out)) (W.contents (inner_of writer.new.out))) }
    ensures next { (result ≡ Err Failure.Write) ⊎ (result ≡ Err Failure.Closed) →
        IfSome (I.remaining (inner_of reader.old)) (λ file.
        IsNextShown writer.old.asked.now ports file
        (W.contents (inner_of writer.old.out)) (W.contents (inner_of writer.new.out))) }
    ensures long { result ≡ Err Failure.TooLong →
        IfSome (I.remaining (inner_of reader.old)) (λ file. 2 ^ 64 - 1 ≤ length file) }
    ensures reads { TellsReads result reader.old reader.new }
    ensures writes { TellsClosed result writer.old.out writer.new.out }
    ensures kind { IfErr result StopsCapture }
{
    match read_capture(alloc, ports, reader, writer) {
        Ok(frames) => Ok(frames),
        Err(CaptureFault::NoCapture) => Err(Failure::BadCapture),
        Err(CaptureFault::Broken { at }) => Err(Failure::BrokenCapture { at }),
        Err(CaptureFault::Stopped(Stop::Memory)) => Err(Failure::Memory),
        Err(CaptureFault::Stopped(Stop::Read)) => Err(Failure::Read),
        Err(CaptureFault::Stopped(Stop::TooLong)) => Err(Failure::TooLong),
        Err(CaptureFault::Stopped(Stop::Refused)) => {
            Err(writer.unshown.unwrap_or(Failure::Memory))
        }
    }
}

/// Writes the last line of a capture of so many frames, and returns the exit status.
#[tactic(auto, using(gtp_counted::proofs::Written::front_none))]
fn count_from<W: Write>(
    alloc: Global,
    form: CaptureForm,
    frames: u64,
    writer: &mut FrameWriter<W>,
) -> Result<u8, Failure>
    requires { failures_of writer.old.out < 2 ^ 64 - 1 }
    ensures counted { OnOk result (Appends
        (W.contents (inner_of writer.old.out)) (W.contents (inner_of writer.new.out))
        (last_line form frames writer.old.counts)) }
    ensures front { WritesFront
        (W.contents (inner_of writer.old.out)) (W.contents (inner_of writer.new.out))
        (last_line form frames writer.old.counts) }
    ensures status { IfOk result (λ status. status ≡ capture_status writer.old.counts) }
    ensures memory { result ≡ Err Failure.Memory → writer.new ≡ writer.old }
    ensures writes { TellsClosed result writer.old.out writer.new.out }
    ensures kind { IfErr result StopsCounts }
{
    let Ok(text) = last_line(alloc, form, frames, writer.counts) else {
        return Err(Failure::Memory);
    };
    let faults = writer.counts.faults;
    match writer.out.write_all(&text) {
        Ok(()) => Ok(if faults == 0 { 0 } else { 1 }),
        Err(failed) => Err(unwritten(failed)),
    }
}

/// Writes the lines of the datagrams of a capture, by these ports, and then a line that counts, and returns the exit status: 0,
/// or 1 if a datagram had a fault. `BadCapture` for no capture, `BrokenCapture` for one that is cut off or has a record of more
/// than 262,144 octets; `Memory` if an allocation was refused, `Read` if a read failed, `Write` or `Closed` if a write did,
/// `TooLong` if the capture has 2^64 - 1 octets or more. What came before is written, after `Write` and `Closed` a beginning of it.
fn capture_from<I: Read, W: Write>(
    alloc: Global,
    ports: Ports,
    reader: &mut Counted<I>,
    writer: &mut FrameWriter<W>,
) -> Result<u8, Failure>
    requires counts { writer.old.counts ≡ nothing_shown }
    requires reads { failures_of reader.old < 2 ^ 64 - 1 }
    requires writes { failures_of writer.old.out < 2 ^ 64 - 1 }
    ensures shown { IfOk result (λ status. IfSome (I.remaining (inner_of reader.old)) (λ file.
        IsCaptureShown writer.old.asked.now ports file
        (W.contents (inner_of writer.old.out)) (W.contents (inner_of writer.new.out)) status)) }
    ensures small { IfOk result (λ status. status ≤ 1) }
    ensures broken { (at : ℕ) → result ≡ Err (Failure.BrokenCapture at) →
        IfSome (I.remaining (inner_of reader.old)) (λ file.
        IsBrokenShown writer.old.asked.now ports file
        (W.contents (inner_of writer.old.out)) (W.contents (inner_of writer.new.out)) at) }
    ensures bad { result ≡ Err Failure.BadCapture →
        IfSome (I.remaining (inner_of reader.old)) (λ file. IsNoCapture file
        (W.contents (inner_of writer.old.out)) (W.contents (inner_of writer.new.out))) }
    ensures first { (result ≡ Err Failure.Memory) ⊎ (result ≡ Err Failure.Read)
        ⊎ (result ≡ Err Failure.TooLong) → IfSome (I.remaining (inner_of reader.old)) (λ file.
        IsFirstShown writer.old.asked.now ports file
        (W.contents (inner_of writer.old.out)) (W.contents (inner_of writer.new.out))) }
    ensures next { (result ≡ Err Failure.Write) ⊎ (result ≡ Err Failure.Closed) →
        IfSome (I.remaining (inner_of reader.old)) (λ file.
        IsNextShown writer.old.asked.now ports file
        (W.contents (inner_of writer.old.out)) (W.contents (inner_of writer.new.out))
        ⊎ IsCountShown writer.old.asked.now ports file
        (W.contents (inner_of writer.old.out)) (W.contents (inner_of writer.new.out))) }
    ensures long { result ≡ Err Failure.TooLong →
        IfSome (I.remaining (inner_of reader.old)) (λ file. 2 ^ 64 - 1 ≤ length file) }
    ensures reads { TellsReads result reader.old reader.new }
    ensures writes { TellsClosed result writer.old.out writer.new.out }
    ensures kind { IfErr result StopsCapture }
{
    let form = writer.asked.form;
    match frames_from(alloc, ports, reader, writer) {
        Ok(frames) => count_from(alloc, form, frames, writer),
        Err(failure) => Err(failure),
    }
}

/// How a capture is shown.
#[derive(Clone, Copy)]
pub struct CaptureAsked {
    pub frames: FramesAsked,
    pub ports: Ports,
}

/// Shows the capture of a reader on standard output, says on standard error why it is none, or from where on, and returns the
/// exit status.
fn capture_printed<R: Print + Eprint, I: Read + Drop>(
    rt: &R,
    alloc: Global,
    asked: &CaptureAsked,
    name: &str,
    reader: I,
) -> Result<u8, Failure>
    ensures { IfOk result (λ status. status ≤ 2) }
{
    let reader = BufReader::with_capacity(alloc, BUFFERED, Watched::new(alloc, reader)).map_err(
        |_| Failure::Memory,
    )?;
    let out = BufWriter::with_capacity(alloc, BUFFERED, io::writer(rt)).map_err(
        |_| Failure::Memory,
    )?;
    let mut reader = Counted::new(reader);
    let mut writer = FrameWriter::new(alloc, &asked.frames, out);
    let shown = capture_from(alloc, asked.ports, &mut reader, &mut writer);
    writer.out.flush().map_err(unwritten)?;
    let read = reader.into_inner().into_inner();
    if interface_of(asked.frames.form) == Interface::S5S8 {
        let _ = hint_of_interface(rt, writer.elsewhere);
    }
    match shown {
        Err(Failure::BadCapture) => {
            let _ = eprintln!(rt; "{}", Failure::BadCapture);
            let _ = hint_of_capture(rt, name, &read);
            Ok(2)
        }
        Err(Failure::BrokenCapture { at }) => {
            let _ = eprintln!(rt; "{}", Failure::BrokenCapture { at });
            let _ = hint_of_broken(rt, name, at, &read);
            Ok(2)
        }
        shown => shown,
    }
}

/// Shows the capture of this file, or of standard input for `-`, and returns the exit status.
pub fn capture_file<R: Print + Eprint + Input + Files>(
    rt: &R,
    alloc: Global,
    asked: &CaptureAsked,
    name: &str,
) -> Result<u8, Failure>
    ensures { IfOk result (λ status. status ≤ 2) }
{
    if name == "-" {
        return capture_printed(rt, alloc, asked, "standard input", rt.reader());
    }
    let file = fs::open(rt, name).map_err(unopened)?;
    capture_printed(rt, alloc, asked, name, file)
}
