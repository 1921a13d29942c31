//! All lines of a hex dump.

ghost use Rattle.std.specs.Prelude.{◌≡◌, ◌≢◌, ◌+◌, ◌++◌, ◌-◌, ◌^◌, ◌<◌, ◌≤◌, ◌⊎◌, ⊤, List, [], ◌∷◌, ℕ, length, None, Ok, Err, IfOk, IfErr, IfSome, OnOk, OnErr};
ghost use Rattle.gtp_counted.specs.Counts.{inner_of, failures_of, NoneFailed};
ghost use Rattle.gtp_dump.specs.declared.decoding.DumpFault.TheVariants as faults;
ghost use Rattle.gtp_dump.specs.Text.{IsBlank, IsBad};
ghost use Rattle.gtp_dump.specs.Decoded.{nothing_read, bad_text, index_line, ShowsAs, ShowsWord, Shows, IsTold, IsToldInPart, AreTold, AreFirstTold, AreToldInPart, WriteFailed, WriteClosed};
ghost use Rattle.gtp_dump.specs.Held.{reading_of, Stands, GoesOnAfter, lines_read, datagrams_begun, Moves, MovesInPart};

use crate::bounded_line::next_line;
use crate::elsewhere::count_elsewhere;
use crate::entry::{Kept, Reading, goes_on, opening, read_alone};
use crate::flaw::{Flaw, put_flaw};
use crate::text::{Dumped, LineFault, read_word};
use gtp_counted::{Counted, Failed};
use gtp_json::{Members, datagram_json};
use gtp_lines::text::{put, put_number};
use gtp_lines::{Interface, Names, Shown, all_lines, decode_lines};
use gtp_values::{Memory, Plane};
use std::alloc::{AllocError, Global};
use std::io::{BufRead, ErrorKind, Write};
use thiserror::Error;

/// In which form a datagram of a dump is shown.
#[derive(Clone, Copy, Debug)]
pub enum Form {
    /// The lines of its message, or of its first fault.
    Lines,
    /// The lines of all that can be shown of it, by these names and forms, and then of its fault on this interface.
    All(Names, Interface),
    /// A JSON object on one line, of these members.
    Json(Members),
}

/// How the lines of a dump are read and shown.
#[derive(Clone, Copy, Debug)]
pub struct Asked {
    /// The plane of the datagrams whose lines do not name one; without it their version decides.
    pub plane: Option<Plane>,
    pub form: Form,
    /// Whether lines of plain hexadecimal are joined, up to one that is none.
    pub join: bool,
}

/// What came of the lines of a dump.
#[derive(Clone, Copy, Debug, PartialEq, Eq)]
pub struct Tally {
    /// The lines that were read.
    pub lines: u64,
    /// The datagrams that were shown.
    pub datagrams: u64,
    /// Whether one of them had a fault.
    pub faulty: bool,
    /// How many of them had one and name an interface other than S5/S8; 2^64 - 1 stands for all above.
    pub elsewhere: u64,
    /// Whether a line was no hexadecimal, or too long.
    pub bad: bool,
}

/// How far a dump was read and told.
#[derive(Debug, Drop)]
struct Progress {
    /// What came of the lines that were told.
    tally: Tally,
    /// The lines that are held: those after them.
    kept: Option<Kept>,
}

/// Why a dump was not read to its end.
#[derive(Clone, Copy, Debug, PartialEq, Eq, Error)]
pub enum DumpFault {
    /// There are 2^64 - 1 octets or more, which are not counted.
    #[error("too long")]
    TooLong,
    /// An allocation was refused.
    #[error("no memory")]
    Memory,
    /// A read failed.
    #[error("read failed")]
    Read,
    /// A write failed.
    #[error("write failed")]
    Write,
    /// The output was closed by whoever reads it.
    #[error("closed")]
    Closed,
}

/// Why a write failed.
fn unwritten(failed: Failed) -> DumpFault
    ensures closed { result ≡ DumpFault.Closed → failed.kind ≡ ErrorKind.BrokenPipe }
    ensures write { result ≡ DumpFault.Write → failed.kind ≢ ErrorKind.BrokenPipe }
    ensures kind { (result ≡ DumpFault.Write) ⊎ (result ≡ DumpFault.Closed) }
{
    match failed.kind {
        ErrorKind::BrokenPipe => DumpFault::Closed,
        _ => DumpFault::Write,
    }
}

impl From<Memory> for DumpFault {
    ghost from_gives = { λ memory fault. fault ≡ faults.Memory };

    fn from(_: Memory) -> DumpFault {
        DumpFault::Memory
    }
}

impl Tally {
    /// Nothing was read yet.
    fn nothing_read() -> Tally
        ensures { result ≡ nothing_read }
    {
        Tally {
            lines: 0,
            datagrams: 0,
            faulty: false,
            elsewhere: 0,
            bad: false,
        }
    }
}

/// The lines of a datagram.
fn lines_of(alloc: Global, form: Form, dumped: &Dumped) -> Result<Shown, Memory>
    ensures { IfOk result (λ shown. ShowsAs form dumped.now.plane dumped.now.octets.items
        shown.text.items shown.faulty) }
{
    match form {
        Form::Lines => decode_lines(alloc, dumped.plane, &dumped.octets),
        Form::All(names, interface) => {
            all_lines(alloc, &names, interface, dumped.plane, &dumped.octets)
        }
        Form::Json(members) => datagram_json(alloc, members, dumped.plane, &dumped.octets),
    }
}

/// Appends the line before those of a datagram; there is none before an object.
#[tactic(auto, using(crate::proofs::Texts::appending))]
fn put_index(out: &mut Vec<u8>, form: Form, index: u64) -> Result<(), AllocError>
    ensures ok { OnOk result (out.new.items ≡ out.old.items ++ index_line form index) }
{
    match form {
        Form::Lines | Form::All(..) => {
            put(out, b"datagram ")?;
            put_number(out, index)?;
            put(out, b"\n")
        }
        Form::Json(_) => Ok(()),
    }
}

/// What stands before the lines of a datagram, and these.
#[tactic(auto, using(crate::proofs::Texts::appending))]
fn shown(alloc: Global, form: Form, index: u64, dumped: &Dumped) -> Result<Shown, Memory>
    ensures { IfOk result (λ shown. Shows form dumped.now.plane dumped.now.octets.items index
        shown.text.items shown.faulty) }
{
    let lines = lines_of(alloc, form, dumped)?;
    let mut text = Vec::with_capacity(alloc, lines.text.len())?;
    put_index(&mut text, form, index)?;
    put(&mut text, &lines.text)?;
    Ok(Shown {
        text,
        faulty: lines.faulty,
    })
}

/// The two lines on a bad line.
#[tactic(auto, using(crate::proofs::Texts::appending))]
fn bad_text(alloc: Global, number: u64, flaw: Flaw) -> Result<Vec<u8>, Memory>
    ensures { IfOk result (λ text. text.items ≡ bad_text number flaw) }
{
    let mut text = Vec::new(alloc);
    put(&mut text, b"bad hex line ")?;
    put_number(&mut text, number)?;
    put(&mut text, b"\n")?;
    put(&mut text, b"gtpshow: standard input, line ")?;
    put_number(&mut text, number)?;
    put(&mut text, b": ")?;
    put_flaw(&mut text, flaw)?;
    put(&mut text, b"\n")?;
    Ok(text)
}

/// Tells of so many lines what they give, after these.
fn tell<W: Write, E: Write>(
    alloc: Global,
    form: Form,
    before: Tally,
    count: u64,
    reading: &Reading,
    out: &mut Counted<W>,
    err: &mut Counted<E>,
) -> Result<Tally, DumpFault>
    requires lines { before.lines + count < 2 ^ 64 }
    requires datagrams { before.datagrams < 2 ^ 64 - 1 }
    requires writes { failures_of out.old < 2 ^ 64 - 1 }
    requires errors { failures_of err.old < 2 ^ 64 - 1 }
    ensures told { IfOk result (λ after. IsTold form before count (reading_of reading.now) after
        (W.contents (inner_of out.old)) (W.contents (inner_of out.new))
        (E.contents (inner_of err.old)) (E.contents (inner_of err.new))) }
    ensures front { IfErr result (λ fault. fault ≢ DumpFault.Memory →
        IsToldInPart form before count (reading_of reading.now)
        (W.contents (inner_of out.old)) (W.contents (inner_of out.new))
        (E.contents (inner_of err.old)) (E.contents (inner_of err.new))) }
    ensures number { IfOk result (λ after. after.lines ≡ before.lines + count) }
    ensures count { IfOk result (λ after. after.datagrams ≤ before.datagrams + 1) }
    ensures memory { result ≡ Err DumpFault.Memory → (out.new ≡ out.old) × (err.new ≡ err.old) }
    ensures write { result ≡ Err DumpFault.Write → WriteFailed out.old out.new err.old err.new }
    ensures closed { result ≡ Err DumpFault.Closed → WriteClosed out.old out.new err.old err.new }
    ensures output_on { OnOk result (NoneFailed out.old out.new) }
    ensures errors_on { OnOk result (NoneFailed err.old err.new) }
    ensures kind { IfErr result (λ fault. (fault ≡ DumpFault.Memory) ⊎ (fault ≡ DumpFault.Write)
        ⊎ (fault ≡ DumpFault.Closed)) }
{
    let lines = before.lines + count;
    match reading {
        Reading::Nothing => Ok(Tally { lines, ..before }),
        Reading::Datagram(dumped) => {
            let shown = shown(alloc, form, before.datagrams, dumped)?;
            let elsewhere = count_elsewhere(shown.faulty, dumped.plane, &dumped.octets);
            if let Err(failed) = out.write_all(&shown.text) {
                return Err(unwritten(failed));
            }
            Ok(Tally {
                lines,
                datagrams: before.datagrams + 1,
                faulty: before.faulty | shown.faulty,
                elsewhere: before.elsewhere.saturating_add(elsewhere),
                ..before
            })
        }
        Reading::Bad { number, flaw } => {
            let text = bad_text(alloc, *number, *flaw)?;
            if let Err(failed) = err.write_all(&text) {
                return Err(unwritten(failed));
            }
            Ok(Tally {
                lines,
                bad: true,
                ..before
            })
        }
    }
}

/// Tells of the lines that are held, where this line does not go on after them.
fn end_held<W: Write, E: Write>(
    alloc: Global,
    asked: Asked,
    before: Progress,
    line: &[u8],
    out: &mut Counted<W>,
    err: &mut Counted<E>,
) -> Result<Progress, DumpFault>
    requires lines { lines_read before < 2 ^ 64 - 1 }
    requires datagrams { datagrams_begun before ≤ lines_read before }
    requires writes { failures_of out.old < 2 ^ 64 - 1 }
    requires errors { failures_of err.old < 2 ^ 64 - 1 }
    ensures moves { IfOk result (λ after. (held : List (List ℕ)) →
        Stands asked.join before.tally.lines before.kept held →
        Moves asked before held [] (λ next. next ≡ line.now) after
        (W.contents (inner_of out.old)) (W.contents (inner_of out.new))
        (E.contents (inner_of err.old)) (E.contents (inner_of err.new))) }
    ensures goes { IfOk result (λ after. GoesOnAfter after.kept line.now) }
    ensures front { IfErr result (λ fault. fault ≢ DumpFault.Memory → (held : List (List ℕ)) →
        Stands asked.join before.tally.lines before.kept held →
        MovesInPart asked before held [] (λ next. next ≡ line.now)
        (W.contents (inner_of out.old)) (W.contents (inner_of out.new))
        (E.contents (inner_of err.old)) (E.contents (inner_of err.new))) }
    ensures number { IfOk result (λ after. lines_read after ≡ lines_read before) }
    ensures count { IfOk result (λ after. datagrams_begun after ≤ datagrams_begun before) }
    ensures memory { result ≡ Err DumpFault.Memory → (out.new ≡ out.old) × (err.new ≡ err.old) }
    ensures write { result ≡ Err DumpFault.Write → WriteFailed out.old out.new err.old err.new }
    ensures closed { result ≡ Err DumpFault.Closed → WriteClosed out.old out.new err.old err.new }
    ensures output_on { OnOk result (NoneFailed out.old out.new) }
    ensures errors_on { OnOk result (NoneFailed err.old err.new) }
    ensures kind { IfErr result (λ fault. (fault ≡ DumpFault.Memory) ⊎ (fault ≡ DumpFault.Write)
        ⊎ (fault ≡ DumpFault.Closed)) }
{
    let tally = before.tally;
    match before.kept {
        None => Ok(Progress { tally, kept: None }),
        Some(kept) => {
            if goes_on(&kept, line) {
                return Ok(Progress {
                    tally,
                    kept: Some(kept),
                });
            }
            let count = kept.lines;
            let reading = kept.read(alloc, asked.plane, tally.lines)?;
            match tell(alloc, asked.form, tally, count, &reading, out, err) {
                Ok(tally) => Ok(Progress { tally, kept: None }),
                Err(fault) => Err(fault),
            }
        }
    }
}

/// Holds a line that goes on, or begins lines that are read together; tells of another.
fn take_line<W: Write, E: Write>(
    alloc: Global,
    asked: Asked,
    before: Progress,
    line: &[u8],
    out: &mut Counted<W>,
    err: &mut Counted<E>,
) -> Result<Progress, DumpFault>
    requires goes { GoesOnAfter before.kept line.now }
    requires lines { lines_read before < 2 ^ 64 - 1 }
    requires datagrams { datagrams_begun before ≤ lines_read before }
    requires writes { failures_of out.old < 2 ^ 64 - 1 }
    requires errors { failures_of err.old < 2 ^ 64 - 1 }
    ensures moves { IfOk result (λ after. (held : List (List ℕ)) →
        Stands asked.join before.tally.lines before.kept held →
        Moves asked before held (line.now ∷ []) (λ next. ⊤) after
        (W.contents (inner_of out.old)) (W.contents (inner_of out.new))
        (E.contents (inner_of err.old)) (E.contents (inner_of err.new))) }
    ensures front { IfErr result (λ fault. fault ≢ DumpFault.Memory → (held : List (List ℕ)) →
        Stands asked.join before.tally.lines before.kept held →
        MovesInPart asked before held (line.now ∷ []) (λ next. ⊤)
        (W.contents (inner_of out.old)) (W.contents (inner_of out.new))
        (E.contents (inner_of err.old)) (E.contents (inner_of err.new))) }
    ensures number { IfOk result (λ after. lines_read after ≡ lines_read before + 1) }
    ensures count { IfOk result (λ after. datagrams_begun after ≤ datagrams_begun before + 1) }
    ensures memory { result ≡ Err DumpFault.Memory → (out.new ≡ out.old) × (err.new ≡ err.old) }
    ensures write { result ≡ Err DumpFault.Write → WriteFailed out.old out.new err.old err.new }
    ensures closed { result ≡ Err DumpFault.Closed → WriteClosed out.old out.new err.old err.new }
    ensures output_on { OnOk result (NoneFailed out.old out.new) }
    ensures errors_on { OnOk result (NoneFailed err.old err.new) }
    ensures kind { IfErr result (λ fault. (fault ≡ DumpFault.Memory) ⊎ (fault ≡ DumpFault.Write)
        ⊎ (fault ≡ DumpFault.Closed)) }
{
    let tally = before.tally;
    if let Some(kept) = before.kept {
        let number = tally.lines + kept.lines + 1;
        let kept = Some(kept.add(alloc, number, line)?);
        return Ok(Progress { tally, kept });
    }
    if let Some(is_joined) = opening(asked.join, line) {
        let kept = Some(Kept::none(alloc, is_joined).add(alloc, tally.lines + 1, line)?);
        return Ok(Progress { tally, kept });
    }
    let reading = read_alone(alloc, asked.plane, tally.lines, line)?;
    match tell(alloc, asked.form, tally, 1, &reading, out, err) {
        Ok(tally) => Ok(Progress { tally, kept: None }),
        Err(fault) => Err(fault),
    }
}

/// Decodes the datagrams of a dump, and tells what came of its lines: one of each line, of the rows from an offset of 0 on, and if
/// that is asked for of lines of plain hexadecimal up to one that is none. Before the lines of each datagram stands
/// `datagram <index>`, which counts from 0; before an object none. For a line that is no hexadecimal, or with which a text of
/// more than 1,048,576 octets is read together, `bad hex line <number>` is written as an error, and then a line that says why;
/// lines count from 1. A line ends with a line feed, or with the text. No more than 1,048,577 octets of one are held, and of lines
/// that are read together their digits. A line that stands alone is told before the next is read.
///
/// `Read` if a read failed, `Write` if a write did, `Closed` if the reader of the output closed it, `Memory` if an allocation was
/// refused, `TooLong` if there are 2^64 - 1 octets or more. What was written is that of the first lines, after `Write` and
/// `Closed` a beginning of it.
#[tactic(auto, using(gtp_counted::proofs::Lines::lasts_long, gtp_counted::proofs::Lines::lasts_within))]
pub fn decode_dump<R: BufRead, W: Write, E: Write>(
    alloc: Global,
    asked: Asked,
    reader: &mut Counted<R>,
    out: &mut Counted<W>,
    err: &mut Counted<E>,
) -> Result<Tally, DumpFault>
    requires reads { failures_of reader.old < 2 ^ 64 - 1 }
    requires writes { failures_of out.old < 2 ^ 64 - 1 }
    requires errors { failures_of err.old < 2 ^ 64 - 1 }
    ensures all { IfOk result (λ tally. IfSome (R.remaining (inner_of reader.old)) (λ octets.
        AreTold asked octets [] tally
        (W.contents (inner_of out.old)) (W.contents (inner_of out.new))
        (E.contents (inner_of err.old)) (E.contents (inner_of err.new)))) }
    ensures first { IfErr result (λ fault. fault ≢ DumpFault.Write → fault ≢ DumpFault.Closed →
        IfSome (R.remaining (inner_of reader.old)) (λ octets.
        AreFirstTold asked octets
        (W.contents (inner_of out.old)) (W.contents (inner_of out.new))
        (E.contents (inner_of err.old)) (E.contents (inner_of err.new)))) }
    ensures front { OnErr result (IfSome (R.remaining (inner_of reader.old)) (λ octets.
        AreToldInPart asked octets
        (W.contents (inner_of out.old)) (W.contents (inner_of out.new))
        (E.contents (inner_of err.old)) (E.contents (inner_of err.new)))) }
    // `Read` means one more failed call of the reader, and every other result none.
    ensures read { result ≡ Err DumpFault.Read
        → failures_of reader.new ≡ failures_of reader.old + 1 }
    ensures reads_on { result ≢ Err DumpFault.Read
        → failures_of reader.new ≡ failures_of reader.old }
    // `Write` and `Closed` mean one more failed call of the output or of the errors, and every other result none.
    ensures write { result ≡ Err DumpFault.Write → WriteFailed out.old out.new err.old err.new }
    ensures closed { result ≡ Err DumpFault.Closed → WriteClosed out.old out.new err.old err.new }
    ensures writes_on { result ≢ Err DumpFault.Write → result ≢ Err DumpFault.Closed
        → NoneFailed out.old out.new × NoneFailed err.old err.new }
    ensures long { result ≡ Err DumpFault.TooLong →
        IfSome (R.remaining (inner_of reader.old)) (λ octets. 2 ^ 64 - 1 ≤ length octets) }
{
    let mut progress = Progress {
        tally: Tally::nothing_read(),
        kept: None,
    };
    let mut line = Vec::new(alloc);
    for _ in 0..u64::MAX {
        if let Err(fault) = next_line(reader, &mut line) {
            return Err(fault);
        }
        progress = match end_held(alloc, asked, progress, &line, out, err) {
            Ok(after) => after,
            Err(fault) => return Err(fault),
        };
        if line.is_empty() {
            return Ok(progress.tally);
        }
        progress = match take_line(alloc, asked, progress, &line, out, err) {
            Ok(after) => after,
            Err(fault) => return Err(fault),
        };
    }
    Err(DumpFault::TooLong)
}

/// The lines of the datagram that a word spells, as `read_word` reads it, or none of a word without digits that is not empty.
pub fn decode_word(alloc: Global, asked: Asked, word: &[u8]) -> Result<Option<Shown>, LineFault>
    ensures some { IfOk result (λ found. IfSome found (λ shown.
        ShowsWord asked word.now shown.text.items shown.faulty)) }
    ensures none { result ≡ Ok None → IsBlank word.now × (word.now ≢ []) }
    ensures bad { result ≡ Err LineFault.BadHex → IsBad word.now × (word.now ≢ []) }
{
    let Some(dumped) = read_word(alloc, asked.plane, word)? else {
        return Ok(None);
    };
    match lines_of(alloc, asked.form, &dumped) {
        Ok(shown) => Ok(Some(shown)),
        Err(_) => Err(LineFault::Memory),
    }
}
