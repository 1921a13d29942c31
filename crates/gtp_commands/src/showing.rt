//! Showing one datagram.

ghost use Rattle.std.specs.Prelude.{◌≡◌, ◌≢◌, ◌-◌, ◌^◌, ◌<◌, ◌≤◌, ◌⊎◌, [], length, IsErr, Err, IfOk, IfErr, IfSome, OnErr};
ghost use Rattle.hex.specs.Hex.{decode_of};
ghost use Rattle.gtp_counted.specs.Counts.{inner_of, failures_of, NoneFailed};
ghost use Rattle.gtp_dump.specs.Decoded.{AreFirstTold, AreToldInPart, WriteFailed, WriteClosed};
ghost use Rattle.gtp_dump.specs.Text.{IsBlank, IsBad};
ghost use Rattle.gtp_commands.specs.Shown.{IsShown, IsShownInPart, IsWordShown, IsWordShownInPart, dump_status, IsDumpShown};
ghost use Rattle.gtp_commands.specs.Stops.{TellsReads, TellsWrites, TellsClosed, StopsShow, StopsWord, StopsDump};

use crate::capturing::unwritten;
use crate::command::Failure;
use gtp_counted::Counted;
use gtp_dump::{Asked, DumpFault, LineFault, Tally, decode_dump, decode_word};
use gtp_lines::{Plane, decode_lines};
use hex::FromHexError;
use std::alloc::Global;
use std::io::{BufRead, Write};

/// Writes the lines of the datagram of these hexadecimal digits, and returns the exit status: 0, or 1 for a datagram
/// with a fault. `BadHex` if the digits are bad, `Memory` if an allocation was refused, and `Write` if the write failed.
pub fn show<W: Write>(
    alloc: Global,
    out: &mut Counted<W>,
    plane: Plane,
    digits: &str,
) -> Result<u8, Failure>
    requires { failures_of out.old < 2 ^ 64 - 1 }
    // The lines are written, and nothing else.
    ensures shown { IfOk result
        (IsShown plane digits.now (W.contents (inner_of out.old)) (W.contents (inner_of out.new))) }
    ensures front { result ≡ Err Failure.Write →
        IsShownInPart plane digits.now (W.contents (inner_of out.old)) (W.contents (inner_of out.new)) }
    ensures writes { TellsWrites result out.old out.new }
    ensures only { result ≡ Err Failure.BadHex → IsErr (decode_of digits.now) }
    ensures bad { IsErr (decode_of digits.now) →
        (result ≡ Err Failure.BadHex) ⊎ (result ≡ Err Failure.Memory) }
    // Nothing was written.
    ensures bad_unwritten { result ≡ Err Failure.BadHex → out.new ≡ out.old }
    ensures memory_unwritten { result ≡ Err Failure.Memory → out.new ≡ out.old }
    ensures kind { IfErr result StopsShow }
{
    let octets = match hex::decode(alloc, digits) {
        Ok(octets) => octets,
        Err(FromHexError::OutOfMemory) => return Err(Failure::Memory),
        Err(_) => return Err(Failure::BadHex),
    };
    let shown = decode_lines(alloc, plane, &octets).map_err(|_| Failure::Memory)?;
    match out.write_all(&shown.text) {
        Ok(()) => Ok(if shown.faulty { 1 } else { 0 }),
        Err(_) => Err(Failure::Write),
    }
}

/// Writes in a form the datagram that a word spells, as a line of a dump does, and returns the exit status: 0, or 1
/// for a datagram with a fault. An empty word is a datagram of no octets. `BadHex` if another word has no digits, an odd
/// number of them, or what is none, or is too long; `Memory` if an allocation was refused, `Write` or `Closed` if the write failed.
pub fn show_word<W: Write>(
    alloc: Global,
    out: &mut Counted<W>,
    asked: Asked,
    word: &str,
) -> Result<u8, Failure>
    requires { failures_of out.old < 2 ^ 64 - 1 }
    ensures shown { IfOk result (IsWordShown asked word.now
        (W.contents (inner_of out.old)) (W.contents (inner_of out.new))) }
    ensures front { (result ≡ Err Failure.Write) ⊎ (result ≡ Err Failure.Closed) →
        IsWordShownInPart asked word.now
        (W.contents (inner_of out.old)) (W.contents (inner_of out.new)) }
    ensures bad { result ≡ Err Failure.BadHex →
        (IsBlank word.now ⊎ IsBad word.now) × (word.now ≢ []) × (out.new ≡ out.old) }
    ensures memory { result ≡ Err Failure.Memory → out.new ≡ out.old }
    ensures writes { TellsClosed result out.old out.new }
    ensures kind { IfErr result StopsWord }
{
    let shown = match decode_word(alloc, asked, word.as_bytes()) {
        Ok(Some(shown)) => shown,
        Ok(None) => return Err(Failure::BadHex),
        Err(LineFault::BadHex) => return Err(Failure::BadHex),
        Err(LineFault::Memory) => return Err(Failure::Memory),
    };
    match out.write_all(&shown.text) {
        Ok(()) => Ok(if shown.faulty { 1 } else { 0 }),
        Err(failed) => Err(unwritten(failed)),
    }
}

/// The exit status of a dump.
fn dump_status(tally: Tally) -> u8
    ensures { result ≡ dump_status tally }
{
    match (tally.bad, tally.faulty) {
        (true, _) => 2,
        (false, true) => 1,
        (false, false) => 0,
    }
}

/// What came of a dump that was shown.
#[derive(Clone, Copy, Debug, PartialEq, Eq)]
pub struct DumpShown {
    /// The exit status: 2 if a line was bad, else 1 if a datagram had a fault, else 0.
    pub status: u8,
    /// How many of the datagrams at fault name an interface other than S5/S8.
    pub elsewhere: u64,
}

/// Writes the lines of the datagrams of a dump, and of its bad lines as errors, and says what came of it. `Memory` if an allocation was refused, `Read` if a read failed, `Write` or `Closed`
/// if a write did, `TooLong` if the dump has 2^64 - 1 octets or more.
pub fn show_dump<R: BufRead, W: Write, E: Write>(
    alloc: Global,
    asked: Asked,
    reader: &mut Counted<R>,
    out: &mut Counted<W>,
    err: &mut Counted<E>,
) -> Result<DumpShown, Failure>
    requires reads { failures_of reader.old < 2 ^ 64 - 1 }
    requires writes { failures_of out.old < 2 ^ 64 - 1 }
    requires errors { failures_of err.old < 2 ^ 64 - 1 }
    ensures shown { IfOk result (λ shown. IfSome (R.remaining (inner_of reader.old)) (λ octets.
        IsDumpShown asked octets
        (W.contents (inner_of out.old)) (W.contents (inner_of out.new))
        (E.contents (inner_of err.old)) (E.contents (inner_of err.new)) shown)) }
    ensures small { IfOk result (λ shown. shown.status ≤ 2) }
    ensures first { IfErr result (λ failure. failure ≢ Failure.Write → failure ≢ Failure.Closed →
        IfSome (R.remaining (inner_of reader.old)) (λ octets.
        AreFirstTold asked octets
        (W.contents (inner_of out.old)) (W.contents (inner_of out.new))
        (E.contents (inner_of err.old)) (E.contents (inner_of err.new)))) }
    ensures front { OnErr result (IfSome (R.remaining (inner_of reader.old)) (λ octets.
        AreToldInPart asked octets
        (W.contents (inner_of out.old)) (W.contents (inner_of out.new))
        (E.contents (inner_of err.old)) (E.contents (inner_of err.new)))) }
    ensures long { result ≡ Err Failure.TooLong →
        IfSome (R.remaining (inner_of reader.old)) (λ octets. 2 ^ 64 - 1 ≤ length octets) }
    ensures reads { TellsReads result reader.old reader.new }
    // The failure is `Write` or `Closed` exactly if a write failed, of lines or of what is told of bad ones.
    ensures write { result ≡ Err Failure.Write → WriteFailed out.old out.new err.old err.new }
    ensures closed { result ≡ Err Failure.Closed → WriteClosed out.old out.new err.old err.new }
    ensures writes_on { result ≢ Err Failure.Write → result ≢ Err Failure.Closed
        → NoneFailed out.old out.new × NoneFailed err.old err.new }
    ensures kind { IfErr result StopsDump }
{
    match decode_dump(alloc, asked, reader, out, err) {
        Ok(tally) => Ok(DumpShown {
            status: dump_status(tally),
            elsewhere: tally.elsewhere,
        }),
        Err(DumpFault::Memory) => Err(Failure::Memory),
        Err(DumpFault::Read) => Err(Failure::Read),
        Err(DumpFault::TooLong) => Err(Failure::TooLong),
        Err(DumpFault::Write) => Err(Failure::Write),
        Err(DumpFault::Closed) => Err(Failure::Closed),
    }
}
