//! Lines in, lines out.

ghost use Rattle.std.specs.Prelude.{◌≡◌, ◌≢◌, ◌⊎◌, ◌-◌, ◌^◌, ◌<◌, ◌≤◌, [], length, take, Err, IfOk, IfErr, IfSome, OnOk, OnErr};
ghost use Rattle.std.specs.Io.BufRead.{take_through, DropsThrough};
ghost use Rattle.std.specs.Io.KnownBytes.{Appends, IsAtEnd};
ghost use Rattle.gtp_counted.specs.Counts.{inner_of, failures_of};
ghost use Rattle.gtp_counted.specs.Streams.{WritesFront};
ghost use Rattle.gtp_serve.specs.Stops.{TellsReads, TellsWrites};
ghost use Rattle.gtp_serve.specs.Served.{Answers, IsLineOf, HasAnswer, AreAnswered, AreFirstAnswered, AreAnsweredInPart, IsAnswered, IsAnsweredInPart, Known, IsStarted, IsServed, IsFirstServed, IsServedInPart, HasNoHead};

use crate::reply::word_line;
use crate::server::Server;
use gtp_counted::{Counted, Failed, UnreadLine};
use gtp_scenario::Fault;
use std::alloc::{AllocError, Global};
use std::io::{BufRead, ErrorKind, Write};
use thiserror::Error;

/// The most octets of a line, with its line feed.
pub const MOST_OCTETS: usize = 1_048_576;

/// What is held of a line: an octet more than it may have.
const MOST_HELD: usize = MOST_OCTETS + 1;

/// Why not all lines were answered.
#[derive(Clone, Copy, Debug, PartialEq, Eq, Error)]
pub enum ServeFault {
    /// The first line says no gateway.
    #[error("bad gateway head")]
    BadHead,
    /// There are 2^64 - 1 octets or more, which are not counted.
    #[error("too long")]
    TooLong,
    /// An allocation was refused for the first line, for holding a line, or for an answer.
    #[error("no memory")]
    Memory,
    /// A read failed.
    #[error("read failed")]
    Read,
    /// A write failed.
    #[error("write failed")]
    Write,
    /// The output was closed by whoever reads it.
    #[error("closed")]
    Closed,
}

/// Why a write failed.
fn unwritten(failed: Failed) -> ServeFault
    ensures closed { result ≡ ServeFault.Closed → failed.kind ≡ ErrorKind.BrokenPipe }
    ensures write { result ≡ ServeFault.Write → failed.kind ≢ ErrorKind.BrokenPipe }
    ensures kind { (result ≡ ServeFault.Write) ⊎ (result ≡ ServeFault.Closed) }
{
    match failed.kind {
        ErrorKind::BrokenPipe => ServeFault::Closed,
        _ => ServeFault::Write,
    }
}

/// Writes a line, and hands it on at once.
fn write_line<W: Write>(writer: &mut Counted<W>, line: &[u8]) -> Result<(), ServeFault>
    requires { failures_of writer.old < 2 ^ 64 - 1 }
    ensures written { OnOk result (Appends
        (W.contents (inner_of writer.old)) (W.contents (inner_of writer.new)) line.now) }
    ensures front { WritesFront
        (W.contents (inner_of writer.old)) (W.contents (inner_of writer.new)) line.now }
    ensures writes { TellsWrites result writer.old writer.new }
    ensures kind { IfErr result (λ fault. (fault ≡ ServeFault.Write) ⊎ (fault ≡ ServeFault.Closed)) }
{
    if let Err(failed) = writer.write_all(line) {
        return Err(unwritten(failed));
    }
    match writer.flush() {
        Ok(()) => Ok(()),
        Err(failed) => Err(unwritten(failed)),
    }
}

/// Reads a line, or its first octets where it is longer than a line may be. None are held only at the end.
fn next_line<R: BufRead>(reader: &mut Counted<R>, line: &mut Vec<u8>) -> Result<(), ServeFault>
    requires { failures_of reader.old < 2 ^ 64 - 1 }
    ensures held { OnOk result (IfSome (R.remaining (inner_of reader.old))
        (λ octets. line.new.items ≡ take 1048577 (take_through 10 octets))) }
    ensures rest { OnOk result (DropsThrough
        (R.remaining (inner_of reader.old)) (R.remaining (inner_of reader.new)) 10) }
    ensures end { OnOk result
        (length line.new.items ≡ 0 → IsAtEnd (R.remaining (inner_of reader.old))) }
    ensures long { result ≡ Err ServeFault.TooLong →
        IfSome (R.remaining (inner_of reader.old)) (λ octets. 2 ^ 64 - 1 ≤ length octets) }
    ensures reads { TellsReads result reader.old reader.new }
    ensures kind { IfErr result (λ fault. (fault ≡ ServeFault.TooLong) ⊎ (fault ≡ ServeFault.Memory)
        ⊎ (fault ≡ ServeFault.Read)) }
{
    match reader.next_line(MOST_HELD, line) {
        Ok(()) => Ok(()),
        Err(UnreadLine::TooLong) => Err(ServeFault::TooLong),
        Err(UnreadLine::Memory) => Err(ServeFault::Memory),
        Err(UnreadLine::Read) => Err(ServeFault::Read),
    }
}

/// Answers a line: one that is too long is not read.
fn answer<S: Server>(alloc: Global, server: &mut S, line: &[u8]) -> Result<Vec<u8>, AllocError>
    ensures answered { IfOk result (λ text. IsLineOf (Answers S.Does line.now) server.old server.new text.items) }
    ensures done { HasAnswer (Answers S.Does line.now) server.old server.new }
{
    if line.len() > MOST_OCTETS {
        return word_line(alloc, None, "too long");
    }
    server.answer(alloc, line)
}

/// Answers a line, of which so much is held.
fn answer_line<S: Server, W: Write>(
    alloc: Global,
    server: &mut S,
    line: &[u8],
    writer: &mut Counted<W>,
) -> Result<(), ServeFault>
    requires writes { failures_of writer.old < 2 ^ 64 - 1 }
    ensures answered { OnOk result (IsAnswered S.Does line.now server.old server.new
        (W.contents (inner_of writer.old)) (W.contents (inner_of writer.new))) }
    ensures front { IsAnsweredInPart S.Does line.now server.old server.new
        (W.contents (inner_of writer.old)) (W.contents (inner_of writer.new)) }
    ensures memory { result ≡ Err ServeFault.Memory → writer.new ≡ writer.old }
    ensures writes { TellsWrites result writer.old writer.new }
    ensures kind { IfErr result (λ fault. (fault ≡ ServeFault.Memory) ⊎ (fault ≡ ServeFault.Write)
        ⊎ (fault ≡ ServeFault.Closed)) }
{
    let Ok(answer) = answer(alloc, server, line) else {
        return Err(ServeFault::Memory);
    };
    write_line(writer, &answer)
}

/// Answers each line that is left.
#[tactic(auto, using(gtp_counted::proofs::Lines::lasts_long, gtp_counted::proofs::Lines::lasts_within))]
fn answer_lines<S: Server, R: BufRead, W: Write>(
    alloc: Global,
    server: &mut S,
    reader: &mut Counted<R>,
    writer: &mut Counted<W>,
) -> Result<(), ServeFault>
    requires reads { failures_of reader.old < 2 ^ 64 - 1 }
    requires writes { failures_of writer.old < 2 ^ 64 - 1 }
    ensures all { OnOk result (IfSome (R.remaining (inner_of reader.old)) (λ octets.
        AreAnswered S.Does octets [] server.old server.new
        (W.contents (inner_of writer.old)) (W.contents (inner_of writer.new)))) }
    ensures first { IfErr result (λ fault. fault ≢ ServeFault.Write → fault ≢ ServeFault.Closed →
        IfSome (R.remaining (inner_of reader.old)) (λ octets. AreFirstAnswered S.Does octets server.old
        (W.contents (inner_of writer.old)) (W.contents (inner_of writer.new)))) }
    ensures front { OnErr result (IfSome (R.remaining (inner_of reader.old)) (λ octets.
        AreAnsweredInPart S.Does octets server.old
        (W.contents (inner_of writer.old)) (W.contents (inner_of writer.new)))) }
    ensures long { result ≡ Err ServeFault.TooLong →
        IfSome (R.remaining (inner_of reader.old)) (λ octets. 2 ^ 64 - 1 ≤ length octets) }
    ensures reads { TellsReads result reader.old reader.new }
    ensures writes { TellsWrites result writer.old writer.new }
    ensures kind { IfErr result (λ fault. fault ≢ ServeFault.BadHead) }
{
    let mut line = Vec::new(alloc);
    for _ in 0..u64::MAX {
        if let Err(fault) = next_line(reader, &mut line) {
            return Err(fault);
        }
        if line.is_empty() {
            return Ok(());
        }
        if let Err(fault) = answer_line(alloc, server, &line, writer) {
            return Err(fault);
        }
    }
    Err(ServeFault::TooLong)
}

/// Reads the first line, and starts what it says.
fn start<S: Server, R: BufRead>(
    alloc: Global,
    reader: &mut Counted<R>,
    head_line: &mut Vec<u8>,
) -> Result<S, ServeFault>
    requires { failures_of reader.old < 2 ^ 64 - 1 }
    ensures started { IfOk result (λ server. Known (λ octets left. IsStarted S.Starts octets left server)
        (R.remaining (inner_of reader.old)) (R.remaining (inner_of reader.new))) }
    ensures bad { result ≡ Err ServeFault.BadHead →
        IfSome (R.remaining (inner_of reader.old)) (HasNoHead S.SaysNone) }
    ensures held { result ≡ Err ServeFault.BadHead →
        IfSome (R.remaining (inner_of reader.old)) (λ octets.
        head_line.new.items ≡ take 1048577 (take_through 10 octets)) }
    ensures long { result ≡ Err ServeFault.TooLong →
        IfSome (R.remaining (inner_of reader.old)) (λ octets. 2 ^ 64 - 1 ≤ length octets) }
    ensures reads { TellsReads result reader.old reader.new }
    ensures kind { IfErr result (λ fault. fault ≢ ServeFault.Write × fault ≢ ServeFault.Closed) }
{
    if let Err(fault) = next_line(reader, head_line) {
        return Err(fault);
    }
    if head_line.len() > MOST_OCTETS {
        return Err(ServeFault::BadHead);
    }
    match S::start(alloc, head_line) {
        Ok(server) => Ok(server),
        Err(Fault::Wrong) => Err(ServeFault::BadHead),
        Err(Fault::Memory) => Err(ServeFault::Memory),
    }
}

/// Something behind lines: starts what the first line says, and answers each other line with
/// one line of JSON, which is handed on at once. The first line is answered with `{"outcome":"started"}`. A line ends with a line
/// feed, or with the text, and has at most 1,048,576 octets with that; no more than one octet more is held of one.
///
/// An answer is an object. Of a line that asks nothing it has the `outcome` `bad line` or `too long`, and where an allocation was
/// refused `no memory`; nothing has changed then. `contexts` is answered with `sessions` and `bearers`, and all else with the
/// outcome of a gateway, with what is `sent`, the packet that was `accepted`, the sequence numbers of the requests that it
/// `gave_up`, and the octets of those of which it `forgot` the answers.
///
/// `BadHead` if the first line starts nothing: nothing was written, and `head_line` is that line, or its first 1,048,577 octets. `Read` if a read failed, `Write` if a write did, `Closed` if
/// the reader of the output closed it, `Memory` if an allocation was refused for the first line, for holding a line or for an
/// answer, `TooLong` if there are 2^64 - 1 octets or more. What was written is the answers to the first lines, after `Write` and
/// `Closed` a beginning of them.
pub fn serve<S: Server + Drop, R: BufRead, W: Write>(
    alloc: Global,
    reader: &mut Counted<R>,
    writer: &mut Counted<W>,
    head_line: &mut Vec<u8>,
) -> Result<(), ServeFault>
    requires reads { failures_of reader.old < 2 ^ 64 - 1 }
    requires writes { failures_of writer.old < 2 ^ 64 - 1 }
    ensures served { OnOk result (IfSome (R.remaining (inner_of reader.old)) (λ octets.
        IsServed S.Starts S.Does octets (W.contents (inner_of writer.old)) (W.contents (inner_of writer.new)))) }
    ensures bad { result ≡ Err ServeFault.BadHead → (writer.new ≡ writer.old)
        × IfSome (R.remaining (inner_of reader.old)) (HasNoHead S.SaysNone) }
    ensures held { result ≡ Err ServeFault.BadHead →
        IfSome (R.remaining (inner_of reader.old)) (λ octets.
        head_line.new.items ≡ take 1048577 (take_through 10 octets)) }
    ensures first { IfErr result (λ fault. fault ≢ ServeFault.Write → fault ≢ ServeFault.Closed →
        IfSome (R.remaining (inner_of reader.old)) (λ octets. IsFirstServed S.Starts S.Does octets
        (W.contents (inner_of writer.old)) (W.contents (inner_of writer.new)))) }
    ensures front { OnErr result (IfSome (R.remaining (inner_of reader.old)) (λ octets.
        IsServedInPart S.Starts S.Does octets (W.contents (inner_of writer.old)) (W.contents (inner_of writer.new)))) }
    ensures long { result ≡ Err ServeFault.TooLong →
        IfSome (R.remaining (inner_of reader.old)) (λ octets. 2 ^ 64 - 1 ≤ length octets) }
    ensures reads { TellsReads result reader.old reader.new }
    ensures writes { TellsWrites result writer.old writer.new }
{
    let mut server: S = match start(alloc, reader, head_line) {
        Ok(started) => started,
        Err(fault) => return Err(fault),
    };
    let Ok(started) = word_line(alloc, None, "started") else {
        return Err(ServeFault::Memory);
    };
    if let Err(fault) = write_line(writer, &started) {
        return Err(fault);
    }
    answer_lines(alloc, &mut server, reader, writer)
}
