//! One gateway, or a node, behind standard input and output.

ghost use Rattle.std.specs.Prelude.{◌≡◌, ◌≢◌, ◌-◌, ◌^◌, ◌<◌, ◌≤◌, Err, IfOk, IfErr, IfSome, OnErr, length, take};
ghost use Rattle.std.specs.Io.BufRead.{take_through};
ghost use Rattle.gtp_counted.specs.Counts.{inner_of, failures_of};
ghost use Rattle.gtp_serve.specs.Served.{IsServed, IsFirstServed, IsServedInPart, HasNoHead};
ghost use Rattle.gtp_commands.specs.Stops.{TellsReads, TellsClosed, StopsServing, IsBadHead};

use crate::command::Failure;
use crate::dumping::BUFFERED;
use crate::hinting::{hint_of_gateway, hint_of_node};
use gtp_counted::Counted;
use gtp_serve::{GatewayServer, NodeServer, ServeFault, Server, serve};
use std::alloc::Global;
use std::io::{self, BufRead, BufReader, BufWriter, Write};

/// Answers the lines of a reader, and returns the exit status, 0. `bad` if the first line starts nothing
/// (`head_line` is that line then, or its first 1,048,577 octets),
/// `Memory` if an allocation was refused for that line, for holding a line or for an answer, `Read` if a read failed, `Write` or
/// `Closed` if a write did, `TooLong` if there are 2^64 - 1 octets or more.
fn serve_from<S: Server + Drop, R: BufRead, W: Write>(
    alloc: Global,
    bad: Failure,
    reader: &mut Counted<R>,
    out: &mut Counted<W>,
    head_line: &mut Vec<u8>,
) -> Result<u8, Failure>
    requires bad { IsBadHead bad }
    requires reads { failures_of reader.old < 2 ^ 64 - 1 }
    requires writes { failures_of out.old < 2 ^ 64 - 1 }
    ensures served { IfOk result (λ _. IfSome (R.remaining (inner_of reader.old)) (λ octets.
        IsServed S.Starts S.Does octets (W.contents (inner_of out.old)) (W.contents (inner_of out.new)))) }
    ensures status { IfOk result (λ status. status ≡ 0) }
    ensures bad { result ≡ Err bad → (out.new ≡ out.old)
        × IfSome (R.remaining (inner_of reader.old)) (HasNoHead S.SaysNone) }
    ensures held { result ≡ Err bad →
        IfSome (R.remaining (inner_of reader.old)) (λ octets.
        head_line.new.items ≡ take 1048577 (take_through 10 octets)) }
    ensures first { IfErr result (λ failure. failure ≢ Failure.Write → failure ≢ Failure.Closed →
        IfSome (R.remaining (inner_of reader.old)) (λ octets. IsFirstServed S.Starts S.Does octets
        (W.contents (inner_of out.old)) (W.contents (inner_of out.new)))) }
    ensures front { OnErr result (IfSome (R.remaining (inner_of reader.old)) (λ octets.
        IsServedInPart S.Starts S.Does octets (W.contents (inner_of out.old)) (W.contents (inner_of out.new)))) }
    ensures long { result ≡ Err Failure.TooLong →
        IfSome (R.remaining (inner_of reader.old)) (λ octets. 2 ^ 64 - 1 ≤ length octets) }
    ensures reads { TellsReads result reader.old reader.new }
    ensures writes { TellsClosed result out.old out.new }
    ensures kind { IfErr result (StopsServing bad) }
{
    match serve::<S, R, W>(alloc, reader, out, head_line) {
        Ok(()) => Ok(0),
        Err(ServeFault::BadHead) => Err(bad),
        Err(ServeFault::Memory) => Err(Failure::Memory),
        Err(ServeFault::Read) => Err(Failure::Read),
        Err(ServeFault::TooLong) => Err(Failure::TooLong),
        Err(ServeFault::Write) => Err(Failure::Write),
        Err(ServeFault::Closed) => Err(Failure::Closed),
    }
}

/// Answers the lines of standard input, and returns the exit status.
fn served<S: Server + Drop, R: Print + Input>(
    rt: &R,
    alloc: Global,
    bad: Failure,
    head_line: &mut Vec<u8>,
) -> Result<u8, Failure>
    requires { IsBadHead bad }
    ensures { IfOk result (λ status. status ≤ 2) }
{
    let reader = BufReader::with_capacity(alloc, BUFFERED, rt.reader()).map_err(
        |_| Failure::Memory,
    )?;
    let out = BufWriter::with_capacity(alloc, BUFFERED, io::writer(rt)).map_err(
        |_| Failure::Memory,
    )?;
    serve_from::<S, _, _>(
        alloc,
        bad,
        &mut Counted::new(reader),
        &mut Counted::new(out),
        head_line,
    )
}

/// Answers the lines of standard input to one gateway, says on standard error why the first one says none, if it says none, and
/// returns the exit status.
pub fn gateway_printed<R: Print + Eprint + Input>(rt: &R, alloc: Global) -> Result<u8, Failure>
    ensures { IfOk result (λ status. status ≤ 2) }
{
    let mut head_line = Vec::new(alloc);
    let served = served::<GatewayServer, R>(rt, alloc, Failure::BadGateway, &mut head_line);
    if served == Err(Failure::BadGateway) {
        let _ = eprintln!(rt; "{}", Failure::BadGateway);
        let _ = hint_of_gateway(rt, alloc, &head_line);
        return Ok(2);
    }
    served
}

/// The same of a node.
pub fn node_printed<R: Print + Eprint + Input>(rt: &R, alloc: Global) -> Result<u8, Failure>
    ensures { IfOk result (λ status. status ≤ 2) }
{
    let mut head_line = Vec::new(alloc);
    let served = served::<NodeServer, R>(rt, alloc, Failure::BadNode, &mut head_line);
    if served == Err(Failure::BadNode) {
        let _ = eprintln!(rt; "{}", Failure::BadNode);
        let _ = hint_of_node(rt, alloc, &head_line);
        return Ok(2);
    }
    served
}
