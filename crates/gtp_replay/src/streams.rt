//! All octets of a reader, up to a limit, and all octets to a writer.

ghost use Rattle.std.specs.Prelude.{◌≡◌, ◌+◌, ◌-◌, ◌^◌, ◌<◌, ◌≢◌, ◌⊎◌, take, IfOk, IfErr, OnOk, OnErr, IfSome};
ghost use Rattle.std.specs.Io.KnownBytes.{Appends};
ghost use Rattle.gtp_counted.specs.Counts.{inner_of, failures_of};
ghost use Rattle.gtp_counted.specs.Streams.{WritesFront};
ghost use Rattle.gtp_replay.specs.Streams.{ConsumesUpTo};

use crate::verdict::ReplayFault;
use gtp_counted::Counted;
use std::alloc::Global;
use std::io::{Read, Write};

/// What one call of a reader may give.
const CHUNK: usize = 4096;

/// All that the reader has, but at most so many octets.
pub(crate) fn read_octets<R: Read>(
    alloc: Global,
    reader: &mut Counted<R>,
    most: usize,
) -> Result<Vec<u8>, ReplayFault>
    requires { failures_of reader.old < 2 ^ 64 - 1 }
    ensures octets { IfOk result (λ v.
        IfSome (R.remaining (inner_of reader.old)) (λ all. v.items ≡ take most all)) }
    ensures consumed { ConsumesUpTo most
        (R.remaining (inner_of reader.old)) (R.remaining (inner_of reader.new)) }
    ensures failed { result ≡ Err ReplayFault.Read
        → failures_of reader.new ≡ failures_of reader.old + 1 }
    ensures unfailed { result ≢ Err ReplayFault.Read
        → failures_of reader.new ≡ failures_of reader.old }
    ensures kind { IfErr result (λ e. (e ≡ ReplayFault.Memory) ⊎ (e ≡ ReplayFault.Read)) }
{
    let mut octets = Vec::new(alloc);
    let mut chunk = [0u8; CHUNK];
    while octets.len() < most {
        let room = CHUNK.min(most - octets.len());
        let buffer = &mut chunk[..room];
        match reader.read(buffer) {
            Ok(0) => break,
            Ok(n) => octets.extend_from_slice(&buffer[..n])?,
            Err(_) => return Err(ReplayFault::Read),
        }
    }
    Ok(octets)
}

/// All octets of a text.
pub(crate) fn write_octets<W: Write>(
    writer: &mut Counted<W>,
    text: &[u8],
) -> Result<(), ReplayFault>
    requires { failures_of writer.old < 2 ^ 64 - 1 }
    ensures ok { OnOk result
        (Appends (W.contents (inner_of writer.old)) (W.contents (inner_of writer.new)) text.now) }
    ensures front { WritesFront
        (W.contents (inner_of writer.old)) (W.contents (inner_of writer.new)) text.now }
    ensures failed { OnErr result (failures_of writer.new ≡ failures_of writer.old + 1) }
    ensures unfailed { OnOk result (failures_of writer.new ≡ failures_of writer.old) }
    ensures kind { IfErr result (λ e. e ≡ ReplayFault.Write) }
{
    match writer.write_all(text) {
        Ok(()) => Ok(()),
        Err(_) => Err(ReplayFault::Write),
    }
}
