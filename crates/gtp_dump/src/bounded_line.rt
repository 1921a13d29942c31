//! The lines of a dump, one at a time, of which so much is held as a line may have.

ghost use Rattle.std.specs.Prelude.{◌≡◌, ◌≢◌, ◌+◌, ◌-◌, ◌^◌, ◌<◌, ◌≤◌, ◌⊎◌, length, take, Err, IfErr, IfSome, OnOk};
ghost use Rattle.std.specs.Io.BufRead.{take_through, DropsThrough};
ghost use Rattle.std.specs.Io.KnownBytes.{IsAtEnd};
ghost use Rattle.gtp_counted.specs.Counts.{inner_of, failures_of};

use crate::decoding::DumpFault;
use crate::text::MOST_OCTETS;
use gtp_counted::{Counted, UnreadLine};
use std::io::BufRead;

/// What is held of a line: an octet more than it may have.
const MOST_HELD: usize = MOST_OCTETS + 1;

/// Reads on through the next line feed, or to the end, and holds the first octets of that. None are held only at the end.
pub fn next_line<R: BufRead>(reader: &mut Counted<R>, line: &mut Vec<u8>) -> Result<(), DumpFault>
    requires { failures_of reader.old < 2 ^ 64 - 1 }
    ensures held { OnOk result (IfSome (R.remaining (inner_of reader.old))
        (λ octets. line.new.items ≡ take 1048577 (take_through 10 octets))) }
    ensures rest { OnOk result (DropsThrough
        (R.remaining (inner_of reader.old)) (R.remaining (inner_of reader.new)) 10) }
    ensures end { OnOk result
        (length line.new.items ≡ 0 → IsAtEnd (R.remaining (inner_of reader.old))) }
    ensures long { result ≡ Err DumpFault.TooLong →
        IfSome (R.remaining (inner_of reader.old)) (λ octets. 2 ^ 64 - 1 ≤ length octets) }
    ensures failed { result ≡ Err DumpFault.Read
        → failures_of reader.new ≡ failures_of reader.old + 1 }
    ensures unfailed { result ≢ Err DumpFault.Read
        → failures_of reader.new ≡ failures_of reader.old }
    ensures kind { IfErr result (λ fault. (fault ≡ DumpFault.TooLong) ⊎ (fault ≡ DumpFault.Memory)
        ⊎ (fault ≡ DumpFault.Read)) }
{
    match reader.next_line(MOST_HELD, line) {
        Ok(()) => Ok(()),
        Err(UnreadLine::TooLong) => Err(DumpFault::TooLong),
        Err(UnreadLine::Memory) => Err(DumpFault::Memory),
        Err(UnreadLine::Read) => Err(DumpFault::Read),
    }
}
