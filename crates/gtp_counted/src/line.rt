//! Lines, one at a time.

ghost use Rattle.std.specs.Prelude.{◌≡◌, ◌≢◌, ◌+◌, ◌-◌, ◌^◌, ◌<◌, ◌≤◌, length, take, Err, IfSome, OnOk};
ghost use Rattle.std.specs.Io.BufRead.{take_through, DropsThrough};
ghost use Rattle.std.specs.Io.KnownBytes.{IsAtEnd};
ghost use Rattle.gtp_counted.specs.Counts.{inner_of, failures_of};

use crate::counted::Counted;
use crate::reading::Unread;
use std::io::BufRead;

/// Why a line was not read to its end.
#[derive(Clone, Copy, Debug, PartialEq, Eq)]
pub enum UnreadLine {
    /// It has 2^64 - 1 octets or more.
    TooLong,
    /// An allocation was refused.
    Memory,
    /// A read failed.
    Read,
}

impl<R: BufRead> Counted<R> {
    /// Reads on through the next line feed, or to the end, and holds the first octets of that, so many of them. None are held
    /// only at the end.
    pub fn next_line(&mut self, most: usize, line: &mut Vec<u8>) -> Result<(), UnreadLine>
        requires few { failures_of self.old < 2 ^ 64 - 1 }
        requires some { 0 < most }
        ensures held { OnOk result (IfSome (R.remaining (inner_of self.old))
            (λ octets. line.new.items ≡ take most (take_through 10 octets))) }
        ensures rest { OnOk result (DropsThrough
            (R.remaining (inner_of self.old)) (R.remaining (inner_of self.new)) 10) }
        ensures end { OnOk result
            (length line.new.items ≡ 0 → IsAtEnd (R.remaining (inner_of self.old))) }
        ensures long { result ≡ Err UnreadLine.TooLong →
            IfSome (R.remaining (inner_of self.old)) (λ octets. 2 ^ 64 - 1 ≤ length octets) }
        ensures failed { result ≡ Err UnreadLine.Read
            → failures_of self.new ≡ failures_of self.old + 1 }
        ensures unfailed { result ≢ Err UnreadLine.Read
            → failures_of self.new ≡ failures_of self.old }
    {
        line.clear();
        for _ in 0..u64::MAX {
            match self.append_through(b'\n', most, line) {
                Ok(true) => return Ok(()),
                Ok(false) => {}
                Err(Unread::Failed(_)) => return Err(UnreadLine::Read),
                Err(Unread::Memory) => return Err(UnreadLine::Memory),
            }
        }
        Err(UnreadLine::TooLong)
    }
}
