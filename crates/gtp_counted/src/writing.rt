//! Writing.

ghost use Rattle.std.specs.Prelude.{◌≡◌, ◌<◌, ◌≤◌, length, take, Ok, MatchResult, IfOk, OnOk, OnErr};
ghost use Rattle.std.specs.Io.KnownBytes.{Appends, Keeps};
ghost use Rattle.gtp_counted.specs.Counts.{inner_of, NoneFailed, OneFailed};
ghost use Rattle.gtp_counted.specs.Streams.{WritesFront};

use crate::counted::{Counted, Failed};
use std::io::{ErrorKind, Write};

impl<W: Write> Counted<W> {
    /// One call of the writer. A call that takes no octet has failed. To write no octets needs no call, and cannot fail.
    pub fn write(&mut self, buf: &[u8]) -> Result<usize, Failed>
        ensures none { length buf.now ≡ 0 → (result ≡ Ok 0) × (self.new ≡ self.old) }
        ensures some { 0 < length buf.now → IfOk result (λ n. 0 < n) }
        ensures within { IfOk result (λ n. n ≤ length buf.now) }
        ensures ok { IfOk result (λ n. Appends
            (W.contents (inner_of self.old)) (W.contents (inner_of self.new)) (take n buf.now)) }
        ensures err { OnErr result
            (Keeps (W.contents (inner_of self.old)) (W.contents (inner_of self.new))) }
        ensures count { MatchResult result
            (λ _. NoneFailed self.old self.new)
            (λ failed. OneFailed failed.kind self.old self.new) }
    {
        if buf.is_empty() {
            return Ok(0);
        }
        for _ in 0..u64::MAX {
            match self.inner.write(buf) {
                Ok(0) => return Err(self.fail(ErrorKind::WriteZero)),
                Ok(n) => return Ok(n),
                Err(error) if error.kind() == ErrorKind::Interrupted => {}
                Err(error) => return Err(self.fail(error.kind())),
            }
        }
        Err(self.fail(ErrorKind::Interrupted))
    }

    /// Writes all of these octets.
    pub fn write_all(&mut self, octets: &[u8]) -> Result<(), Failed>
        ensures ok { OnOk result (Appends
            (W.contents (inner_of self.old)) (W.contents (inner_of self.new)) octets.now) }
        ensures front { WritesFront
            (W.contents (inner_of self.old)) (W.contents (inner_of self.new)) octets.now }
        ensures count { MatchResult result
            (λ _. NoneFailed self.old self.new)
            (λ failed. OneFailed failed.kind self.old self.new) }
    {
        let mut rest = octets;
        while !rest.is_empty() {
            let taken = self.write(rest)?;
            let (_, left) = rest.split_at(taken);
            rest = left;
        }
        Ok(())
    }

    /// Hands on what is held back.
    pub fn flush(&mut self) -> Result<(), Failed>
        ensures kept { Keeps (W.contents (inner_of self.old)) (W.contents (inner_of self.new)) }
        ensures count { MatchResult result
            (λ _. NoneFailed self.old self.new)
            (λ failed. OneFailed failed.kind self.old self.new) }
    {
        for _ in 0..u64::MAX {
            match self.inner.flush() {
                Ok(()) => return Ok(()),
                Err(error) if error.kind() == ErrorKind::Interrupted => {}
                Err(error) => return Err(self.fail(error.kind())),
            }
        }
        Err(self.fail(ErrorKind::Interrupted))
    }
}
