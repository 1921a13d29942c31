//! Reading.

ghost use Rattle.std.specs.Prelude.{◌≡◌, ◌≢◌, ◌-◌, ◌≤◌, ◌<◌, ◌++◌, length, take, All, MatchResult, IfOk, IfErr, OnOk};
ghost use Rattle.std.specs.Io.{ReadsAtMost};
ghost use Rattle.std.specs.Io.KnownBytes.{ReadConsumes};
ghost use Rattle.gtp_counted.specs.Counts.{inner_of, NoneFailed, OneFailed};
ghost use Rattle.gtp_counted.specs.Parts.{TakesPart, IsUntaken, IsUnread};

use crate::counted::{Counted, Failed};
use memchr::memchr;
use std::alloc::AllocError;
use std::io::{BufRead, ErrorKind, Read};

/// Why no more was read.
#[derive(Clone, Copy, Debug, PartialEq, Eq)]
pub enum Unread {
    Failed(Failed),
    /// An allocation was refused.
    Memory,
}

/// Why no part was taken: a call failed, or an allocation was refused.
enum Untaken {
    Failed(ErrorKind),
    Memory,
}

/// How many octets stand up to and with the first such octet, or else in all.
fn size_through(octets: &[u8], byte: u8) -> usize
    ensures bound { result ≤ length octets.now }
    ensures some { 0 < length octets.now → 0 < result }
    ensures before { All (λ x. x ≢ byte) (take (result - 1) octets.now) }
{
    match memchr(byte, octets) {
        Some(at) => at + 1,
        None => octets.len(),
    }
}

/// Appends these octets, or as many as there is room for.
fn append_within(most: usize, held: &mut Vec<u8>, octets: &[u8]) -> Result<(), AllocError>
    requires { length held.old.items ≤ most }
    ensures { OnOk result (held.new.items ≡ take most (held.old.items ++ octets.now)) }
{
    let room = most - held.len();
    held.extend_from_slice(&octets[..room.min(octets.len())])
}

/// Takes what the reader has at hand, up to and with the first such octet. Whether that is the last part.
fn take_part<R: BufRead>(
    reader: &mut R,
    byte: u8,
    most: usize,
    held: &mut Vec<u8>,
) -> Result<bool, Untaken>
    requires { length held.old.items ≤ most }
    ensures taken { IfOk result (TakesPart byte most
        (R.remaining reader.old) (R.remaining reader.new) held.old.items held.new.items) }
    ensures untaken { IfErr result (λ why. IsUntaken why
        (R.remaining reader.old) (R.remaining reader.new) held.old.items held.new.items) }
{
    let octets = match reader.fill_buf() {
        Ok(octets) => octets,
        Err(error) => return Err(Untaken::Failed(error.kind())),
    };
    let size = size_through(octets, byte);
    if append_within(most, held, &octets[..size]).is_err() {
        return Err(Untaken::Memory);
    }
    let is_last = size == 0 || octets[size - 1] == byte;
    reader.consume(size);
    Ok(is_last)
}

impl<R: Read> Counted<R> {
    /// One call of the reader.
    pub fn read(&mut self, buf: &mut [u8]) -> Result<usize, Failed>
        ensures bound { ReadsAtMost result buf.new }
        ensures bytes { ReadConsumes
            (R.remaining (inner_of self.old)) (R.remaining (inner_of self.new)) result buf.new }
        ensures count { MatchResult result
            (λ _. NoneFailed self.old self.new)
            (λ failed. OneFailed failed.kind self.old self.new) }
    {
        for _ in 0..u64::MAX {
            match self.inner.read(buf) {
                Ok(n) => return Ok(n),
                Err(error) if error.kind() == ErrorKind::Interrupted => {}
                Err(error) => return Err(self.fail(error.kind())),
            }
        }
        Err(self.fail(ErrorKind::Interrupted))
    }
}

impl<R: BufRead> Counted<R> {
    /// Takes the next part of the octets that end with the first such octet, or with the reader's last. Appends it, but so
    /// that no more than so many octets are held. Whether that was the last part.
    pub fn append_through(
        &mut self,
        byte: u8,
        most: usize,
        held: &mut Vec<u8>,
    ) -> Result<bool, Unread>
        requires { length held.old.items ≤ most }
        ensures taken { IfOk result (TakesPart byte most
            (R.remaining (inner_of self.old)) (R.remaining (inner_of self.new))
            held.old.items held.new.items) }
        ensures count { MatchResult result
            (λ _. NoneFailed self.old self.new)
            (λ unread. IsUnread unread self.old self.new) }
    {
        for _ in 0..u64::MAX {
            match take_part(&mut self.inner, byte, most, held) {
                Ok(is_last) => return Ok(is_last),
                Err(Untaken::Failed(ErrorKind::Interrupted)) => {}
                Err(Untaken::Failed(kind)) => return Err(Unread::Failed(self.fail(kind))),
                Err(Untaken::Memory) => return Err(Unread::Memory),
            }
        }
        Err(Unread::Failed(self.fail(ErrorKind::Interrupted)))
    }
}
