//! Readers that keep what they have read, or note how it begins and where it ends.

ghost use Rattle.std.specs.Prelude.{◌≡◌};

use std::alloc::Global;
use std::io::{self, Read};

/// A reader, and what was read from it.
#[derive(Drop)]
pub struct Kept<R> {
    inner: R,
    octets: Vec<u8>,
    /// Whether an allocation was refused, so that something is missing.
    lost: bool,
}

impl<R> Kept<R> {
    /// A reader from which nothing was read.
    pub fn new(alloc: Global, inner: R) -> Kept<R>
        ensures { result.inner ≡ inner }
    {
        Kept {
            inner,
            octets: Vec::new(alloc),
            lost: false,
        }
    }

    /// All that was read, unless an allocation was refused.
    pub fn octets(&self) -> Option<&[u8]> {
        if self.lost {
            return None;
        }
        Some(&self.octets)
    }
}

impl<R: Read> Read for Kept<R> {
    ghost remaining = { λ k. R.remaining k.inner };

    fn read(&mut self, buf: &mut [u8]) -> io::Result<usize> {
        let count = self.inner.read(buf)?;
        if self.octets.extend_from_slice(&buf[..count]).is_err() {
            self.lost = true;
        }
        Ok(count)
    }
}

/// How many of its first octets are noted of a reader, at least.
const NOTED: usize = 256;

/// A reader of which is noted how it begins, how many octets were read, and whether its end was met.
#[derive(Drop)]
pub struct Watched<R> {
    inner: R,
    /// The first octets, unless an allocation was refused.
    pub first: Vec<u8>,
    pub count: u64,
    pub ended: bool,
}

impl<R> Watched<R> {
    /// A reader from which nothing was read.
    pub fn new(alloc: Global, inner: R) -> Watched<R>
        ensures { result.inner ≡ inner }
    {
        Watched {
            inner,
            first: Vec::new(alloc),
            count: 0,
            ended: false,
        }
    }
}

impl<R: Read> Read for Watched<R> {
    ghost remaining = { λ w. R.remaining w.inner };

    fn read(&mut self, buf: &mut [u8]) -> io::Result<usize> {
        let count = self.inner.read(buf)?;
        if self.first.len() < NOTED {
            let _ = self.first.extend_from_slice(&buf[..count.min(NOTED)]);
        }
        self.count = self.count.saturating_add(count as u64);
        if count == 0 && !buf.is_empty() {
            self.ended = true;
        }
        Ok(count)
    }
}
