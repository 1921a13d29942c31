//! What counts failed calls.

ghost use Rattle.std.specs.Prelude.{◌≡◌, ◌+◌, ◌-◌, ◌^◌, ◌<◌, None, Some};
ghost use Rattle.gtp_counted.specs.Counts.{inner_of, failures_of, last_of};

use std::io::ErrorKind;

/// A call that failed, and was counted.
#[derive(Clone, Copy, Debug, PartialEq, Eq)]
pub struct Failed {
    /// The kind of its error.
    pub kind: ErrorKind,
}

/// A reader or a writer, how many of its calls failed, and the kind of error of the last that did. Nothing else
/// changes these.
///
/// A call that was interrupted is made again, and has failed only if that happens 2^64 - 1 times on end. A count that has
/// reached 2^64 - 1 stays there.
#[derive(Drop)]
pub struct Counted<T> {
    pub(crate) inner: T,
    failures: u64,
    last: Option<ErrorKind>,
}

impl<T> Counted<T> {
    /// An object of which no call has failed yet.
    pub fn new(inner: T) -> Counted<T>
        ensures inner { inner_of result ≡ inner }
        ensures failures { failures_of result ≡ 0 }
        ensures last { last_of result ≡ None }
    {
        Counted {
            inner,
            failures: 0,
            last: None,
        }
    }

    /// The number of calls that failed.
    pub fn failures(&self) -> u64
        ensures { result ≡ failures_of self.now }
    {
        self.failures
    }

    /// The kind of error of the last call that failed.
    pub fn last(&self) -> Option<ErrorKind>
        ensures { result ≡ last_of self.now }
    {
        self.last
    }

    /// What was wrapped.
    pub fn into_inner(self) -> T
        ensures { result ≡ inner_of self }
    {
        self.inner
    }

    /// Counts a call that failed.
    pub(crate) fn fail(&mut self, kind: ErrorKind) -> Failed
        ensures inner { inner_of self.new ≡ inner_of self.old }
        ensures kind { result.kind ≡ kind }
        ensures last { last_of self.new ≡ Some kind }
        ensures count { failures_of self.old < 2 ^ 64 - 1
            → failures_of self.new ≡ failures_of self.old + 1 }
    {
        self.failures = self.failures.saturating_add(1);
        self.last = Some(kind);
        Failed { kind }
    }
}
