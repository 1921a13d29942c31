//! One answer that is held for a request that comes again.

ghost use Rattle.std.specs.Prelude.{◌≡◌};
ghost use Rattle.gtp_reliable.specs.Order.{source_cmp, from_number, octets_cmp};

use gtp_values::Endpoint;
use std::cmp::Ordering;

/// The octets of a request from its sequence number on (TS 29.274 5.1).
fn from_number(request: &[u8]) -> &[u8]
    ensures { result.now ≡ from_number request.now }
{
    request.get(8..).unwrap_or(&[])
}

/// How the octets of a request stand to those of another.
fn compare_octets(one: &[u8], other: &[u8]) -> Ordering
    ensures { result ≡ octets_cmp one.now other.now }
{
    from_number(one)
        .cmp(from_number(other))
        .then(one.cmp(other))
}

/// How a source stands to another.
fn compare_sources(one: &Endpoint, other: &Endpoint) -> Ordering
    ensures { result ≡ source_cmp one.now other.now }
{
    one.cmp(other)
}

/// An answer that is held for a request.
#[derive(Debug, Drop)]
pub struct Pair {
    /// Where the request came from.
    pub source: Endpoint,
    /// The octets of the request.
    pub request: Vec<u8>,
    /// The octets of the answer.
    pub answer: Vec<u8>,
    /// The tick in which it was kept, modulo 2^64.
    pub kept: u64,
}

impl Pair {
    ghost use Rattle.std.specs.Prelude.{◌≡◌, ◌≤◌, is_some};
    ghost use Rattle.gtp_reliable.specs.Held.{after_tick};
    ghost use Rattle.gtp_reliable.specs.Order.{question_cmp};
    ghost use Rattle.gtp_reliable.specs.Index.{asked, question};
    ghost use Rattle.gtp_reliable.specs.Aging.{age, seen};

    /// The ticks since it was kept.
    pub fn age(&self, now: u64) -> u64
        ensures { result ≡ age now self.now }
    {
        now.wrapping_sub(self.kept)
    }

    /// Whether the next tick leaves it held.
    pub fn stays(&self, now: u64, hold: u32) -> bool
        requires { 1 ≤ hold }
        ensures { result ≡ is_some (after_tick hold (seen now self.now)) }
    {
        self.age(now) < u64::from(hold - 1)
    }

    /// How its request stands to a request from this source with these octets.
    pub fn compare(&self, source: Endpoint, request: &[u8]) -> Ordering
        ensures { result ≡ question_cmp (asked self.now) (question source request.now) }
    {
        compare_sources(&self.source, &source).then(compare_octets(
            self.request.as_slice(),
            request,
        ))
    }
}
