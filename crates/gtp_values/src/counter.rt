//! Restart counters.

ghost use Rattle.std.specs.Prelude.{◌≡◌};
ghost use Rattle.gtp_values.specs.Counter.{age_of};

/// How often a gateway has restarted, modulo 256 (TS 29.274 8.5, TS 23.007 18).
#[derive(Clone, Copy, Debug, PartialEq, Eq)]
pub struct Counter(pub u8);

/// How a counter stands to one that is known. The standard asks whether it is greater, and leaves
/// open how one that turned over to 0 compares (TS 23.007 18): half the circle is a choice of this
/// product.
#[derive(Clone, Copy, Debug, PartialEq, Eq)]
pub enum Age {
    /// The same counter.
    Same,
    /// A counter of a later start: 1 to 127 ahead, modulo 256.
    Later,
    /// A counter of an earlier start: all others.
    Earlier,
}

impl Counter {
    /// How `new` stands to `self`, by their difference modulo 256.
    pub fn age(self, new: Counter) -> Age
        ensures { result ≡ age_of self.0 new.0 }
    {
        match new.0.wrapping_sub(self.0) {
            0 => Age::Same,
            1..=127 => Age::Later,
            _ => Age::Earlier,
        }
    }
}
