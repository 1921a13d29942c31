//! Large values in messages.

ghost use Rattle.std.specs.Prelude.{◌≡◌, IfOk};

use gtp_values::Memory;
use std::alloc::Global;
use std::marker::Model;
use std::ops::Deref;

/// What a message of a large kind says, in memory of its own, so that it stays where it is when the message
/// is moved. Contracts see what it says.
#[derive(Debug, Drop)]
pub struct Boxed<T> {
    kept: Box<T>,
}

impl<T> Model for Boxed<T> {
    ghost Value = { T };

    ghost view = { λ a. a.kept.value };
}

impl<T> Boxed<T> {
    /// The value in memory of its own; `Memory` where there is none. In line, so that it is written there at once.
    #[inline(always)]
    pub fn new(alloc: Global, value: T) -> Result<Boxed<T>, Memory>
    where
        T: Drop,
        ensures { IfOk result (λ b. b ≡ value) }
    {
        match Box::new(alloc, value) {
            Ok(kept) => Ok(Boxed { kept }),
            Err(_) => Err(Memory),
        }
    }

    /// The value, which leaves its memory.
    pub fn into_inner(self) -> T
        ensures { result ≡ self }
    {
        Box::into_inner(self.kept)
    }
}

impl<T> Deref for Boxed<T> {
    type Target = T;

    ghost deref_gives = { λ b x. x ≡ b };

    fn deref(&self) -> &T
        ensures { result.now ≡ self.now }
    {
        self.kept.as_ref()
    }
}

impl<T: PartialEq> PartialEq for Boxed<T> {
    ghost eq = { T.eq };

    ghost laws = { T.laws };

    fn eq(&self, other: &Boxed<T>) -> bool {
        **self == **other
    }
}

impl<T: Eq> Eq for Boxed<T> {
    ghost laws = { T.Eq.laws };
}
