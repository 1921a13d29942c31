//! A handle: a pointer, and whether it owns something.
ghost use Rattle.std.specs.Prelude.{◌≡◌};
ghost use Rattle.gtp_c.specs.Held.{count_of};

use crate::owned_pointer::OwnedPointer;

/// What C holds, and never looks through. Zeroes are an empty one.
#[repr(C)]
pub struct Handle {
    pub(crate) hidden: OwnedPointer,
    /// How many values the pointer owns: 0 or 1.
    pub(crate) count: u64,
    pub(crate) ghost tied: { count ≡ count_of hidden.value },
}
