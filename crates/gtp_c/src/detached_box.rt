//! A box, detached: its pointer and its allocator.
ghost use Rattle.std.specs.Prelude.{◌≡◌};
ghost use Rattle.std.specs.Box.Ownership.{box_owns};

use std::alloc::Allocator;
use std::marker::Model;

/// A box, detached.
pub(crate) struct DetachedBox<T, A: Allocator> {
    pub(crate) at: *mut T,
    pub(crate) alloc: A,
    pub(crate) ghost value: { T },
}

impl<T, A: Allocator> Model for DetachedBox<T, A> {
    ghost also_owns = { λ l. box_owns (A.dealloc_token l.alloc) T.row l.at l.value };
}

impl<T: Drop, A: Allocator> DetachedBox<T, A> {
    /// The parts of a box.
    pub(crate) fn of(value: Box<T, A>) -> DetachedBox<T, A>
        ensures { result.value ≡ value.value }
    {
        let (at, alloc) = Box::into_raw_with_allocator(value);
        DetachedBox { at, alloc }
    }

    /// The box of these parts.
    pub(crate) fn into_box(self) -> Box<T, A>
        ensures { result.value ≡ self.value }
    {
        let DetachedBox { at, alloc } = self;
        unsafe { Box::from_raw(alloc, at) }
    }
}
