//! A handle for addresses and their places.
ghost use Rattle.std.specs.Prelude.{◌≡◌, None, Some, IsSome};
ghost use Rattle.gtp_c.specs.Held.{count_of};

use crate::address_places::AddressPlaces;
use crate::detached_box::DetachedBox;
use crate::places_pointer::PlacesPointer;
use std::alloc::Global;
use std::mem::replace;

/// What C holds, and never looks through. Zeroes are an empty one.
#[repr(C)]
pub struct PlacesHandle {
    pub(crate) hidden: PlacesPointer,
    /// How many values the pointer owns: 0 or 1.
    pub(crate) count: u64,
    pub(crate) ghost tied: { count ≡ count_of hidden.value },
}

impl PlacesHandle {
    /// What stands behind a handle that is not empty. It is empty then.
    pub(crate) fn take(&mut self, alloc: Global) -> Box<AddressPlaces, Global>
        requires { IsSome self.old.hidden.value }
        ensures taken { Some result.value ≡ self.old.hidden.value }
        ensures empty { self.new.hidden.value ≡ None }
    {
        let full = replace(&mut self.hidden, PlacesPointer::empty());
        self.count = 0;
        full.detach(alloc).into_box()
    }

    /// Puts this behind an empty handle.
    pub(crate) fn put(&mut self, kept: Box<AddressPlaces, Global>)
        requires { self.old.hidden.value ≡ None }
        ensures { self.new.hidden.value ≡ Some kept.value }
    {
        replace(&mut self.hidden, PlacesPointer::of(DetachedBox::of(kept))).end();
        self.count = 1;
    }
}
