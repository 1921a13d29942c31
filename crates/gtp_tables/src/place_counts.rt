//! How many sessions have the address with each place of a pool.

ghost use Rattle.std.specs.Prelude.{◌≡◌, ◌<◌, ◌≤◌, ◌+◌, ◌-◌, ◌^◌, ℕ, length, replicate, slice_index, slice_set, IfOk};
ghost use Rattle.gtp_tables.specs.Lowest.{IsFirstFree, is_marked};

use crate::place_set::PlaceSet;
use std::alloc::{AllocError, Global};
use std::marker::Model;

/// How many sessions have the address with each place of a pool. Contracts see the counts.
#[derive(Drop)]
pub(crate) struct PlaceCounts {
    counts: Vec<usize>,
    /// The places that no session has.
    free: PlaceSet,
}

impl Model for PlaceCounts {
    ghost use Rattle.std.specs.Prelude.{ℕ, List};
    ghost use Rattle.gtp_tables.specs.PlaceCounts.{AreFree};

    ghost Value = { List ℕ };

    ghost view = { λ a. a.counts.items };

    ghost invariant = { λ a. AreFree a.counts.items a.free };
}

impl PlaceCounts {
    /// No session has one of these places, which are as many as those of a pool.
    pub fn new(alloc: Global, count: u32) -> Result<PlaceCounts, AllocError>
        requires { count ≤ 65536 }
        ensures { IfOk result (λ counts. counts ≡ replicate count 0) }
    {
        let mut free = PlaceSet::new(alloc, count)?;
        for place in 0..count as usize {
            free.insert(place);
        }
        Ok(PlaceCounts {
            counts: vec![in alloc; 0; count as usize]?,
            free,
        })
    }

    /// One more session has a place.
    pub fn take(&mut self, place: u32)
        requires within { place < length self.old }
        requires few { slice_index self.old place + 1 < 2 ^ 64 }
        ensures { self.new ≡ slice_set self.old place (slice_index self.old place + 1) }
    {
        let place = place as usize;
        if self.counts[place] == 0 {
            self.free.remove(place);
        }
        self.counts[place] += 1;
    }

    /// One session less has a place.
    pub fn give_back(&mut self, place: u32)
        requires { 0 < slice_index self.old place }
        ensures { self.new ≡ slice_set self.old place (slice_index self.old place - 1) }
    {
        let place = place as usize;
        let users = self.counts[place] - 1;
        self.counts[place] = users;
        if users == 0 {
            self.free.insert(place);
        }
    }

    /// The lowest place that no session has.
    pub fn lowest_free(&self) -> Option<u32>
        ensures { IsFirstFree (length self.now) (is_marked self.now) result }
    {
        let place = self.free.lowest()?;
        Some(place as u32)
    }
}
