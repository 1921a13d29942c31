//! What all calls of the libraries share.

ghost use Rattle.std.specs.Prelude.{◌≤◌};

use std::alloc::Global;

/// Where a run ended early.
#[derive(Clone, Copy, Debug, PartialEq, Eq)]
pub enum Early {
    /// Before its first event.
    Start,
    /// At this event, from 0.
    At(usize),
}

/// The allocator of all calls, whether one of them was refused memory, and where the run then ended.
#[derive(Clone, Copy, Debug)]
pub struct Trial {
    pub alloc: Global,
    pub was_refused: bool,
    pub early: Option<Early>,
}

impl Trial {
    /// Nothing was refused yet.
    pub fn new(alloc: Global) -> Trial {
        Trial {
            alloc,
            was_refused: false,
            early: None,
        }
    }

    /// How many of so many events happened before the run ended.
    pub fn past(&self, count: usize) -> usize
        ensures { result ≤ count }
    {
        match self.early {
            None => count,
            Some(Early::Start) => 0,
            Some(Early::At(at)) => at.min(count),
        }
    }
}
