//! Why the reading of a list of events stops.

ghost use Rattle.std.specs.Prelude.{◌≡◌};
ghost use Rattle.gtp_scenario.specs.declared.halt.ItemFault.TheVariants as item;
ghost use Rattle.gtp_scenario.specs.declared.halt.ListFault.TheVariants as list;
ghost use Rattle.gtp_scenario.specs.Halts.{item_fault_for, list_fault_for};

use crate::fault::Fault;
use gtp_values::Memory;
use std::alloc::{AllocError, AllocFailed};

/// Why the reading of a list of events stops at an entry: the first of these that applies.
#[derive(Clone, Copy, Debug, PartialEq, Eq)]
pub enum Halt {
    /// What it names is not there.
    Nothing,
    /// It is no event.
    Wrong,
    /// With it there are more than 100,000 events.
    TooMany,
}

/// At which entry, counted from 0, and why.
#[derive(Clone, Copy, Debug, PartialEq, Eq)]
pub struct Halted {
    pub place: usize,
    pub halt: Halt,
}

/// Why an entry was not read.
#[derive(Clone, Copy)]
pub enum ItemFault {
    Memory,
    Halted(Halt),
}

impl From<AllocError> for ItemFault {
    ghost from_gives = { λ _ e. e ≡ item.Memory };

    fn from(_e: AllocError) -> ItemFault {
        ItemFault::Memory
    }
}

impl<T: Drop> From<AllocFailed<T>> for ItemFault {
    ghost from_gives = { λ _ e. e ≡ item.Memory };

    fn from(_e: AllocFailed<T>) -> ItemFault {
        ItemFault::Memory
    }
}

impl From<Memory> for ItemFault {
    ghost from_gives = { λ _ e. e ≡ item.Memory };

    fn from(_e: Memory) -> ItemFault {
        ItemFault::Memory
    }
}

impl From<Fault> for ItemFault {
    ghost from_gives = { λ fault e. e ≡ item_fault_for fault };

    fn from(fault: Fault) -> ItemFault {
        match fault {
            Fault::Memory => ItemFault::Memory,
            Fault::Wrong => ItemFault::Halted(Halt::Wrong),
        }
    }
}

/// Why a list of events was not read.
#[derive(Clone, Copy)]
pub enum ListFault {
    Memory,
    Halted(Halted),
}

impl From<AllocError> for ListFault {
    ghost from_gives = { λ _ e. e ≡ list.Memory };

    fn from(_e: AllocError) -> ListFault {
        ListFault::Memory
    }
}

impl<T: Drop> From<AllocFailed<T>> for ListFault {
    ghost from_gives = { λ _ e. e ≡ list.Memory };

    fn from(_e: AllocFailed<T>) -> ListFault {
        ListFault::Memory
    }
}

impl From<Memory> for ListFault {
    ghost from_gives = { λ _ e. e ≡ list.Memory };

    fn from(_e: Memory) -> ListFault {
        ListFault::Memory
    }
}

impl ItemFault {
    /// The same of the list that has the entry at this place.
    pub(crate) fn at(self, place: usize) -> ListFault
        ensures { result ≡ list_fault_for place self }
    {
        match self {
            ItemFault::Memory => ListFault::Memory,
            ItemFault::Halted(halt) => ListFault::Halted(Halted { place, halt }),
        }
    }
}
