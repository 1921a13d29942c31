//! Why the program ends early.

use gtp_scenario::ReadFault;

/// Why the program ends early.
#[derive(Clone, Copy, Debug, PartialEq, Eq)]
pub enum Stop {
    /// An allocation was refused, in a call that is not made again.
    Refused,
    /// This was not as it must be.
    Wrong(&'static str),
}

impl From<ReadFault> for Stop {
    fn from(fault: ReadFault) -> Stop {
        match fault {
            ReadFault::Memory => Stop::Refused,
            ReadFault::Refused(_) => Stop::Wrong("the scenario"),
        }
    }
}
