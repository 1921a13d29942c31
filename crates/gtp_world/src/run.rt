//! Runs of a world.

use crate::world::World;

/// Why a run ended early: an allocation was refused.
#[derive(Drop)]
pub enum RunFault {
    /// Before the first event: the gateways could not be made.
    Start,
    /// At the event with this place, counted from 0. The world is the one after the events before it.
    At { at: usize, world: World },
}
