//! Tests of what a gateway keeps: as many bearers as there can be, numbers of requests that turn over to 0, and texts of
//! faults. What their contracts say is not tested again, nor what tests/scenarios and tests/conversations show.
#![tactic(auto)]

#[cfg(test)]
mod reliable;
#[cfg(test)]
mod tables;
