//! Tests that cross crates, of what no data says: what no line shows of one gateway, and all of its TEIDs; calls of a
//! world that no event makes; readers and writers that fail; and texts of faults. All else is data, in
//! `tests/conversations`, `tests/scenarios`, `tests/command-line` and `examples/scenarios`. What their contracts say is
//! not tested again. The lower crates have their tests in `gtp_codec_tests` and `gtp_state_tests`.
#![tactic(auto)]

#[cfg(test)]
mod captures;
#[cfg(test)]
mod faults;
#[cfg(test)]
mod gateways;
#[cfg(test)]
mod replays;
#[cfg(test)]
mod setting;
#[cfg(test)]
mod worlds;
