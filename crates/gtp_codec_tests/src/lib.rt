//! Tests of elements and both codecs: what is decoded is encoded as the octets that it came from, and what no line shows. What
//! is decoded is data, in tests/lines, and so are the bodies of elements. What contracts say is not tested again. The datagrams
//! that tests of several crates start from are public.
#![tactic(auto)]

#[cfg(test)]
mod control;
pub mod datagrams;
#[cfg(test)]
mod elements;
#[cfg(test)]
mod faults;
#[cfg(test)]
mod user;
