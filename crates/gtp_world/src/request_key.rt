//! Requests by which others are looked up.

ghost use Rattle.std.specs.Prelude.{◌≡◌, IfOk};
ghost use Rattle.gtp_gateway.specs.Parts.{arrival_of};
ghost use Rattle.gtp_world.specs.Indexes.{asked};

use gtp_gateway::{Endpoint, Memory};
use std::alloc::Global;

/// A request: where it came from, and its octets.
#[derive(Drop, PartialEq, Eq)]
#[derive_where(Hash)]
pub struct RequestKey {
    #[derive_where(skip(Hash))]
    source: Endpoint,
    octets: Vec<u8>,
}

impl RequestKey {
    /// The request from this source with these octets.
    pub fn copy(alloc: Global, source: Endpoint, octets: &[u8]) -> Result<RequestKey, Memory>
        ensures { IfOk result (λ a. asked a ≡ arrival_of source octets.now) }
    {
        Ok(RequestKey {
            source,
            octets: Vec::from_slice(alloc, octets)?,
        })
    }
}
