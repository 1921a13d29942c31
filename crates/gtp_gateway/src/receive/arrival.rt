//! A datagram of the control plane, with where it comes from.

use gtp_values::Endpoint;
use std::marker::Model;

/// A datagram as it came. Contracts see its source and its octets.
#[derive(Drop)]
pub struct Arrival<'a> {
    /// Where it comes from, and where an answer goes.
    pub source: Endpoint,
    pub octets: &'a [u8],
}

impl<'a> Model for Arrival<'a> {
    ghost use Rattle.gtp_machine.specs.Node.{Arrival as Request};

    ghost Value = { Request };

    ghost view = { λ a. record { source = a.source; octets = a.octets.now } };
}
