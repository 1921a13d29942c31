//! Datagrams that a gateway sends.

use gtp_machine::Plane;
use gtp_values::{Endpoint, Teid};

/// A datagram to be sent over UDP (TS 29.274 4.2, TS 29.281 4.4.2).
#[derive(Debug, Drop)]
pub struct Sent {
    pub plane: Plane,
    /// The own address of the plane, with port 2123 (control) or 2152 (user).
    pub from: Endpoint,
    /// The peer's address with the same port; of an answer, the source of the request.
    pub to: Endpoint,
    /// The payload of the UDP datagram.
    pub octets: Vec<u8>,
}

/// A command that was carried out.
#[derive(Debug, Drop)]
pub struct Begun {
    /// The session or bearer that the request is about, by the gateway's own TEID; none for an Echo Request, a
    /// packet and an End Marker.
    pub teid: Option<Teid>,
    pub out: Sent,
}
