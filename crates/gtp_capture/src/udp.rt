//! UDP datagrams (RFC 768).

ghost use Rattle.std.specs.Prelude.{◌≡◌, option_map};
ghost use Rattle.gtp_capture.specs.reading.Udp.{udp_of, udp_in};

use crate::octets::{front, two};

/// What a UDP datagram carries.
#[derive(Clone, Copy)]
pub struct Udp<'a> {
    pub from: u16,
    pub to: u16,
    /// How many octets it carries.
    pub had: u16,
    /// Those of them that the capture holds.
    pub held: &'a [u8],
}

/// What the octets of a UDP datagram carry.
#[tactic(auto, unfolding(crate::specs::reading::Udp::udp_in))]
pub fn read_udp(octets: &[u8]) -> Option<Udp<'_>>
    ensures { option_map udp_of result ≡ udp_in octets.now }
{
    if octets.len() < 8 {
        return None;
    }
    let size = two(octets, 4);
    if size < 8 {
        return None;
    }
    Some(Udp {
        from: two(octets, 0),
        to: two(octets, 2),
        had: size - 8,
        held: front(&octets[8..], usize::from(size - 8)),
    })
}
