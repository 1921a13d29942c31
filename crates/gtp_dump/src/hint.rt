//! What octets are that were given in place of a datagram.

ghost use Rattle.std.specs.Prelude.{◌≡◌, ◌^◌, ◌<◌};
ghost use Rattle.gtp_dump.specs.Hint.{number_at, version_at, is_frame, is_packet_4, is_packet_6, is_offset, hint_of};

use crate::text::octet_at;
use std::fmt;

/// What octets are in place of a datagram.
#[derive(Clone, Copy, Debug, PartialEq, Eq)]
pub enum Hint {
    /// They begin as a frame of Ethernet with an IP packet.
    Frame,
    /// They begin as an IP packet.
    Packet,
    /// They begin with 00 00, as the offset of a row.
    Offset,
}

impl fmt::Display for Hint {
    fn fmt<W: fmt::Write>(&self, f: &mut fmt::Formatter<W>) -> fmt::Result {
        match self {
            Hint::Frame => f.write_str(
                "the octets begin as an Ethernet frame does: a datagram is what stands behind its IP and UDP headers",
            ),
            Hint::Packet => f.write_str(
                "the octets begin as an IP packet does: a datagram is what stands behind its IP and UDP headers",
            ),
            Hint::Offset => f.write_str(
                "the octets begin with 00 00, as an offset does: no datagram begins so",
            ),
        }
    }
}

/// The number of two octets, the first of them at this place.
fn number_at(octets: &[u8], place: usize) -> u64
    requires { place < 2 ^ 32 }
    ensures { result ≡ number_at octets.now place }
{
    u64::from(octet_at(octets, place)) * 256 + u64::from(octet_at(octets, place + 1))
}

/// The version of an IP packet at a place.
fn version_at(octets: &[u8], place: usize) -> u8
    ensures { result ≡ version_at octets.now place }
{
    octet_at(octets, place) / 16
}

/// Whether octets begin as a frame of Ethernet with an IP packet.
fn is_frame(octets: &[u8]) -> bool
    ensures { result ≡ is_frame octets.now }
{
    match number_at(octets, 12) {
        0x0800 => version_at(octets, 14) == 4,
        0x86dd => version_at(octets, 14) == 6,
        _ => false,
    }
}

/// Whether octets begin as an IP packet of version 4 with more than a header.
fn is_packet_4(octets: &[u8]) -> bool
    ensures { result ≡ is_packet_4 octets.now }
{
    let first = octet_at(octets, 0);
    0x45 <= first && first <= 0x47 && octets.len() >= 20 && number_at(octets, 2) > 20
}

/// Whether octets begin as an IP packet of version 6.
fn is_packet_6(octets: &[u8]) -> bool
    ensures { result ≡ is_packet_6 octets.now }
{
    version_at(octets, 0) == 6 && octets.len() >= 40
}

/// Whether octets begin as an offset.
fn is_offset(octets: &[u8]) -> bool
    ensures { result ≡ is_offset octets.now }
{
    octets.len() >= 2 && number_at(octets, 0) == 0
}

/// What octets are in place of a datagram, where they begin as something else does.
pub fn hint_of(octets: &[u8]) -> Option<Hint>
    ensures { result ≡ hint_of octets.now }
{
    if is_frame(octets) {
        return Some(Hint::Frame);
    }
    if is_packet_4(octets) || is_packet_6(octets) {
        return Some(Hint::Packet);
    }
    if is_offset(octets) {
        return Some(Hint::Offset);
    }
    None
}
