//! IP packets (RFC 791, RFC 8200).

ghost use Rattle.std.specs.Prelude.{◌≡◌, ◌≤◌, ◌+◌, ◌%◌, ◌*◌, length, take, drop, slice_index, slice_range, option_map};
ghost use Rattle.gtp_values.specs.declared.address.Ip.TheVariants.{V4, V6};
ghost use Rattle.gtp_capture.specs.Octets.{two_at};
ghost use Rattle.gtp_capture.specs.reading.Internet.{parcel_of, v4_in, header_of, sized_in, fragment_in, header_in, chain, inside_of, v6_in};

use crate::octets::{front, two};
use gtp_values::Ip;

/// A UDP datagram, as far as the capture holds it, and the addresses that it is from and to.
#[derive(Clone, Copy)]
pub struct Parcel<'a> {
    pub from: Ip,
    pub to: Ip,
    /// Whether it is the first of several fragments.
    pub fragment: bool,
    pub octets: &'a [u8],
}

/// The IPv4 address from an octet on.
fn v4_at(octets: &[u8], at: usize) -> Ip
    requires { at + 4 ≤ length octets.now }
    ensures { result ≡ V4 (slice_range octets.now at (at + 4)) }
{
    match octets[at..at + 4].first_chunk::<4>() {
        Some(address) => Ip::V4(*address),
        None => unreachable!(),
    }
}

/// The IPv6 address from an octet on.
fn v6_at(octets: &[u8], at: usize) -> Ip
    requires { at + 16 ≤ length octets.now }
    ensures { result ≡ V6 (slice_range octets.now at (at + 16)) }
{
    match octets[at..at + 16].first_chunk::<16>() {
        Some(address) => Ip::V6(*address),
        None => unreachable!(),
    }
}

/// Where a header of IPv4 says that it ends.
fn header_size(first: u8) -> usize
    ensures { result ≡ 4 * (first % 16) }
{
    4 * usize::from(first & 15)
}

/// The UDP datagram that a packet of IPv4 carries, whole or its first fragment.
#[tactic(auto, unfolding(crate::specs::reading::Internet::v4_in))]
pub fn read_v4(octets: &[u8]) -> Option<Parcel<'_>>
    ensures { option_map parcel_of result ≡ v4_in octets.now }
{
    if octets.len() < 20 {
        return None;
    }
    if octets[0] / 16 != 4 {
        return None;
    }
    if octets[9] != 17 {
        return None;
    }
    let flags_and_offset = two(octets, 6);
    // A later fragment.
    if flags_and_offset % 8192 != 0 {
        return None;
    }
    let size = header_size(octets[0]);
    let total = usize::from(two(octets, 2));
    if size < 20 {
        return None;
    }
    if total < size {
        return None;
    }
    if octets.len() < size {
        return None;
    }
    Some(Parcel {
        from: v4_at(octets, 12),
        to: v4_at(octets, 16),
        fragment: flags_and_offset / 8192 % 2 == 1,
        octets: front(&octets[size..], total - size),
    })
}

/// A header of IPv6 that may stand before what is carried, read as far as this needs.
#[derive(Clone, Copy)]
pub struct Header<'a> {
    /// The kind of what follows it.
    next: u8,
    /// Whether more fragments follow the packet.
    more: bool,
    rest: &'a [u8],
}

/// A header that says how long it is: hop-by-hop options, routing, options for the destination.
fn read_sized(octets: &[u8]) -> Option<Header<'_>>
    requires { 8 ≤ length octets.now }
    ensures { option_map header_of result ≡ sized_in octets.now }
{
    let size = 8 * usize::from(octets[1]) + 8;
    if octets.len() < size {
        return None;
    }
    Some(Header {
        next: octets[0],
        more: false,
        rest: &octets[size..],
    })
}

/// The header of a whole packet or of a first fragment; of a later fragment none.
fn read_fragment(octets: &[u8]) -> Option<Header<'_>>
    requires { 8 ≤ length octets.now }
    ensures { option_map header_of result ≡ fragment_in octets.now }
{
    let offset_and_flags = two(octets, 2);
    if offset_and_flags / 8 != 0 {
        return None;
    }
    Some(Header {
        next: octets[0],
        more: offset_and_flags % 2 == 1,
        rest: &octets[8..],
    })
}

/// The header of this kind, if it is one to pass over.
fn read_header(kind: u8, octets: &[u8]) -> Option<Header<'_>>
    ensures { option_map header_of result ≡ header_in kind octets.now }
{
    if octets.len() < 8 {
        return None;
    }
    match kind {
        0 | 43 | 60 => read_sized(octets),
        44 => read_fragment(octets),
        _ => None,
    }
}

/// A UDP datagram behind headers, as far as the capture holds it.
#[derive(Clone, Copy)]
pub struct Inside<'a> {
    /// Whether it is the first of several fragments.
    fragment: bool,
    octets: &'a [u8],
}

/// The UDP datagram behind any number of headers, the first of this kind.
fn after_headers(first: u8, octets: &[u8]) -> Option<Inside<'_>>
    ensures { option_map inside_of result ≡ chain first octets.now }
{
    let mut kind = first;
    let mut fragment = false;
    let mut rest = octets;
    while kind != 17 {
        let header = read_header(kind, rest)?;
        kind = header.next;
        fragment |= header.more;
        rest = header.rest;
    }
    Some(Inside {
        fragment,
        octets: rest,
    })
}

/// The UDP datagram behind the headers of a packet of IPv6.
fn read_carried(octets: &[u8]) -> Option<Inside<'_>>
    requires { 40 ≤ length octets.now }
    ensures { option_map inside_of result ≡ chain (slice_index octets.now 6) (take (two_at 4 octets.now) (drop 40 octets.now)) }
{
    let carried = front(&octets[40..], usize::from(two(octets, 4)));
    after_headers(octets[6], carried)
}

/// The UDP datagram that a packet of IPv6 carries, whole or its first fragment.
#[tactic(auto, unfolding(crate::specs::reading::Internet::v6_in))]
pub fn read_v6(octets: &[u8]) -> Option<Parcel<'_>>
    ensures { option_map parcel_of result ≡ v6_in octets.now }
{
    if octets.len() < 40 {
        return None;
    }
    if octets[0] / 16 != 6 {
        return None;
    }
    let inside = read_carried(octets)?;
    Some(Parcel {
        from: v6_at(octets, 8),
        to: v6_at(octets, 24),
        fragment: inside.fragment,
        octets: inside.octets,
    })
}
