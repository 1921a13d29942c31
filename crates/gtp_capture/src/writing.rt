//! Writing captures.

ghost use Rattle.std.specs.Prelude.{◌≡◌, ◌+◌, ◌≤◌, ◌++◌, length, map, All, OnOk};
ghost use Rattle.gtp_capture.specs.Writing.{WritesAll, Writes, sent_of, most_octets, ReadsBack, head_octets, record_head, header_v4, header_v6, udp_octets, pseudo_header, IsChecksum, IsUdpChecksum};
ghost use Rattle.gtp_capture.specs.reading.Writing.{front_v4, front_v6, udp_head, pseudo_tail, WritesHeader};

use crate::checksum::{complement, sum_onto, udp_complement};
use std::alloc::AllocError;

/// The addresses that a datagram is from and to, both of one version.
#[derive(Clone, Copy, Debug)]
pub enum Ends {
    V4 { from: [u8; 4], to: [u8; 4] },
    V6 { from: [u8; 16], to: [u8; 16] },
}

/// A datagram that is written: when, from where to where, and its octets, at most 65,507 over IPv4 and 65,527 over IPv6.
#[derive(Clone, Copy, Debug)]
pub struct WrittenDatagram<'a> {
    /// Since 1970.
    pub seconds: u32,
    /// Below 1,000,000 for other readers.
    pub microseconds: u32,
    pub ends: Ends,
    pub from_port: u16,
    pub to_port: u16,
    /// What tells the packet from others between the same addresses (RFC 791 3.2), as a running number. IPv6 has none.
    pub identification: u16,
    pub octets: &'a [u8],
}

/// What is written is read back: the file is a capture, and its datagrams are those that were written.
pub fn what_is_written_is_read_back()
    ensures { ReadsBack }
{}

/// Appends octets.
fn put(out: &mut Vec<u8>, octets: &[u8]) -> Result<(), AllocError>
    ensures { OnOk result (out.new.items ≡ out.old.items ++ octets.now) }
{
    out.extend_from_slice(octets)
}

/// Writes the head of a capture: the high octet of a number first, microseconds, link 101 (raw IP).
pub fn write_head(out: &mut Vec<u8>) -> Result<(), AllocError>
    ensures { OnOk result (out.new.items ≡ out.old.items ++ head_octets) }
{
    let head = [
        0xa1, 0xb2, 0xc3, 0xd4, 0, 2, 0, 4, 0, 0, 0, 0, 0, 0, 0, 0, 0, 4, 0, 0, 0, 0, 0, 101,
    ];
    put(out, &head)
}

/// What stands before a packet of this size in its record.
fn head_of_record(sent: &WrittenDatagram, size: u32) -> [u8; 16]
    ensures { result ≡ record_head (sent_of sent.now) size }
{
    let [s3, s2, s1, s0] = sent.seconds.to_be_bytes();
    let [m3, m2, m1, m0] = sent.microseconds.to_be_bytes();
    let [h3, h2, h1, h0] = size.to_be_bytes();
    [
        s3, s2, s1, s0, m3, m2, m1, m0, h3, h2, h1, h0, h3, h2, h1, h0,
    ]
}

/// A header of IPv4 up to its addresses, with this checksum.
fn front_of_v4(sum: u16, size: u16, identification: u16) -> [u8; 12]
    ensures { result ≡ front_v4 sum size identification }
{
    let [t1, t0] = size.to_be_bytes();
    let [i1, i0] = identification.to_be_bytes();
    let [c1, c0] = sum.to_be_bytes();
    [69, 0, t1, t0, i1, i0, 0, 0, 64, 17, c1, c0]
}

/// A header of IPv6 up to its addresses.
fn front_of_v6(size: u16) -> [u8; 8]
    ensures { result ≡ front_v6 size }
{
    let [u1, u0] = size.to_be_bytes();
    [96, 0, 0, 0, u1, u0, 17, 64]
}

/// A header of UDP with this checksum.
fn head_of_udp(sum: u16, from_port: u16, to_port: u16, size: u16) -> [u8; 8]
    ensures { result ≡ udp_head sum from_port to_port size }
{
    let [p1, p0] = from_port.to_be_bytes();
    let [q1, q0] = to_port.to_be_bytes();
    let [u1, u0] = size.to_be_bytes();
    let [c1, c0] = sum.to_be_bytes();
    [p1, p0, q1, q0, u1, u0, c1, c0]
}

/// What the checksum of a UDP datagram in IPv6 counts between the addresses and the datagram.
fn behind_addresses(size: u16) -> [u8; 8]
    ensures { result ≡ pseudo_tail size }
{
    let [u3, u2, u1, u0] = u32::from(size).to_be_bytes();
    [u3, u2, u1, u0, 0, 0, 0, 17]
}

/// The checksum of a header of IPv4.
fn checksum_v4(size: u16, identification: u16, from: [u8; 4], to: [u8; 4]) -> u16
    ensures { IsChecksum (front_v4 0 size identification ++ (from ++ to)) result }
{
    let front = front_of_v4(0, size, identification);
    complement(sum_onto(&front, sum_onto(&from, sum_onto(&to, 0))))
}

/// The checksum of a UDP datagram in IPv6.
fn checksum_v6(sent: &WrittenDatagram, from: [u8; 16], to: [u8; 16]) -> u16
    requires { length sent.now.octets.now ≤ 65527 }
    ensures { IsUdpChecksum (pseudo_header (sent_of sent.now) from to ++ udp_octets 0 (sent_of sent.now)) result }
{
    let size = sent.octets.len() as u16 + 8;
    let tail = behind_addresses(size);
    let head = head_of_udp(0, sent.from_port, sent.to_port, size);
    let datagram = sum_onto(&tail, sum_onto(&head, sum_onto(sent.octets, 0)));
    udp_complement(sum_onto(&from, sum_onto(&to, datagram)))
}

/// Writes a UDP datagram with this checksum.
fn write_udp(out: &mut Vec<u8>, sent: &WrittenDatagram, sum: u16) -> Result<(), AllocError>
    requires { length sent.now.octets.now ≤ 65527 }
    ensures { OnOk result (out.new.items ≡ out.old.items ++ (udp_octets sum (sent_of sent.now))) }
{
    let size = sent.octets.len() as u16 + 8;
    put(out, &head_of_udp(sum, sent.from_port, sent.to_port, size))?;
    put(out, sent.octets)
}

/// Writes the header of a packet of IPv4 without options (RFC 791), with its checksum.
fn write_header_v4(
    out: &mut Vec<u8>,
    sent: &WrittenDatagram,
    from: [u8; 4],
    to: [u8; 4],
) -> Result<(), AllocError>
    requires { length sent.now.octets.now ≤ 65507 }
    ensures { OnOk result (WritesHeader out.old.items out.new.items (sent_of sent.now) from to) }
{
    let size = sent.octets.len() as u16 + 28;
    let sum = checksum_v4(size, sent.identification, from, to);
    put(out, &front_of_v4(sum, size, sent.identification))?;
    put(out, &from)?;
    put(out, &to)
}

/// Writes the header of a packet of IPv6 (RFC 8200).
fn write_header_v6(
    out: &mut Vec<u8>,
    sent: &WrittenDatagram,
    from: [u8; 16],
    to: [u8; 16],
) -> Result<(), AllocError>
    requires { length sent.now.octets.now ≤ 65527 }
    ensures { OnOk result (out.new.items ≡ out.old.items ++ (header_v6 (sent_of sent.now) from to)) }
{
    put(out, &front_of_v6(sent.octets.len() as u16 + 8))?;
    put(out, &from)?;
    put(out, &to)
}

/// Writes the record of a datagram over IPv4, whose UDP checksum is 0 (none).
fn write_v4(
    out: &mut Vec<u8>,
    sent: &WrittenDatagram,
    from: [u8; 4],
    to: [u8; 4],
) -> Result<(), AllocError>
    requires ends { sent.now.ends ≡ Ends.V4 from to }
    requires size { length sent.now.octets.now ≤ 65507 }
    ensures { OnOk result (Writes out.old.items out.new.items (sent_of sent.now)) }
{
    put(out, &head_of_record(sent, sent.octets.len() as u32 + 28))?;
    write_header_v4(out, sent, from, to)?;
    write_udp(out, sent, 0)
}

/// Writes the record of a datagram over IPv6, where the UDP checksum must be.
fn write_v6(
    out: &mut Vec<u8>,
    sent: &WrittenDatagram,
    from: [u8; 16],
    to: [u8; 16],
) -> Result<(), AllocError>
    requires ends { sent.now.ends ≡ Ends.V6 from to }
    requires size { length sent.now.octets.now ≤ 65527 }
    ensures { OnOk result (Writes out.old.items out.new.items (sent_of sent.now)) }
{
    put(out, &head_of_record(sent, sent.octets.len() as u32 + 48))?;
    write_header_v6(out, sent, from, to)?;
    write_udp(out, sent, checksum_v6(sent, from, to))
}

/// Writes the record of a datagram: a packet of IPv4 without options, of UDP without a checksum, or one of IPv6 without
/// extension headers, of UDP with its checksum.
pub fn write_datagram(out: &mut Vec<u8>, sent: &WrittenDatagram) -> Result<(), AllocError>
    requires { length sent.now.octets.now ≤ most_octets sent.now.ends }
    ensures { OnOk result (Writes out.old.items out.new.items (sent_of sent.now)) }
{
    match sent.ends {
        Ends::V4 { from, to } => write_v4(out, sent, from, to),
        Ends::V6 { from, to } => write_v6(out, sent, from, to),
    }
}

/// Writes a capture of these datagrams, in their order.
pub fn write_capture(out: &mut Vec<u8>, datagrams: &[WrittenDatagram]) -> Result<(), AllocError>
    requires { All (λ sent. length sent.octets.now ≤ most_octets sent.ends) datagrams.now }
    ensures { OnOk result (WritesAll out.old.items out.new.items (map sent_of datagrams.now)) }
{
    write_head(out)?;
    for sent in datagrams {
        write_datagram(out, sent)?;
    }
    Ok(())
}
