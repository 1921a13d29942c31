//! Writing to a caller's buffer. A call that lacks room writes nothing, and says how much it needs.

ghost use Rattle.std.specs.Prelude.{◌≡◌, ◌⊎◌, ◌+◌, ◌<◌, ◌≤◌, ◌^◌, ◌++◌, length, take, drop};
ghost use Rattle.gtp_ie.specs.Text.{element_encoding};
ghost use Rattle.gtp_c.specs.Writing.{IsWritten, IsBadMessage, packet_encoding, message_encoding};
ghost use Rattle.gtp_c.specs.Writing.{headed_plain, headed_by_teid, version};

use crate::control::Head;
use crate::status::{BAD_VALUE, DONE, TOO_SMALL};
use gtp_user::flags::GTP;
use gtp_user::kinds::G_PDU;
use gtp_v2::flags::{MESSAGE_PRIORITY, VERSION_2, WITH_TEID};

/// The most octets that two octets can state.
pub(crate) const LONGEST: usize = 65_535;

/// Writes two pieces at a place where there is room for both.
fn put_parts(buffer: &mut [u8], place: usize, head: &[u8], body: &[u8])
    requires { place + (length head.now + length body.now) ≤ length buffer.old }
    ensures { buffer.new ≡ take place buffer.old ++ ((head.now ++ body.now)
        ++ drop (place + (length head.now + length body.now)) buffer.old) }
{
    let (_before, rest) = buffer.split_at_mut(place);
    let (first, rest) = rest.split_at_mut(head.len());
    first.copy_from_slice(head);
    let (second, _after) = rest.split_at_mut(body.len());
    second.copy_from_slice(body);
}

/// Writes two pieces at a place where they fit, and tells their size in any case.
pub(crate) fn write_parts(
    buffer: &mut [u8],
    place: usize,
    head: &[u8],
    body: &[u8],
    size: &mut u64,
) -> u8
    requires place { place ≤ length buffer.old }
    requires few { length head.now + length body.now < 2 ^ 64 }
    ensures { IsWritten ⊥ place (head.now ++ body.now)
        buffer.old buffer.new size.old size.new result }
{
    *size = (head.len() + body.len()) as u64;
    if buffer.len() - place < head.len() + body.len() {
        return TOO_SMALL;
    }
    put_parts(buffer, place, head, body);
    DONE
}

/// Writes the version of the library, three numbers with points between them: 0, and `size` says how many octets it has; 5 where
/// they do not fit, and `size` says how many they are.
#[unsafe(no_mangle)]
pub extern "C" fn gtp_version(buffer: &mut [u8], size: &mut u64) -> u8
    ensures { IsWritten ⊥ 0 version buffer.old buffer.new size.old size.new result }
{
    write_parts(buffer, 0, b"0.1.0", &[], size)
}

/// Writes an element with spare bits 0 (TS 29.274 8.2) at a place of the buffer: 0, and `size` says how many octets it has; 5 where
/// they do not fit, and `size` says how many they are; 1 where the instance is above 15, the body has more than 65,535 octets,
/// or the place is past the end of the buffer.
#[unsafe(no_mangle)]
pub extern "C" fn gtp_element_write(
    buffer: &mut [u8],
    place: u64,
    kind: u8,
    instance: u8,
    body: &[u8],
    size: &mut u64,
) -> u8
    ensures { IsWritten ((15 < instance) ⊎ ((65535 < length body.now) ⊎ (length buffer.old < place)))
        place (element_encoding kind instance body.now)
        buffer.old buffer.new size.old size.new result }
{
    let place = place as usize;
    if instance > 15 || body.len() > LONGEST || place > buffer.len() {
        return BAD_VALUE;
    }
    let [high, low] = (body.len() as u16).to_be_bytes();
    write_parts(buffer, place, &[kind, high, low, instance], body, size)
}

/// Writes a G-PDU (TS 29.281 5.1) without extension headers: 0, and `size` says how many octets it has; 5 where they do not fit,
/// and `size` says how many they are; 1 where the packet has more than 65,535 octets.
#[unsafe(no_mangle)]
pub extern "C" fn gtp_packet_write(
    buffer: &mut [u8],
    teid: u32,
    packet: &[u8],
    size: &mut u64,
) -> u8
    ensures { IsWritten (65535 < length packet.now) 0 (packet_encoding teid packet.now)
        buffer.old buffer.new size.old size.new result }
{
    if packet.len() > LONGEST {
        return BAD_VALUE;
    }
    let [high, low] = (packet.len() as u16).to_be_bytes();
    let [a, b, c, d] = teid.to_be_bytes();
    write_parts(
        buffer,
        0,
        &[GTP, G_PDU, high, low, a, b, c, d],
        packet,
        size,
    )
}

/// The header of a message with so many octets after it, without a TEID.
fn plain_header(kind: u8, seq: u32, len: usize) -> [u8; 8]
    requires { len ≤ 65527 }
    ensures { result ≡ headed_plain kind seq len }
{
    let [high, low] = ((4 + len) as u16).to_be_bytes();
    let [_, a, b, c] = seq.to_be_bytes();
    [VERSION_2, kind, high, low, a, b, c, 0]
}

/// The same with this first octet, a TEID and a last octet.
fn teid_header(first: u8, kind: u8, teid: u32, seq: u32, last: u8, len: usize) -> [u8; 12]
    requires { len ≤ 65527 }
    ensures { result ≡ headed_by_teid first kind teid seq last len }
{
    let [high, low] = ((8 + len) as u16).to_be_bytes();
    let [t, u, v, w] = teid.to_be_bytes();
    let [_, a, b, c] = seq.to_be_bytes();
    [first, kind, high, low, t, u, v, w, a, b, c, last]
}

/// Writes a message of the control plane that carries these octets, which may be elements (TS 29.274 5.1), with the type, TEID,
/// sequence number and priority of `head`: 0, and `size` says how many octets it has; 5 where they do not fit, and `size` says
/// how many they are; 1 where the sequence number is above 2^24 - 1, the priority above 15 or without a TEID, or there are more
/// than 65,527 octets to carry.
#[unsafe(no_mangle)]
pub extern "C" fn gtp_control_write(
    buffer: &mut [u8],
    head: &Head,
    list: &[u8],
    size: &mut u64,
) -> u8
    ensures { IsWritten (IsBadMessage head.now list.now) 0 (message_encoding head.now list.now)
        buffer.old buffer.new size.old size.new result }
{
    let is_lone_priority = head.has_priority != 0 && head.has_teid == 0;
    if head.seq >= 0x100_0000
        || head.priority > 15
        || is_lone_priority
        || list.len() > LONGEST - 8
    {
        return BAD_VALUE;
    }
    if head.has_teid == 0 {
        let header = plain_header(head.kind, head.seq, list.len());
        write_parts(buffer, 0, &header, list, size)
    } else if head.has_priority == 0 {
        let header = teid_header(WITH_TEID, head.kind, head.teid, head.seq, 0, list.len());
        write_parts(buffer, 0, &header, list, size)
    } else {
        let first = WITH_TEID | 1 << MESSAGE_PRIORITY;
        let last = 16 * head.priority;
        let header = teid_header(first, head.kind, head.teid, head.seq, last, list.len());
        write_parts(buffer, 0, &header, list, size)
    }
}
