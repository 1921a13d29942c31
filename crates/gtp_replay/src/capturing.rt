//! A run as a packet capture.

ghost use Rattle.std.specs.Prelude.{◌≡◌, ℕ, ◌+◌, ◌<◌, ◌^◌, ◌++◌, ◌↔◌, IsTrue, OnOk, IfOk, IfSome, None, map, length, nat_le, option_map};
ghost use Rattle.std.specs.List.{flat_map, enumerate_from};
ghost use Rattle.gtp_gateway.specs.messages.Sent.{datagram_by};
ghost use Rattle.gtp_world.specs.Record.{sent_by, told_by};
ghost use Rattle.gtp_capture.specs.Writing.{sent_of, most_octets, AreWhole};
ghost use Rattle.gtp_replay.specs.Captures.{ends_between, sent_between, captured_in, frame_in, frames_from, HasPacket, HavePackets, IsFirstWithoutPacket, IsCaptureOf};

use crate::verdict::NoCapture;
use gtp_capture::{Ends, Ports, WrittenDatagram, plane_of, write_capture};
use gtp_values::Ip;
use gtp_world::{Datagram, Note, Sent, World};
use std::alloc::{AllocError, Global};

/// Both addresses, if they are of one version.
fn ends_between(from: Ip, to: Ip) -> Option<Ends>
    ensures ends { result ≡ ends_between from to }
    ensures whole { IfSome result AreWhole }
{
    match (from, to) {
        (Ip::V4(from), Ip::V4(to)) => Some(Ends::V4 { from, to }),
        (Ip::V6(from), Ip::V6(to)) => Some(Ends::V6 { from, to }),
        _ => None,
    }
}

/// Whether a packet has room for a datagram of so many octets.
fn has_room(ends: Ends, size: usize) -> bool
    ensures { result ≡ nat_le size (most_octets ends) }
{
    match ends {
        Ends::V4 { .. } => size <= 65_507,
        Ends::V6 { .. } => size <= 65_527,
    }
}

/// Whether a packet carries a datagram.
fn has_packet(sent: &Sent) -> bool
    ensures { IsTrue result ↔ HasPacket (datagram_by sent.now) }
{
    let Some(ends) = ends_between(sent.from.ip, sent.to.ip) else {
        return false;
    };
    has_room(ends, sent.octets.len())
        && plane_of(Ports::standard(), sent.from.port, sent.to.port) == Some(sent.plane)
}

/// The number of the first datagram that no packet carries.
fn first_without_packet(datagrams: &[Datagram]) -> Option<usize>
    ensures first { IfSome result (λ number.
        IsFirstWithoutPacket (map sent_by datagrams.now) number) }
    ensures none { result ≡ None → HavePackets (map sent_by datagrams.now) }
{
    for (number, datagram) in datagrams.iter().enumerate() {
        if !has_packet(&datagram.sent) {
            return Some(number);
        }
    }
    None
}

/// The datagram with this number, which this event sent, as it is captured.
fn captured_in(event: usize, number: usize, datagram: &Datagram) -> Option<WrittenDatagram<'_>>
    ensures { option_map sent_of result ≡ captured_in event (number, sent_by datagram.now) }
{
    let sent = &datagram.sent;
    let ends = ends_between(sent.from.ip, sent.to.ip)?;
    Some(WrittenDatagram {
        seconds: (event % 4_294_967_296) as u32,
        microseconds: (number % 1_000_000) as u32,
        ends,
        from_port: sent.from.port,
        to_port: sent.to.port,
        identification: (number % 65_536) as u16,
        octets: &sent.octets,
    })
}

/// Appends a datagram.
fn put_frame<'a>(
    out: &mut Vec<WrittenDatagram<'a>>,
    event: usize,
    number: usize,
    datagram: &'a Datagram,
) -> Result<(), AllocError>
    ensures ok { OnOk result (map sent_of out.new.items
        ≡ map sent_of out.old.items ++ frame_in event (number, sent_by datagram.now)) }
{
    let Some(frame) = captured_in(event, number, datagram) else {
        return Ok(());
    };
    out.push(frame)?;
    Ok(())
}

/// Appends the datagrams that this event sent, the first under this number.
fn put_frames<'a>(
    out: &mut Vec<WrittenDatagram<'a>>,
    event: usize,
    first: usize,
    datagrams: &'a [Datagram],
) -> Result<(), AllocError>
    requires { first + length datagrams.now < 2 ^ 64 }
    ensures ok { OnOk result (map sent_of out.new.items ≡ map sent_of out.old.items
        ++ flat_map (frame_in event) (enumerate_from first (map sent_by datagrams.now))) }
{
    for (place, datagram) in datagrams.iter().enumerate() {
        put_frame(out, event, first + place, datagram)?;
    }
    Ok(())
}

/// All datagrams, as they are captured.
fn all_frames<'a>(
    alloc: Global,
    datagrams: &'a [Datagram],
    notes: &[Note],
) -> Result<Vec<WrittenDatagram<'a>>, AllocError>
    ensures { IfOk result (λ frames. map sent_of frames.items
        ≡ frames_from 0 (enumerate_from 0 (map sent_by datagrams.now)) (map told_by notes.now)) }
{
    let mut out = Vec::new(alloc);
    let mut next = 0;
    let mut rest = datagrams;
    for (event, note) in notes.iter().enumerate() {
        let count = rest.len().min(note.sent);
        let (sent, others) = rest.split_at(count);
        put_frames(&mut out, event, next, sent)?;
        next += count;
        rest = others;
    }
    put_frames(&mut out, notes.len(), next, rest)?;
    Ok(out)
}

/// The datagrams of a world as a packet capture (pcap, the high octet first, microseconds, link 101), all of them and in
/// order, each from the address and port that it was sent from to those that it was sent to. The seconds of its time are
/// the number of the event that sent it, modulo 2^32, and the microseconds its own number, modulo 1,000,000, both from 0.
/// `NoPacket` if no packet carries one of them: its addresses are of two versions; its ports are not those of its plane
/// (of a control datagram one is 2123; of a user datagram one is 2152, and none 2123); or it is longer than a packet has
/// room for (65,507 octets over IPv4, 65,527 over IPv6). No scenario makes one. `Memory` if an allocation was refused.
pub fn capture(alloc: Global, world: &World) -> Result<Vec<u8>, NoCapture>
    ensures text { IfOk result (λ text. IsCaptureOf world.now text.items) }
    ensures no_packet { (number : ℕ) → result ≡ Err (NoCapture.NoPacket number)
        → IsFirstWithoutPacket world.now.log.datagrams number }
{
    let datagrams = world.datagrams();
    if let Some(number) = first_without_packet(datagrams) {
        return Err(NoCapture::NoPacket { number });
    }
    let frames = all_frames(alloc, datagrams, world.outcomes())?;
    let mut text = Vec::new(alloc);
    write_capture(&mut text, &frames)?;
    Ok(text)
}
