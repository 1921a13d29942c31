//! Reading a capture.

ghost use Rattle.std.specs.Prelude.{◌≡◌, ◌⊎◌, ◌+◌, ◌-◌, ◌<◌, ◌^◌, List, ℕ, length, OnOk, IfOk, IfErr, IfSome, ◌≢◌, Err};
ghost use Rattle.gtp_counted.specs.Counts.{inner_of, failures_of};
ghost use Rattle.gtp_capture.specs.Frame.{Frame};
ghost use Rattle.gtp_capture.specs.Capture.{Holds, after, frame_in};
ghost use Rattle.gtp_capture.specs.Seen.{Takes, seen_in, datagrams};
ghost use Rattle.gtp_capture.specs.Outcome.{IsRead, RefusesNext, Steps, TakesSome, TakesNoMore, frame_of, piece_of, state_of};

use crate::block::next_block;
use crate::captured::{Captured, Sink};
use crate::fault::{CaptureFault, Stop};
use crate::head::read_start;
use crate::interface::Interface;
use crate::octets::{from, front};
use crate::packet::packet_in_frame;
use crate::ports::Ports;
use crate::record::next_record;
use crate::step::{Format, Head, Item, Step};
use gtp_counted::Counted;
use std::alloc::Global;
use std::io::Read;

/// Hands on the datagram of a frame, if it carries one.
fn hand_on<S: Sink>(
    ports: Ports,
    sink: &mut S,
    number: u64,
    head: Head,
    room: &[u8],
) -> Result<(), Stop>
    ensures ok { OnOk result (Takes S.takes sink.old
        (seen_in ports number (frame_of head room.now)) sink.new) }
    ensures err { IfErr result (λ stop. (stop ≡ Stop.Refused)
        × RefusesNext S.refuses sink.old (seen_in ports number (frame_of head room.now)) sink.new) }
{
    let held = front(from(room, head.at), head.held);
    let Some(packet) = packet_in_frame(ports, head.link, held) else {
        return Ok(());
    };
    let captured = Captured {
        frame: number,
        time: head.time,
        packet,
    };
    match sink.take(&captured) {
        Ok(()) => Ok(()),
        Err(_) => Err(Stop::Refused),
    }
}

/// Hands on the datagram of a piece, if it is a frame that carries one. The number of the next frame.
fn hand_on_piece<S: Sink>(
    ports: Ports,
    sink: &mut S,
    number: u64,
    item: Item,
    room: &[u8],
) -> Result<u64, Stop>
    requires { number < 2 ^ 64 - 1 }
    ensures ok { IfOk result (λ next. Takes S.takes sink.old
        (datagrams ports number (frame_in (piece_of item room.now))) sink.new) }
    ensures count { IfOk result (λ next.
        next ≡ number + length (frame_in (piece_of item room.now))) }
    ensures err { IfErr result (λ stop. (stop ≡ Stop.Refused)
        × (f : Frame) × (piece_of item room.now ≡ Holds f)
        × RefusesNext S.refuses sink.old (seen_in ports number f) sink.new) }
{
    match item {
        Item::Frame(head) => match hand_on(ports, sink, number, head, room) {
            Ok(()) => Ok(number + 1),
            Err(stop) => Err(stop),
        },
        _ => Ok(number),
    }
}

/// How what follows a piece is read, after these interfaces.
fn note(format: Format, interfaces: &mut Vec<Interface>, item: Item) -> Result<Format, Stop>
    ensures ok { IfOk result (λ next. (room : List ℕ) → state_of next interfaces.new.items
        ≡ after (piece_of item room) (state_of format interfaces.old.items)) }
    ensures err { IfErr result (λ stop. stop ≡ Stop.Memory) }
{
    match item {
        Item::Section(order) => {
            interfaces.clear();
            Ok(Format::Blocks(order))
        }
        Item::Interface(interface) => match interfaces.push(interface) {
            Ok(()) => Ok(format),
            Err(_) => Err(Stop::Memory),
        },
        _ => Ok(format),
    }
}

/// What stands next, and of the octets that it holds those that are read.
fn next_step<R: Read>(
    reader: &mut Counted<R>,
    format: Format,
    interfaces: &[Interface],
    room: &mut Vec<u8>,
) -> Result<Step, Stop>
    requires { failures_of reader.old < 2 ^ 64 - 1 }
    ensures ok { IfOk result (λ step. Steps (state_of format interfaces.now)
        (R.remaining (inner_of reader.old)) (R.remaining (inner_of reader.new)) step room.new.items) }
    ensures err { IfErr result (λ stop. (stop ≡ Stop.Read) ⊎ (stop ≡ Stop.Memory)) }
    ensures failed { result ≡ Err Stop.Read
        → failures_of reader.new ≡ failures_of reader.old + 1 }
    ensures unfailed { result ≢ Err Stop.Read
        → failures_of reader.new ≡ failures_of reader.old }
{
    match format {
        Format::Records(kind) => next_record(reader, kind, room),
        Format::Blocks(order) => next_block(reader, order, interfaces, room),
    }
}

/// Reads a capture to its end, a record or block at a time, and hands on each GTP datagram by these ports, in the order of
/// their frames. How many frames the file has, also those without such a datagram.
/// The formats pcap and pcapng, both orders of octets; links 0, 1, 12, 14, 101, 108, 113, 228, 229 and 276 (null, Ethernet,
/// raw IP, loop, Linux cooked); IPv4, IPv6, UDP. A frame of another link or protocol, or of a fragment
/// but the first, carries none. At most
/// 262,144 octets are held of a frame; no more memory is used than for one, and for the interfaces of a section.
///
/// `NoCapture` if the file does not begin as a capture does: nothing was handed on. `Broken` at the octet from the file's start
/// from which a record or block is not complete, or is none: the datagrams before it were handed on. `Stopped` if a read, an
/// allocation or the sink failed, or the file has 2^64 - 1 octets or more: those of the first frames were handed on. A read
/// failed exactly where that is what stopped it; a read that is interrupted is made again, and has not failed.
pub fn read_capture<R: Read, S: Sink>(
    alloc: Global,
    ports: Ports,
    reader: &mut Counted<R>,
    sink: &mut S,
) -> Result<u64, CaptureFault>
    requires { failures_of reader.old < 2 ^ 64 - 1 }
    ensures read { IfSome (R.remaining (inner_of reader.old)) (λ file.
        IsRead ports S.takes S.refuses file sink.old sink.new result) }
    // `Read` means one more failed call of the reader, and every other result none.
    ensures failed { result ≡ Err (CaptureFault.Stopped Stop.Read)
        → failures_of reader.new ≡ failures_of reader.old + 1 }
    ensures unfailed { result ≢ Err (CaptureFault.Stopped Stop.Read)
        → failures_of reader.new ≡ failures_of reader.old }
    // `Refused` means that the sink did not take a datagram, and every other result that it took each, also where the
    // octets are not known.
    ensures refused { result ≡ Err (CaptureFault.Stopped Stop.Refused)
        → TakesNoMore S.takes S.refuses sink.old sink.new }
    ensures taken { result ≢ Err (CaptureFault.Stopped Stop.Refused)
        → TakesSome S.takes sink.old sink.new }
{
    let Some(started) = read_start(reader)? else {
        return Err(CaptureFault::NoCapture);
    };
    let mut format = started.format;
    let mut interfaces = Vec::new(alloc);
    let mut room = Vec::new(alloc);
    let mut at = u64::from(started.size);
    let mut number = 1u64;
    for _ in 1..u64::MAX {
        let found = match next_step(reader, format, &interfaces, &mut room)? {
            Step::Found(found) => found,
            Step::End => return Ok(number - 1),
            Step::Broken => return Err(CaptureFault::Broken { at }),
        };
        format = note(format, &mut interfaces, found.item)?;
        number = hand_on_piece(ports, sink, number, found.item, &room)?;
        at = match at.checked_add(u64::from(found.size)) {
            Some(at) => at,
            None => return Err(CaptureFault::Stopped(Stop::TooLong)),
        };
    }
    Err(CaptureFault::Stopped(Stop::TooLong))
}
