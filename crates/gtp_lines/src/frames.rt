//! The lines of a datagram of a capture.

ghost use Rattle.std.specs.Prelude.{◌≡◌, ◌<◌, ◌≤◌, ◌++◌, ◌-◌, length, replicate, decimal, OnOk, IfOk};
ghost use Rattle.gtp_capture.specs.Seen.{seen_of};
ghost use Rattle.gtp_capture.specs.reading.Packet.{packet_of};
ghost use Rattle.gtp_lines.specs.Text.{Adds};
ghost use Rattle.gtp_lines.specs.Frames.{width_of, second_in, fraction_text, time_text, end_text, plane_text, cut_text, is_whole as spec_is_whole, part_text, path_text, frame_line, brief_mark, brief_start, start_of, LinesIn, FrameLines};

use crate::all::all_lines;
use crate::brief::put_brief;
use crate::lines::{Shown, decode_lines};
use crate::text::{put, put_ip, put_number};
use gtp_capture::{Captured, Packet, Time, Unit};
use gtp_interfaces::Interface;
use gtp_names::Names;
use gtp_values::{Endpoint, Memory, Plane};
use itoa::Buffer;
use std::alloc::{AllocError, Global};

/// In which form a datagram of a capture is shown.
#[derive(Clone, Copy, Debug)]
pub enum Form {
    /// The line of its frame, and then the lines of `decode_lines`.
    Lines,
    /// The line of its frame, and then those of `all_lines`, by these names and on this interface.
    All(Names, Interface),
    /// One line: frame, time, ends, and the name, TEID and sequence number of its message, or its first fault.
    Brief(Names),
}

/// The room for a line at first: most brief lines are shorter.
const LINE: usize = 128;

/// How many digits the fractions of a second have.
pub fn width_of(unit: Unit) -> usize
    ensures value { result ≡ width_of unit }
    ensures few { result ≤ 9 }
{
    match unit {
        Unit::Microseconds => 6,
        Unit::Nanoseconds => 9,
    }
}

/// How many of its fractions make a second.
pub fn second_in(unit: Unit) -> u32
    ensures value { result ≡ second_in unit }
    ensures some { 0 < result }
{
    match unit {
        Unit::Microseconds => 1_000_000,
        Unit::Nanoseconds => 1_000_000_000,
    }
}

/// Appends so many zeros.
fn put_zeros(out: &mut Vec<u8>, count: usize) -> Result<(), AllocError>
    requires { count ≤ 9 }
    ensures ok { OnOk result (out.new.items ≡ out.old.items ++ replicate count 48) }
{
    let len = out.len() + count;
    out.resize(len, b'0')?;
    Ok(())
}

/// Appends the fraction of a second, with as many digits as its unit asks for.
#[tactic(auto, using(crate::proofs::Appends::appending))]
fn put_fraction(out: &mut Vec<u8>, unit: Unit, fraction: u32) -> Result<(), AllocError>
    ensures ok { OnOk result (out.new.items ≡ out.old.items ++ fraction_text unit fraction) }
{
    let mut buffer = Buffer::new();
    let digits = buffer.format(fraction).as_bytes();
    put_zeros(out, width_of(unit).saturating_sub(digits.len()))?;
    put(out, digits)
}

/// Appends a time: the seconds since 1970, and a fraction.
#[tactic(auto, using(crate::proofs::Appends::appending))]
fn put_time(out: &mut Vec<u8>, time: Time) -> Result<(), AllocError>
    ensures ok { OnOk result (out.new.items ≡ out.old.items ++ time_text time) }
{
    let second = second_in(time.unit);
    put_number(
        out,
        u64::from(time.seconds) + u64::from(time.fraction / second),
    )?;
    put(out, b".")?;
    put_fraction(out, time.unit, time.fraction % second)
}

/// Appends an address and a port.
#[tactic(auto, using(crate::proofs::Appends::appending))]
fn put_end(out: &mut Vec<u8>, end: &Endpoint) -> Result<(), AllocError>
    ensures ok { OnOk result (out.new.items ≡ out.old.items ++ end_text end.now) }
{
    put_ip(out, &end.ip)?;
    put(out, b" ")?;
    put_number(out, u64::from(end.port))
}

/// Appends the word of a plane.
fn put_plane(out: &mut Vec<u8>, plane: Plane) -> Result<(), AllocError>
    ensures ok { OnOk result (out.new.items ≡ out.old.items ++ plane_text plane) }
{
    match plane {
        Plane::Control => put(out, b" control"),
        Plane::User => put(out, b" user"),
    }
}

/// Appends how many octets are held of how many, where they are not all.
#[tactic(auto, using(crate::proofs::Appends::appending))]
fn put_cut(out: &mut Vec<u8>, held: usize, had: u16) -> Result<(), AllocError>
    ensures ok { OnOk result (out.new.items ≡ out.old.items ++ cut_text held had) }
{
    if held >= usize::from(had) {
        return Ok(());
    }
    put(out, b" cut ")?;
    put_number(out, held as u64)?;
    put(out, b" of ")?;
    put_number(out, u64::from(had))
}

/// Whether the capture has all of a datagram.
pub fn is_whole(packet: &Packet) -> bool
    ensures { result ≡ spec_is_whole (packet_of packet.now) }
{
    if packet.fragment {
        return false;
    }
    usize::from(packet.had) <= packet.octets.len()
}

/// Appends why the capture has not all of a datagram, where it has not.
#[tactic(auto, using(crate::proofs::Appends::appending))]
fn put_part(out: &mut Vec<u8>, packet: &Packet) -> Result<(), AllocError>
    ensures ok { OnOk result (out.new.items ≡ out.old.items ++ part_text (packet_of packet.now)) }
{
    if packet.fragment {
        return put(out, b" fragment");
    }
    put_cut(out, packet.octets.len(), packet.had)
}

/// Appends where a datagram is from and to, its plane, and whether the capture has all of it.
#[tactic(auto, using(crate::proofs::Appends::appending))]
fn put_path(out: &mut Vec<u8>, packet: &Packet) -> Result<(), AllocError>
    ensures ok { OnOk result (out.new.items ≡ out.old.items ++ path_text (packet_of packet.now)) }
{
    put(out, b" from ")?;
    put_end(out, &packet.from)?;
    put(out, b" to ")?;
    put_end(out, &packet.to)?;
    put_plane(out, packet.plane)?;
    put_part(out, packet)
}

/// Appends the line of a frame.
#[tactic(auto, using(crate::proofs::Appends::appending))]
fn put_frame(out: &mut Vec<u8>, captured: &Captured) -> Result<(), AllocError>
    ensures ok { OnOk result (out.new.items ≡ out.old.items ++ frame_line (seen_of captured.now)) }
{
    put(out, b"frame ")?;
    put_number(out, captured.frame)?;
    put(out, b" time ")?;
    put_time(out, captured.time)?;
    put_path(out, &captured.packet)?;
    put(out, b"\n")
}

/// Appends what follows the ends in a brief line.
#[tactic(auto, using(crate::proofs::Appends::appending))]
fn put_brief_mark(out: &mut Vec<u8>, packet: &Packet) -> Result<(), AllocError>
    ensures ok { OnOk result (out.new.items ≡ out.old.items ++ brief_mark (packet_of packet.now)) }
{
    if is_whole(packet) {
        return put(out, b" ");
    }
    put_part(out, packet)?;
    put(out, b"\n")
}

/// Appends what stands before a brief line.
#[tactic(auto, using(crate::proofs::Appends::appending))]
fn put_brief_start(out: &mut Vec<u8>, captured: &Captured) -> Result<(), AllocError>
    ensures ok { OnOk result
        (out.new.items ≡ out.old.items ++ brief_start (seen_of captured.now)) }
{
    put_number(out, captured.frame)?;
    put(out, b" ")?;
    put_time(out, captured.time)?;
    put(out, b" ")?;
    put_end(out, &captured.packet.from)?;
    put(out, b" ")?;
    put_end(out, &captured.packet.to)?;
    put_brief_mark(out, &captured.packet)
}

/// Appends what a form shows first.
fn put_start(out: &mut Vec<u8>, form: Form, captured: &Captured) -> Result<(), AllocError>
    ensures ok { OnOk result
        (out.new.items ≡ out.old.items ++ start_of form (seen_of captured.now)) }
{
    match form {
        Form::Lines | Form::All(..) => put_frame(out, captured),
        Form::Brief(_) => put_brief_start(out, captured),
    }
}

/// Appends the lines of a datagram in this form, and tells whether it has a fault.
fn put_lines(
    alloc: Global,
    out: &mut Vec<u8>,
    form: Form,
    plane: Plane,
    octets: &[u8],
) -> Result<bool, Memory>
    ensures { IfOk result (λ faulty. Adds (λ text. LinesIn form plane octets.now text faulty)
        out.old.items out.new.items) }
{
    match form {
        Form::Lines => {
            let shown = decode_lines(alloc, plane, octets)?;
            put(out, &shown.text)?;
            Ok(shown.faulty)
        }
        Form::All(names, interface) => {
            let shown = all_lines(alloc, &names, interface, plane, octets)?;
            put(out, &shown.text)?;
            Ok(shown.faulty)
        }
        Form::Brief(names) => {
            let faulty = put_brief(out, &names, plane, octets)?;
            Ok(faulty)
        }
    }
}

/// The lines of a datagram of a capture: frame, time and ends, and then, where the capture has all its octets, those of
/// the datagram in this form. `Memory` where an allocation was refused.
pub fn frame_lines(alloc: Global, form: Form, captured: &Captured) -> Result<Shown, Memory>
    ensures { IfOk result (λ shown.
        FrameLines form (seen_of captured.now) shown.text.items shown.faulty) }
{
    let mut text = Vec::with_capacity(alloc, LINE)?;
    put_start(&mut text, form, captured)?;
    let packet = &captured.packet;
    if !is_whole(packet) {
        return Ok(Shown {
            text,
            faulty: false,
        });
    }
    let faulty = put_lines(alloc, &mut text, form, packet.plane, packet.octets)?;
    Ok(Shown { text, faulty })
}
