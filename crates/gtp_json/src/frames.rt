//! The JSON of a datagram of a capture.

ghost use Rattle.std.specs.Prelude.{◌≡◌, ◌≤◌, ◌++◌, replicate, OnOk, IfOk, codes, string_bytes};
ghost use Rattle.json.specs.Json.{string};
ghost use Rattle.gtp_capture.specs.Seen.{seen_of};
ghost use Rattle.gtp_capture.specs.reading.Packet.{packet_of};
ghost use Rattle.gtp_lines.specs.Frames.{time_text};
ghost use Rattle.gtp_json.specs.Tree.{member, object_of};
ghost use Rattle.gtp_json.specs.reading.Tokens.{written};
ghost use Rattle.gtp_json.specs.Adds.{Adds};
ghost use Rattle.gtp_json.specs.Frames.{end_members, path_members, frame_members, held_members, part_members, RestMembers, IsFrameJson, FrameJson};
ghost use Rattle.gtp_json.specs.Reads.{ReadsBack};

use crate::datagram::{Members, put_members, put_plane};
use crate::object::Output;
use gtp_capture::{Captured, Packet, Time};
use gtp_lines::{Shown, is_whole, second_in, width_of};
use gtp_values::{Endpoint, Memory};
use itoa::Buffer;
use std::alloc::{AllocError, Global};

/// So many zeros.
fn zeros(count: usize) -> &'static str
    requires { count ≤ 9 }
    ensures { result.now ≡ replicate count 48 }
{
    match count {
        0 => "",
        1 => "0",
        2 => "00",
        3 => "000",
        4 => "0000",
        5 => "00000",
        6 => "000000",
        7 => "0000000",
        8 => "00000000",
        _ => "000000000",
    }
}

/// A time: the seconds since 1970, and a fraction with as many digits as its unit asks for.
fn time_string(alloc: Global, time: Time) -> Result<String, AllocError>
    ensures { IfOk result (λ text. string_bytes text ≡ time_text time) }
{
    let second = second_in(time.unit);
    let mut seconds = Buffer::new();
    let mut fraction = Buffer::new();
    let digits = fraction.format(time.fraction % second);
    let mut text = String::new(alloc);
    text.push_str(seconds.format(u64::from(time.seconds) + u64::from(time.fraction / second)))?;
    text.push_str(".")?;
    text.push_str(zeros(width_of(time.unit).saturating_sub(digits.len())))?;
    text.push_str(digits)?;
    Ok(text)
}

/// Writes the time of a frame.
fn put_time(out: &mut Output, time: Time) -> Result<(), AllocError>
    ensures ok { OnOk result
        (out.new ≡ out.old ++ written (member (codes "time") (string (time_text time)))) }
{
    let text = time_string(out.alloc(), time)?;
    out.string_member("time", &text)
}

/// Writes the members of an end.
#[tactic(auto, using(crate::proofs::Tokens::appending))]
fn put_end_members(out: &mut Output, end: &Endpoint) -> Result<(), AllocError>
    ensures ok { OnOk result (out.new ≡ out.old ++ written (end_members end.now)) }
{
    out.display_member("address", &end.ip)?;
    out.number_member("port", u64::from(end.port))
}

/// Writes the member of an end: an object with `address` and `port`.
#[tactic(auto, using(crate::proofs::Tokens::nesting))]
pub fn put_end(out: &mut Output, name: &str, end: &Endpoint) -> Result<(), AllocError>
    ensures ok { OnOk result
        (out.new ≡ out.old ++ written (member name.now (object_of (end_members end.now)))) }
{
    out.key(name)?;
    out.begin_object()?;
    put_end_members(out, end)?;
    out.end_object()
}

/// Writes where a datagram is from and to, and its plane.
#[tactic(auto, using(crate::proofs::Tokens::appending))]
fn put_path(out: &mut Output, packet: &Packet) -> Result<(), AllocError>
    ensures ok { OnOk result (out.new ≡ out.old ++ written (path_members (packet_of packet.now))) }
{
    put_end(out, "from", &packet.from)?;
    put_end(out, "to", &packet.to)?;
    put_plane(out, packet.plane)
}

/// Writes frame, time, ends and plane.
#[tactic(auto, using(crate::proofs::Tokens::appending))]
fn put_frame(out: &mut Output, captured: &Captured) -> Result<(), AllocError>
    ensures ok { OnOk result (out.new ≡ out.old ++ written (frame_members (seen_of captured.now))) }
{
    out.number_member("frame", captured.frame)?;
    put_time(out, captured.time)?;
    put_path(out, &captured.packet)
}

/// Writes how many octets the capture has of a datagram that is cut.
#[tactic(auto, using(crate::proofs::Tokens::nesting))]
fn put_cut(out: &mut Output, packet: &Packet) -> Result<(), AllocError>
    ensures ok { OnOk result (out.new ≡ out.old
        ++ written (member (codes "cut") (object_of (held_members (packet_of packet.now))))) }
{
    out.key("cut")?;
    out.begin_object()?;
    out.number_member("held", packet.octets.len() as u64)?;
    out.number_member("of", u64::from(packet.had))?;
    out.end_object()
}

/// Writes why the capture has not all of a datagram.
fn put_part(out: &mut Output, packet: &Packet) -> Result<(), AllocError>
    ensures ok { OnOk result (out.new ≡ out.old ++ written (part_members (packet_of packet.now))) }
{
    if packet.fragment {
        return out.bool_member("fragment", true);
    }
    put_cut(out, packet)
}

/// Writes the members after those of the frame, and tells whether the datagram has a fault.
fn put_rest(out: &mut Output, members: Members, packet: &Packet) -> Result<bool, AllocError>
    ensures { IfOk result (λ faulty.
        Adds (λ ms. RestMembers members (packet_of packet.now) ms faulty) out.old out.new) }
{
    if is_whole(packet) {
        return put_members(out, members, packet.plane, packet.octets);
    }
    put_part(out, packet)?;
    Ok(false)
}

/// A datagram of a capture as one JSON object on one line, in ASCII, with a line feed: frame, time, ends and plane, and
/// then, where the capture has all its octets, what `datagram_json` has; else why it has not. And whether the datagram
/// has a fault. `Memory` where an allocation was refused.
pub fn frame_json(alloc: Global, members: Members, captured: &Captured) -> Result<Shown, Memory>
    ensures text { IfOk result (λ shown.
        FrameJson members (seen_of captured.now) shown.text.items shown.faulty) }
    // A reader of JSON finds this value in the line.
    ensures reads_back { IfOk result (λ shown. ReadsBack
        (λ j. IsFrameJson members (seen_of captured.now) j shown.faulty) shown.text.items) }
{
    let mut out = Output::new(alloc);
    out.begin_object()?;
    put_frame(&mut out, captured)?;
    let faulty = put_rest(&mut out, members, &captured.packet)?;
    out.end_object()?;
    let text = out.into_line()?;
    Ok(Shown { text, faulty })
}
