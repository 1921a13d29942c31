//! The GTP datagram of a frame.

ghost use Rattle.std.specs.Prelude.{◌≡◌, ◌+◌, ◌≤◌, option_map, IfSome, IfNone};
ghost use Rattle.gtp_capture.specs.reading.Steps.{or_else};
ghost use Rattle.gtp_capture.specs.reading.Internet.{parcel_of, v4_in, v6_in};
ghost use Rattle.gtp_capture.specs.Packet.{Packet as AnyPacket};
ghost use Rattle.gtp_capture.specs.Carries.{Carries};
ghost use Rattle.gtp_capture.specs.reading.Packet.{packet_of, packet_in, inside_in, internet_in, typed_at, family_in};

use crate::internet::{Parcel, read_v4, read_v6};
use crate::link::read_untagged;
use crate::octets::{Order, four, two};
use crate::ports::{Ports, plane_of};
use crate::udp::read_udp;
use gtp_values::{Endpoint, Plane};

/// A GTP datagram, as a frame carries it. Its plane is that of its ports: control if one is 2123 or the further control
/// port, else user if one is 2152 or the further user port.
#[derive(Clone, Copy, Debug, PartialEq, Eq)]
pub struct Packet<'a> {
    pub from: Endpoint,
    pub to: Endpoint,
    pub plane: Plane,
    /// Whether this is only the first of several fragments of it. Later ones carry no datagram.
    pub fragment: bool,
    /// How many octets the datagram had by its UDP length, at most 65,527.
    pub had: u16,
    /// Those of them that the frame has in the capture: fewer if only the first octets of it were captured, or if it is a
    /// fragment.
    pub octets: &'a [u8],
}

/// The UDP datagram in octets of this type.
#[tactic(auto, unfolding(crate::specs::reading::Packet::internet_in))]
fn read_internet(kind: u16, octets: &[u8]) -> Option<Parcel<'_>>
    ensures { option_map parcel_of result ≡ internet_in kind octets.now }
{
    let typed = read_untagged(kind, octets)?;
    match typed.kind {
        0x0800 => read_v4(typed.inside),
        0x86dd => read_v6(typed.inside),
        _ => None,
    }
}

/// The UDP datagram in a frame that has the type here, and what has it there.
#[tactic(auto, unfolding(crate::specs::reading::Packet::typed_at))]
fn read_typed(frame: &[u8], at: usize, size: usize) -> Option<Parcel<'_>>
    requires { at + 2 ≤ size }
    ensures { option_map parcel_of result ≡ typed_at at size frame.now }
{
    if frame.len() < size {
        return None;
    }
    read_internet(two(frame, at), &frame[size..])
}

/// The UDP datagram in a packet that says its version itself.
fn read_raw(octets: &[u8]) -> Option<Parcel<'_>>
    ensures { option_map parcel_of result ≡ or_else (v4_in octets.now) (v6_in octets.now) }
{
    match read_v4(octets) {
        Some(parcel) => Some(parcel),
        None => read_v6(octets),
    }
}

/// The UDP datagram in a frame that begins with a family of addresses, in either order.
#[tactic(auto, unfolding(crate::specs::reading::Packet::family_in))]
fn read_family(frame: &[u8]) -> Option<Parcel<'_>>
    ensures { option_map parcel_of result ≡ family_in frame.now }
{
    if frame.len() < 4 {
        return None;
    }
    let high = four(Order::High, frame, 0);
    let low = four(Order::Low, frame, 0);
    let rest = &frame[4..];
    if high == 2 || low == 2 {
        return read_v4(rest);
    }
    if high == 24 || high == 28 || high == 30 || low == 24 || low == 28 || low == 30 {
        return read_v6(rest);
    }
    None
}

/// The UDP datagram in a frame on this type of link.
#[tactic(auto, unfolding(crate::specs::reading::Packet::inside_in))]
fn read_inside(link: u32, frame: &[u8]) -> Option<Parcel<'_>>
    ensures { option_map parcel_of result ≡ inside_in link frame.now }
{
    match link {
        0 | 108 => read_family(frame),
        1 => read_typed(frame, 12, 14),
        12 | 14 | 101 => read_raw(frame),
        113 => read_typed(frame, 14, 16),
        228 => read_v4(frame),
        229 => read_v6(frame),
        276 => read_typed(frame, 0, 20),
        _ => None,
    }
}

/// The GTP datagram that a frame carries, on a link of this type.
#[tactic(auto, unfolding(crate::specs::reading::Packet::packet_in))]
pub fn packet_in_frame(ports: Ports, link: u32, frame: &[u8]) -> Option<Packet<'_>>
    ensures { option_map packet_of result ≡ packet_in ports link frame.now }
{
    let parcel = read_inside(link, frame)?;
    let udp = read_udp(parcel.octets)?;
    let plane = plane_of(ports, udp.from, udp.to)?;
    Some(Packet {
        from: Endpoint {
            ip: parcel.from,
            port: udp.from,
        },
        to: Endpoint {
            ip: parcel.to,
            port: udp.to,
        },
        plane,
        fragment: parcel.fragment,
        had: udp.had,
        octets: udp.held,
    })
}

/// The GTP datagram, by these ports, that a frame carries, on a link of this type, as tcpdump numbers them.
pub fn read_packet(ports: Ports, link: u32, frame: &[u8]) -> Option<Packet<'_>>
    ensures found { IfSome result (λ packet. Carries ports link frame.now (packet_of packet)) }
    ensures none { IfNone result ((d : AnyPacket) → Carries ports link frame.now d → ⊥) }
{
    packet_in_frame(ports, link, frame)
}
