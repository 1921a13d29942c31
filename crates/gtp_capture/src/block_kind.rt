//! What a block is.

ghost use Rattle.std.specs.Prelude.{◌≡◌, ◌⊎◌, ◌+◌, ◌*◌, ◌≤◌, ◌++◌, List, ℕ, true, length, min, IfSome, IfNone};
ghost use Rattle.gtp_capture.specs.Octets.{four_at};
ghost use Rattle.gtp_capture.specs.Block.{is_read, IsInterface, IsTimed, IsTimedOf, IsSimple, IsSimpleOf, IsPacketBlock, snapped as snapped_to};
ghost use Rattle.gtp_capture.specs.Capture.{Piece, IsMeant};
ghost use Rattle.gtp_capture.specs.Outcome.{frame_of, piece_of};
ghost use Rattle.gtp_capture.specs.Frame.{Frame};
ghost use Rattle.gtp_capture.specs.declared.interface.Interface.{Interface as AnyInterface};
ghost use Rattle.gtp_capture.specs.reading.Block.{IsFront};

use crate::captured::Time;
use crate::clock::time_of;
use crate::head::Unit;
use crate::interface::{Interface, interface_at, interface_in};
use crate::octets::{Order, four, pair};
use crate::record::LIMIT;
use crate::step::{Head, Item};

/// The frame of an interface in a block that has its time. Of what the block holds, so many octets, this is the front.
fn timed_in(order: Order, interface: Interface, size: usize, front: &[u8]) -> Option<Head>
    requires { length front.now ≡ min size 262164 }
    ensures found { IfSome result (λ h. (more : List ℕ) → IsFront front.now more size
        → IsTimed order interface (front.now ++ more) (frame_of h front.now)) }
    ensures none { IfNone result ((more : List ℕ) (f : Frame) → IsFront front.now more size
        → IsTimed order interface (front.now ++ more) f → ⊥) }
{
    if size < 20 {
        return None;
    }
    let held = four(order, front, 12) as usize;
    if held > LIMIT || 20 + held > size {
        return None;
    }
    let count = 4_294_967_296 * u64::from(four(order, front, 4)) + u64::from(four(order, front, 8));
    Some(Head {
        time: time_of(interface.resolution, interface.offset, count),
        link: interface.link,
        had: four(order, front, 16),
        at: 20,
        held,
    })
}

/// The same of the interface with a number.
fn timed_of(
    order: Order,
    interfaces: &[Interface],
    number: usize,
    size: usize,
    front: &[u8],
) -> Option<Head>
    requires { length front.now ≡ min size 262164 }
    ensures found { IfSome result (λ h. (more : List ℕ) → IsFront front.now more size
        → IsTimedOf order interfaces.now number (front.now ++ more) (frame_of h front.now)) }
    ensures none { IfNone result ((more : List ℕ) (f : Frame) → IsFront front.now more size
        → IsTimedOf order interfaces.now number (front.now ++ more) f → ⊥) }
{
    let interface = interface_at(interfaces, number)?;
    timed_in(order, interface, size, front)
}

/// How many octets an interface holds of a frame that had so many.
fn snapped(bound: u32, had: u32) -> u32
    ensures { result ≡ snapped_to bound had }
{
    if bound == 0 { had } else { bound.min(had) }
}

/// The frame of an interface in a block that has no time.
fn simple_in(order: Order, interface: Interface, size: usize, front: &[u8]) -> Option<Head>
    requires { length front.now ≡ min size 262164 }
    ensures found { IfSome result (λ h. (more : List ℕ) → IsFront front.now more size
        → IsSimple order interface (front.now ++ more) (frame_of h front.now)) }
    ensures none { IfNone result ((more : List ℕ) (f : Frame) → IsFront front.now more size
        → IsSimple order interface (front.now ++ more) f → ⊥) }
{
    if size < 4 {
        return None;
    }
    let had = four(order, front, 0);
    let held = snapped(interface.snap, had) as usize;
    if held > LIMIT || 4 + held > size {
        return None;
    }
    let time = Time {
        seconds: 0,
        fraction: 0,
        unit: Unit::Microseconds,
    };
    Some(Head {
        time,
        link: interface.link,
        had,
        at: 4,
        held,
    })
}

/// The same of the first interface.
fn simple_of(order: Order, interfaces: &[Interface], size: usize, front: &[u8]) -> Option<Head>
    requires { length front.now ≡ min size 262164 }
    ensures found { IfSome result (λ h. (more : List ℕ) → IsFront front.now more size
        → IsSimpleOf order interfaces.now (front.now ++ more) (frame_of h front.now)) }
    ensures none { IfNone result ((more : List ℕ) (f : Frame) → IsFront front.now more size
        → IsSimpleOf order interfaces.now (front.now ++ more) f → ⊥) }
{
    let interface = interface_at(interfaces, 0)?;
    simple_in(order, interface, size, front)
}

/// The frame in a block of this type.
fn frame_in_block(
    order: Order,
    interfaces: &[Interface],
    kind: u32,
    size: usize,
    front: &[u8],
) -> Option<Head>
    requires { length front.now ≡ min size 262164 }
    ensures found { IfSome result (λ h. (more : List ℕ) → IsFront front.now more size
        → IsPacketBlock order interfaces.now kind (front.now ++ more) (frame_of h front.now)) }
    ensures none { IfNone result ((more : List ℕ) (f : Frame) → IsFront front.now more size
        → IsPacketBlock order interfaces.now kind (front.now ++ more) f → ⊥) }
{
    if kind == 3 {
        return simple_of(order, interfaces, size, front);
    }
    if size < 20 {
        return None;
    }
    if kind == 6 {
        return timed_of(
            order,
            interfaces,
            four(order, front, 0) as usize,
            size,
            front,
        );
    }
    if kind == 2 {
        return timed_of(
            order,
            interfaces,
            usize::from(pair(order, front, 0)),
            size,
            front,
        );
    }
    None
}

/// Whether a block of this type is read.
pub fn is_read_type(kind: u32) -> bool
    ensures { result ≡ is_read kind }
{
    kind == 1 || kind == 2 || kind == 3 || kind == 6
}

/// The interface that a block describes.
fn described_in(order: Order, size: usize, front: &[u8]) -> Option<Interface>
    requires { length front.now ≡ min size 262164 }
    ensures found { IfSome result (λ i. (more : List ℕ) → IsFront front.now more size
        → IsInterface order (front.now ++ more) i) }
    ensures none { IfNone result ((more : List ℕ) (i : AnyInterface) → IsFront front.now more size
        → IsInterface order (front.now ++ more) i → ⊥) }
{
    if size > LIMIT {
        return None;
    }
    interface_in(order, front)
}

/// What a block is that holds so many octets, of which this is the front.
pub fn item_in(
    order: Order,
    interfaces: &[Interface],
    kind: u32,
    size: usize,
    front: &[u8],
) -> Option<Item>
    requires { (is_read kind ≡ true) → length front.now ≡ min size 262164 }
    ensures found { IfSome result (λ item. (more : List ℕ) → IsFront front.now more size
        → IsMeant order interfaces.now kind (front.now ++ more) (piece_of item front.now)) }
    ensures none { IfNone result ((more : List ℕ) (p : Piece) → IsFront front.now more size
        → IsMeant order interfaces.now kind (front.now ++ more) p → ⊥) }
{
    if !is_read_type(kind) {
        return Some(Item::Other);
    }
    if kind == 1 {
        let interface = described_in(order, size, front)?;
        return Some(Item::Interface(interface));
    }
    let head = frame_in_block(order, interfaces, kind, size, front)?;
    Some(Item::Frame(head))
}
