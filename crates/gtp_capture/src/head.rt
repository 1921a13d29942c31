//! The head of a capture.

ghost use Rattle.std.specs.Prelude.{IsTrue, IsFalse, ◌≡◌, ◌≤◌, ◌++◌, length, IfSome, IfNone, IfOk, IfErr, ◌≢◌, ◌+◌, ◌-◌, ◌^◌, ◌<◌, Err};
ghost use Rattle.gtp_counted.specs.Counts.{inner_of, failures_of};
ghost use Rattle.gtp_capture.specs.Frame.{IsHead, magic};
ghost use Rattle.gtp_capture.specs.Capture.{BeginsAsCapture};
ghost use Rattle.gtp_capture.specs.Octets.{four_at};
ghost use Rattle.gtp_capture.specs.Block.{section_type};
ghost use Rattle.gtp_capture.specs.Outcome.{Known, HasBegun};
ghost use Rattle.gtp_capture.specs.declared.octets.Order.TheVariants.{High};
ghost use Rattle.gtp_capture.specs.declared.head.Kind.{Kind as AnyKind};
ghost use Rattle.gtp_capture.specs.declared.head.Unit.{Unit as AnyUnit};

use crate::block::{SECTION, finish_section};
use crate::fault::Stop;
use crate::octets::{Order, four, from, front};
use crate::read_exact::next_octets;
use crate::step::{Format, Started};
use gtp_counted::Counted;
use std::io::Read;

/// What the fractions of a second are counted in.
#[derive(Clone, Copy, Debug, PartialEq, Eq)]
pub enum Unit {
    Microseconds,
    Nanoseconds,
}

/// What the head of a capture says of its records.
#[derive(Clone, Copy, Debug)]
pub struct Kind {
    pub order: Order,
    pub unit: Unit,
    /// The type of link, as tcpdump numbers them.
    pub link: u32,
}

/// The unit that a number at the start says.
fn unit_of(number: u32) -> Option<Unit>
    ensures found { IfSome result (λ unit. number ≡ magic unit) }
    ensures none { IfNone result ((unit : AnyUnit) → number ≡ magic unit → ⊥) }
{
    match number {
        0xa1b2_c3d4 => Some(Unit::Microseconds),
        0xa1b2_3c4d => Some(Unit::Nanoseconds),
        _ => None,
    }
}

/// What the octets of a head say in this order.
fn kind_in(order: Order, head: &[u8]) -> Option<Kind>
    requires { 24 ≤ length head.now }
    ensures found { IfSome result (IsHead head.now) }
    ensures none { IfNone result ((k : AnyKind) → k.order ≡ order → IsHead head.now k → ⊥) }
{
    let unit = unit_of(four(order, head, 0))?;
    let link = four(order, head, 20) % 65536;
    Some(Kind { order, unit, link })
}

/// What the octets of a head say.
fn read_kind(head: &[u8]) -> Option<Kind>
    requires { 24 ≤ length head.now }
    ensures found { IfSome result (IsHead head.now) }
    ensures none { IfNone result ((k : AnyKind) → IsHead head.now k → ⊥) }
{
    match kind_in(Order::High, head) {
        Some(kind) => Some(kind),
        None => kind_in(Order::Low, head),
    }
}

/// Whether octets begin as a capture does: with the number of a pcap file, in either order, or with the type of a section
/// (pcapng).
pub fn begins_as_capture(octets: &[u8]) -> bool
    ensures yes { IsTrue result → BeginsAsCapture octets.now }
    ensures no { IsFalse result → BeginsAsCapture octets.now → ⊥ }
{
    if octets.len() < 4 {
        return false;
    }
    let number = four(Order::High, octets, 0);
    number == SECTION || unit_of(number).is_some() || unit_of(four(Order::Low, octets, 0)).is_some()
}

/// The header of the first section of a capture, of which the first octets were read.
fn start_section<R: Read>(reader: &mut Counted<R>, head: &[u8]) -> Result<Option<Started>, Stop>
    requires reads { failures_of reader.old < 2 ^ 64 - 1 }
    requires size { length head.now ≡ 24 }
    requires kind { four_at High 0 head.now ≡ section_type }
    requires other { (k : AnyKind) → IsHead head.now k → ⊥ }
    ensures ok { IfOk result (λ s. Known (λ octets left. HasBegun s (head.now ++ octets) left)
        (R.remaining (inner_of reader.old)) (R.remaining (inner_of reader.new))) }
    ensures err { IfErr result (λ stop. stop ≡ Stop.Read) }
    ensures failed { result ≡ Err Stop.Read
        → failures_of reader.new ≡ failures_of reader.old + 1 }
    ensures unfailed { result ≢ Err Stop.Read
        → failures_of reader.new ≡ failures_of reader.old }
{
    match finish_section(reader, front(head, 8), from(head, 8))? {
        Some((order, size)) => Ok(Some(Started {
            format: Format::Blocks(order),
            size,
        })),
        None => Ok(None),
    }
}

/// How a capture begins.
pub fn read_start<R: Read>(reader: &mut Counted<R>) -> Result<Option<Started>, Stop>
    requires { failures_of reader.old < 2 ^ 64 - 1 }
    ensures ok { IfOk result (λ s. Known (HasBegun s)
        (R.remaining (inner_of reader.old)) (R.remaining (inner_of reader.new))) }
    ensures err { IfErr result (λ stop. stop ≡ Stop.Read) }
    ensures failed { result ≡ Err Stop.Read
        → failures_of reader.new ≡ failures_of reader.old + 1 }
    ensures unfailed { result ≢ Err Stop.Read
        → failures_of reader.new ≡ failures_of reader.old }
{
    let (head, found) = next_octets::<R, 24>(reader)?;
    if found < 24 {
        return Ok(None);
    }
    match read_kind(&head) {
        Some(kind) => Ok(Some(Started {
            format: Format::Records(kind),
            size: 24,
        })),
        None => {
            if four(Order::High, &head, 0) != SECTION {
                return Ok(None);
            }
            start_section(reader, &head)
        }
    }
}
