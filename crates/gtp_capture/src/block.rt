//! The blocks of a capture (pcapng).

ghost use Rattle.std.specs.Prelude.{◌≡◌, ◌⊎◌, ◌≤◌, ◌≢◌, ◌%◌, ◌++◌, IsTrue, IsFalse, List, ℕ, true, min, length, IfOk, IfErr, IfSome, IfNone, ◌+◌, ◌-◌, ◌^◌, ◌<◌, Err};
ghost use Rattle.gtp_counted.specs.Counts.{inner_of, failures_of};
ghost use Rattle.gtp_capture.specs.Octets.{four_at};
ghost use Rattle.gtp_capture.specs.Block.{section_type, order_number, is_read};
ghost use Rattle.gtp_capture.specs.Capture.{Blocks};
ghost use Rattle.gtp_capture.specs.Outcome.{Known, Steps, StepsBehind, IsSectionBehind};
ghost use Rattle.gtp_capture.specs.reading.Block.{Passes, Finishes};
ghost use Rattle.gtp_capture.specs.declared.octets.Order.{Order as AnyOrder};
ghost use Rattle.gtp_capture.specs.declared.octets.Order.TheVariants.{High};

use crate::block_kind::{is_read_type, item_in};
use crate::fault::Stop;
use crate::interface::Interface;
use crate::octets::{Order, four};
use crate::read_exact::{fill, next_octets, refill};
use crate::step::{Found, Item, Step};
use gtp_counted::Counted;
use std::io::Read;

/// The type of a section's header, in either order.
pub const SECTION: u32 = 0x0a0d_0d0a;

/// How much is kept of what a block holds: the octets before a frame's, and those of the frame.
const KEPT: usize = 262_164;

/// How many octets are passed over at a time.
const PART: usize = 512;

/// Passes over so many octets. Are there as many?
fn pass<R: Read>(reader: &mut Counted<R>, size: usize) -> Result<bool, Stop>
    requires { failures_of reader.old < 2 ^ 64 - 1 }
    ensures ok { IfOk result (λ whole. Known (Passes size whole)
        (R.remaining (inner_of reader.old)) (R.remaining (inner_of reader.new))) }
    ensures err { IfErr result (λ stop. stop ≡ Stop.Read) }
    ensures failed { result ≡ Err Stop.Read
        → failures_of reader.new ≡ failures_of reader.old + 1 }
    ensures unfailed { result ≢ Err Stop.Read
        → failures_of reader.new ≡ failures_of reader.old }
{
    let mut buffer = [0u8; PART];
    let mut left = size;
    while left > 0 {
        let part = left.min(PART);
        if fill(reader, &mut buffer[..part])? < part {
            return Ok(false);
        }
        left -= part;
    }
    Ok(true)
}

/// Passes over the rest of a block. Is it whole, and says its size again?
fn finish<R: Read>(
    reader: &mut Counted<R>,
    order: Order,
    left: usize,
    size: u32,
) -> Result<bool, Stop>
    requires { failures_of reader.old < 2 ^ 64 - 1 }
    ensures ok { IfOk result (λ whole. Known (Finishes order left size whole)
        (R.remaining (inner_of reader.old)) (R.remaining (inner_of reader.new))) }
    ensures err { IfErr result (λ stop. stop ≡ Stop.Read) }
    ensures failed { result ≡ Err Stop.Read
        → failures_of reader.new ≡ failures_of reader.old + 1 }
    ensures unfailed { result ≢ Err Stop.Read
        → failures_of reader.new ≡ failures_of reader.old }
{
    if !pass(reader, left)? {
        return Ok(false);
    }
    let (tail, found) = next_octets::<R, 4>(reader)?;
    if found < 4 {
        return Ok(false);
    }
    Ok(four(order, &tail, 0) == size)
}

/// Whether a block may have so many octets, at least so many.
fn is_size(size: u32, least: u32) -> bool
    ensures yes { IsTrue result → (least ≤ size) × (size % 4 ≡ 0) }
    ensures no { IsFalse result → least ≤ size → size % 4 ≡ 0 → ⊥ }
{
    least <= size && size % 4 == 0
}

/// The order that a number says, read with its high octet first.
fn order_of(number: u32) -> Option<Order>
    ensures found { IfSome result (λ order. number ≡ order_number order) }
    ensures none { IfNone result ((order : AnyOrder) → number ≡ order_number order → ⊥) }
{
    match number {
        0x1a2b_3c4d => Some(Order::High),
        0x4d3c_2b1a => Some(Order::Low),
        _ => None,
    }
}

/// Reads the header of a section, of which the first octets were read. Its order, and how many octets it has.
pub fn finish_section<R: Read>(
    reader: &mut Counted<R>,
    head: &[u8],
    front: &[u8],
) -> Result<Option<(Order, u32)>, Stop>
    requires reads { failures_of reader.old < 2 ^ 64 - 1 }
    requires head { length head.now ≡ 8 }
    requires front { length front.now ≡ 16 }
    requires kind { four_at High 0 head.now ≡ section_type }
    ensures ok { IfOk result (λ found. Known (IsSectionBehind (head.now ++ front.now) found)
        (R.remaining (inner_of reader.old)) (R.remaining (inner_of reader.new))) }
    ensures err { IfErr result (λ stop. stop ≡ Stop.Read) }
    ensures failed { result ≡ Err Stop.Read
        → failures_of reader.new ≡ failures_of reader.old + 1 }
    ensures unfailed { result ≢ Err Stop.Read
        → failures_of reader.new ≡ failures_of reader.old }
{
    let Some(order) = order_of(four(Order::High, front, 0)) else {
        return Ok(None);
    };
    let size = four(order, head, 4);
    if !is_size(size, 28) {
        return Ok(None);
    }
    if !finish(reader, order, size as usize - 28, size)? {
        return Ok(None);
    }
    Ok(Some((order, size)))
}

/// The header of a section, whose head was read.
fn next_section<R: Read>(
    reader: &mut Counted<R>,
    head: &[u8],
    order: Order,
    interfaces: &[Interface],
) -> Result<Step, Stop>
    requires reads { failures_of reader.old < 2 ^ 64 - 1 }
    requires head { length head.now ≡ 8 }
    requires kind { four_at High 0 head.now ≡ section_type }
    ensures ok { IfOk result (λ step. (room : List ℕ) → StepsBehind head.now
        (Blocks order interfaces.now) (R.remaining (inner_of reader.old)) (R.remaining (inner_of reader.new)) step room) }
    ensures err { IfErr result (λ stop. (stop ≡ Stop.Read) ⊎ (stop ≡ Stop.Memory)) }
    ensures failed { result ≡ Err Stop.Read
        → failures_of reader.new ≡ failures_of reader.old + 1 }
    ensures unfailed { result ≢ Err Stop.Read
        → failures_of reader.new ≡ failures_of reader.old }
{
    let (front, found) = next_octets::<R, 16>(reader)?;
    if found < 16 {
        return Ok(Step::Broken);
    }
    match finish_section(reader, head, &front)? {
        Some((order, size)) => Ok(Step::Found(Found {
            item: Item::Section(order),
            size,
        })),
        None => Ok(Step::Broken),
    }
}

/// How much is kept of so many octets that a block of this type holds.
fn kept(kind: u32, size: usize) -> usize
    ensures bound { result ≤ size }
    ensures value { is_read kind ≡ true → result ≡ min size 262164 }
{
    if is_read_type(kind) {
        size.min(KEPT)
    } else {
        0
    }
}

/// A block that is no header of a section, whose head was read.
fn next_inside<R: Read>(
    reader: &mut Counted<R>,
    head: &[u8],
    order: Order,
    interfaces: &[Interface],
    room: &mut Vec<u8>,
) -> Result<Step, Stop>
    requires reads { failures_of reader.old < 2 ^ 64 - 1 }
    requires head { length head.now ≡ 8 }
    requires kind { four_at High 0 head.now ≢ section_type }
    ensures ok { IfOk result (λ step. StepsBehind head.now (Blocks order interfaces.now)
        (R.remaining (inner_of reader.old)) (R.remaining (inner_of reader.new)) step room.new.items) }
    ensures err { IfErr result (λ stop. (stop ≡ Stop.Read) ⊎ (stop ≡ Stop.Memory)) }
    ensures failed { result ≡ Err Stop.Read
        → failures_of reader.new ≡ failures_of reader.old + 1 }
    ensures unfailed { result ≢ Err Stop.Read
        → failures_of reader.new ≡ failures_of reader.old }
{
    let size = four(order, head, 4);
    if !is_size(size, 12) {
        return Ok(Step::Broken);
    }
    let kind = four(order, head, 0);
    let held = size as usize - 12;
    let kept = kept(kind, held);
    refill(reader, room, kept)?;
    if room.len() < kept {
        return Ok(Step::Broken);
    }
    if !finish(reader, order, held - kept, size)? {
        return Ok(Step::Broken);
    }
    match item_in(order, interfaces, kind, held, room) {
        Some(item) => Ok(Step::Found(Found { item, size })),
        None => Ok(Step::Broken),
    }
}

/// What stands next, and of the octets that it holds those that are read.
pub fn next_block<R: Read>(
    reader: &mut Counted<R>,
    order: Order,
    interfaces: &[Interface],
    room: &mut Vec<u8>,
) -> Result<Step, Stop>
    requires { failures_of reader.old < 2 ^ 64 - 1 }
    ensures ok { IfOk result (λ step. Steps (Blocks order interfaces.now)
        (R.remaining (inner_of reader.old)) (R.remaining (inner_of reader.new)) step room.new.items) }
    ensures err { IfErr result (λ stop. (stop ≡ Stop.Read) ⊎ (stop ≡ Stop.Memory)) }
    ensures failed { result ≡ Err Stop.Read
        → failures_of reader.new ≡ failures_of reader.old + 1 }
    ensures unfailed { result ≢ Err Stop.Read
        → failures_of reader.new ≡ failures_of reader.old }
{
    let (head, found) = next_octets::<R, 8>(reader)?;
    if found == 0 {
        return Ok(Step::End);
    }
    if found < 8 {
        return Ok(Step::Broken);
    }
    if four(Order::High, &head, 0) == SECTION {
        return next_section(reader, &head, order, interfaces);
    }
    next_inside(reader, &head, order, interfaces, room)
}
