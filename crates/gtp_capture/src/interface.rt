//! The interfaces that the blocks of a section describe.

ghost use Rattle.std.specs.Prelude.{◌≡◌, ◌≤◌, length, drop, slice_get, slice_index, IfSome, IfNone};
ghost use Rattle.gtp_capture.specs.Octets.{eight_at};
ghost use Rattle.gtp_capture.specs.Options.{option_in, octet_or, number_or_none};
ghost use Rattle.gtp_capture.specs.Block.{IsInterface};
ghost use Rattle.gtp_capture.specs.declared.interface.Interface.{Interface as AnyInterface};

use crate::octets::{Order, eight, four, from, pair};
use crate::options::find_option;
use crate::record::LIMIT;

/// What is said of an interface.
#[derive(Clone, Copy, Debug)]
pub struct Interface {
    /// The type of link, as tcpdump numbers them.
    pub link: u32,
    /// The most octets that are held of a frame; 0 is no bound.
    pub snap: u32,
    /// Of its clock, as `if_tsresol` says it.
    pub resolution: u8,
    /// In seconds, as `if_tsoffset` says it.
    pub offset: u64,
}

/// The resolution that options say: microseconds if they say none.
fn resolution_in(order: Order, octets: &[u8]) -> u8
    ensures { result ≡ octet_or 6 (option_in order 9 1 octets.now) }
{
    match find_option(order, 9, 1, octets) {
        Some(resolution) => resolution[0],
        None => 6,
    }
}

/// The offset that options say: 0 if they say none.
fn offset_in(order: Order, octets: &[u8]) -> u64
    ensures { result ≡ number_or_none order (option_in order 14 8 octets.now) }
{
    match find_option(order, 14, 8, octets) {
        Some(offset) => eight(order, offset, 0),
        None => 0,
    }
}

/// What a block holds that describes an interface.
pub fn interface_in(order: Order, body: &[u8]) -> Option<Interface>
    ensures found { IfSome result (λ interface. IsInterface order body.now interface) }
    ensures none { IfNone result ((i : AnyInterface) → IsInterface order body.now i → ⊥) }
{
    if body.len() < 8 || body.len() > LIMIT {
        return None;
    }
    let options = from(body, 8);
    Some(Interface {
        link: u32::from(pair(order, body, 0)),
        snap: four(order, body, 4),
        resolution: resolution_in(order, options),
        offset: offset_in(order, options),
    })
}

/// The interface with a number.
pub fn interface_at(interfaces: &[Interface], number: usize) -> Option<Interface>
    ensures { result ≡ slice_get interfaces.now number }
{
    interfaces.get(number).copied()
}
