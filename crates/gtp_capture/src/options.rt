//! The options of a block.

ghost use Rattle.std.specs.Prelude.{◌≡◌, ◌≤◌, ◌+◌, length, drop, option_map, IfSome, IsTrue};
ghost use Rattle.gtp_capture.specs.Options.{has_option as stands, is_option as is_this, padded, option_in};
ghost use Rattle.gtp_capture.specs.Octets.{pair_at};
ghost use Rattle.gtp_capture.specs.reading.Internet.{chained_of};

use crate::octets::{Order, from, front, pair};

/// Whether an option stands at the front.
fn has_option(order: Order, octets: &[u8]) -> bool
    ensures value { result ≡ stands order octets.now }
    ensures room { IsTrue result → 4 + pair_at order 2 octets.now ≤ length octets.now }
{
    if octets.len() < 4 {
        return false;
    }
    pair(order, octets, 0) != 0 && 4 + usize::from(pair(order, octets, 2)) <= octets.len()
}

/// Whether it has this code, and so many octets.
fn is_option(order: Order, code: u16, size: u16, octets: &[u8]) -> bool
    requires { 4 ≤ length octets.now }
    ensures { result ≡ is_this order code size octets.now }
{
    pair(order, octets, 0) == code && pair(order, octets, 2) == size
}

/// What stands behind an option that is filled up to a multiple of four octets.
fn behind(order: Order, octets: &[u8]) -> &[u8]
    requires { 4 ≤ length octets.now }
    ensures { result.now ≡ drop (4 + padded (pair_at order 2 octets.now)) octets.now }
{
    from(
        octets,
        4 + (usize::from(pair(order, octets, 2)) + 3) / 4 * 4,
    )
}

/// The octets of the first option with this code and so many octets.
pub fn find_option(order: Order, code: u16, size: u16, octets: &[u8]) -> Option<&[u8]>
    ensures found { option_map chained_of result ≡ option_in order code size octets.now }
    ensures size { IfSome result (λ octets. length octets.now ≡ size) }
{
    let mut rest = octets;
    while has_option(order, rest) {
        if is_option(order, code, size, rest) {
            return Some(front(from(rest, 4), usize::from(size)));
        }
        rest = behind(order, rest);
    }
    None
}
