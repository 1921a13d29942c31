//! The whole elements at the front of octets.

ghost use Rattle.std.specs.Prelude.{◌+◌, ◌<◌, ◌^◌, length};
ghost use Rattle.gtp_ie.specs.Octets.{IsCut};
ghost use Rattle.gtp_lines.specs.All.{IsFront};

use gtp_ie::{Elements, IeFault, elements_at};

/// The elements before this place, where no whole one stands, and the octets from there on.
fn elements_before(octets: &[u8], base: usize, at: usize) -> (Elements<'_>, &[u8])
    requires place { base + length octets.now < 2 ^ 64 }
    requires cut { IsCut base octets.now at }
    ensures { IsFront base octets.now result.0 result.1.now }
{
    let (front, rest) = octets.split_at(at - base);
    match elements_at(front, base) {
        Ok(elements) => (elements, rest),
        Err(_) => unreachable!(),
    }
}

/// The elements at the front of octets of which the first has this place in the message, as many as are whole, and the
/// octets after them.
pub fn front_elements(octets: &[u8], base: usize) -> (Elements<'_>, &[u8])
    requires { base + length octets.now < 2 ^ 64 }
    ensures { IsFront base octets.now result.0 result.1.now }
{
    match elements_at(octets, base) {
        Ok(elements) => (elements, &[]),
        Err(IeFault::Truncated { at }) => elements_before(octets, base, at),
        Err(_) => unreachable!(),
    }
}
