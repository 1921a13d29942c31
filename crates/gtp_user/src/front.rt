//! The extension header at the front of octets (TS 29.281 5.2.1).

ghost use Rattle.std.specs.Prelude.{◌≤◌, length};
ghost use Rattle.gtp_values.specs.Steps.{Gives};
ghost use Rattle.gtp_user.specs.reading.Walk.{front_at};
ghost use Rattle.gtp_user.specs.reading.Chained.{front_of};

use crate::fault::UserFault;

/// A header at the start of octets, after the octet that has its type.
#[derive(Clone, Copy)]
pub struct Front<'a> {
    pub content: &'a [u8],
    /// The type of the header after it, 0 where there is none.
    pub next: u8,
    pub rest: &'a [u8],
}

/// The header of this type at the start of the last octets of a datagram of `end` octets.
#[inline(always)]
pub fn read_front(kind: u8, octets: &[u8], end: usize) -> Result<Front<'_>, UserFault>
    requires { length octets.now ≤ end }
    ensures { Gives front_of result (front_at end kind octets.now) }
{
    let at = end - octets.len();
    let [units, tail @ ..] = octets else {
        return Err(UserFault::ExtensionPast { at });
    };
    if *units == 0 {
        return Err(UserFault::ExtensionZero { at });
    }
    let size = 4 * usize::from(*units) - 2;
    if tail.len() <= size {
        return Err(UserFault::ExtensionPast { at });
    }
    if kind >= 128 {
        return Err(UserFault::ExtensionNeeded { kind, at });
    }
    Ok(Front {
        content: &tail[..size],
        next: tail[size],
        rest: &tail[size + 1..],
    })
}
