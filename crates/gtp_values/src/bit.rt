//! Bits of an octet.

ghost use Rattle.std.specs.Prelude.{◌≡◌, ◌/◌, ◌%◌, ◌==◌, ◌^◌, ◌<◌};

/// Whether the bit at a place is set: the lowest is at place 0, the highest at 7.
#[inline(always)]
pub fn has_bit(octet: u8, place: u8) -> bool
    requires { place < 8 }
    ensures { result ≡ ((octet / 2 ^ place) % 2 == 1) }
{
    octet >> place & 1 == 1
}
