//! Octets as hexadecimal digits.

ghost use Rattle.std.specs.Prelude.{◌≡◌, ◌*◌, length};
ghost use Rattle.std.specs.Fmt.{WritesOnOk};
ghost use Rattle.hex.specs.Hex.{encode_lower};

use std::{fmt, str};

/// Writes octets as hexadecimal digits in lower case, over a buffer of twice as many octets.
pub fn write_digits<W: fmt::Write>(
    f: &mut fmt::Formatter<W>,
    octets: &[u8],
    digits: &mut [u8],
) -> fmt::Result
    requires { length digits.old ≡ 2 * length octets.now }
    ensures { WritesOnOk W.Write.write_str_gives f.old result (encode_lower octets.now) f.new }
{
    let Ok(()) = hex::encode_to_slice(octets, digits) else {
        unreachable!();
    };
    let Ok(text) = str::from_utf8(digits) else {
        unreachable!();
    };
    f.write_str(text)
}
