//! Pieces of text, appended to a buffer.

ghost use Rattle.std.specs.Prelude.{◌≡◌, ◌<◌, ◌++◌, OnOk, decimal, replicate};
ghost use Rattle.gtp_forms.specs.Text.{octets_text};

use crate::spelling::hexadecimal;
use itoa::Buffer;
use std::alloc::{AllocError, Global};

/// Appends a text.
pub fn put(out: &mut Vec<u8>, text: &[u8]) -> Result<(), AllocError>
    ensures ok { OnOk result (out.new.items ≡ out.old.items ++ text.now) }
{
    out.extend_from_slice(text)?;
    Ok(())
}

/// Appends a number in decimal.
pub fn put_number(out: &mut Vec<u8>, number: u64) -> Result<(), AllocError>
    ensures ok { OnOk result (out.new.items ≡ out.old.items ++ decimal number) }
{
    let mut buffer = Buffer::new();
    out.extend_from_slice(buffer.format(number).as_bytes())?;
    Ok(())
}

/// Appends octets in lower case hexadecimal, or a mark that there are none.
pub fn put_octets(alloc: Global, out: &mut Vec<u8>, octets: &[u8]) -> Result<(), AllocError>
    ensures ok { OnOk result (out.new.items ≡ out.old.items ++ octets_text octets.now) }
{
    if octets.is_empty() {
        put(out, b"-")
    } else {
        put(out, hexadecimal(alloc, octets)?.as_bytes())
    }
}

/// Appends blanks.
#[tactic(auto, using(crate::proofs::Events::appending))]
pub fn put_blanks(out: &mut Vec<u8>, count: usize) -> Result<(), AllocError>
    ensures ok { OnOk result (out.new.items ≡ out.old.items ++ replicate count 32) }
{
    for turn in 0..count {
        out.push(b' ')?;
    }
    Ok(())
}
