//! Writing elements.

ghost use Rattle.std.specs.Prelude.{◌≡◌, ◌+◌, ◌-◌, ◌≤◌, ◌<◌, ◌↔◌, ◌⊎◌, [], ◌∷◌, ◌++◌, OnOk, OnErr, IfErr, IsErrOf, length};
ghost use Rattle.gtp_ie.specs.Text.{element_encoding, closed};
ghost use Rattle.gtp_ie.specs.Spelling.{Spells};
ghost use Rattle.gtp_ie.specs.Value.{encoding_of};
ghost use Rattle.gtp_ie.specs.Parts.{joined};
ghost use Rattle.gtp_ie.specs.declared.fault.IeFault.TheVariants.{Memory, TooLong};

use crate::fault::IeFault;
use crate::value::IeValue;
use std::alloc::AllocError;

/// Appends all parts, or none.
pub fn append(out: &mut Vec<u8>, parts: &[&[u8]]) -> Result<(), AllocError>
    ensures ok { OnOk result (out.new.items ≡ out.old.items ++ joined parts.now) }
    ensures err { OnErr result (out.new.items ≡ out.old.items) }
{
    let before = out.len();
    for part in parts {
        if let Err(refused) = out.extend_from_slice(part) {
            out.truncate(before);
            return Err(refused);
        }
    }
    Ok(())
}

/// Begins an element with spare bits 0 (TS 29.274 8.2). Its length is written by `close`.
pub fn open(out: &mut Vec<u8>, kind: u8, instance: u8) -> Result<(), AllocError>
    requires { instance < 16 }
    ensures ok { OnOk result (out.new.items ≡ out.old.items ++ kind ∷ 0 ∷ 0 ∷ instance ∷ []) }
    ensures err { OnErr result (out.new.items ≡ out.old.items) }
{
    out.extend_from_slice(&[kind, 0, 0, instance])?;
    Ok(())
}

/// Writes the length of the element that begins at `start` and runs to the end, modulo 65536: a caller
/// that writes whole messages has to refuse longer ones.
pub fn close(out: &mut Vec<u8>, start: usize)
    requires { start + 4 ≤ length out.old.items }
    ensures { out.new.items ≡ closed start (length out.old.items - (start + 4)) out.old.items }
{
    let size = out.len() - (start + 4);
    let [high, low] = ((size % 65_536) as u16).to_be_bytes();
    out[start + 1] = high;
    out[start + 2] = low;
}

/// Appends the element of a value. After out of memory the vector is as before.
pub fn put_value<T: IeValue>(out: &mut Vec<u8>, instance: u8, value: &T) -> Result<(), AllocError>
    requires { instance < 16 }
    ensures ok { OnOk result
        (out.new.items
        ≡ out.old.items
        ++ element_encoding T.KIND instance (encoding_of (T.value value.now))) }
    // Its body spells the value.
    ensures again { OnOk result (Spells T.KIND (encoding_of (T.value value.now))
        (T.value value.now)) }
    ensures err { OnErr result (out.new.items ≡ out.old.items) }
{
    let start = out.len();
    out.extend_from_slice(&[T::KIND, 0, value.body_length() as u8, instance])?;
    if let Err(refused) = value.write(out) {
        out.truncate(start);
        return Err(refused);
    }
    Ok(())
}

/// Appends the element of a type and instance with this body and spare bits 0: `TooLong` exactly
/// for a body above 65,535 octets, else `Memory` where an allocation was refused. After a refusal the
/// vector is as before.
pub fn put(out: &mut Vec<u8>, kind: u8, instance: u8, body: &[u8]) -> Result<(), IeFault>
    requires { instance < 16 }
    ensures ok { OnOk result (out.new.items
        ≡ out.old.items ++ element_encoding kind instance body.now) }
    ensures long { IsErrOf result IeFault.TooLong ↔ (65535 < length body.now) }
    ensures fault { IfErr result (λ f. (f ≡ TooLong) ⊎ (f ≡ Memory)) }
    ensures err { OnErr result (out.new.items ≡ out.old.items) }
{
    let Ok(len) = u16::try_from(body.len()) else {
        return Err(IeFault::TooLong);
    };
    let [high, low] = len.to_be_bytes();
    append(out, &[&[kind, high, low, instance], body])?;
    Ok(())
}
