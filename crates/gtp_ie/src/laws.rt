//! Laws of the values of elements, each the contract of a function.

ghost use Rattle.std.specs.Prelude.{◌≡◌, ◌++◌, ◌≤◌, ℕ, List, length, Ok, IfOk, OnOk, OnErr};
ghost use Rattle.gtp_ie.specs.Free.{SaysTheSame, form_length};
ghost use Rattle.gtp_ie.specs.Spelling.{Spells};
ghost use Rattle.gtp_ie.specs.Value.{Value, encoding_of};

use crate::fault::ReadFault;
use crate::value::IeValue;
use std::alloc::AllocError;

/// A body says the same as itself.
pub fn bodies_say_the_same_as_themselves()
    ensures { (kind : ℕ) (body : List ℕ) → SaysTheSame kind body body }
{}

/// Octets after the form are free, as long as the form stays as long as it was.
pub fn octets_after_the_form_are_free()
    ensures { (kind : ℕ) (body more : List ℕ) → form_length kind body ≤ length body
        → form_length kind (body ++ more) ≡ form_length kind body
        → SaysTheSame kind body (body ++ more) }
{}

/// What says the same as a body spells the same value.
pub fn bodies_that_say_the_same_spell_the_same()
    ensures { (kind : ℕ) (body other : List ℕ) (v : Value) → SaysTheSame kind body other
        → Spells kind body v → Spells kind other v }
{}

/// What is written of a value of any type is read as that value, and so is each body that says the
/// same. It follows from the clauses of `IeValue` alone.
pub fn read_again<T: IeValue>(
    value: &T,
    out: &mut Vec<u8>,
    body: &[u8],
) -> Result<Result<T, ReadFault>, AllocError>
    requires { SaysTheSame T.KIND (encoding_of (T.value value.now)) body.now }
    ensures again { IfOk result (λ read. read ≡ Ok value.now) }
    ensures ok { OnOk result (out.new.items ≡ out.old.items ++ encoding_of (T.value value.now)) }
    ensures err { OnErr result (out.new.items ≡ out.old.items) }
{
    value.write(out)?;
    Ok(T::read(body))
}
