//! What elements say: the law of element values.

ghost use Rattle.std.specs.Prelude.{◌≡◌, ◌↔◌, ℕ, ◌++◌, ◌≤◌, ◌<◌, Ok, OnOk, OnErr, IfOk, IfErr, IsOk, IsOkAnd, IsErrOf, length, take};
ghost use Rattle.gtp_values.specs.Steps.{Gives};
ghost use Rattle.gtp_ie.specs.Value.{Value, value_at, checked_at, encoding_of};
ghost use Rattle.gtp_ie.specs.Spelling.{Spells, IsShort, IsBad};
ghost use Rattle.gtp_ie.specs.Free.{SpellsFreely};

use crate::fault::ReadFault;
use std::alloc::AllocError;

mod ambr;
mod apn;
mod cause;
mod charging_id;
mod ebi;
mod fteid;
mod imsi;
mod paa;
mod pdn_type;
mod plmn;
mod pti;
mod qos;
mod rat;
mod recovery;
mod selection;
mod tft;

pub use charging_id::ChargingId;
pub use ebi::EbiValue;
pub use pdn_type::PdnType;
pub use pti::Pti;
pub use rat::Rat;
pub use recovery::Recovery;
pub use selection::Selection;

/// That a body has at least so many octets.
fn long_enough(body: &[u8], least: usize) -> Result<(), ReadFault>
    ensures long { OnOk result (least ≤ length body.now) }
    ensures short { OnErr result (length body.now < least) }
    ensures fault { IfErr result (λ f. f ≡ ReadFault.Short) }
{
    if body.len() < least {
        return Err(ReadFault::Short);
    }
    Ok(())
}

/// The first octets of a slice.
fn first<const N: usize>(octets: &[u8]) -> [u8; N]
    requires { N ≤ length octets.now }
    ensures { result ≡ take N octets.now }
{
    let mut cells = [0u8; N];
    cells.copy_from_slice(&octets[..N]);
    cells
}

/// A value that the body of an element of one type spells (TS 29.274 8.1).
pub trait IeValue: Copy {
    /// The type of the element.
    const KIND: u8;

    ghost KIND: { ℕ };

    /// Which value it is.
    ghost value: { Self → Value };

    /// That the body spells a value, by the form of its type. None is built.
    fn check(body: &[u8]) -> Result<(), ReadFault>
        ensures { Gives (λ u. u) result (checked_at KIND body.now) };

    /// The value of a body that spells one.
    fn build(body: &[u8]) -> Self
        requires { IsOk (value_at KIND body.now) }
        ensures { value_at KIND body.now ≡ Ok (value result) };

    /// The value that the body spells, by the form of its type.
    final fn parse(body: &[u8]) -> Result<Self, ReadFault>
        ensures { Gives value result (value_at KIND body.now) }
    {
        Self::check(body)?;
        Ok(Self::build(body))
    }

    /// Appends the one body of the value: spare bits 0, and no octets after the form. Where memory runs
    /// out the vector is as before.
    fn write(&self, out: &mut Vec<u8>) -> Result<(), AllocError>
        ensures ok { OnOk result (out.new.items ≡ out.old.items ++ encoding_of (value self.now)) }
        ensures err { OnErr result (out.new.items ≡ out.old.items) }
        // What is written spells the value.
        ensures again { Spells KIND (encoding_of (value self.now)) (value self.now) }
        // So does each body that says the same: spare bits and octets after the form are free.
        ensures free { SpellsFreely KIND (value self.now) };

    /// How many octets its body has: the Length of its element (TS 29.274 8.2).
    fn body_length(&self) -> usize
        ensures length { result ≡ length (encoding_of (value self.now)) }
        ensures most { result ≤ 255 };

    /// No two have one value: nothing of them is hidden from it.
    ghost one_value: { (x y : Self) → value x ≡ value y → x ≡ y };

    /// The value that the body spells; `Short` exactly below the least length of its type, `Bad`
    /// exactly where the body is long enough and spells none.
    final fn read(body: &[u8]) -> Result<Self, ReadFault>
        ensures value { IfOk result (λ x. Spells KIND body.now (value x)) }
        ensures only { (v : Value) → Spells KIND body.now v → IsOkAnd result (λ x. value x ≡ v) }
        // So what spells the value of one is read as that one.
        ensures back { (x : Self) → Spells KIND body.now (value x) → result ≡ Ok x }
        ensures short { IsErrOf result ReadFault.Short ↔ IsShort KIND body.now }
        ensures bad { IsErrOf result ReadFault.Bad ↔ IsBad KIND body.now }
    {
        Self::parse(body)
    }
}
