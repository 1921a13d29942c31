//! Rows of a message's table, one at a time, of elements that have what the table asks.

ghost use Rattle.std.specs.Prelude.{◌≡◌, Ok, IsOk, IfSome, true, false, option_map};
ghost use Rattle.gtp_ie.specs.Element.{first_of};
ghost use Rattle.gtp_ie.specs.View.{element_of};
ghost use Rattle.gtp_v2.specs.reading.Rows.{needed_at, needed_if_at};
ghost use Rattle.gtp_v2.specs.Viewed.{optional_at};

use gtp_ie::{ElementView, IeValue, Indexed};

/// The first element of the value's type and an instance. In line, so that elements stay in registers.
#[inline(always)]
fn first<'a, T: IeValue>(elements: &Indexed<'a>, instance: u8) -> Option<ElementView<'a>>
    ensures { option_map element_of result ≡ first_of T.KIND instance elements.now }
{
    elements
        .from_first(T::KIND, instance)
        .first(T::KIND, instance)
}

/// The value of the first element of the value's type and an instance, of a mandatory row.
#[tactic(auto, using(crate::proofs::Checks::one_reads, crate::proofs::Checks::seen_read), unfolding(crate::specs::reading::Rows::needed_at))]
pub fn mandatory<T: IeValue>(elements: &Indexed, instance: u8) -> T
    requires { IsOk (needed_at false T.KIND instance elements.now) }
    ensures { needed_at false T.KIND instance elements.now ≡ Ok (T.value result) }
{
    let Some(view) = first::<T>(elements, instance) else {
        unreachable!()
    };
    T::build(view.body)
}

/// The same of a conditional row: only what is told where there is no element differs.
#[tactic(auto, using(crate::proofs::Checks::needed_so, crate::proofs::Checks::needed_is))]
pub fn conditional<T: IeValue>(elements: &Indexed, instance: u8) -> T
    requires { IsOk (needed_at true T.KIND instance elements.now) }
    ensures { needed_at true T.KIND instance elements.now ≡ Ok (T.value result) }
{
    mandatory(elements, instance)
}

/// The value of the first element of the value's type and an instance, of an optional row: an element
/// that doesn't read counts as absent.
#[tactic(auto, unfolding(crate::specs::Viewed::optional_at))]
pub fn optional<T: IeValue>(elements: &Indexed, instance: u8) -> Option<T>
    ensures { option_map T.value result ≡ optional_at T.KIND instance elements.now }
{
    let view = first::<T>(elements, instance)?;
    T::parse(view.body).ok()
}

/// The value of the first element of the value's type and an instance, of a row that some messages need.
#[tactic(auto, unfolding(crate::specs::reading::Rows::needed_if_at))]
pub fn needed_if<T: IeValue>(is_needed: bool, elements: &Indexed, instance: u8) -> Option<T>
    requires { IsOk (needed_if_at is_needed T.KIND instance elements.now) }
    ensures { needed_if_at is_needed T.KIND instance elements.now
        ≡ Ok (option_map T.value result) }
{
    if is_needed {
        Some(conditional(elements, instance))
    } else {
        optional(elements, instance)
    }
}

/// The value of the first element of the value's type and an instance, of a mandatory row, of any elements; `None`
/// where there is none that reads. In line, so that a value that is not used is not built.
#[inline(always)]
#[tactic(auto, using(crate::proofs::Checks::seen_read), unfolding(crate::specs::reading::Rows::needed_at))]
pub fn read<T: IeValue>(elements: &Indexed, instance: u8) -> Option<T>
    ensures { IfSome result (λ x. needed_at false T.KIND instance elements.now ≡ Ok (T.value x)) }
{
    let Some(view) = first::<T>(elements, instance) else {
        return None;
    };
    match T::check(view.body) {
        Ok(()) => Some(T::build(view.body)),
        Err(_) => None,
    }
}

/// The same of a conditional row.
#[inline(always)]
#[tactic(auto, using(crate::proofs::Checks::needed_is))]
pub fn read_conditional<T: IeValue>(elements: &Indexed, instance: u8) -> Option<T>
    ensures { IfSome result (λ x. needed_at true T.KIND instance elements.now ≡ Ok (T.value x)) }
{
    read(elements, instance)
}

/// The same of a row that some messages need; `None` where it is needed and there is none that reads.
#[inline(always)]
#[tactic(auto, unfolding(crate::specs::reading::Rows::needed_if_at))]
pub fn read_if<T: IeValue>(is_needed: bool, elements: &Indexed, instance: u8) -> Option<Option<T>>
    ensures { IfSome result (λ o. needed_if_at is_needed T.KIND instance elements.now
        ≡ Ok (option_map T.value o)) }
{
    if is_needed {
        match read_conditional::<T>(elements, instance) {
            Some(value) => Some(Some(value)),
            None => None,
        }
    } else {
        Some(optional(elements, instance))
    }
}
