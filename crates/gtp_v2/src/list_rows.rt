//! Rows of which a message may have several values, of elements that have what the table asks.

ghost use Rattle.std.specs.Prelude.{◌≡◌, IfSome, IsOk, IsTrue, Ok, ℕ, map};
ghost use Rattle.gtp_ie.specs.Element.{all_of};
ghost use Rattle.gtp_ie.specs.View.{element_of};
ghost use Rattle.gtp_v2.specs.reading.Rows.{one_at, values_at, several_at};
ghost use Rattle.gtp_v2.specs.reading.Checked.{values_silent};
ghost use Rattle.gtp_v2.specs.reading.Outcome.{GivesOrMemory, HasValue};

use crate::list::Listed;
use gtp_ie::{ElementView, IeValue, Indexed};
use gtp_values::Memory;
use std::alloc::Global;

/// The values of the elements of the value's type and an instance, of a row of which a message may have
/// several.
pub fn several<T: IeValue>(
    alloc: Global,
    elements: &Indexed,
    instance: u8,
) -> Result<Listed<T>, Memory>
    requires { IsOk (values_at T.KIND instance (all_of T.KIND instance elements.now)) }
    ensures { GivesOrMemory HasValue (λ list. map T.value list) result
        (values_at T.KIND instance (all_of T.KIND instance elements.now)) }
{
    let mut values = Vec::new(alloc);
    for view in elements.all(T::KIND, instance) {
        values.push(T::build(view.body))?;
    }
    Ok(Listed::of(values))
}

/// The value of an element of the value's type; `None` where it doesn't read.
#[inline(always)]
#[tactic(auto, using(crate::proofs::Checks::seen_read))]
fn read_value<T: IeValue>(instance: u8, view: &ElementView) -> Option<T>
    ensures { IfSome result (λ x. one_at T.KIND instance (element_of view.now) ≡ Ok (T.value x)) }
{
    match T::check(view.body) {
        Ok(()) => Some(T::build(view.body)),
        Err(_) => None,
    }
}

/// Whether there is no value, where each that there is reads; `None` where one doesn't.
#[inline(always)]
fn values_silent<T: IeValue>(elements: &Indexed, instance: u8) -> Option<bool>
    ensures { IfSome result (λ silent. values_silent T.KIND instance
        (all_of T.KIND instance elements.now) ≡ Ok silent) }
{
    let mut silent = true;
    for view in elements.all(T::KIND, instance) {
        let Some(_) = read_value::<T>(instance, &view) else {
            return None;
        };
        silent = false;
    }
    Some(silent)
}

/// Whether the values of a row of several read, and there is one where that is needed.
#[inline(always)]
pub fn several_pass<T: IeValue>(is_needed: bool, elements: &Indexed, instance: u8) -> bool
    ensures { IsTrue result → (missed : ℕ) → IsOk (several_at is_needed T.KIND instance missed elements.now) }
{
    let Some(silent) = values_silent::<T>(elements, instance) else {
        return false;
    };
    !(is_needed & silent)
}

/// The values of the elements of the value's type and an instance, of any elements; `None` where one doesn't read, and
/// where memory ran out.
#[inline(always)]
fn gather_values<T: IeValue>(alloc: Global, elements: &Indexed, instance: u8) -> Option<Listed<T>>
    ensures { IfSome result (λ list. values_at T.KIND instance (all_of T.KIND instance elements.now)
        ≡ Ok (map T.value list)) }
{
    let mut values = Vec::new(alloc);
    for view in elements.all(T::KIND, instance) {
        let Some(value) = read_value::<T>(instance, &view) else {
            return None;
        };
        let Ok(()) = values.push(value) else {
            return None;
        };
    }
    Some(Listed::of(values))
}

/// The same; `None` also where there is none and one is needed.
#[inline(always)]
pub fn read_several<T: IeValue>(
    alloc: Global,
    is_needed: bool,
    elements: &Indexed,
    instance: u8,
) -> Option<Listed<T>>
    ensures { IfSome result (λ list. (missed : ℕ) → several_at is_needed T.KIND instance missed elements.now
        ≡ Ok (map T.value list)) }
{
    let Some(values) = gather_values::<T>(alloc, elements, instance) else {
        return None;
    };
    if is_needed & values.is_empty() {
        return None;
    }
    Some(values)
}
