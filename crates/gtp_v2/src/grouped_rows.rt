//! Rows of groups.

ghost use Rattle.gtp_ie.specs.Form.{bearer_context};
ghost use Rattle.std.specs.Prelude.{◌≡◌, ◌↔◌, ◌*◌, ◌++◌, IsTrue, IsOk, Ok, IfSome, List, map, length, OnOk};
ghost use Rattle.gtp_ie.specs.Element.{all_of};
ghost use Rattle.gtp_ie.specs.View.{element_of};
ghost use Rattle.gtp_ie.specs.Value.{Value};
ghost use Rattle.gtp_v2.specs.Table.{Row};
ghost use Rattle.gtp_v2.specs.reading.Rows.{rows_at, group_at, groups_at, some_groups};
ghost use Rattle.gtp_v2.specs.reading.Checked.{groups_silent};
ghost use Rattle.gtp_v2.specs.Text.{rows_encoding};
ghost use Rattle.gtp_values.specs.Room.{Leaves};
ghost use Rattle.gtp_v2.specs.Room.{TakesAtMost};
ghost use Rattle.gtp_v2.specs.Kinds.{RowsHaveKinds};
ghost use Rattle.gtp_v2.specs.Marks.{RowsMarked};
ghost use Rattle.gtp_v2.specs.reading.Outcome.{GivesAppended, GivesOrMemory, HasGroup, IsAppended};

use crate::fault::Need;
use crate::list::Listed;
use gtp_ie::kinds::BEARER_CONTEXT;
use gtp_ie::{ElementView, Indexed};
use gtp_values::Memory;
use std::alloc::{AllocError, Global};

/// A bearer context of one kind of message.
pub trait Context: Copy {
    /// The rows of its table.
    ghost rows: { List Row };

    /// The values of the rows.
    ghost values: { Self → List (List Value) };

    /// The context that the elements of a group spell, which have what the rows ask. In line, so that its parts
    /// are put together once, and moved once to their place in a list.
    fn build(accepting: bool, elements: &Indexed) -> Self
        requires { IsOk (rows_at accepting rows elements.now) }
        ensures { rows_at accepting rows elements.now ≡ Ok (values result) };

    /// The same of any elements; `None` where they don't have what the rows ask.
    fn read(accepting: bool, elements: &Indexed) -> Option<Self>
        ensures { IfSome result (λ c. rows_at accepting rows elements.now ≡ Ok (values c)) };

    /// Appends the elements of the rows.
    fn write(&self, out: &mut Vec<u8>) -> Result<(), AllocError>
        ensures ok { OnOk result (out.new.items
            ≡ out.old.items ++ rows_encoding rows (values self.now)) }
        // Each row has at most one value, of its type.
        ensures kinds { OnOk result (RowsHaveKinds rows (values self.now)) };

    /// What is left of a room after the elements of the rows, `None` where they don't fit.
    fn room_after(&self, room: usize) -> Option<usize>
        ensures left { Leaves room (length (rows_encoding rows (values self.now))) result }
        ensures most { TakesAtMost room (259 * length rows) result };

    /// Whether what the marks of its rows ask is there.
    fn meets_marks(&self, accepting: bool) -> bool
        ensures { IsTrue result ↔ RowsMarked accepting rows (values self.now) };
}

/// Appends the context that an element holds.
#[tactic(auto, unfolding(crate::specs::reading::Rows::group_at), using(crate::proofs::Loop::appended))]
fn append_context<C: Context>(
    contexts: &mut Vec<C>,
    accepting: bool,
    view: &ElementView,
) -> Result<(), AllocError>
    requires { IsOk (group_at accepting C.rows (element_of view.now)) }
    ensures { OnOk result (IsAppended C.values contexts.old.items
        (group_at accepting C.rows (element_of view.now)) contexts.new.items) }
{
    let Ok(elements) = view.indexed() else {
        unreachable!()
    };
    contexts.push(C::build(accepting, &elements))?;
    Ok(())
}

/// The bearer contexts among the elements, which have what their rows ask.
pub fn contexts<C: Context>(
    alloc: Global,
    accepting: bool,
    elements: &Indexed,
) -> Result<Listed<C>, Memory>
    requires { IsOk (groups_at accepting C.rows (all_of bearer_context 0 elements.now)) }
    ensures { GivesOrMemory HasGroup (λ list. map C.values list) result
        (groups_at accepting C.rows (all_of bearer_context 0 elements.now)) }
{
    let mut contexts = Vec::new(alloc);
    for view in elements.all(BEARER_CONTEXT, 0) {
        append_context::<C>(&mut contexts, accepting, &view)?;
    }
    Ok(Listed::of(contexts))
}

/// The context that an element holds; `None` where it doesn't have what the rows ask.
#[inline(always)]
#[tactic(auto, unfolding(crate::specs::reading::Rows::group_at))]
fn read_context<C: Context>(accepting: bool, view: &ElementView) -> Option<C>
    ensures { IfSome result (λ c. group_at accepting C.rows (element_of view.now) ≡ Ok (C.values c)) }
{
    let Ok(elements) = view.indexed() else {
        return None;
    };
    C::read(accepting, &elements)
}

/// Whether there is no bearer context, where each that there is has what its rows ask; `None` where one doesn't.
#[inline(always)]
fn contexts_silent<C: Context>(accepting: bool, elements: &Indexed) -> Option<bool>
    ensures { IfSome result (λ silent. groups_silent accepting C.rows
        (all_of bearer_context 0 elements.now) ≡ Ok silent) }
{
    let mut silent = true;
    for view in elements.all(BEARER_CONTEXT, 0) {
        let Some(_) = read_context::<C>(accepting, &view) else {
            return None;
        };
        silent = false;
    }
    Some(silent)
}

/// Whether the bearer contexts have what their rows ask, and there is one where that is needed.
#[inline(always)]
pub fn contexts_pass<C: Context>(need: Need, accepting: bool, elements: &Indexed) -> bool
    ensures { IsTrue result → IsOk (some_groups need bearer_context 0 accepting C.rows
        (all_of bearer_context 0 elements.now)) }
{
    let Some(silent) = contexts_silent::<C>(accepting, elements) else {
        return false;
    };
    match need {
        Need::Optional => true,
        Need::Mandatory | Need::Conditional => !silent,
    }
}

/// Appends the context that an element holds; false where it doesn't have what the rows ask, and where memory ran out.
#[inline(always)]
#[tactic(auto, unfolding(crate::specs::reading::Rows::group_at))]
fn append_read<C: Context>(contexts: &mut Vec<C>, accepting: bool, view: &ElementView) -> bool
    ensures { IsTrue result → GivesAppended C.values contexts.old.items
        (group_at accepting C.rows (element_of view.now)) contexts.new.items }
{
    let Ok(elements) = view.indexed() else {
        return false;
    };
    let Some(_) = C::read(accepting, &elements) else {
        return false;
    };
    contexts.push(C::build(accepting, &elements)).is_ok()
}

/// The bearer contexts among any elements; `None` where one doesn't have what the rows ask, and where memory ran out.
#[inline(always)]
fn gather_contexts<C: Context>(
    alloc: Global,
    accepting: bool,
    elements: &Indexed,
) -> Option<Listed<C>>
    ensures { IfSome result (λ list. groups_at accepting C.rows (all_of bearer_context 0 elements.now)
        ≡ Ok (map C.values list)) }
{
    let mut contexts = Vec::new(alloc);
    for view in elements.all(BEARER_CONTEXT, 0) {
        if !append_read::<C>(&mut contexts, accepting, &view) {
            return None;
        }
    }
    Some(Listed::of(contexts))
}

/// The same; `None` also where there is none and one is needed.
#[inline(always)]
pub fn read_contexts<C: Context>(
    alloc: Global,
    need: Need,
    accepting: bool,
    elements: &Indexed,
) -> Option<Listed<C>>
    ensures { IfSome result (λ list. some_groups need bearer_context 0 accepting C.rows
        (all_of bearer_context 0 elements.now) ≡ Ok (map C.values list)) }
{
    let Some(contexts) = gather_contexts::<C>(alloc, accepting, elements) else {
        return None;
    };
    match need {
        Need::Optional => Some(contexts),
        Need::Mandatory | Need::Conditional => {
            if contexts.is_empty() {
                None
            } else {
                Some(contexts)
            }
        }
    }
}
