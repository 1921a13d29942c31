//! Writing the rows of a table.

ghost use Rattle.gtp_ie.specs.Form.{bearer_context};
ghost use Rattle.std.specs.Prelude.{◌≡◌, ◌<◌, [], ◌∷◌, ◌++◌, OnOk, All, map, option_map, option_to_list};
ghost use Rattle.gtp_v2.specs.Text.{value_encoding, rows_encoding, groups_encoding, several_encoding};
ghost use Rattle.gtp_v2.specs.Kinds.{HasKind, AtMostOneOf, RowsHaveKinds};
ghost use Rattle.gtp_ie.specs.Text.{element_encoding};

use crate::grouped_rows::Context;
use gtp_ie::kinds::BEARER_CONTEXT;
use gtp_ie::{IeValue, close, open, put_value};
use std::alloc::AllocError;

/// Appends the element of a value.
#[tactic(auto, unfolding(crate::specs::Text::value_encoding))]
pub fn put_row<T: IeValue>(out: &mut Vec<u8>, instance: u8, value: &T) -> Result<(), AllocError>
    requires { instance < 16 }
    ensures ok { OnOk result
        (out.new.items
        ≡ out.old.items ++ value_encoding T.KIND instance (T.value value.now ∷ [])) }
    ensures kind { OnOk result (AtMostOneOf T.KIND (T.value value.now ∷ [])) }
{
    put_value::<T>(out, instance, value)
}

/// Appends the element of a value, where there is one.
#[tactic(auto, unfolding(crate::specs::Text::value_encoding))]
pub fn put_option<T: IeValue>(
    out: &mut Vec<u8>,
    instance: u8,
    value: &Option<T>,
) -> Result<(), AllocError>
    requires { instance < 16 }
    ensures ok { OnOk result
        (out.new.items
        ≡ out.old.items
        ++ value_encoding T.KIND instance
        (option_to_list (option_map T.value value.now))) }
    ensures kind { OnOk result (AtMostOneOf T.KIND (option_to_list
        (option_map T.value value.now))) }
{
    if let Some(value) = value {
        put_value(out, instance, value)?;
    }
    Ok(())
}

/// Appends a bearer context.
fn put_context<C: Context>(out: &mut Vec<u8>, context: &C) -> Result<(), AllocError>
    ensures ok { OnOk result
        (out.new.items
        ≡ out.old.items
        ++ element_encoding bearer_context 0 (rows_encoding C.rows (C.values context.now))) }
    ensures kinds { OnOk result (RowsHaveKinds C.rows (C.values context.now)) }
{
    let start = out.len();
    open(out, BEARER_CONTEXT, 0)?;
    context.write(out)?;
    close(out, start);
    Ok(())
}

/// Appends bearer contexts.
#[tactic(auto, unfolding(crate::specs::Text::groups_encoding))]
pub fn put_contexts<C: Context>(out: &mut Vec<u8>, contexts: &[C]) -> Result<(), AllocError>
    ensures ok { OnOk result
        (out.new.items
        ≡ out.old.items ++ groups_encoding bearer_context 0 C.rows (map C.values contexts.now)) }
    ensures kinds { OnOk result (All (RowsHaveKinds C.rows) (map C.values contexts.now)) }
{
    for context in contexts {
        put_context(out, context)?;
    }
    Ok(())
}

/// Appends the elements of values, in order.
#[tactic(auto, unfolding(crate::specs::Text::several_encoding))]
pub fn put_several<T: IeValue>(
    out: &mut Vec<u8>,
    instance: u8,
    values: &[T],
) -> Result<(), AllocError>
    requires { instance < 16 }
    ensures ok { OnOk result
        (out.new.items
        ≡ out.old.items ++ several_encoding T.KIND instance (map T.value values.now)) }
    ensures kinds { OnOk result (All (HasKind T.KIND) (map T.value values.now)) }
{
    for value in values {
        put_value(out, instance, value)?;
    }
    Ok(())
}
