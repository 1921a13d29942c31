//! What the bodies of elements tell.

ghost use Rattle.std.specs.Prelude.{◌≡◌, IfOk, map, option_map};
ghost use Rattle.gtp_forms.specs.Told.{event_of};
ghost use Rattle.gtp_names.specs.Telling.{element_row, form_by, told_with, told_in};

use crate::groups::form_in_message;
use crate::names::Names;
use gtp_forms::{Row, Told, read, row_of};
use std::alloc::{AllocError, Global};

/// The row of a type of element, also of a grouped one (TS 29.274 8.1): its name, and its form where it has one.
pub fn element_row(names: &Names, kind: u8) -> Option<Row>
    ensures { result ≡ element_row names.now kind }
{
    match row_of(names.elements, kind) {
        Some(row) => Some(row),
        None => row_of(names.groups, kind),
    }
}

/// The number of the form of a type of element in a message of a type.
fn form_by(row: Option<Row>, message: u8) -> Option<u8>
    ensures { result ≡ form_by row message }
{
    match row {
        Some(row) => form_in_message(row, message),
        None => None,
    }
}

/// What a body tells by a form; `None` without one.
fn told_with<'a>(
    alloc: Global,
    names: &Names,
    form: Option<u8>,
    body: &'a [u8],
) -> Result<Option<Vec<Told<'a>>>, AllocError>
    ensures { IfOk result (λ told. option_map (λ t. map event_of t.items) told ≡ told_with names.now form body.now) }
{
    let Some(form) = form else {
        return Ok(None);
    };
    let told = read(alloc, &names.forms.parts(), form, body)?;
    Ok(Some(told))
}

/// What a body tells in a message of a type, by the form of its own type; `None` where that has no form. The error is that an
/// allocation was refused.
pub fn told<'a>(
    alloc: Global,
    names: &Names,
    message: u8,
    kind: u8,
    body: &'a [u8],
) -> Result<Option<Vec<Told<'a>>>, AllocError>
    ensures { IfOk result (λ told. option_map (λ t. map event_of t.items) told ≡ told_in names.now message kind body.now) }
{
    told_with(
        alloc,
        names,
        form_by(element_row(names, kind), message),
        body,
    )
}
