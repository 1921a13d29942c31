//! What the tables say of a type.

ghost use Rattle.std.specs.Prelude.{◌≡◌, ◌++◌, OnOk, IfOk, option_map};
ghost use Rattle.gtp_lines.specs.Types.{row_in, type_number, clause_of, fields_line, row_lines, type_lines as spec_type_lines};

use crate::text::{put, put_hex};
use crate::values::put_field;
use gtp_forms::{Row, put_names, row_of};
use gtp_names::{Names, element_row};
use std::alloc::{AllocError, Global};

/// What a type is of.
#[derive(Clone, Copy, Debug, PartialEq, Eq)]
pub enum TypeOf {
    /// Elements of GTPv2-C.
    Element,
    /// Messages of GTPv2-C.
    Message,
    /// Extension headers of GTP-U.
    ExtensionHeader,
}

/// The row of a type.
fn row_in(names: &Names, what: TypeOf, kind: u8) -> Option<Row>
    ensures { result ≡ row_in names.now what kind }
{
    match what {
        TypeOf::Element => element_row(names, kind),
        TypeOf::Message => row_of(names.messages, kind),
        TypeOf::ExtensionHeader => row_of(names.extension_headers, kind),
    }
}

/// Appends the type by its number.
#[tactic(auto, using(crate::proofs::Appends::appending))]
fn put_type_number(out: &mut Vec<u8>, what: TypeOf, kind: u8) -> Result<(), AllocError>
    ensures ok { OnOk result (out.new.items ≡ out.old.items ++ type_number what kind) }
{
    match what {
        TypeOf::Element => put_field(out, b"element ", u64::from(kind)),
        TypeOf::Message => put_field(out, b"message ", u64::from(kind)),
        TypeOf::ExtensionHeader => {
            put(out, b"extension ")?;
            put_hex(out, &[kind])
        }
    }
}

/// Appends where it is defined.
fn put_clause(out: &mut Vec<u8>, what: TypeOf) -> Result<(), AllocError>
    ensures ok { OnOk result (out.new.items ≡ out.old.items ++ clause_of what) }
{
    match what {
        TypeOf::Element => put(out, b" (TS 29.274 8.1)\n"),
        TypeOf::Message => put(out, b" (TS 29.274 6.1)\n"),
        TypeOf::ExtensionHeader => put(out, b" (TS 29.281 5.2.1)\n"),
    }
}

/// Appends the names of its fields, where it has a form.
#[tactic(auto, using(crate::proofs::Appends::appending))]
fn put_fields_line(out: &mut Vec<u8>, names: &Names, form: Option<u8>) -> Result<(), AllocError>
    ensures ok { OnOk result (out.new.items ≡ out.old.items ++ fields_line names.now form) }
{
    let Some(form) = form else {
        return Ok(());
    };
    put(out, b"fields")?;
    put_names(out, &names.forms.parts(), form)?;
    put(out, b"\n")
}

/// Appends the lines of a row.
#[tactic(auto, using(crate::proofs::Appends::appending))]
fn put_row_lines(
    out: &mut Vec<u8>,
    names: &Names,
    what: TypeOf,
    kind: u8,
    row: &Row,
) -> Result<(), AllocError>
    ensures ok { OnOk result (out.new.items ≡ out.old.items ++ row_lines names.now what kind row.now) }
{
    put_type_number(out, what, kind)?;
    put(out, b": ")?;
    put(out, row.name.as_bytes())?;
    put_clause(out, what)?;
    put_fields_line(out, names, row.form)
}

/// The lines of a type, where it has a name: its number, its name and its clause; and, where its values have a form, the names of their
/// fields. The error is that an allocation was refused.
pub fn type_lines(
    alloc: Global,
    names: &Names,
    what: TypeOf,
    kind: u8,
) -> Result<Option<Vec<u8>>, AllocError>
    ensures { IfOk result (λ text. option_map (λ t. t.items) text ≡ spec_type_lines names.now what kind) }
{
    let Some(row) = row_in(names, what, kind) else {
        return Ok(None);
    };
    let mut text = Vec::new(alloc);
    put_row_lines(&mut text, names, what, kind, &row)?;
    Ok(Some(text))
}
