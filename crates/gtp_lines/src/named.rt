//! Elements by their names, and their values by their forms.

ghost use Rattle.std.specs.Prelude.{◌≡◌, ◌≤◌, ◌+◌, ◌++◌, IfOk, OnOk, option_map, codes, replicate};
ghost use Rattle.std.specs.List.{flat_map};
ghost use Rattle.gtp_ie.specs.Form.{number_of};
ghost use Rattle.gtp_ie.specs.Element.{elements_of};
ghost use Rattle.gtp_ie.specs.Value.{value_at};
ghost use Rattle.gtp_ie.specs.View.{element_of};
ghost use Rattle.gtp_user.specs.Chain.{extension_of};
ghost use Rattle.gtp_user.specs.Message.{message_value};
ghost use Rattle.gtp_forms.specs.Rows.{row_of as spec_row_of};
ghost use Rattle.gtp_lines.specs.Named.{name_in, title_in, told_lines, fields_shown, row_shown, form_below, fields_below, reads_as, is_named as spec_is_named, content_shown, leaf_lines, group_name as spec_group_name, group_line, group_lines, part_lines, named_lines, extension_shown, extension_lines, named_user_lines};

use crate::control::put_element_head;
use crate::text::{put, put_hex, put_octets};
use crate::user::{put_carried, put_head};
use crate::values::put_raw;
use crate::words::put_said;
use gtp_forms::text::put_blanks;
use gtp_forms::{Row, put_told, read, row_of};
use gtp_ie::{
    ChargingId, EbiValue, ElementView, Elements, Form, IeValue, PdnType, Pti, Rat, Recovery,
    Selection,
};
use gtp_names::{Names, form_in_message, is_connection, is_group};
use gtp_user::{ExtensionHeader, Extensions, UserMessage};
use gtp_v2::type_name;
use gtp_values::{Ambr, Apn, Cause, FTeid, Imsi, Paa, Plmn, Qos, Tft};
use std::alloc::{AllocError, Global};

/// The name of a type of message, where it has one.
#[tactic(auto, unfolding(crate::specs::Named::name_in), using(crate::proofs::Titles::name_of_table, crate::proofs::Titles::name_of_row, crate::proofs::Titles::no_name))]
pub fn name_in(names: &Names, kind: u8) -> Option<&'static str>
    ensures { option_map (λ name. name.now) result ≡ name_in names.now kind }
{
    if let Some(name) = type_name(kind) {
        return Some(name);
    }
    match row_of(names.messages, kind) {
        Some(row) => Some(row.name),
        None => None,
    }
}

/// The same, or the word of one that has none.
pub fn title_in(names: &Names, kind: u8) -> &'static str
    ensures { result.now ≡ title_in names.now kind }
{
    name_in(names, kind).unwrap_or("other")
}

/// Appends what a body tells by the form of a number, from a line on that is so far in.
#[tactic(auto, unfolding(crate::specs::Named::told_lines))]
fn put_told_by(
    out: &mut Vec<u8>,
    names: &Names,
    form: u8,
    depth: u8,
    body: &[u8],
) -> Result<(), AllocError>
    requires { depth ≤ 8 }
    ensures ok { OnOk result (out.new.items ≡ out.old.items ++ told_lines names.now form depth body.now) }
{
    let alloc = *out.allocator();
    let told = read(alloc, &names.forms.parts(), form, body)?;
    put_told(alloc, out, depth, &told)
}

/// Appends what follows the name of a type: the fields of its form; without a form the octets.
#[tactic(auto, using(crate::proofs::Appends::appending))]
fn put_fields(
    out: &mut Vec<u8>,
    names: &Names,
    form: Option<u8>,
    depth: u8,
    body: &[u8],
) -> Result<(), AllocError>
    requires { depth ≤ 8 }
    ensures ok { OnOk result (out.new.items ≡ out.old.items ++ fields_shown names.now form depth body.now) }
{
    match form {
        Some(form) => put_told_by(out, names, form, depth, body),
        None => {
            put(out, b" ")?;
            put_raw(out, body)
        }
    }
}

/// Appends a body by the row of its type.
#[tactic(auto, using(crate::proofs::Appends::appending))]
fn put_row(
    out: &mut Vec<u8>,
    names: &Names,
    message: u8,
    depth: u8,
    row: Option<Row>,
    body: &[u8],
) -> Result<(), AllocError>
    requires { depth ≤ 8 }
    ensures ok { OnOk result (out.new.items ≡ out.old.items ++ row_shown names.now message depth row body.now) }
{
    match row {
        Some(row) => {
            put(out, row.name.as_bytes())?;
            put_fields(out, names, form_in_message(row, message), depth, body)
        }
        None => put_raw(out, body),
    }
}

/// Appends a line of the fields of a form, below the line of a value.
#[tactic(auto, using(crate::proofs::Appends::appending))]
fn put_form_below(
    out: &mut Vec<u8>,
    names: &Names,
    form: Option<u8>,
    depth: u8,
    body: &[u8],
) -> Result<(), AllocError>
    requires { depth ≤ 4 }
    ensures ok { OnOk result (out.new.items ≡ out.old.items ++ form_below names.now form depth body.now) }
{
    let Some(form) = form else {
        return Ok(());
    };
    put(out, b"\n")?;
    put_blanks(out, usize::from(depth) + 2)?;
    put(out, b"fields")?;
    put_told_by(out, names, form, depth + 2, body)
}

/// Appends the fields of a type that has a form besides its value.
fn put_fields_below(
    out: &mut Vec<u8>,
    names: &Names,
    message: u8,
    depth: u8,
    row: Option<Row>,
    body: &[u8],
) -> Result<(), AllocError>
    requires { depth ≤ 4 }
    ensures ok { OnOk result (out.new.items ≡ out.old.items ++ fields_below names.now message depth row body.now) }
{
    match row {
        Some(row) => put_form_below(out, names, form_in_message(row, message), depth, body),
        None => Ok(()),
    }
}

/// Whether a body reads as a value of a type.
fn reads_as<T: IeValue>(body: &[u8]) -> bool
    ensures { result ≡ reads_as (value_at T.KIND body.now) }
{
    T::parse(body).is_ok()
}

/// Whether a body reads as a value of this form.
#[tactic(auto, unfolding(gtp_ie::specs::Value::value_at))]
fn reads_in(form: Form, body: &[u8]) -> bool
    ensures { result ≡ reads_as (value_at (number_of form) body.now) }
{
    match form {
        Form::Imsi => reads_as::<Imsi>(body),
        Form::Cause => reads_as::<Cause>(body),
        Form::Recovery => reads_as::<Recovery>(body),
        Form::Apn => reads_as::<Apn>(body),
        Form::Ambr => reads_as::<Ambr>(body),
        Form::Ebi => reads_as::<EbiValue>(body),
        Form::Paa => reads_as::<Paa>(body),
        Form::Qos => reads_as::<Qos>(body),
        Form::Rat => reads_as::<Rat>(body),
        Form::Plmn => reads_as::<Plmn>(body),
        Form::Tft => reads_as::<Tft>(body),
        Form::FTeid => reads_as::<FTeid>(body),
        Form::ChargingId => reads_as::<ChargingId>(body),
        Form::PdnType => reads_as::<PdnType>(body),
        Form::Pti => reads_as::<Pti>(body),
        Form::Selection => reads_as::<Selection>(body),
    }
}

/// Whether plain lines show a body by name: its type has a value, and it reads as one.
#[tactic(auto, unfolding(crate::specs::Named::is_named))]
pub fn is_named(kind: u8, body: &[u8]) -> bool
    ensures { result ≡ spec_is_named kind body.now }
{
    match Form::of(kind) {
        Some(form) => reads_in(form, body),
        None => false,
    }
}

/// Appends what is shown of a body in a message of a type.
#[tactic(auto, unfolding(crate::specs::Named::content_shown), using(crate::proofs::Appends::appending))]
fn put_content(
    out: &mut Vec<u8>,
    names: &Names,
    message: u8,
    depth: u8,
    kind: u8,
    body: &[u8],
) -> Result<(), AllocError>
    requires { depth ≤ 4 }
    ensures ok { OnOk result (out.new.items ≡ out.old.items ++ content_shown names.now message depth kind body.now) }
{
    let row = row_of(names.elements, kind);
    if !is_named(kind, body) {
        return put_row(out, names, message, depth, row, body);
    }
    put_said(out, kind, body)?;
    put_fields_below(out, names, message, depth, row, body)
}

/// Appends the lines of an element that is no group, so far in.
#[tactic(auto, using(crate::proofs::Appends::appending))]
fn put_leaf(
    out: &mut Vec<u8>,
    names: &Names,
    message: u8,
    depth: u8,
    view: &ElementView,
) -> Result<(), AllocError>
    requires { depth ≤ 4 }
    ensures ok { OnOk result (out.new.items ≡ out.old.items ++ leaf_lines names.now message depth (element_of view.now)) }
{
    put_blanks(out, usize::from(depth))?;
    put_element_head(out, view)?;
    put_content(out, names, message, depth, view.kind, view.body)?;
    put(out, b"\n")
}

/// Appends the lines of elements that are no groups.
fn put_leaves(
    out: &mut Vec<u8>,
    names: &Names,
    message: u8,
    depth: u8,
    elements: &Elements,
) -> Result<(), AllocError>
    requires { depth ≤ 4 }
    ensures ok { OnOk result (out.new.items ≡ out.old.items ++ flat_map (leaf_lines names.now message depth) elements.now) }
{
    for view in elements.iter() {
        put_leaf(out, names, message, depth, &view)?;
    }
    Ok(())
}

/// The name of a type of group.
pub fn group_name(row: Option<Row>) -> &'static str
    ensures { result.now ≡ spec_group_name row }
{
    match row {
        Some(row) => row.name,
        None => "group",
    }
}

/// Appends the line of a group.
#[tactic(auto, using(crate::proofs::Appends::appending))]
fn put_group_line(
    out: &mut Vec<u8>,
    names: &Names,
    depth: u8,
    view: &ElementView,
) -> Result<(), AllocError>
    ensures ok { OnOk result (out.new.items ≡ out.old.items ++ group_line names.now depth (element_of view.now)) }
{
    put_blanks(out, usize::from(depth))?;
    put_element_head(out, view)?;
    put(out, group_name(row_of(names.groups, view.kind)).as_bytes())?;
    put(out, b"\n")
}

/// Appends the lines of a group that holds no groups, or its octets where they are not whole elements.
#[tactic(auto, using(crate::proofs::Appends::appending))]
fn put_group(
    out: &mut Vec<u8>,
    names: &Names,
    message: u8,
    depth: u8,
    view: &ElementView,
) -> Result<(), AllocError>
    requires { depth ≤ 2 }
    ensures ok { OnOk result
        (out.new.items ≡ out.old.items
        ++ group_lines (leaf_lines names.now message (depth + 2)) names.now message depth (element_of view.now)
        (elements_of (view.now.at + 4) view.now.body.now)) }
{
    match view.inner() {
        Ok(inner) => {
            put_group_line(out, names, depth, view)?;
            put_leaves(out, names, message, depth + 2, &inner)?;
            Ok(())
        }
        Err(_) => put_leaf(out, names, message, depth, view),
    }
}

/// Appends the lines of an element that holds no groups.
fn put_part(
    out: &mut Vec<u8>,
    names: &Names,
    message: u8,
    depth: u8,
    view: &ElementView,
) -> Result<(), AllocError>
    requires { depth ≤ 2 }
    ensures ok { OnOk result (out.new.items ≡ out.old.items ++ part_lines names.now message depth (element_of view.now)) }
{
    if is_group(view.kind) {
        return put_group(out, names, message, depth, view);
    }
    put_leaf(out, names, message, depth, view)
}

/// Appends the lines of elements that hold no groups.
fn put_parts(
    out: &mut Vec<u8>,
    names: &Names,
    message: u8,
    depth: u8,
    elements: &Elements,
) -> Result<(), AllocError>
    requires { depth ≤ 2 }
    ensures ok { OnOk result (out.new.items ≡ out.old.items ++ flat_map (part_lines names.now message depth) elements.now) }
{
    for view in elements.iter() {
        put_part(out, names, message, depth, &view)?;
    }
    Ok(())
}

/// Appends the lines of a group that holds groups, or its octets where they are not whole elements.
#[tactic(auto, using(crate::proofs::Appends::appending))]
fn put_connection(
    out: &mut Vec<u8>,
    names: &Names,
    message: u8,
    view: &ElementView,
) -> Result<(), AllocError>
    ensures ok { OnOk result
        (out.new.items ≡ out.old.items
        ++ group_lines (part_lines names.now message 2) names.now message 0 (element_of view.now)
        (elements_of (view.now.at + 4) view.now.body.now)) }
{
    match view.inner() {
        Ok(inner) => {
            put_group_line(out, names, 0, view)?;
            put_parts(out, names, message, 2, &inner)?;
            Ok(())
        }
        Err(_) => put_leaf(out, names, message, 0, view),
    }
}

/// Appends the lines of an element in a message of a type.
fn put_named(
    out: &mut Vec<u8>,
    names: &Names,
    message: u8,
    view: &ElementView,
) -> Result<(), AllocError>
    ensures ok { OnOk result (out.new.items ≡ out.old.items ++ named_lines names.now message (element_of view.now)) }
{
    if is_connection(view.kind) {
        return put_connection(out, names, message, view);
    }
    put_part(out, names, message, 0, view)
}

/// The lines of an element in a message of a type, as `all_lines` shows them among those of the message: its first line, and of a group
/// those of the elements in it. The error is that an allocation was refused.
pub fn element_lines(
    alloc: Global,
    names: &Names,
    message: u8,
    element: &ElementView,
) -> Result<Vec<u8>, AllocError>
    ensures { IfOk result (λ text. text.items ≡ named_lines names.now message (element_of element.now)) }
{
    let mut text = Vec::new(alloc);
    put_named(&mut text, names, message, element)?;
    Ok(text)
}

/// Appends the lines of the elements of a message of a type, by their names and forms.
pub fn put_named_elements(
    out: &mut Vec<u8>,
    names: &Names,
    message: u8,
    elements: &Elements,
) -> Result<(), AllocError>
    ensures ok { OnOk result (out.new.items ≡ out.old.items ++ flat_map (named_lines names.now message) elements.now) }
{
    for view in elements.iter() {
        put_named(out, names, message, &view)?;
    }
    Ok(())
}

/// Appends the name and the fields of an extension header, or its octets.
#[tactic(auto, using(crate::proofs::Appends::appending))]
fn put_extension_content(
    out: &mut Vec<u8>,
    names: &Names,
    row: Option<Row>,
    content: &[u8],
) -> Result<(), AllocError>
    ensures ok { OnOk result (out.new.items ≡ out.old.items ++ extension_shown names.now row content.now) }
{
    match row {
        Some(row) => {
            put(out, row.name.as_bytes())?;
            put_fields(out, names, row.form, 0, content)
        }
        None => put_octets(out, content),
    }
}

/// Appends the lines of an extension header.
#[tactic(auto, using(crate::proofs::Appends::appending))]
pub fn put_extension(
    out: &mut Vec<u8>,
    names: &Names,
    header: &ExtensionHeader,
) -> Result<(), AllocError>
    ensures ok { OnOk result (out.new.items ≡ out.old.items ++ extension_lines names.now (extension_of header.now)) }
{
    put(out, b"ext ")?;
    put_hex(out, &[header.kind])?;
    put(out, b" ")?;
    let row = row_of(names.extension_headers, header.kind);
    put_extension_content(out, names, row, header.content)?;
    put(out, b"\n")
}

/// Appends the lines of extension headers.
fn put_extensions(
    out: &mut Vec<u8>,
    names: &Names,
    extensions: &Extensions,
) -> Result<(), AllocError>
    ensures ok { OnOk result (out.new.items ≡ out.old.items ++ flat_map (extension_lines names.now) extensions.now) }
{
    for header in extensions {
        put_extension(out, names, &header)?;
    }
    Ok(())
}

/// Appends the lines of a message of the user plane.
#[tactic(auto, using(crate::proofs::Appends::appending))]
pub fn put_named_user_message(
    out: &mut Vec<u8>,
    names: &Names,
    message: &UserMessage,
) -> Result<(), AllocError>
    ensures ok { OnOk result (out.new.items ≡ out.old.items ++ named_user_lines names.now (message_value message.now)) }
{
    put_head(out, message)?;
    put_extensions(out, names, &message.ext)?;
    put_carried(out, &message.body)
}
