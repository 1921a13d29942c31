//! Elements as JSON by their names and forms.

ghost use Rattle.std.specs.Prelude.{◌≡◌, ◌+◌, ◌++◌, false, IfOk, OnOk, map};
ghost use Rattle.std.specs.List.{flat_map};
ghost use Rattle.json.specs.Tree.{json_tokens};
ghost use Rattle.gtp_ie.specs.Element.{elements_of};
ghost use Rattle.gtp_ie.specs.View.{element_of};
ghost use Rattle.gtp_user.specs.Chain.{extension_of};
ghost use Rattle.gtp_user.specs.Message.{message_value};
ghost use Rattle.gtp_lines.specs.Named.{group_name as spec_group_name};
ghost use Rattle.gtp_json.specs.Tree.{array_of};
ghost use Rattle.gtp_json.specs.Reads.{ReadsBack};
ghost use Rattle.gtp_json.specs.reading.Tokens.{written};
ghost use Rattle.gtp_json.specs.Named.{place_members, placed_head, fields_member, form_fields, row_fields, named_fields, content_members, leaf_members, leaf_json, group_octets, group_head, group_members, part_members, part_json, named_element, named_json, element_line, named_elements, extension_fields, named_extension, named_extension_json, named_extensions, named_user_members};

use crate::control::put_element_head;
use crate::object::Output;
use crate::user::{put_carried, put_head};
use crate::values::{put_body, put_octets};
use gtp_forms::{Row, read, row_of};
use gtp_ie::{ElementView, Elements};
use gtp_lines::{group_name, is_named};
use gtp_names::{Names, form_in_message, is_connection, is_group};
use gtp_user::{ExtensionHeader, Extensions, UserMessage};
use gtp_v2::BEARER_CONTEXT;
use std::alloc::{AllocError, Global};

/// Writes where an element stands, where that is asked for.
#[tactic(auto, using(crate::proofs::Tokens::appending))]
fn put_place(out: &mut Output, places: bool, view: &ElementView) -> Result<(), AllocError>
    ensures ok { OnOk result
        (out.new ≡ out.old ++ written (place_members places (element_of view.now))) }
{
    if !places {
        return Ok(());
    }
    out.number_member("at", view.at as u64)?;
    out.number_member("length", 4 + view.body.len() as u64)
}

/// Writes what stands before an element's value.
#[tactic(auto, using(crate::proofs::Tokens::appending))]
fn put_placed_head(out: &mut Output, places: bool, view: &ElementView) -> Result<(), AllocError>
    ensures ok { OnOk result
        (out.new ≡ out.old ++ written (placed_head places (element_of view.now))) }
{
    put_element_head(out, view)?;
    put_place(out, places, view)
}

/// Writes what a body tells by the form of a number, as one object.
fn put_fields(out: &mut Output, names: &Names, form: u8, body: &[u8]) -> Result<(), AllocError>
    ensures ok { OnOk result
        (out.new ≡ out.old ++ written (fields_member names.now form body.now)) }
{
    let told = read(out.alloc(), &names.forms.parts(), form, body)?;
    out.key("fields")?;
    out.told_object(&told)?;
    Ok(())
}

/// Writes the fields of a form, where there is one.
#[tactic(auto, using(crate::proofs::Tokens::appending))]
fn put_form_fields(
    out: &mut Output,
    names: &Names,
    form: Option<u8>,
    body: &[u8],
) -> Result<(), AllocError>
    ensures ok { OnOk result
        (out.new ≡ out.old ++ written (form_fields names.now form body.now)) }
{
    match form {
        Some(form) => put_fields(out, names, form, body),
        None => Ok(()),
    }
}

/// Writes the fields of a body by the row of its type.
#[tactic(auto, using(crate::proofs::Tokens::appending))]
fn put_row_fields(
    out: &mut Output,
    names: &Names,
    message: u8,
    row: Option<Row>,
    body: &[u8],
) -> Result<(), AllocError>
    ensures ok { OnOk result
        (out.new ≡ out.old ++ written (row_fields names.now message row body.now)) }
{
    match row {
        Some(row) => put_form_fields(out, names, form_in_message(row, message), body),
        None => Ok(()),
    }
}

/// Writes the name of the type of a body, and the fields.
#[tactic(auto, using(crate::proofs::Tokens::appending))]
fn put_named_fields(
    out: &mut Output,
    names: &Names,
    message: u8,
    row: Option<Row>,
    body: &[u8],
) -> Result<(), AllocError>
    ensures ok { OnOk result
        (out.new ≡ out.old ++ written (named_fields names.now message row body.now)) }
{
    match row {
        Some(row) => {
            out.string_member("name", row.name)?;
            put_form_fields(out, names, form_in_message(row, message), body)
        }
        None => Ok(()),
    }
}

/// Writes what an element that is no group says.
#[tactic(auto, unfolding(crate::specs::Named::content_members), using(crate::proofs::Tokens::appending))]
fn put_leaf_members(
    out: &mut Output,
    names: &Names,
    message: u8,
    view: &ElementView,
) -> Result<(), AllocError>
    ensures ok { OnOk result
        (out.new ≡ out.old ++ written (leaf_members names.now message (element_of view.now))) }
{
    put_body(out, view.kind, view.body)?;
    let row = row_of(names.elements, view.kind);
    if is_named(view.kind, view.body) {
        put_row_fields(out, names, message, row, view.body)
    } else {
        put_named_fields(out, names, message, row, view.body)
    }
}

/// Writes an element that is no group.
#[tactic(auto, using(crate::proofs::Tokens::nesting))]
fn put_leaf(
    out: &mut Output,
    places: bool,
    names: &Names,
    message: u8,
    view: &ElementView,
) -> Result<(), AllocError>
    ensures ok { OnOk result
        (out.new ≡ out.old ++ json_tokens (leaf_json places names.now message (element_of view.now))) }
{
    out.begin_object()?;
    put_placed_head(out, places, view)?;
    put_leaf_members(out, names, message, view)?;
    out.end_object()
}

/// Writes elements that are no groups.
fn put_leaves(
    out: &mut Output,
    places: bool,
    names: &Names,
    message: u8,
    elements: &Elements,
) -> Result<(), AllocError>
    ensures ok { OnOk result (out.new
        ≡ out.old ++ flat_map (λ e. json_tokens (leaf_json places names.now message e)) elements.now) }
{
    for view in elements.iter() {
        put_leaf(out, places, names, message, &view)?;
    }
    Ok(())
}

/// Writes the array of elements that are no groups.
#[tactic(auto, using(crate::proofs::Tokens::nesting, crate::proofs::Tokens::array_tokens))]
fn put_leaf_array(
    out: &mut Output,
    places: bool,
    names: &Names,
    message: u8,
    elements: &Elements,
) -> Result<(), AllocError>
    ensures ok { OnOk result (out.new
        ≡ out.old ++ json_tokens (array_of (map (leaf_json places names.now message) elements.now))) }
{
    out.begin_array()?;
    put_leaves(out, places, names, message, elements)?;
    out.end_array()
}

/// Writes the octets of a group; a bearer context has none beside its elements.
#[tactic(auto, using(crate::proofs::Tokens::appending))]
fn put_group_octets(out: &mut Output, view: &ElementView) -> Result<(), AllocError>
    ensures ok { OnOk result
        (out.new ≡ out.old ++ written (group_octets (element_of view.now))) }
{
    if view.kind == BEARER_CONTEXT {
        return Ok(());
    }
    put_octets(out, view.body)
}

/// Writes what stands before the elements of a group.
fn put_group_head(out: &mut Output, names: &Names, view: &ElementView) -> Result<(), AllocError>
    ensures ok { OnOk result
        (out.new ≡ out.old ++ written (group_head names.now (element_of view.now))) }
{
    put_group_octets(out, view)?;
    let row = row_of(names.groups, view.kind);
    out.string_member("name", group_name(row))?;
    Ok(())
}

/// Writes a group that holds no groups, or its octets where they are not whole elements.
#[tactic(auto, using(crate::proofs::Tokens::nesting))]
fn put_group(
    out: &mut Output,
    places: bool,
    names: &Names,
    message: u8,
    view: &ElementView,
) -> Result<(), AllocError>
    ensures ok { OnOk result (out.new ≡ out.old
        ++ written (group_members (leaf_json places names.now message) names.now message (element_of view.now)
        (elements_of (view.now.at + 4) view.now.body.now))) }
{
    match view.inner() {
        Ok(inner) => {
            put_group_head(out, names, view)?;
            out.key("elements")?;
            put_leaf_array(out, places, names, message, &inner)
        }
        Err(_) => put_leaf_members(out, names, message, view),
    }
}

/// Writes what an element that holds no groups says.
fn put_part_members(
    out: &mut Output,
    places: bool,
    names: &Names,
    message: u8,
    view: &ElementView,
) -> Result<(), AllocError>
    ensures ok { OnOk result
        (out.new ≡ out.old ++ written (part_members places names.now message (element_of view.now))) }
{
    if is_group(view.kind) {
        return put_group(out, places, names, message, view);
    }
    put_leaf_members(out, names, message, view)
}

/// Writes an element that holds no groups.
#[tactic(auto, using(crate::proofs::Tokens::nesting))]
fn put_part(
    out: &mut Output,
    places: bool,
    names: &Names,
    message: u8,
    view: &ElementView,
) -> Result<(), AllocError>
    ensures ok { OnOk result
        (out.new ≡ out.old ++ json_tokens (part_json places names.now message (element_of view.now))) }
{
    out.begin_object()?;
    put_placed_head(out, places, view)?;
    put_part_members(out, places, names, message, view)?;
    out.end_object()
}

/// Writes elements that hold no groups.
fn put_parts(
    out: &mut Output,
    places: bool,
    names: &Names,
    message: u8,
    elements: &Elements,
) -> Result<(), AllocError>
    ensures ok { OnOk result (out.new
        ≡ out.old ++ flat_map (λ e. json_tokens (part_json places names.now message e)) elements.now) }
{
    for view in elements.iter() {
        put_part(out, places, names, message, &view)?;
    }
    Ok(())
}

/// Writes the array of elements that hold no groups.
#[tactic(auto, using(crate::proofs::Tokens::nesting, crate::proofs::Tokens::array_tokens))]
fn put_part_array(
    out: &mut Output,
    places: bool,
    names: &Names,
    message: u8,
    elements: &Elements,
) -> Result<(), AllocError>
    ensures ok { OnOk result (out.new
        ≡ out.old ++ json_tokens (array_of (map (part_json places names.now message) elements.now))) }
{
    out.begin_array()?;
    put_parts(out, places, names, message, elements)?;
    out.end_array()
}

/// Writes a group that holds groups, or its octets where they are not whole elements.
#[tactic(auto, using(crate::proofs::Tokens::nesting))]
fn put_connection(
    out: &mut Output,
    places: bool,
    names: &Names,
    message: u8,
    view: &ElementView,
) -> Result<(), AllocError>
    ensures ok { OnOk result (out.new ≡ out.old
        ++ written (group_members (part_json places names.now message) names.now message (element_of view.now)
        (elements_of (view.now.at + 4) view.now.body.now))) }
{
    match view.inner() {
        Ok(inner) => {
            put_group_head(out, names, view)?;
            out.key("elements")?;
            put_part_array(out, places, names, message, &inner)
        }
        Err(_) => put_leaf_members(out, names, message, view),
    }
}

/// Writes what an element says.
fn put_named_members(
    out: &mut Output,
    places: bool,
    names: &Names,
    message: u8,
    view: &ElementView,
) -> Result<(), AllocError>
    ensures ok { OnOk result
        (out.new ≡ out.old ++ written (named_element places names.now message (element_of view.now))) }
{
    if is_connection(view.kind) {
        return put_connection(out, places, names, message, view);
    }
    put_part_members(out, places, names, message, view)
}

/// Writes an element.
#[tactic(auto, using(crate::proofs::Tokens::nesting))]
fn put_named(
    out: &mut Output,
    places: bool,
    names: &Names,
    message: u8,
    view: &ElementView,
) -> Result<(), AllocError>
    ensures ok { OnOk result
        (out.new ≡ out.old ++ json_tokens (named_json places names.now message (element_of view.now))) }
{
    out.begin_object()?;
    put_placed_head(out, places, view)?;
    put_named_members(out, places, names, message, view)?;
    out.end_object()
}

/// An element of a message of a type as one JSON object on one line, in ASCII, with a line feed: what `datagram_json` has of it among
/// those of the message, without places. The error is that an allocation was refused.
pub fn element_json(
    alloc: Global,
    names: &Names,
    message: u8,
    element: &ElementView,
) -> Result<Vec<u8>, AllocError>
    ensures text { IfOk result (λ text. text.items ≡ element_line names.now message (element_of element.now)) }
    // A reader of JSON finds this value in the line.
    ensures reads_back { IfOk result (λ text.
        ReadsBack (λ j. j ≡ named_json false names.now message (element_of element.now)) text.items) }
{
    let mut out = Output::new(alloc);
    put_named(&mut out, false, names, message, element)?;
    let text = out.into_line()?;
    Ok(text)
}

/// Writes elements.
fn put_all_named(
    out: &mut Output,
    places: bool,
    names: &Names,
    message: u8,
    elements: &Elements,
) -> Result<(), AllocError>
    ensures ok { OnOk result (out.new
        ≡ out.old ++ flat_map (λ e. json_tokens (named_json places names.now message e)) elements.now) }
{
    for view in elements.iter() {
        put_named(out, places, names, message, &view)?;
    }
    Ok(())
}

/// Writes the member of the elements of a message of a type, by their names and forms.
#[tactic(auto, using(crate::proofs::Tokens::nesting, crate::proofs::Tokens::array_tokens))]
pub fn put_named_elements(
    out: &mut Output,
    places: bool,
    names: &Names,
    message: u8,
    elements: &Elements,
) -> Result<(), AllocError>
    ensures ok { OnOk result
        (out.new ≡ out.old ++ written (named_elements places names.now message elements.now)) }
{
    out.key("elements")?;
    out.begin_array()?;
    put_all_named(out, places, names, message, elements)?;
    out.end_array()
}

/// Writes the name and the fields of an extension header.
#[tactic(auto, using(crate::proofs::Tokens::appending))]
fn put_extension_fields(
    out: &mut Output,
    names: &Names,
    row: Option<Row>,
    content: &[u8],
) -> Result<(), AllocError>
    ensures ok { OnOk result
        (out.new ≡ out.old ++ written (extension_fields names.now row content.now)) }
{
    match row {
        Some(row) => {
            out.string_member("name", row.name)?;
            put_form_fields(out, names, row.form, content)
        }
        None => Ok(()),
    }
}

/// Writes what an extension header says.
#[tactic(auto, using(crate::proofs::Tokens::appending))]
fn put_extension_members(
    out: &mut Output,
    names: &Names,
    header: &ExtensionHeader,
) -> Result<(), AllocError>
    ensures ok { OnOk result
        (out.new ≡ out.old ++ written (named_extension names.now (extension_of header.now))) }
{
    out.number_member("type", u64::from(header.kind))?;
    put_octets(out, header.content)?;
    let row = row_of(names.extension_headers, header.kind);
    put_extension_fields(out, names, row, header.content)
}

/// Writes an extension header.
#[tactic(auto, using(crate::proofs::Tokens::nesting))]
fn put_extension(
    out: &mut Output,
    names: &Names,
    header: &ExtensionHeader,
) -> Result<(), AllocError>
    ensures ok { OnOk result
        (out.new ≡ out.old ++ json_tokens (named_extension_json names.now (extension_of header.now))) }
{
    out.begin_object()?;
    put_extension_members(out, names, header)?;
    out.end_object()
}

/// Writes extension headers.
fn put_all_extensions(
    out: &mut Output,
    names: &Names,
    extensions: &Extensions,
) -> Result<(), AllocError>
    ensures ok { OnOk result (out.new
        ≡ out.old ++ flat_map (λ e. json_tokens (named_extension_json names.now e)) extensions.now) }
{
    for header in extensions {
        put_extension(out, names, &header)?;
    }
    Ok(())
}

/// Writes the member of extension headers.
#[tactic(auto, using(crate::proofs::Tokens::nesting, crate::proofs::Tokens::array_tokens))]
fn put_extensions(
    out: &mut Output,
    names: &Names,
    extensions: &Extensions,
) -> Result<(), AllocError>
    ensures ok { OnOk result
        (out.new ≡ out.old ++ written (named_extensions names.now extensions.now)) }
{
    out.key("extensions")?;
    out.begin_array()?;
    put_all_extensions(out, names, extensions)?;
    out.end_array()
}

/// Writes extension headers, one after the other.
fn put_each_header(
    out: &mut Output,
    names: &Names,
    headers: &[ExtensionHeader],
) -> Result<(), AllocError>
    ensures ok { OnOk result (out.new
        ≡ out.old ++ flat_map (λ e. json_tokens (named_extension_json names.now e)) (map extension_of headers.now)) }
{
    for header in headers {
        put_extension(out, names, header)?;
    }
    Ok(())
}

/// Writes the member of some extension headers.
#[tactic(auto, using(crate::proofs::Tokens::nesting, crate::proofs::Tokens::array_tokens))]
pub fn put_named_headers(
    out: &mut Output,
    names: &Names,
    headers: &[ExtensionHeader],
) -> Result<(), AllocError>
    ensures ok { OnOk result
        (out.new ≡ out.old ++ written (named_extensions names.now (map extension_of headers.now))) }
{
    out.key("extensions")?;
    out.begin_array()?;
    put_each_header(out, names, headers)?;
    out.end_array()
}

/// Writes the members of a message of the user plane.
#[tactic(auto, using(crate::proofs::Tokens::appending))]
pub fn put_named_message(
    out: &mut Output,
    names: &Names,
    message: &UserMessage,
) -> Result<(), AllocError>
    ensures ok { OnOk result
        (out.new ≡ out.old ++ written (named_user_members names.now (message_value message.now))) }
{
    put_head(out, message)?;
    put_extensions(out, names, &message.ext)?;
    put_carried(out, &message.body)
}
