//! What messages and elements are called, and what elements say, as text: the names and forms of `gtp_names`, shown as
//! `gtpshow decode --all` shows them.

ghost use Rattle.std.specs.Prelude.{◌≡◌, ◌↔◌, List, ℕ, None, IfOk, IfSome, option_map};
ghost use Rattle.gtp_ie.specs.View.{element_of};
ghost use Rattle.gtp_names.specs.declared.names.Names.{Names as SomeNames};
ghost use Rattle.gtp_lines.specs.Named.{name_in as spec_name_in, named_lines};
ghost use Rattle.gtp_json.specs.Named.{element_line};
ghost use Rattle.gtp_c.specs.Writing.{IsSomeWritten, IsTextWritten};
ghost use Rattle.gtp_c.specs.ElementTexts.{element_name as spec_element_name, element_alone, IsBadElement};

use crate::status::{BAD_VALUE, NO_MEMORY, NONE};
use crate::writing::{LONGEST, write_parts};
use gtp_ie::ElementView;
use gtp_json::element_json;
use gtp_lines::{element_lines, name_in};
use gtp_names::{Names, all_names, element_row};
use std::alloc::{AllocError, Global};

/// Writes a name, where there is one.
fn write_name(name: Option<&str>, buffer: &mut [u8], size: &mut u64) -> u8
    ensures { IsSomeWritten (option_map (λ n. n.now) name.entry)
        buffer.old buffer.new size.old size.new result }
{
    match name {
        Some(name) => write_parts(buffer, 0, &[], name.as_bytes(), size),
        None => NONE,
    }
}

/// The name of a type of element, also of a group.
fn element_name(names: &Names, kind: u8) -> Option<&'static str>
    ensures { option_map (λ name. name.now) result ≡ spec_element_name names.now kind }
{
    match element_row(names, kind) {
        Some(row) => Some(row.name),
        None => None,
    }
}

/// Writes the name of a type of message, where it has one.
fn write_message_name(names: &Names, buffer: &mut [u8], kind: u8, size: &mut u64) -> u8
    ensures { IsSomeWritten (spec_name_in names.now kind)
        buffer.old buffer.new size.old size.new result }
{
    write_name(name_in(names, kind), buffer, size)
}

/// Writes the name of a type of element, where it has one.
fn write_element_name(names: &Names, buffer: &mut [u8], kind: u8, size: &mut u64) -> u8
    ensures { IsSomeWritten (spec_element_name names.now kind)
        buffer.old buffer.new size.old size.new result }
{
    write_name(element_name(names, kind), buffer, size)
}

/// An element of these parts, alone; none where its instance or its length cannot be stated.
fn element_alone(kind: u8, instance: u8, body: &[u8]) -> Option<ElementView<'_>>
    ensures some { IfSome result (λ view. element_of view ≡ element_alone kind instance body.now) }
    ensures none { result ≡ None ↔ IsBadElement instance body.now }
{
    if instance > 15 || body.len() > LONGEST {
        return None;
    }
    Some(ElementView {
        kind,
        spare: 0,
        instance,
        body,
        at: 0,
    })
}

/// Writes a text that was made, if an allocation was not refused.
fn write_made(made: Result<Vec<u8>, AllocError>, buffer: &mut [u8], size: &mut u64) -> u8
    ensures { (text : List ℕ) → IfOk made (λ t. t.items ≡ text)
        → IsTextWritten ⊥ text buffer.old buffer.new size.old size.new result }
{
    match made {
        Ok(text) => write_parts(buffer, 0, &[], text.as_slice(), size),
        Err(_) => NO_MEMORY,
    }
}

/// Writes the lines of an element of these parts in a message of a type.
fn write_lines(
    alloc: Global,
    names: &Names,
    buffer: &mut [u8],
    message: u8,
    kind: u8,
    instance: u8,
    body: &[u8],
    size: &mut u64,
) -> u8
    ensures { IsTextWritten (IsBadElement instance body.now)
        (named_lines names.now message (element_alone kind instance body.now))
        buffer.old buffer.new size.old size.new result }
{
    match element_alone(kind, instance, body) {
        Some(element) => write_made(element_lines(alloc, names, message, &element), buffer, size),
        None => BAD_VALUE,
    }
}

/// Writes the JSON of an element of these parts in a message of a type.
fn write_json(
    alloc: Global,
    names: &Names,
    buffer: &mut [u8],
    message: u8,
    kind: u8,
    instance: u8,
    body: &[u8],
    size: &mut u64,
) -> u8
    ensures { IsTextWritten (IsBadElement instance body.now)
        (element_line names.now message (element_alone kind instance body.now))
        buffer.old buffer.new size.old size.new result }
{
    match element_alone(kind, instance, body) {
        Some(element) => write_made(element_json(alloc, names, message, &element), buffer, size),
        None => BAD_VALUE,
    }
}

/// Writes the name of a type of message (TS 29.274 6.1): 0, and `size` says how many octets it has; 5 where they do not fit, and
/// `size` says how many they are; 4 where the type has no name.
#[unsafe(no_mangle)]
pub extern "C" fn gtp_message_name(buffer: &mut [u8], kind: u8, size: &mut u64) -> u8
    ensures { (names : SomeNames) × IsSomeWritten (spec_name_in names kind)
        buffer.old buffer.new size.old size.new result }
{
    write_message_name(&all_names(), buffer, kind, size)
}

/// Writes the name of a type of element (TS 29.274 8.1): 0, and `size` says how many octets it has; 5 where they do not fit, and
/// `size` says how many they are; 4 where the type has no name.
#[unsafe(no_mangle)]
pub extern "C" fn gtp_element_name(buffer: &mut [u8], kind: u8, size: &mut u64) -> u8
    ensures { (names : SomeNames) × IsSomeWritten (spec_element_name names kind)
        buffer.old buffer.new size.old size.new result }
{
    write_element_name(&all_names(), buffer, kind, size)
}

/// Writes the lines of an element in a message of a type, as `gtpshow decode --all` shows them: 0, and `size` says how many octets
/// they have; 5 where they do not fit, and `size` says how many they are; 1 where the instance is above 15, or the body has more than
/// 65,535 octets; 2 where an allocation was refused.
#[unsafe(no_mangle)]
pub extern "C" fn gtp_element_lines(
    alloc: Global,
    buffer: &mut [u8],
    message: u8,
    kind: u8,
    instance: u8,
    body: &[u8],
    size: &mut u64,
) -> u8
    ensures { (names : SomeNames) × IsTextWritten (IsBadElement instance body.now)
        (named_lines names message (element_alone kind instance body.now))
        buffer.old buffer.new size.old size.new result }
{
    write_lines(
        alloc,
        &all_names(),
        buffer,
        message,
        kind,
        instance,
        body,
        size,
    )
}

/// Writes an element in a message of a type as one JSON object on one line, as `gtpshow decode --all --json` has it: the same
/// statuses.
#[unsafe(no_mangle)]
pub extern "C" fn gtp_element_json(
    alloc: Global,
    buffer: &mut [u8],
    message: u8,
    kind: u8,
    instance: u8,
    body: &[u8],
    size: &mut u64,
) -> u8
    ensures { (names : SomeNames) × IsTextWritten (IsBadElement instance body.now)
        (element_line names message (element_alone kind instance body.now))
        buffer.old buffer.new size.old size.new result }
{
    write_json(
        alloc,
        &all_names(),
        buffer,
        message,
        kind,
        instance,
        body,
        size,
    )
}
