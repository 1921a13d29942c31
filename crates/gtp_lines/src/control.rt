//! The lines of control datagrams.

ghost use Rattle.std.specs.Prelude.{◌≡◌, ◌+◌, ◌++◌, OnOk, option_map};
ghost use Rattle.std.specs.List.{flat_map};
ghost use Rattle.gtp_ie.specs.Element.{elements_of};
ghost use Rattle.gtp_ie.specs.View.{element_of};
ghost use Rattle.gtp_lines.specs.Control.{element_head, inner_line, element_lines, message_name as spec_message_name, teid_shown, priority_shown, title_shown, first_line, head_line, group_shown};
ghost use Rattle.gtp_lines.specs.Control.{element_fault_detail, element_fault, mark_shown, fault_detail, fault_shown, fault_line};

use crate::text::{put, put_teid};
use crate::values::{put_body, put_field, put_raw};
use gtp_ie::{ElementView, Elements, IeFault};
use gtp_v2::{BEARER_CONTEXT, MessageView, V2Fault, type_name};
use gtp_values::{Below, Seq, Teid};
use std::alloc::AllocError;

/// Appends what stands before an element's value.
#[tactic(auto, using(crate::proofs::Appends::appending))]
pub fn put_element_head(out: &mut Vec<u8>, view: &ElementView) -> Result<(), AllocError>
    ensures ok { OnOk result (out.new.items ≡ out.old.items ++ element_head (element_of view.now)) }
{
    put_field(out, b"ie ", u64::from(view.kind))?;
    put_field(out, b" ", u64::from(view.instance))?;
    put(out, b" ")
}

/// Appends the line of an element inside a group.
#[tactic(auto, using(crate::proofs::Appends::appending))]
fn put_inner(out: &mut Vec<u8>, view: &ElementView) -> Result<(), AllocError>
    ensures ok { OnOk result (out.new.items ≡ out.old.items ++ inner_line (element_of view.now)) }
{
    put(out, b"  ")?;
    put_element_head(out, view)?;
    put_body(out, view.kind, view.body)?;
    put(out, b"\n")
}

/// Appends the lines of the elements inside a group.
fn put_all_inner(out: &mut Vec<u8>, elements: &Elements) -> Result<(), AllocError>
    ensures ok { OnOk result (out.new.items ≡ out.old.items ++ flat_map inner_line elements.now) }
{
    for view in elements.iter() {
        put_inner(out, &view)?;
    }
    Ok(())
}

/// Appends a bearer context by its elements, or its octets where they are not whole elements.
#[tactic(auto, using(crate::proofs::Appends::appending))]
fn put_group(out: &mut Vec<u8>, view: &ElementView) -> Result<(), AllocError>
    ensures ok { OnOk result
        (out.new.items ≡ out.old.items
        ++ group_shown (element_of view.now) (elements_of (view.now.at + 4) view.now.body.now)) }
{
    match view.inner() {
        Ok(inner) => {
            put(out, b"bearer-context\n")?;
            put_all_inner(out, &inner)?;
            Ok(())
        }
        Err(_) => {
            put_raw(out, view.body)?;
            put(out, b"\n")
        }
    }
}

/// Appends the lines of an element.
#[tactic(auto, using(crate::proofs::Appends::appending))]
fn put_element(out: &mut Vec<u8>, view: &ElementView) -> Result<(), AllocError>
    ensures ok { OnOk result
        (out.new.items ≡ out.old.items ++ element_lines (element_of view.now)) }
{
    put_element_head(out, view)?;
    if view.kind == BEARER_CONTEXT {
        return put_group(out, view);
    }
    put_body(out, view.kind, view.body)?;
    put(out, b"\n")
}

/// Appends the lines of elements.
pub fn put_elements(out: &mut Vec<u8>, elements: &Elements) -> Result<(), AllocError>
    ensures ok { OnOk result
        (out.new.items ≡ out.old.items ++ flat_map element_lines elements.now) }
{
    for view in elements.iter() {
        put_element(out, &view)?;
    }
    Ok(())
}

/// The name of a type of message.
pub fn message_name(kind: u8) -> &'static str
    ensures { result.now ≡ spec_message_name kind }
{
    type_name(kind).unwrap_or("other")
}

/// Appends a TEID, where there is one.
#[tactic(auto, using(crate::proofs::Appends::appending))]
pub fn put_some_teid(out: &mut Vec<u8>, teid: Option<Teid>) -> Result<(), AllocError>
    ensures ok { OnOk result
        (out.new.items ≡ out.old.items ++ teid_shown teid) }
{
    let Some(teid) = teid else {
        return Ok(());
    };
    put(out, b" teid ")?;
    put_teid(out, teid)
}

/// Appends a priority, where there is one.
fn put_some_priority(out: &mut Vec<u8>, priority: Option<Below<16>>) -> Result<(), AllocError>
    ensures ok { OnOk result (out.new.items ≡ out.old.items ++ priority_shown priority) }
{
    let Some(priority) = priority else {
        return Ok(());
    };
    put_field(out, b" priority ", u64::from(priority.number()))
}

/// Appends the type of a message, by its number and its name.
#[tactic(auto, unfolding(crate::specs::Control::title_shown), using(crate::proofs::Appends::appending))]
fn put_title(out: &mut Vec<u8>, name: &str, kind: u8) -> Result<(), AllocError>
    ensures ok { OnOk result (out.new.items ≡ out.old.items ++ title_shown name.now kind) }
{
    put_field(out, b"gtpv2 type ", u64::from(kind))?;
    put(out, b" ")?;
    put(out, name.as_bytes())
}

/// Appends the first line of a message of this name, type, TEID, sequence number and priority.
#[tactic(auto, using(crate::proofs::Appends::appending))]
pub fn put_first_line(
    out: &mut Vec<u8>,
    name: &str,
    kind: u8,
    teid: Option<Teid>,
    seq: Seq,
    priority: Option<Below<16>>,
) -> Result<(), AllocError>
    ensures ok { OnOk result (out.new.items
        ≡ out.old.items ++ first_line name.now kind teid seq priority) }
{
    put_title(out, name, kind)?;
    put_some_teid(out, teid)?;
    put_field(out, b" seq ", u64::from(seq.number()))?;
    put_some_priority(out, priority)?;
    put(out, b"\n")
}

/// Appends the first line of a message.
pub fn put_head(out: &mut Vec<u8>, seen: &MessageView) -> Result<(), AllocError>
    ensures ok { OnOk result (out.new.items ≡ out.old.items ++ head_line seen.now.message) }
{
    let kind = seen.kind();
    put_first_line(
        out,
        message_name(kind),
        kind,
        seen.teid(),
        seen.seq(),
        seen.priority(),
    )
}

/// Appends what follows the number of a fault of elements.
#[tactic(auto, using(crate::proofs::Appends::appending))]
fn put_element_fault_detail(out: &mut Vec<u8>, fault: &IeFault) -> Result<(), AllocError>
    ensures ok { OnOk result (out.new.items ≡ out.old.items ++ element_fault_detail fault.now) }
{
    match fault {
        IeFault::Truncated { at } => put_field(out, b" at ", *at as u64),
        IeFault::ShortValue { kind, instance, at } | IeFault::BadValue { kind, instance, at } => {
            put_field(out, b" type ", u64::from(*kind))?;
            put_field(out, b" instance ", u64::from(*instance))?;
            put_field(out, b" at ", *at as u64)
        }
        IeFault::Memory | IeFault::TooLong => Ok(()),
    }
}

/// Appends a fault of elements.
#[tactic(auto, using(crate::proofs::Appends::appending))]
fn put_element_fault(out: &mut Vec<u8>, fault: &IeFault) -> Result<(), AllocError>
    ensures ok { OnOk result (out.new.items ≡ out.old.items ++ element_fault fault.now) }
{
    put_field(out, b"I", u64::from(fault.number()))?;
    put_element_fault_detail(out, fault)
}

/// Appends the mark of a row that is missing.
fn put_mark(out: &mut Vec<u8>, conditional: bool) -> Result<(), AllocError>
    ensures ok { OnOk result (out.new.items ≡ out.old.items ++ mark_shown conditional) }
{
    if conditional {
        put(out, b" conditional")
    } else {
        put(out, b" mandatory")
    }
}

/// Appends what follows the number of a fault.
#[tactic(auto, using(crate::proofs::Appends::appending))]
fn put_fault_detail(out: &mut Vec<u8>, fault: &V2Fault) -> Result<(), AllocError>
    ensures ok { OnOk result (out.new.items ≡ out.old.items ++ fault_detail fault.now) }
{
    match fault {
        V2Fault::Short { held } => put_field(out, b" held ", *held as u64),
        V2Fault::Version { version } => put_field(out, b" version ", u64::from(*version)),
        V2Fault::Length { stated, held } => {
            put_field(out, b" stated ", *stated as u64)?;
            put_field(out, b" held ", *held as u64)
        }
        V2Fault::FlagT { kind } => put_field(out, b" type ", u64::from(*kind)),
        V2Fault::Missing {
            kind,
            instance,
            conditional,
            ..
        } => {
            put_field(out, b" type ", u64::from(*kind))?;
            put_field(out, b" instance ", u64::from(*instance))?;
            put_mark(out, *conditional)
        }
        V2Fault::Element { fault, .. } => {
            put(out, b" ")?;
            put_element_fault(out, fault)
        }
        V2Fault::BadPiggyback { at } => put_field(out, b" at ", *at as u64),
        V2Fault::Memory | V2Fault::TooLong => Ok(()),
    }
}

/// Appends what follows the word of a fault.
#[tactic(auto, using(crate::proofs::Appends::appending))]
fn put_fault(out: &mut Vec<u8>, fault: &V2Fault) -> Result<(), AllocError>
    ensures ok { OnOk result (out.new.items ≡ out.old.items ++ fault_shown fault.now) }
{
    put_field(out, b"H", u64::from(fault.number()))?;
    put_fault_detail(out, fault)
}

/// Appends the line of a fault.
#[tactic(auto, using(crate::proofs::Appends::appending))]
pub fn put_fault_line(out: &mut Vec<u8>, fault: &V2Fault) -> Result<(), AllocError>
    ensures ok { OnOk result (out.new.items ≡ out.old.items ++ fault_line fault.now) }
{
    put(out, b"fault ")?;
    put_fault(out, fault)?;
    put(out, b"\n")
}
