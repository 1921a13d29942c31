//! Control datagrams as JSON.

ghost use Rattle.std.specs.Prelude.{◌≡◌, ◌+◌, ◌++◌, OnOk, map, option_map, codes};
ghost use Rattle.std.specs.List.{flat_map};
ghost use Rattle.json.specs.Tree.{json_tokens};
ghost use Rattle.gtp_ie.specs.Element.{elements_of};
ghost use Rattle.gtp_ie.specs.View.{element_of};
ghost use Rattle.gtp_json.specs.Tree.{member, number_of, array_of, object_of};
ghost use Rattle.gtp_json.specs.reading.Tokens.{written};
ghost use Rattle.gtp_json.specs.Control.{element_head, inner_json, group_members, element_json, element_members, name_members, title_members, teid_members, priority_members, header_members, head_members, elements_members, carried_members, seen_members, second_members};
ghost use Rattle.gtp_json.specs.Control.{element_code as spec_element_code, code_of, element_fault_detail, element_fault_members, mark_word, fault_detail, fault_members, context_members, placed_members};
ghost use Rattle.gtp_json.specs.Adds.{Adds};
ghost use Rattle.gtp_json.specs.Places.{FaultMembers, FaultShown};

use crate::object::Output;
use crate::places::{fault_place, put_at};
use crate::values::{put_body, put_octets};
use gtp_ie::{ElementView, Elements, IeFault};
use gtp_lines::fault_context;
use gtp_v2::{BEARER_CONTEXT, DatagramView, MessageView, V2Fault, type_name};
use gtp_values::{Below, Seq, Teid};
use std::alloc::AllocError;

/// Writes what stands before an element's value.
#[tactic(auto, using(crate::proofs::Tokens::appending))]
pub fn put_element_head(out: &mut Output, view: &ElementView) -> Result<(), AllocError>
    ensures ok { OnOk result (out.new ≡ out.old ++ written (element_head (element_of view.now))) }
{
    out.number_member("type", u64::from(view.kind))?;
    out.number_member("instance", u64::from(view.instance))
}

/// Writes an element inside a group.
#[tactic(auto, using(crate::proofs::Tokens::nesting))]
fn put_inner(out: &mut Output, view: &ElementView) -> Result<(), AllocError>
    ensures ok { OnOk result (out.new ≡ out.old ++ json_tokens (inner_json (element_of view.now))) }
{
    out.begin_object()?;
    put_element_head(out, view)?;
    put_body(out, view.kind, view.body)?;
    out.end_object()
}

/// Writes the elements inside a group.
fn put_all_inner(out: &mut Output, elements: &Elements) -> Result<(), AllocError>
    ensures ok { OnOk result (out.new
        ≡ out.old ++ flat_map (λ e. json_tokens (inner_json e)) elements.now) }
{
    for view in elements.iter() {
        put_inner(out, &view)?;
    }
    Ok(())
}

/// Writes the array of the elements inside a group.
#[tactic(auto, using(crate::proofs::Tokens::nesting, crate::proofs::Tokens::array_tokens))]
fn put_inner_array(out: &mut Output, elements: &Elements) -> Result<(), AllocError>
    ensures ok { OnOk result (out.new
        ≡ out.old ++ json_tokens (array_of (map inner_json elements.now))) }
{
    out.begin_array()?;
    put_all_inner(out, elements)?;
    out.end_array()
}

/// Writes a bearer context by its elements, or its octets where they are not whole elements.
#[tactic(auto, using(crate::proofs::Tokens::nesting))]
fn put_group(out: &mut Output, view: &ElementView) -> Result<(), AllocError>
    ensures ok { OnOk result (out.new ≡ out.old
        ++ written (group_members (element_of view.now)
        (elements_of (view.now.at + 4) view.now.body.now))) }
{
    match view.inner() {
        Ok(inner) => {
            out.string_member("name", "bearer-context")?;
            out.key("elements")?;
            put_inner_array(out, &inner)
        }
        Err(_) => put_octets(out, view.body),
    }
}

/// Writes what an element says.
fn put_element_body(out: &mut Output, view: &ElementView) -> Result<(), AllocError>
    ensures ok { OnOk result
        (out.new ≡ out.old ++ written (element_members (element_of view.now))) }
{
    if view.kind == BEARER_CONTEXT {
        return put_group(out, view);
    }
    put_body(out, view.kind, view.body)
}

/// Writes an element.
#[tactic(auto, using(crate::proofs::Tokens::nesting))]
fn put_element(out: &mut Output, view: &ElementView) -> Result<(), AllocError>
    ensures ok { OnOk result
        (out.new ≡ out.old ++ json_tokens (element_json (element_of view.now))) }
{
    out.begin_object()?;
    put_element_head(out, view)?;
    put_element_body(out, view)?;
    out.end_object()
}

/// Writes elements.
fn put_all_elements(out: &mut Output, elements: &Elements) -> Result<(), AllocError>
    ensures ok { OnOk result (out.new
        ≡ out.old ++ flat_map (λ e. json_tokens (element_json e)) elements.now) }
{
    for view in elements.iter() {
        put_element(out, &view)?;
    }
    Ok(())
}

/// Writes the member of elements.
#[tactic(auto, using(crate::proofs::Tokens::nesting, crate::proofs::Tokens::array_tokens))]
fn put_elements(out: &mut Output, elements: &Elements) -> Result<(), AllocError>
    ensures ok { OnOk result (out.new ≡ out.old ++ written (elements_members elements.now)) }
{
    out.key("elements")?;
    out.begin_array()?;
    put_all_elements(out, elements)?;
    out.end_array()
}

/// Writes a name, where there is one.
#[tactic(auto, using(crate::proofs::Tokens::appending))]
fn put_name(out: &mut Output, name: Option<&str>) -> Result<(), AllocError>
    ensures ok { OnOk result
        (out.new ≡ out.old ++ written (name_members (option_map (λ n. n.now) name.entry))) }
{
    match name {
        Some(name) => out.string_member("name", name),
        None => Ok(()),
    }
}

/// Writes the type of a message, by its number and its name.
#[tactic(auto, unfolding(crate::specs::Control::title_members), using(crate::proofs::Tokens::appending))]
fn put_title(out: &mut Output, name: Option<&str>, kind: u8) -> Result<(), AllocError>
    ensures ok { OnOk result
        (out.new ≡ out.old ++ written (title_members (option_map (λ n. n.now) name.entry) kind)) }
{
    out.number_member("type", u64::from(kind))?;
    put_name(out, name)
}

/// Writes a TEID, where there is one.
#[tactic(auto, using(crate::proofs::Tokens::appending))]
fn put_some_teid(out: &mut Output, teid: Option<Teid>) -> Result<(), AllocError>
    ensures ok { OnOk result
        (out.new ≡ out.old ++ written (teid_members teid)) }
{
    match teid {
        Some(teid) => out.display_member("teid", &teid),
        None => Ok(()),
    }
}

/// Writes a priority, where there is one.
#[tactic(auto, using(crate::proofs::Tokens::appending))]
fn put_some_priority(out: &mut Output, priority: Option<Below<16>>) -> Result<(), AllocError>
    ensures ok { OnOk result (out.new ≡ out.old ++ written (priority_members priority)) }
{
    match priority {
        Some(priority) => out.number_member("priority", u64::from(priority.number())),
        None => Ok(()),
    }
}

/// Writes what a header says.
#[tactic(auto, using(crate::proofs::Tokens::appending))]
pub fn put_head_members(
    out: &mut Output,
    name: Option<&str>,
    kind: u8,
    teid: Option<Teid>,
    seq: Seq,
    priority: Option<Below<16>>,
) -> Result<(), AllocError>
    ensures ok { OnOk result (out.new ≡ out.old
        ++ written (header_members (option_map (λ n. n.now) name.entry) kind teid seq priority)) }
{
    put_title(out, name, kind)?;
    put_some_teid(out, teid)?;
    out.number_member("seq", u64::from(seq.number()))?;
    put_some_priority(out, priority)
}

/// Writes what a message's header says.
fn put_head(out: &mut Output, seen: &MessageView) -> Result<(), AllocError>
    ensures ok { OnOk result (out.new ≡ out.old ++ written (head_members seen.now.message)) }
{
    let kind = seen.kind();
    put_head_members(
        out,
        type_name(kind),
        kind,
        seen.teid(),
        seen.seq(),
        seen.priority(),
    )
}

/// Writes what a message carries.
#[tactic(auto, using(crate::proofs::Seen::raw_members, crate::proofs::Seen::typed_members))]
fn put_carried(out: &mut Output, seen: &MessageView) -> Result<(), AllocError>
    ensures ok { OnOk result (out.new ≡ out.old
        ++ written (carried_members seen.now.message.content seen.now.elements)) }
{
    match seen.raw() {
        Some(carried) => put_octets(out, carried),
        None => put_elements(out, &seen.elements()),
    }
}

/// Writes the members of a message.
#[tactic(auto, using(crate::proofs::Tokens::appending))]
fn put_message(out: &mut Output, seen: &MessageView) -> Result<(), AllocError>
    ensures ok { OnOk result (out.new ≡ out.old ++ written (seen_members seen.now)) }
{
    put_head(out, seen)?;
    put_carried(out, seen)
}

/// Writes a second message, where there is one.
#[tactic(auto, using(crate::proofs::Tokens::nesting))]
fn put_second(out: &mut Output, second: &Option<MessageView>) -> Result<(), AllocError>
    ensures ok { OnOk result (out.new ≡ out.old ++ written (second_members second.now)) }
{
    let Some(second) = second else {
        return Ok(());
    };
    out.key("second")?;
    out.begin_object()?;
    put_message(out, second)?;
    out.end_object()
}

/// Writes the members of a datagram's message or of its two.
#[tactic(auto, using(crate::proofs::Tokens::appending))]
pub fn put_datagram(out: &mut Output, seen: &DatagramView) -> Result<(), AllocError>
    ensures ok { OnOk result (out.new ≡ out.old
        ++ written (seen_members seen.now.message ++ second_members seen.now.second)) }
{
    put_message(out, seen.message())?;
    put_second(out, &seen.second())
}

/// The code of a fault of elements.
fn element_code(fault: &IeFault) -> &'static str
    ensures { result.now ≡ spec_element_code fault.now }
{
    match fault {
        IeFault::Truncated { .. } => "I1",
        IeFault::ShortValue { .. } => "I2",
        IeFault::BadValue { .. } => "I3",
        IeFault::Memory => "I4",
        IeFault::TooLong => "I5",
    }
}

/// Writes the type, the instance and the place of an element.
#[tactic(auto, using(crate::proofs::Tokens::appending))]
fn put_element_at(out: &mut Output, kind: u8, instance: u8, at: usize) -> Result<(), AllocError>
    ensures ok { OnOk result (out.new ≡ out.old
        ++ written (member (codes "type") (number_of kind)
        ++ (member (codes "instance") (number_of instance) ++ member (codes "at") (number_of at)))) }
{
    out.number_member("type", u64::from(kind))?;
    out.number_member("instance", u64::from(instance))?;
    out.number_member("at", at as u64)
}

/// Writes what follows the code of a fault of elements.
#[tactic(auto, using(crate::proofs::Tokens::appending))]
fn put_element_fault_detail(out: &mut Output, fault: &IeFault) -> Result<(), AllocError>
    ensures ok { OnOk result (out.new ≡ out.old ++ written (element_fault_detail fault.now)) }
{
    match fault {
        IeFault::Truncated { at } => out.number_member("at", *at as u64),
        IeFault::ShortValue { kind, instance, at } | IeFault::BadValue { kind, instance, at } => {
            put_element_at(out, *kind, *instance, *at)
        }
        IeFault::Memory | IeFault::TooLong => Ok(()),
    }
}

/// Writes the member of a fault of elements.
#[tactic(auto, using(crate::proofs::Tokens::nesting))]
fn put_element_fault(out: &mut Output, fault: &IeFault) -> Result<(), AllocError>
    ensures ok { OnOk result (out.new ≡ out.old
        ++ written (member (codes "element") (object_of (element_fault_members fault.now)))) }
{
    out.key("element")?;
    out.begin_object()?;
    out.string_member("code", element_code(fault))?;
    put_element_fault_detail(out, fault)?;
    out.end_object()
}

/// The mark of a row that is missing.
fn mark(conditional: bool) -> &'static str
    ensures { result.now ≡ mark_word conditional }
{
    if conditional {
        "conditional"
    } else {
        "mandatory"
    }
}

/// The code of a fault.
fn code(fault: &V2Fault) -> &'static str
    ensures { result.now ≡ code_of fault.now }
{
    match fault {
        V2Fault::Short { .. } => "H1",
        V2Fault::Version { .. } => "H2",
        V2Fault::Length { .. } => "H3",
        V2Fault::FlagT { .. } => "H4",
        V2Fault::BadPiggyback { .. } => "H5",
        V2Fault::Missing { .. } => "H6",
        V2Fault::Element { .. } => "H7",
        V2Fault::Memory => "H8",
        V2Fault::TooLong => "H9",
    }
}

/// Writes what follows the code of a fault.
#[tactic(auto, using(crate::proofs::Tokens::appending))]
fn put_fault_detail(out: &mut Output, fault: &V2Fault) -> Result<(), AllocError>
    ensures ok { OnOk result (out.new ≡ out.old ++ written (fault_detail fault.now)) }
{
    match fault {
        V2Fault::Short { held } => out.number_member("held", *held as u64),
        V2Fault::Version { version } => out.number_member("version", u64::from(*version)),
        V2Fault::Length { stated, held } => {
            out.number_member("stated", *stated as u64)?;
            out.number_member("held", *held as u64)
        }
        V2Fault::FlagT { kind } => out.number_member("type", u64::from(*kind)),
        V2Fault::Missing {
            kind,
            instance,
            conditional,
            ..
        } => {
            out.number_member("type", u64::from(*kind))?;
            out.number_member("instance", u64::from(*instance))?;
            out.string_member("mark", mark(*conditional))
        }
        V2Fault::Element { fault, .. } => put_element_fault(out, fault),
        V2Fault::BadPiggyback { at } => out.number_member("at", *at as u64),
        V2Fault::Memory | V2Fault::TooLong => Ok(()),
    }
}

/// Writes the code of a fault, and what follows it.
#[tactic(auto, using(crate::proofs::Tokens::appending))]
fn put_fault_members(out: &mut Output, fault: &V2Fault) -> Result<(), AllocError>
    ensures ok { OnOk result (out.new ≡ out.old ++ written (fault_members fault.now)) }
{
    out.string_member("code", code(fault))?;
    put_fault_detail(out, fault)
}

/// Writes the number of a bearer context, where there is one.
#[tactic(auto, using(crate::proofs::Tokens::appending))]
fn put_context(out: &mut Output, number: Option<u64>) -> Result<(), AllocError>
    ensures ok { OnOk result (out.new ≡ out.old ++ written (context_members number)) }
{
    match number {
        Some(number) => out.number_member("bearer_context", number),
        None => Ok(()),
    }
}

/// Writes the members of a fault of these octets.
#[tactic(auto, using(crate::proofs::Tokens::appending))]
fn put_placed(out: &mut Output, octets: &[u8], fault: &V2Fault) -> Result<(), AllocError>
    ensures ok { OnOk result
        (out.new ≡ out.old ++ written (placed_members octets.now fault.now)) }
{
    put_fault_members(out, fault)?;
    put_context(out, fault_context(octets, fault))
}

/// Writes the members of a fault, and where it lies, where that is asked for.
fn put_members_of_fault(
    out: &mut Output,
    places: bool,
    octets: &[u8],
    fault: &V2Fault,
) -> Result<(), AllocError>
    ensures ok { OnOk result (Adds (FaultMembers places octets.now fault.now) out.old out.new) }
{
    put_placed(out, octets, fault)?;
    if !places {
        return Ok(());
    }
    put_at(out, fault_place(octets, fault))?;
    Ok(())
}

/// Writes the member of a fault of these octets, with the place where it lies, where that is asked for.
pub fn put_fault(
    out: &mut Output,
    places: bool,
    octets: &[u8],
    fault: &V2Fault,
) -> Result<(), AllocError>
    ensures ok { OnOk result (Adds (FaultShown places octets.now fault.now) out.old out.new) }
{
    out.key("fault")?;
    out.begin_object()?;
    put_members_of_fault(out, places, octets, fault)?;
    out.end_object()?;
    Ok(())
}
