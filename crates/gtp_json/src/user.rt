//! Datagrams of the user plane as JSON.

ghost use Rattle.std.specs.Prelude.{◌≡◌, ◌++◌, OnOk, option_map};
ghost use Rattle.std.specs.List.{flat_map};
ghost use Rattle.json.specs.Tree.{json_tokens};
ghost use Rattle.gtp_user.specs.Chain.{extension_of};
ghost use Rattle.gtp_user.specs.Message.{content_of, message_value};
ghost use Rattle.gtp_json.specs.reading.Tokens.{written};
ghost use Rattle.gtp_json.specs.Control.{fault_member};
ghost use Rattle.gtp_json.specs.User.{named, user_title, target_members, some_member, user_head, extension_json, extensions_members, indication_members, user_carried, user_members, user_code, user_fault_detail, user_fault_members};
ghost use Rattle.gtp_json.specs.Places.{user_members_at};

use crate::object::Output;
use crate::places::{put_at, user_fault_place};
use crate::values::put_octets;
use gtp_lines::body_name;
use gtp_user::{ExtensionHeader, Extensions, UserBody, UserFault, UserMessage};
use gtp_values::{Ip, Teid};
use std::alloc::AllocError;

/// Writes the type of a message, by its number and, where it has one, its name.
#[tactic(auto, using(crate::proofs::Tokens::appending))]
pub fn put_named(out: &mut Output, kind: u8, name: Option<&str>) -> Result<(), AllocError>
    ensures ok { OnOk result
        (out.new ≡ out.old ++ written (named kind (option_map (λ n. n.now) name.entry))) }
{
    out.number_member("type", u64::from(kind))?;
    match name {
        Some(name) => out.string_member("name", name),
        None => Ok(()),
    }
}

/// Writes the type of a message.
fn put_title(out: &mut Output, body: &UserBody) -> Result<(), AllocError>
    ensures ok { OnOk result (out.new ≡ out.old ++ written (user_title (content_of body.now))) }
{
    put_named(out, body.kind(), body_name(body))
}

/// Writes the TEID of the header, of the messages of a tunnel and of other types.
#[tactic(auto, using(crate::proofs::Tokens::appending))]
fn put_target(out: &mut Output, body: &UserBody) -> Result<(), AllocError>
    ensures ok { OnOk result (out.new ≡ out.old ++ written (target_members (content_of body.now))) }
{
    match body {
        UserBody::EndMarker { teid }
        | UserBody::Packet { teid, .. }
        | UserBody::Other { teid, .. } => out.display_member("teid", teid),
        _ => Ok(()),
    }
}

/// Writes a number, where there is one.
#[tactic(auto, using(crate::proofs::Tokens::appending))]
pub fn put_some(out: &mut Output, name: &str, number: Option<u64>) -> Result<(), AllocError>
    ensures ok { OnOk result (out.new ≡ out.old ++ written (some_member name.now number)) }
{
    match number {
        None => Ok(()),
        Some(number) => out.number_member(name, number),
    }
}

/// Writes what a message's header says.
#[tactic(auto, using(crate::proofs::Tokens::appending))]
pub fn put_head(out: &mut Output, message: &UserMessage) -> Result<(), AllocError>
    ensures ok { OnOk result
        (out.new ≡ out.old ++ written (user_head (message_value message.now))) }
{
    put_title(out, &message.body)?;
    put_target(out, &message.body)?;
    put_some(out, "seq", message.seq.map(u64::from))?;
    put_some(out, "npdu", message.npdu.map(u64::from))
}

/// Writes an extension header.
#[tactic(auto, using(crate::proofs::Tokens::nesting))]
fn put_extension(out: &mut Output, header: &ExtensionHeader) -> Result<(), AllocError>
    ensures ok { OnOk result
        (out.new ≡ out.old ++ json_tokens (extension_json (extension_of header.now))) }
{
    out.begin_object()?;
    out.number_member("type", u64::from(header.kind))?;
    put_octets(out, header.content)?;
    out.end_object()
}

/// Writes extension headers.
fn put_all_extensions(out: &mut Output, extensions: &Extensions) -> Result<(), AllocError>
    ensures ok { OnOk result (out.new
        ≡ out.old ++ flat_map (λ e. json_tokens (extension_json e)) extensions.now) }
{
    for header in extensions {
        put_extension(out, &header)?;
    }
    Ok(())
}

/// Writes the member of extension headers.
#[tactic(auto, using(crate::proofs::Tokens::nesting, crate::proofs::Tokens::array_tokens))]
fn put_extensions(out: &mut Output, extensions: &Extensions) -> Result<(), AllocError>
    ensures ok { OnOk result (out.new ≡ out.old ++ written (extensions_members extensions.now)) }
{
    out.key("extensions")?;
    out.begin_array()?;
    put_all_extensions(out, extensions)?;
    out.end_array()
}

/// Writes the TEID and the address of a packet that found no context.
#[tactic(auto, using(crate::proofs::Tokens::appending))]
fn put_indication(out: &mut Output, teid: Teid, peer: &Ip) -> Result<(), AllocError>
    ensures ok { OnOk result (out.new ≡ out.old ++ written (indication_members teid peer.now)) }
{
    out.display_member("teid_data", &teid)?;
    out.display_member("peer", peer)
}

/// Writes what a message carries.
#[tactic(auto, using(crate::proofs::Tokens::appending))]
pub fn put_carried(out: &mut Output, body: &UserBody) -> Result<(), AllocError>
    ensures ok { OnOk result (out.new ≡ out.old ++ written (user_carried (content_of body.now))) }
{
    match body {
        UserBody::ErrorIndication { teid, peer } => put_indication(out, *teid, peer),
        UserBody::Notification { types } => out.hex_member("types", types),
        UserBody::Packet { payload, .. } => out.hex_member("payload", payload),
        UserBody::Other { octets, .. } => put_octets(out, octets),
        _ => Ok(()),
    }
}

/// Writes the members of a message.
#[tactic(auto, using(crate::proofs::Tokens::appending))]
pub fn put_message(out: &mut Output, message: &UserMessage) -> Result<(), AllocError>
    ensures ok { OnOk result
        (out.new ≡ out.old ++ written (user_members (message_value message.now))) }
{
    put_head(out, message)?;
    put_extensions(out, &message.ext)?;
    put_carried(out, &message.body)
}

/// The code of a fault.
fn code(fault: &UserFault) -> &'static str
    ensures { result.now ≡ user_code fault.now }
{
    match fault {
        UserFault::Short { .. } => "U1",
        UserFault::Version { .. } => "U2",
        UserFault::Protocol => "U3",
        UserFault::Length { .. } => "U4",
        UserFault::ExtensionZero { .. } => "U5",
        UserFault::ExtensionPast { .. } => "U6",
        UserFault::ExtensionNeeded { .. } => "U7",
        UserFault::Missing { .. } => "U8",
        UserFault::Element { .. } => "U9",
        UserFault::Memory => "U10",
        UserFault::TooLong => "U11",
    }
}

/// Writes what follows the code of a fault.
#[tactic(auto, using(crate::proofs::Tokens::appending))]
fn put_fault_detail(out: &mut Output, fault: &UserFault) -> Result<(), AllocError>
    ensures ok { OnOk result (out.new ≡ out.old ++ written (user_fault_detail fault.now)) }
{
    match fault {
        UserFault::Short { held } => out.number_member("held", *held as u64),
        UserFault::Version { version } => out.number_member("version", u64::from(*version)),
        UserFault::Length { stated, held } => {
            out.number_member("stated", *stated as u64)?;
            out.number_member("held", *held as u64)
        }
        UserFault::ExtensionZero { at }
        | UserFault::ExtensionPast { at }
        | UserFault::Element { at } => out.number_member("at", *at as u64),
        UserFault::ExtensionNeeded { kind, .. } | UserFault::Missing { kind } => {
            out.number_member("type", u64::from(*kind))
        }
        UserFault::Protocol | UserFault::Memory | UserFault::TooLong => Ok(()),
    }
}

/// Writes the code of a fault, and what follows it.
#[tactic(auto, using(crate::proofs::Tokens::appending))]
fn put_fault_members(out: &mut Output, fault: &UserFault) -> Result<(), AllocError>
    ensures ok { OnOk result (out.new ≡ out.old ++ written (user_fault_members fault.now)) }
{
    out.string_member("code", code(fault))?;
    put_fault_detail(out, fault)
}

/// The same, and where it lies, where that is asked for.
#[tactic(auto, using(crate::proofs::Tokens::appending))]
fn put_members_of_fault(out: &mut Output, places: bool, fault: &UserFault) -> Result<(), AllocError>
    ensures ok { OnOk result
        (out.new ≡ out.old ++ written (user_members_at places fault.now)) }
{
    put_fault_members(out, fault)?;
    if !places {
        return Ok(());
    }
    put_at(out, user_fault_place(fault))
}

/// Writes the member of a fault, with the place where it lies, where that is asked for.
#[tactic(auto, using(crate::proofs::Tokens::nesting))]
pub fn put_fault(out: &mut Output, places: bool, fault: &UserFault) -> Result<(), AllocError>
    ensures ok { OnOk result
        (out.new ≡ out.old ++ written (fault_member (user_members_at places fault.now))) }
{
    out.key("fault")?;
    out.begin_object()?;
    put_members_of_fault(out, places, fault)?;
    out.end_object()
}
