//! The lines of datagrams of the user plane.

ghost use Rattle.std.specs.Prelude.{◌≡◌, ◌++◌, OnOk, option_map};
ghost use Rattle.std.specs.List.{flat_map};
ghost use Rattle.gtp_user.specs.Chain.{extension_of};
ghost use Rattle.gtp_user.specs.Message.{content_of, message_value};
ghost use Rattle.gtp_lines.specs.User.{named, user_name as spec_user_name, body_name as spec_body_name, kind_title, user_title, target_shown, some_shown, user_head_line, extension_line, octets_line, carried_shown, user_fault_detail, user_fault_shown, user_fault_line, user_lines};

use crate::text::{put, put_display, put_hex, put_octets, put_teid};
use crate::values::put_field;
use gtp_user::kinds::{
    ECHO_REQUEST, ECHO_RESPONSE, END_MARKER, ERROR_INDICATION, G_PDU,
    SUPPORTED_EXTENSION_HEADERS_NOTIFICATION,
};
use gtp_user::{ExtensionHeader, Extensions, UserBody, UserFault, UserMessage};
use std::alloc::AllocError;

/// The name of a type of message that has a form of its own.
pub fn user_name(kind: u8) -> Option<&'static str>
    ensures { option_map (λ name. name.now) result ≡ spec_user_name kind }
{
    match kind {
        ECHO_REQUEST => Some("echo-request"),
        ECHO_RESPONSE => Some("echo-response"),
        ERROR_INDICATION => Some("error-indication"),
        SUPPORTED_EXTENSION_HEADERS_NOTIFICATION => Some("supported-extensions"),
        END_MARKER => Some("end-marker"),
        G_PDU => Some("g-pdu"),
        _ => None,
    }
}

/// The name of a message, that of its type; a message of another type has none, whatever its number.
pub fn body_name(body: &UserBody) -> Option<&'static str>
    ensures { option_map (λ name. name.now) result ≡ spec_body_name (content_of body.now) }
{
    match body {
        UserBody::Other { .. } => None,
        _ => user_name(body.kind()),
    }
}

/// Appends the type of a message, by its number and its name.
#[tactic(auto, using(crate::proofs::Appends::appending))]
fn put_named(out: &mut Vec<u8>, kind: u8, name: Option<&str>) -> Result<(), AllocError>
    ensures ok { OnOk result
        (out.new.items ≡ out.old.items ++ named kind (option_map (λ n. n.now) name.entry)) }
{
    put_field(out, b"gtpu type ", u64::from(kind))?;
    put(out, b" ")?;
    put(out, name.unwrap_or("other").as_bytes())
}

/// Appends the type of a message by its number alone.
pub fn put_kind_title(out: &mut Vec<u8>, kind: u8) -> Result<(), AllocError>
    ensures ok { OnOk result (out.new.items ≡ out.old.items ++ kind_title kind) }
{
    put_named(out, kind, user_name(kind))
}

/// Appends the type of a message.
fn put_title(out: &mut Vec<u8>, body: &UserBody) -> Result<(), AllocError>
    ensures ok { OnOk result (out.new.items ≡ out.old.items ++ user_title (content_of body.now)) }
{
    put_named(out, body.kind(), body_name(body))
}

/// Appends the TEID of the header, of the messages of a tunnel and of other types.
#[tactic(auto, using(crate::proofs::Appends::appending))]
pub fn put_target(out: &mut Vec<u8>, body: &UserBody) -> Result<(), AllocError>
    ensures ok { OnOk result (out.new.items ≡ out.old.items ++ target_shown (content_of body.now)) }
{
    match body {
        UserBody::EndMarker { teid }
        | UserBody::Packet { teid, .. }
        | UserBody::Other { teid, .. } => {
            put(out, b" teid ")?;
            put_teid(out, *teid)
        }
        _ => Ok(()),
    }
}

/// Appends a number, where there is one.
pub fn put_some(out: &mut Vec<u8>, mark: &[u8], number: Option<u64>) -> Result<(), AllocError>
    ensures ok { OnOk result (out.new.items ≡ out.old.items ++ some_shown mark.now number) }
{
    match number {
        None => Ok(()),
        Some(number) => put_field(out, mark, number),
    }
}

/// Appends the first line of a message.
#[tactic(auto, using(crate::proofs::Appends::appending))]
pub fn put_head(out: &mut Vec<u8>, message: &UserMessage) -> Result<(), AllocError>
    ensures ok { OnOk result
        (out.new.items ≡ out.old.items ++ user_head_line (message_value message.now)) }
{
    put_title(out, &message.body)?;
    put_target(out, &message.body)?;
    put_some(out, b" seq ", message.seq.map(u64::from))?;
    put_some(out, b" npdu ", message.npdu.map(u64::from))?;
    put(out, b"\n")
}

/// Appends the line of an extension header.
#[tactic(auto, using(crate::proofs::Appends::appending))]
fn put_extension(out: &mut Vec<u8>, header: &ExtensionHeader) -> Result<(), AllocError>
    ensures ok { OnOk result
        (out.new.items ≡ out.old.items ++ extension_line (extension_of header.now)) }
{
    put(out, b"ext ")?;
    put_hex(out, &[header.kind])?;
    put(out, b" ")?;
    put_octets(out, header.content)?;
    put(out, b"\n")
}

/// Appends the lines of extension headers.
fn put_extensions(out: &mut Vec<u8>, extensions: &Extensions) -> Result<(), AllocError>
    ensures ok { OnOk result
        (out.new.items ≡ out.old.items ++ flat_map extension_line extensions.now) }
{
    for header in extensions {
        put_extension(out, &header)?;
    }
    Ok(())
}

/// Appends a mark and octets.
#[tactic(auto, using(crate::proofs::Appends::appending))]
fn put_octets_line(out: &mut Vec<u8>, mark: &[u8], octets: &[u8]) -> Result<(), AllocError>
    ensures ok { OnOk result (out.new.items ≡ out.old.items ++ octets_line mark.now octets.now) }
{
    put(out, mark)?;
    put_octets(out, octets)?;
    put(out, b"\n")
}

/// Appends what a message carries.
#[tactic(auto, using(crate::proofs::Appends::appending))]
pub fn put_carried(out: &mut Vec<u8>, body: &UserBody) -> Result<(), AllocError>
    ensures ok { OnOk result
        (out.new.items ≡ out.old.items ++ carried_shown (content_of body.now)) }
{
    match body {
        UserBody::ErrorIndication { teid, peer } => {
            put(out, b"teid ")?;
            put_teid(out, *teid)?;
            put(out, b"\npeer ")?;
            put_display(out, peer)?;
            put(out, b"\n")
        }
        UserBody::Notification { types } => put_octets_line(out, b"types ", types),
        UserBody::Packet { payload, .. } => put_octets_line(out, b"payload ", payload),
        UserBody::Other { octets, .. } => put_octets_line(out, b"octets ", octets),
        _ => Ok(()),
    }
}

/// Appends the lines of a message.
#[tactic(auto, using(crate::proofs::Appends::appending))]
pub fn put_user_message(out: &mut Vec<u8>, message: &UserMessage) -> Result<(), AllocError>
    ensures ok { OnOk result
        (out.new.items ≡ out.old.items ++ user_lines (message_value message.now)) }
{
    put_head(out, message)?;
    put_extensions(out, &message.ext)?;
    put_carried(out, &message.body)
}

/// Appends what follows the number of a fault.
#[tactic(auto, using(crate::proofs::Appends::appending))]
fn put_user_fault_detail(out: &mut Vec<u8>, fault: &UserFault) -> Result<(), AllocError>
    ensures ok { OnOk result (out.new.items ≡ out.old.items ++ user_fault_detail fault.now) }
{
    match fault {
        UserFault::Short { held } => put_field(out, b" held ", *held as u64),
        UserFault::Version { version } => put_field(out, b" version ", u64::from(*version)),
        UserFault::Length { stated, held } => {
            put_field(out, b" stated ", *stated as u64)?;
            put_field(out, b" held ", *held as u64)
        }
        UserFault::ExtensionZero { at }
        | UserFault::ExtensionPast { at }
        | UserFault::Element { at } => put_field(out, b" at ", *at as u64),
        UserFault::ExtensionNeeded { kind, .. } => {
            put(out, b" type ")?;
            put_hex(out, &[*kind])
        }
        UserFault::Missing { kind } => put_field(out, b" type ", u64::from(*kind)),
        UserFault::Protocol | UserFault::Memory | UserFault::TooLong => Ok(()),
    }
}

/// Appends what follows the word of a fault.
#[tactic(auto, using(crate::proofs::Appends::appending))]
fn put_user_fault(out: &mut Vec<u8>, fault: &UserFault) -> Result<(), AllocError>
    ensures ok { OnOk result (out.new.items ≡ out.old.items ++ user_fault_shown fault.now) }
{
    put_field(out, b"U", u64::from(fault.number()))?;
    put_user_fault_detail(out, fault)
}

/// Appends the line of a fault.
#[tactic(auto, using(crate::proofs::Appends::appending))]
pub fn put_user_fault_line(out: &mut Vec<u8>, fault: &UserFault) -> Result<(), AllocError>
    ensures ok { OnOk result (out.new.items ≡ out.old.items ++ user_fault_line fault.now) }
{
    put(out, b"fault ")?;
    put_user_fault(out, fault)?;
    put(out, b"\n")
}
