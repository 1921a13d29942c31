//! The one line of a datagram of a capture, after its frame, time and ends.

ghost use Rattle.std.specs.Prelude.{◌≡◌, ◌++◌, OnOk, IfOk, option_map};
ghost use Rattle.gtp_user.specs.Message.{message_value};
ghost use Rattle.gtp_v2.specs.Pair.{datagram_seen};
ghost use Rattle.gtp_lines.specs.Text.{Adds};
ghost use Rattle.gtp_lines.specs.Brief.{brief_named, brief_message, brief_second, brief_datagram, brief_user, BriefLine};
ghost use Rattle.gtp_values.specs.declared.plane.Plane.TheVariants as planes;

use crate::control::{put_fault_line, put_some_teid};
use crate::named::name_in;
use crate::text::put;
use crate::user::{body_name, put_some, put_target, put_user_fault_line};
use crate::values::put_field;
use gtp_names::Names;
use gtp_user::UserMessage;
use gtp_v2::{DatagramView, MessageView, view};
use gtp_values::Plane;
use std::alloc::AllocError;

/// Appends the name of a message, or the number of its type, where it has none.
fn put_brief_name(out: &mut Vec<u8>, kind: u8, name: Option<&str>) -> Result<(), AllocError>
    ensures ok { OnOk result
        (out.new.items ≡ out.old.items ++ brief_named kind (option_map (λ n. n.now) name.entry)) }
{
    match name {
        Some(name) => put(out, name.as_bytes()),
        None => put_field(out, b"type ", u64::from(kind)),
    }
}

/// Appends the name, the TEID and the sequence number of a message.
#[tactic(auto, using(crate::proofs::Appends::appending))]
fn put_brief_message(out: &mut Vec<u8>, names: &Names, seen: &MessageView) -> Result<(), AllocError>
    ensures ok { OnOk result (out.new.items ≡ out.old.items ++ brief_message names.now seen.now.message) }
{
    put_brief_name(out, seen.kind(), name_in(names, seen.kind()))?;
    put_some_teid(out, seen.teid())?;
    put_field(out, b" seq ", u64::from(seen.seq().number()))
}

/// Appends a second message, where there is one, and ends the line.
#[tactic(auto, using(crate::proofs::Appends::appending))]
fn put_brief_second(
    out: &mut Vec<u8>,
    names: &Names,
    second: &Option<MessageView>,
) -> Result<(), AllocError>
    ensures ok { OnOk result (out.new.items
        ≡ out.old.items ++ brief_second names.now (option_map (λ s. s.message) second.now)) }
{
    let Some(second) = second else {
        return put(out, b"\n");
    };
    put(out, b" then ")?;
    put_brief_message(out, names, second)?;
    put(out, b"\n")
}

/// Appends the messages of a datagram, and ends the line.
#[tactic(auto, using(crate::proofs::Appends::appending))]
fn put_brief_datagram(
    out: &mut Vec<u8>,
    names: &Names,
    seen: &DatagramView,
) -> Result<(), AllocError>
    ensures ok { OnOk result (out.new.items ≡ out.old.items
        ++ brief_datagram names.now (datagram_seen seen.now).first (datagram_seen seen.now).second) }
{
    put_brief_message(out, names, seen.message())?;
    put_brief_second(out, names, &seen.second())
}

/// Appends the end of a control datagram's line, and tells whether it is at fault.
fn put_brief_control(out: &mut Vec<u8>, names: &Names, octets: &[u8]) -> Result<bool, AllocError>
    ensures { IfOk result (λ faulty.
        Adds (λ text. BriefLine names.now planes.Control octets.now text faulty) out.old.items out.new.items) }
{
    match view(octets) {
        Ok(seen) => {
            put_brief_datagram(out, names, &seen)?;
            Ok(false)
        }
        Err(fault) => {
            put_fault_line(out, &fault)?;
            Ok(true)
        }
    }
}

/// Appends a message of the user plane, and ends the line.
#[tactic(auto, using(crate::proofs::Appends::appending))]
fn put_brief_user_message(out: &mut Vec<u8>, message: &UserMessage) -> Result<(), AllocError>
    ensures ok { OnOk result
        (out.new.items ≡ out.old.items ++ brief_user (message_value message.now)) }
{
    put_brief_name(out, message.body.kind(), body_name(&message.body))?;
    put_target(out, &message.body)?;
    put_some(out, b" seq ", message.seq.map(u64::from))?;
    put(out, b"\n")
}

/// Appends the end of the line of a datagram of the user plane, and tells whether it is at fault.
fn put_brief_user(out: &mut Vec<u8>, names: &Names, octets: &[u8]) -> Result<bool, AllocError>
    ensures { IfOk result (λ faulty.
        Adds (λ text. BriefLine names.now planes.User octets.now text faulty) out.old.items out.new.items) }
{
    match gtp_user::decode(octets) {
        Ok(message) => {
            put_brief_user_message(out, &message)?;
            Ok(false)
        }
        Err(fault) => {
            put_user_fault_line(out, &fault)?;
            Ok(true)
        }
    }
}

/// Appends the end of a datagram's line, and tells whether it is at fault.
pub fn put_brief(
    out: &mut Vec<u8>,
    names: &Names,
    plane: Plane,
    octets: &[u8],
) -> Result<bool, AllocError>
    ensures { IfOk result (λ faulty.
        Adds (λ text. BriefLine names.now plane octets.now text faulty) out.old.items out.new.items) }
{
    match plane {
        Plane::Control => put_brief_control(out, names, octets),
        Plane::User => put_brief_user(out, names, octets),
    }
}
