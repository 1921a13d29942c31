//! The lines of a datagram.

ghost use Rattle.std.specs.Prelude.{◌≡◌, ◌++◌, OnOk, IfOk};
ghost use Rattle.gtp_lines.specs.Control.{seen_lines, datagram_lines};
ghost use Rattle.gtp_lines.specs.Messages.{ControlLines};
ghost use Rattle.gtp_lines.specs.User.{UserLines};
ghost use Rattle.gtp_lines.specs.Lines.{LinesOf};

use crate::control::{put_elements, put_fault_line, put_head};
use crate::text::put;
use crate::user::{put_user_fault_line, put_user_message};
use crate::values::put_raw;
use gtp_v2::{DatagramView, MessageView, view};
use gtp_values::{Memory, Plane};
use std::alloc::{AllocError, Global};

/// Room for the lines of most datagrams, in octets.
const USUAL_OCTETS: usize = 1024;

/// The lines of a datagram, in ASCII, and whether they are those of a fault.
#[derive(Debug, Drop)]
pub struct Shown {
    pub text: Vec<u8>,
    pub faulty: bool,
}

/// Appends the lines of a message.
#[tactic(auto, using(crate::proofs::Appends::appending, crate::proofs::Seen::raw_lines, crate::proofs::Seen::typed_lines))]
fn put_message(out: &mut Vec<u8>, seen: &MessageView) -> Result<(), AllocError>
    ensures ok { OnOk result (out.new.items ≡ out.old.items ++ seen_lines seen.now) }
{
    put_head(out, seen)?;
    match seen.raw() {
        Some(carried) => {
            put_raw(out, carried)?;
            put(out, b"\n")
        }
        None => put_elements(out, &seen.elements()),
    }
}

/// Appends the lines of a datagram's message, and then those of its second one, where it has one.
#[tactic(auto, using(crate::proofs::Appends::appending))]
fn put_datagram(out: &mut Vec<u8>, seen: &DatagramView) -> Result<(), AllocError>
    ensures ok { OnOk result (out.new.items
        ≡ out.old.items ++ datagram_lines seen.now.message seen.now.second) }
{
    put_message(out, seen.message())?;
    match seen.second() {
        Some(second) => put_message(out, &second),
        None => Ok(()),
    }
}

/// The lines of a control datagram; `Memory` where an allocation was refused.
fn control_lines(alloc: Global, octets: &[u8]) -> Result<Shown, Memory>
    ensures { IfOk result (λ shown. ControlLines octets.now shown.text.items shown.faulty) }
{
    let mut text = Vec::with_capacity(alloc, USUAL_OCTETS)?;
    match view(octets) {
        Ok(seen) => {
            put_datagram(&mut text, &seen)?;
            Ok(Shown {
                text,
                faulty: false,
            })
        }
        Err(fault) => {
            put_fault_line(&mut text, &fault)?;
            Ok(Shown { text, faulty: true })
        }
    }
}

/// The lines of a datagram of the user plane; `Memory` where an allocation was refused.
fn user_lines(alloc: Global, octets: &[u8]) -> Result<Shown, Memory>
    ensures { IfOk result (λ shown. UserLines octets.now shown.text.items shown.faulty) }
{
    let mut text = Vec::with_capacity(alloc, USUAL_OCTETS)?;
    match gtp_user::decode(octets) {
        Ok(message) => {
            put_user_message(&mut text, &message)?;
            Ok(Shown {
                text,
                faulty: false,
            })
        }
        Err(fault) => {
            put_user_fault_line(&mut text, &fault)?;
            Ok(Shown { text, faulty: true })
        }
    }
}

/// The lines of a datagram: its message with each element in the order in which it came, and then its second
/// one, if it has two; or the one line of its first fault. `Memory` where an allocation was refused.
pub fn decode_lines(alloc: Global, plane: Plane, octets: &[u8]) -> Result<Shown, Memory>
    ensures { IfOk result (λ shown. LinesOf plane octets.now shown.text.items shown.faulty) }
{
    match plane {
        Plane::Control => control_lines(alloc, octets),
        Plane::User => user_lines(alloc, octets),
    }
}
