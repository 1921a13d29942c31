//! Datagrams that name an interface other than S5/S8.

ghost use Rattle.std.specs.Prelude.{◌↔◌, ◌<◌, ◌⊎◌, IsTrue, option_to_list};
ghost use Rattle.gtp_ie.specs.View.{element_of};
ghost use Rattle.gtp_lines.specs.reading.Header.{headed_of};
ghost use Rattle.gtp_lines.specs.All.{head_at as spec_head_at};
ghost use Rattle.gtp_lines.specs.Filter.{SomeOf};
ghost use Rattle.gtp_lines.specs.Elsewhere.{NamesElsewhere, HoldsElsewhere, HasElsewhere, IsOfContainer, IsElsewhere};

use crate::filter::elements_behind;
use crate::header::{Header, head_at, pair_at};
use gtp_ie::kinds::FTEID;
use gtp_ie::{ElementView, Elements, FTeid, IeValue};
use gtp_user::UserFault;
use gtp_v2::BEARER_CONTEXT;
use gtp_values::Plane;

/// The extension header of 5G (TS 29.281 5.2.2.7).
const PDU_SESSION_CONTAINER: u8 = 0x85;

/// Whether a number is that of an interface other than S5/S8 (TS 29.274 8.22).
fn is_other(interface: u8) -> bool
    ensures { IsTrue result ↔ ((interface < 4) ⊎ (7 < interface)) }
{
    !(4..=7).contains(&interface)
}

/// Whether an element is an F-TEID of another interface.
fn names_elsewhere(view: &ElementView) -> bool
    ensures { IsTrue result ↔ NamesElsewhere (element_of view.now) }
{
    if view.kind != FTEID {
        return false;
    }
    match FTeid::read(view.body) {
        Ok(told) => is_other(told.interface().number()),
        Err(_) => false,
    }
}

/// Whether one of these elements is one.
fn some_name_elsewhere(elements: &Elements) -> bool
    ensures { IsTrue result ↔ SomeOf NamesElsewhere elements.now }
{
    for view in elements.iter() {
        if names_elsewhere(&view) {
            return true;
        }
    }
    false
}

/// Whether an element is one, or a bearer context that holds one.
fn holds_elsewhere(view: &ElementView) -> bool
    ensures { IsTrue result ↔ HoldsElsewhere (element_of view.now) }
{
    if names_elsewhere(view) {
        return true;
    }
    if view.kind != BEARER_CONTEXT {
        return false;
    }
    match view.inner() {
        Ok(elements) => some_name_elsewhere(&elements),
        Err(_) => false,
    }
}

/// Whether one of these elements is one or holds one.
fn some_hold_elsewhere(elements: &Elements) -> bool
    ensures { IsTrue result ↔ SomeOf HoldsElsewhere elements.now }
{
    for view in elements.iter() {
        if holds_elsewhere(&view) {
            return true;
        }
    }
    false
}

/// Whether a message has one.
fn has_elsewhere(header: &Header) -> bool
    ensures { IsTrue result ↔ HasElsewhere (headed_of header.now) }
{
    some_hold_elsewhere(&elements_behind(header))
}

/// Whether the message at the front of octets has.
fn first_has_elsewhere(octets: &[u8]) -> bool
    ensures { IsTrue result ↔ SomeOf HasElsewhere (option_to_list (spec_head_at octets.now)) }
{
    match head_at(octets) {
        Some(header) => has_elsewhere(&header),
        None => false,
    }
}

/// Whether a fault is that a PDU session container is not understood.
fn is_of_container(fault: &UserFault) -> bool
    ensures { IsTrue result ↔ IsOfContainer fault.now }
{
    match fault {
        UserFault::ExtensionNeeded { kind, .. } => *kind == PDU_SESSION_CONTAINER,
        _ => false,
    }
}

/// Whether the fault of a user datagram is that.
fn has_container(octets: &[u8]) -> bool
    ensures { IsTrue result ↔ IsElsewhere Plane.User octets.now }
{
    match gtp_user::decode(octets) {
        Ok(_) => false,
        Err(fault) => is_of_container(&fault),
    }
}

/// Whether a datagram names an interface other than S5/S8: a message of the control plane an F-TEID whose interface type is none of
/// 4 to 7, among its elements or those of its bearer contexts; a datagram of the user plane a PDU session container as its fault.
pub fn is_elsewhere(plane: Plane, octets: &[u8]) -> bool
    ensures { IsTrue result ↔ IsElsewhere plane octets.now }
{
    match plane {
        Plane::Control => match pair_at(octets) {
            Some((header, back)) => has_elsewhere(&header) || first_has_elsewhere(back),
            None => first_has_elsewhere(octets),
        },
        Plane::User => has_container(octets),
    }
}
