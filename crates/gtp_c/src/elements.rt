//! Elements, in the place where they lie.

ghost use Rattle.std.specs.Prelude.{◌≡◌, ◌≢◌, ◌↔◌, ◌+◌, ◌<◌, ◌^◌, [], ◌∷◌, None, IsErr, drop, length};
ghost use Rattle.gtp_ie.specs.Element.{elements_of, first_of, front_of, list_of};
ghost use Rattle.gtp_ie.specs.View.{element_of};
ghost use Rattle.gtp_c.specs.Common.{IsOneOf};
ghost use Rattle.gtp_c.specs.Reading.{IsElement, IsFirst, IsFound, IsFront};

use crate::status::{BAD_VALUE, DONE, FAULTY, NONE};
use gtp_ie::{ElementView, elements_at};

/// An element, and where its body stands in the datagram.
#[repr(C)]
#[derive(Clone, Copy)]
pub struct Element {
    /// The place of its first octet, and of its body.
    pub at: u64,
    pub body_at: u64,
    /// How many octets its body has.
    pub len: u64,
    pub kind: u8,
    /// Below 16, as the spare half octet before it.
    pub instance: u8,
    pub spare: u8,
}

impl Element {
    fn of(view: &ElementView<'_>) -> Element
        ensures { IsElement result (element_of view.now) }
    {
        Element {
            at: view.at as u64,
            body_at: (view.at + 4) as u64,
            len: view.body.len() as u64,
            kind: view.kind,
            instance: view.instance,
            spare: view.spare,
        }
    }
}

/// The element at the front of these octets, of which the first has this place, and the octets after it.
fn front(octets: &[u8], at: usize) -> Option<(ElementView<'_>, &[u8])>
    requires { at + length octets.now < 2 ^ 64 }
    ensures { IsFound result (front_of at octets.now) }
{
    let [kind, high, low, last, rest @ ..] = octets else {
        return None;
    };
    let len = usize::from(u16::from_be_bytes([*high, *low]));
    if rest.len() < len {
        return None;
    }
    let (body, rest) = rest.split_at(len);
    let view = ElementView {
        kind: *kind,
        spare: *last >> 4,
        instance: *last & 0x0f,
        body,
        at,
    };
    Some((view, rest))
}

/// The element at a place of these octets: 0 with `element` filled; 4 where the place is their end; 9 where no whole element
/// stands there; 1 where the place is past their end. The next one begins where its body ends.
#[unsafe(no_mangle)]
pub extern "C" fn gtp_element_next(octets: &[u8], place: u64, element: &mut Element) -> u8
    ensures found { result ≡ 0 → IsFront place (drop place octets.now) element.new }
    ensures none { result ≡ 9 → front_of place (drop place octets.now) ≡ None }
    ensures end { (result ≡ 4) ↔ (place ≡ length octets.now) }
    ensures past { (result ≡ 1) ↔ (length octets.now < place) }
    ensures kept { result ≢ 0 → element.new ≡ element.old }
    ensures known { IsOneOf (0 ∷ 1 ∷ 4 ∷ 9 ∷ []) result }
{
    let place = place as usize;
    if place > octets.len() {
        return BAD_VALUE;
    }
    if place == octets.len() {
        return NONE;
    }
    let (_before, rest) = octets.split_at(place);
    match front(rest, place) {
        Some((view, _after)) => {
            *element = Element::of(&view);
            DONE
        }
        None => FAULTY,
    }
}

/// The first element of a type and instance, from a place of these octets on, which they have to cover up to their end: 0 with
/// `element` filled; 4 where there is none; 9 where they are not whole elements; 1 where the place is past their end.
#[unsafe(no_mangle)]
pub extern "C" fn gtp_element_first(
    octets: &[u8],
    place: u64,
    kind: u8,
    instance: u8,
    element: &mut Element,
) -> u8
    ensures found { result ≡ 0 → IsFirst octets.now place kind instance element.new }
    ensures none { result ≡ 4
        → first_of kind instance (list_of (elements_of place (drop place octets.now))) ≡ None }
    ensures faulty { (result ≡ 9) ↔ IsErr (elements_of place (drop place octets.now)) }
    ensures past { (result ≡ 1) ↔ (length octets.now < place) }
    ensures kept { result ≢ 0 → element.new ≡ element.old }
    ensures known { IsOneOf (0 ∷ 1 ∷ 4 ∷ 9 ∷ []) result }
{
    let place = place as usize;
    if place > octets.len() {
        return BAD_VALUE;
    }
    let (_before, rest) = octets.split_at(place);
    let Ok(elements) = elements_at(rest, place) else {
        return FAULTY;
    };
    match elements.first(kind, instance) {
        Some(view) => {
            *element = Element::of(&view);
            DONE
        }
        None => NONE,
    }
}
