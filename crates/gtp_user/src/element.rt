//! Information elements of the user plane (TS 29.281 8).

ghost use Rattle.std.specs.Prelude.{◌≡◌, ◌≤◌, ◌<◌, ◌∷◌, [], length, option_map};
ghost use Rattle.gtp_values.specs.Steps.{Gives};
ghost use Rattle.gtp_user.specs.reading.Elements.{split, split_body, address_of, peer_of, types_at, recovery_at, teid_at, skipped_of, element_at, and_found, found_in};
ghost use Rattle.gtp_user.specs.reading.Gathered.{parts_of, ElementIs, found_of, element_of};
ghost use Rattle.gtp_user.specs.reading.Gathered.{found_at};

use crate::fault::UserFault;
use crate::numbers::{EXTENSION_TYPES, PEER_ADDRESS, RECOVERY, TEID_DATA};
use gtp_values::{Ip, Teid};

/// What an element says.
#[derive(Clone, Copy)]
pub enum Element<'a> {
    Recovery,
    /// TEID Data I (8.3).
    TeidData(Teid),
    /// GTP-U Peer Address (8.4).
    Peer(Ip),
    /// Extension Header Type List (8.5).
    Types(&'a [u8]),
    Skipped,
}

/// So many octets, and those after them.
fn split_at(octets: &[u8], size: usize) -> Option<(&[u8], &[u8])>
    ensures { option_map parts_of result ≡ split size octets.now }
{
    if octets.len() < size {
        return None;
    }
    Some(octets.split_at(size))
}

/// The body after a length in two octets, and the octets after it.
fn read_body(octets: &[u8]) -> Option<(&[u8], &[u8])>
    ensures { option_map parts_of result ≡ split_body octets.now }
{
    let [high, low, tail @ ..] = octets else {
        return None;
    };
    split_at(tail, usize::from(u16::from_be_bytes([*high, *low])))
}

/// An address of four octets, or of sixteen.
fn read_address(octets: &[u8]) -> Option<Ip>
    ensures { result ≡ address_of octets.now }
{
    if octets.len() == 4 {
        let mut address = [0u8; 4];
        address.copy_from_slice(octets);
        return Some(Ip::V4(address));
    }
    if octets.len() == 16 {
        let mut address = [0u8; 16];
        address.copy_from_slice(octets);
        return Some(Ip::V6(address));
    }
    None
}

/// Recovery: a counter that is not evaluated (8.2).
fn read_recovery(octets: &[u8]) -> Option<(Element<'_>, &[u8])>
    ensures { ElementIs result (recovery_at octets.now) }
{
    let [_, rest @ ..] = octets else {
        return None;
    };
    Some((Element::Recovery, rest))
}

/// TEID Data I: four octets (8.3).
fn read_teid(octets: &[u8]) -> Option<(Element<'_>, &[u8])>
    ensures { ElementIs result (teid_at octets.now) }
{
    let [a, b, c, d, rest @ ..] = octets else {
        return None;
    };
    let teid = Teid(u32::from_be_bytes([*a, *b, *c, *d]));
    Some((Element::TeidData(teid), rest))
}

/// GTP-U Peer Address: a length in two octets, and the address (8.4).
fn read_peer(octets: &[u8]) -> Option<(Element<'_>, &[u8])>
    ensures { ElementIs result (peer_of (split_body octets.now)) }
{
    let (body, rest) = read_body(octets)?;
    let address = read_address(body)?;
    Some((Element::Peer(address), rest))
}

/// Extension Header Type List: a length in one octet, and the types (8.5).
fn read_types(octets: &[u8]) -> Option<(Element<'_>, &[u8])>
    ensures { ElementIs result (types_at octets.now) }
{
    let [size, tail @ ..] = octets else {
        return None;
    };
    let (types, rest) = split_at(tail, usize::from(*size))?;
    Some((Element::Types(types), rest))
}

/// An element whose body is not read.
fn read_skipped(octets: &[u8]) -> Option<(Element<'_>, &[u8])>
    ensures { ElementIs result (skipped_of (split_body octets.now)) }
{
    let (_, rest) = read_body(octets)?;
    Some((Element::Skipped, rest))
}

/// The element at the start of the octets, and the octets after it.
#[tactic(auto, unfolding(crate::specs::reading::Elements::element_at))]
fn read_element(octets: &[u8]) -> Option<(Element<'_>, &[u8])>
    ensures { ElementIs result (element_at octets.now) }
{
    let [kind, tail @ ..] = octets else {
        return None;
    };
    match *kind {
        RECOVERY => read_recovery(tail),
        TEID_DATA => read_teid(tail),
        PEER_ADDRESS => read_peer(tail),
        EXTENSION_TYPES => read_types(tail),
        128..=255 => read_skipped(tail),
        _ => None,
    }
}

/// What the first element of each type says.
#[derive(Clone, Copy)]
pub struct Found<'a> {
    pub recovery: bool,
    pub teid: Option<Teid>,
    pub peer: Option<Ip>,
    pub types: Option<&'a [u8]>,
}

impl<'a> Found<'a> {
    /// What was found before, and then this element.
    #[tactic(auto, unfolding(crate::specs::reading::Elements::found_in))]
    fn and(self, element: Element<'a>) -> Found<'a>
        ensures { found_of result
            ≡ and_found (found_of self.entry) (found_in (element_of element.entry ∷ [])) }
    {
        let Found {
            mut recovery,
            mut teid,
            mut peer,
            mut types,
        } = self;
        match element {
            Element::Recovery => recovery = true,
            Element::TeidData(data) => teid = teid.or(Some(data)),
            Element::Peer(address) => peer = peer.or(Some(address)),
            Element::Types(kinds) => types = types.or(Some(kinds)),
            Element::Skipped => {}
        }
        Found {
            recovery,
            teid,
            peer,
            types,
        }
    }
}

/// What the first element of each type says in the last octets of a datagram of `end` octets: these
/// are elements to their end.
pub fn read_elements(octets: &[u8], end: usize) -> Result<Found<'_>, UserFault>
    requires { length octets.now ≤ end }
    ensures { Gives found_of result (found_at end octets.now) }
{
    let mut found = Found {
        recovery: false,
        teid: None,
        peer: None,
        types: None,
    };
    let mut rest = octets;
    while !rest.is_empty() {
        let Some((element, tail)) = read_element(rest) else {
            return Err(UserFault::Element {
                at: end - rest.len(),
            });
        };
        found = found.and(element);
        rest = tail;
    }
    Ok(found)
}
