//! Which datagrams of a capture are chosen.

ghost use Rattle.std.specs.Prelude.{◌≡◌, ◌↔◌, ◌<◌, ◌^◌, ◌⊎◌, length, IsTrue, IfSome, option_to_list};
ghost use Rattle.gtp_ie.specs.View.{element_of};
ghost use Rattle.gtp_capture.specs.reading.Packet.{packet_of};
ghost use Rattle.gtp_lines.specs.reading.Header.{headed_of, user_head_of};
ghost use Rattle.gtp_lines.specs.Filter.{SomeOf, TellsImsi, TellsTeid, HoldsTeid, HasAsked, UserHasAsked, MessageHasAsked, AsksNothing, IsChosen, elements_behind as spec_elements_behind};
ghost use Rattle.gtp_lines.specs.All.{head_at as spec_head_at};
ghost use Rattle.gtp_values.specs.declared.plane.Plane.TheVariants as planes;

use crate::header::{Header, head_at, pair_at};
use crate::user_header::{UserHeader, user_head_at};
use gtp_capture::Packet;
use gtp_ie::kinds::{FTEID, IMSI};
use gtp_ie::{ElementView, Elements, FTeid, IeValue, Imsi, Teid, elements_at};
use gtp_v2::BEARER_CONTEXT;
use gtp_values::{Ip, Plane};

/// The type of a message on each plane, `None` where no message of that plane is asked for.
#[derive(Clone, Copy, Debug, PartialEq, Eq)]
pub struct Kinds {
    pub control: Option<u8>,
    pub user: Option<u8>,
}

/// What a datagram has to have to be chosen. What is `None` is not asked for.
#[derive(Clone, Copy, Debug)]
pub struct Filter {
    /// A message of this type.
    pub kinds: Option<Kinds>,
    /// An IMSI (TS 29.274 8.3) of these digits, among elements of the message.
    pub imsi: Option<Imsi>,
    /// This TEID, in the header of a message or in an F-TEID (8.22) among its elements or those of its bearer contexts.
    pub teid: Option<Teid>,
    /// This address, as the one that it is from or to.
    pub address: Option<Ip>,
}

/// Whether an element tells this subscriber.
fn tells_imsi(imsi: &Imsi, view: &ElementView) -> bool
    ensures { IsTrue result ↔ TellsImsi imsi.now (element_of view.now) }
{
    if view.kind != IMSI {
        return false;
    }
    match Imsi::read(view.body) {
        Ok(told) => told == *imsi,
        Err(_) => false,
    }
}

/// Whether an element is an F-TEID with this TEID.
fn tells_teid(teid: Teid, view: &ElementView) -> bool
    ensures { IsTrue result ↔ TellsTeid teid (element_of view.now) }
{
    if view.kind != FTEID {
        return false;
    }
    match FTeid::read(view.body) {
        Ok(told) => told.teid() == teid,
        Err(_) => false,
    }
}

/// Whether one of these elements tells this subscriber.
fn some_tell_imsi(imsi: &Imsi, elements: &Elements) -> bool
    ensures { IsTrue result ↔ SomeOf (TellsImsi imsi.now) elements.now }
{
    for view in elements.iter() {
        if tells_imsi(imsi, &view) {
            return true;
        }
    }
    false
}

/// Whether one of these elements is an F-TEID with this TEID.
fn some_tell_teid(teid: Teid, elements: &Elements) -> bool
    ensures { IsTrue result ↔ SomeOf (TellsTeid teid) elements.now }
{
    for view in elements.iter() {
        if tells_teid(teid, &view) {
            return true;
        }
    }
    false
}

/// Whether an element is one, or a bearer context that holds one.
fn holds_teid(teid: Teid, view: &ElementView) -> bool
    ensures { IsTrue result ↔ HoldsTeid teid (element_of view.now) }
{
    if tells_teid(teid, view) {
        return true;
    }
    if view.kind != BEARER_CONTEXT {
        return false;
    }
    match view.inner() {
        Ok(elements) => some_tell_teid(teid, &elements),
        Err(_) => false,
    }
}

/// Whether one of these elements is one or holds one.
fn some_hold_teid(teid: Teid, elements: &Elements) -> bool
    ensures { IsTrue result ↔ SomeOf (HoldsTeid teid) elements.now }
{
    for view in elements.iter() {
        if holds_teid(teid, &view) {
            return true;
        }
    }
    false
}

/// The elements behind a header; none where they are not whole.
pub fn elements_behind<'a>(header: &Header<'a>) -> Elements<'a>
    ensures { result ≡ spec_elements_behind (headed_of header.now) }
{
    match elements_at(header.rest, header.place()) {
        Ok(elements) => elements,
        Err(_) => Elements::none(),
    }
}

impl Filter {
    /// What chooses every datagram.
    pub fn all() -> Filter
        ensures nothing { AsksNothing result }
        ensures anywhere { IfSome result.address (λ _. ⊥) }
    {
        Filter {
            kinds: None,
            imsi: None,
            teid: None,
            address: None,
        }
    }

    /// Whether a message has the type, subscriber and TEID that are asked for.
    fn has_asked(&self, header: &Header) -> bool
        ensures { IsTrue result ↔ HasAsked self.now (headed_of header.now) }
    {
        if let Some(kinds) = self.kinds {
            if kinds.control != Some(header.kind) {
                return false;
            }
        }
        if let Some(imsi) = &self.imsi {
            if !some_tell_imsi(imsi, &elements_behind(header)) {
                return false;
            }
        }
        match self.teid {
            None => true,
            Some(teid) => {
                header.teid == Some(teid) || some_hold_teid(teid, &elements_behind(header))
            }
        }
    }

    /// The same of one of the user plane.
    fn user_has_asked(&self, header: &UserHeader) -> bool
        ensures { IsTrue result ↔ UserHasAsked self.now (user_head_of header.now) }
    {
        if let Some(kinds) = self.kinds {
            if kinds.user != Some(header.kind) {
                return false;
            }
        }
        if self.imsi.is_some() {
            return false;
        }
        match self.teid {
            None => true,
            Some(teid) => header.teid == teid,
        }
    }

    /// Whether the message at the front of octets has.
    fn first_has_asked(&self, octets: &[u8]) -> bool
        ensures { IsTrue result ↔ SomeOf (HasAsked self.now) (option_to_list (spec_head_at octets.now)) }
    {
        match head_at(octets) {
            Some(header) => self.has_asked(&header),
            None => false,
        }
    }

    /// Whether one of the messages of a datagram has.
    fn message_has_asked(&self, plane: Plane, octets: &[u8]) -> bool
        ensures { IsTrue result ↔ MessageHasAsked self.now plane octets.now }
    {
        match plane {
            Plane::Control => match pair_at(octets) {
                Some((header, back)) => self.has_asked(&header) || self.first_has_asked(back),
                None => self.first_has_asked(octets),
            },
            Plane::User => match user_head_at(octets) {
                Some(header) => self.user_has_asked(&header),
                None => false,
            },
        }
    }

    /// Whether nothing is asked of a message.
    fn asks_nothing(&self) -> bool
        ensures { IsTrue result ↔ AsksNothing self.now }
    {
        self.kinds.is_none() && self.imsi.is_none() && self.teid.is_none()
    }

    /// Whether a datagram is from or to the address that is asked for.
    fn is_between(&self, packet: &Packet) -> bool
        ensures { IsTrue result ↔ IfSome self.now.address (λ address.
            ((packet_of packet.now).from.ip ≡ address) ⊎ ((packet_of packet.now).to.ip ≡ address)) }
    {
        match self.address {
            None => true,
            Some(address) => packet.from.ip == address || packet.to.ip == address,
        }
    }

    /// Whether a datagram is chosen, by the octets of it that the capture has.
    pub fn chooses(&self, packet: &Packet) -> bool
        ensures { IsTrue result ↔ IsChosen self.now (packet_of packet.now) }
    {
        self.is_between(packet)
            && (self.asks_nothing() || self.message_has_asked(packet.plane, packet.octets))
    }
}
