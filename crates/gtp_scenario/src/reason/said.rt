//! Reasons as lines of English.

use crate::name::Name;
use crate::reason::Reason;
use crate::reason::event::EventFlaw;
use crate::reason::flaw::ObjectFlaw;
use crate::reason::gateway::GatewayFlaw;
use crate::reason::head::HeadFlaw;
use crate::reason::key::Key;
use crate::reason::kind::EventKind;
use crate::reason::not_json::JsonFlaw;
use crate::reason::packet::PacketFlaw;
use crate::reason::template::TemplateFlaw;
use crate::reason::wanted::Wanted;
use gtp_gateway::Role;
use std::fmt;

/// The most octets that are printed of a key or a word of a scenario.
const MOST_SHOWN: usize = 64;

/// A text of a scenario between quotes, without characters that a terminal acts on.
#[derive(Clone, Copy)]
struct Quoted<'a>(&'a str);

impl fmt::Display for Quoted<'_> {
    fn fmt<W: fmt::Write>(&self, f: &mut fmt::Formatter<W>) -> fmt::Result {
        let text = self.0;
        let front = &text[..text.floor_char_boundary(MOST_SHOWN)];
        if front.len() == text.len() {
            write!(f, "{text:?}")
        } else {
            write!(f, "{front:?}..")
        }
    }
}

/// A key of a scenario: between quotes where it is no plain word.
#[derive(Clone, Copy)]
struct Named<'a>(&'a str);

/// Whether a key is letters, digits and underscores, and short.
fn is_plain(key: &str) -> bool {
    let octets = key.as_bytes();
    !octets.is_empty()
        && octets.len() <= MOST_SHOWN
        && octets
            .iter()
            .all(|octet| octet.is_ascii_alphanumeric() || *octet == b'_')
}

impl fmt::Display for Named<'_> {
    fn fmt<W: fmt::Write>(&self, f: &mut fmt::Formatter<W>) -> fmt::Result {
        let key = self.0;
        if is_plain(key) {
            f.write_str(key)
        } else {
            write!(f, "{}", Quoted(key))
        }
    }
}

impl fmt::Display for Key {
    fn fmt<W: fmt::Write>(&self, f: &mut fmt::Formatter<W>) -> fmt::Result {
        f.write_str(self.text())
    }
}

/// What is wanted, and that it is.
impl fmt::Display for Wanted {
    fn fmt<W: fmt::Write>(&self, f: &mut fmt::Formatter<W>) -> fmt::Result {
        match self {
            Wanted::Object => f.write_str("an object is wanted"),
            Wanted::List => f.write_str("a list is wanted"),
            Wanted::Text => f.write_str("a text is wanted"),
            Wanted::Number => write!(f, "a number from 0 to {} is wanted", u64::MAX),
            Wanted::NumberOrAll => {
                write!(f, "a number from 0 to {} or \"all\" is wanted", u64::MAX)
            }
            Wanted::Within(low, high) => write!(f, "a number from {low} to {high} is wanted"),
            Wanted::Address => f.write_str("an IPv4 address is wanted"),
            Wanted::Address6 => f.write_str("32 hexadecimal digits are wanted"),
            Wanted::AddressOfEither => {
                f.write_str("an IPv4 address or 32 hexadecimal digits are wanted")
            }
            Wanted::AccessPoint => f.write_str("an access point name is wanted"),
            Wanted::AccessPoints => {
                f.write_str("a list of at most 16 access point names is wanted")
            }
            Wanted::Switches => f.write_str(
                "a list of switches is wanted: \"network_identifiers\", \"version_not_supported\"",
            ),
            Wanted::Imsi => f.write_str("6 to 15 digits are wanted"),
            Wanted::Teid => f.write_str("8 hexadecimal digits are wanted"),
            Wanted::Gateway => f.write_str("\"serving\" or \"packet\" is wanted"),
            Wanted::Octets => f.write_str("hexadecimal digits are wanted, two for each octet"),
            Wanted::Tft => {
                f.write_str("hexadecimal digits are wanted, two for each of at most 255 octets")
            }
            Wanted::Session => f.write_str("an object with imsi and apn is wanted"),
            Wanted::Bearer => f.write_str("an object with imsi, apn and ebi is wanted"),
        }
    }
}

/// Where a packet gateway stands: by itself, or in a scenario.
#[derive(Clone, Copy)]
enum PacketPlace {
    Alone,
    InScenario,
}

/// What a key of the packet gateway begins with.
impl fmt::Display for PacketPlace {
    fn fmt<W: fmt::Write>(&self, f: &mut fmt::Formatter<W>) -> fmt::Result {
        match self {
            PacketPlace::Alone => Ok(()),
            PacketPlace::InScenario => f.write_str("packet."),
        }
    }
}

/// Where an object stands in a scenario, or in the head of a gateway.
#[derive(Clone, Copy)]
enum Place {
    Whole,
    Serving,
    Packet,
    Peer,
    /// A template of the packet gateway at this place.
    Template(PacketPlace, usize),
    /// The session or bearer that an event names at this key.
    Name(Key),
}

/// What a key of the object begins with.
impl fmt::Display for Place {
    fn fmt<W: fmt::Write>(&self, f: &mut fmt::Formatter<W>) -> fmt::Result {
        match self {
            Place::Whole => Ok(()),
            Place::Serving => f.write_str("serving."),
            Place::Packet => f.write_str("packet."),
            Place::Peer => f.write_str("peer."),
            Place::Template(packet, place) => write!(f, "{packet}templates[{place}]."),
            Place::Name(key) => write!(f, "{key}."),
        }
    }
}

/// What is wrong with an object that stands at a place, and is part of an owner.
#[derive(Clone, Copy)]
struct Said<'a> {
    place: Place,
    owner: &'static str,
    flaw: &'a ObjectFlaw,
}

impl fmt::Display for Said<'_> {
    fn fmt<W: fmt::Write>(&self, f: &mut fmt::Formatter<W>) -> fmt::Result {
        let place = self.place;
        match self.flaw {
            ObjectFlaw::NoObject => match place {
                Place::Template(packet, place) => {
                    write!(f, "{packet}templates[{place}]: {}", Wanted::Object)
                }
                _ => write!(f, "{}", Wanted::Object),
            },
            ObjectFlaw::Unknown(key) => {
                write!(
                    f,
                    "{place}{} is no key of {}",
                    Named(key.as_str()),
                    self.owner
                )
            }
            ObjectFlaw::Missing(key) => write!(f, "{place}{key} is missing"),
            ObjectFlaw::Bad(key) => write!(f, "{place}{key}: {}", key.wanted()),
        }
    }
}

/// What is wrong with an object at this place.
fn write_flaw<W: fmt::Write>(
    f: &mut fmt::Formatter<W>,
    place: Place,
    owner: &'static str,
    flaw: &ObjectFlaw,
) -> fmt::Result {
    let said = Said { place, owner, flaw };
    write!(f, "{said}")
}

/// What is wrong with a packet gateway by itself, or in a scenario.
fn write_packet<W: fmt::Write>(
    f: &mut fmt::Formatter<W>,
    packet: PacketPlace,
    flaw: &PacketFlaw,
) -> fmt::Result {
    let (place, owner) = match packet {
        PacketPlace::Alone => (Place::Whole, "a packet gateway"),
        PacketPlace::InScenario => (Place::Packet, "a scenario"),
    };
    match flaw {
        PacketFlaw::Keys(flaw) => write_flaw(f, place, owner, flaw),
        PacketFlaw::PastLastAddress => {
            write!(f, "{packet}count: the addresses go past 255.255.255.255")
        }
        PacketFlaw::PastLastPrefix => {
            write!(f, "{packet}count6: the prefixes go past ffffffffffffffff")
        }
        PacketFlaw::Template(place, TemplateFlaw::Keys(flaw)) => {
            write_flaw(f, Place::Template(packet, *place), owner, flaw)
        }
        PacketFlaw::Template(place, TemplateFlaw::NoAccessPoint) => write!(
            f,
            "{packet}templates[{place}].apn: one of {packet}apns is wanted"
        ),
    }
}

impl fmt::Display for HeadFlaw {
    fn fmt<W: fmt::Write>(&self, f: &mut fmt::Formatter<W>) -> fmt::Result {
        match self {
            HeadFlaw::Scenario(flaw) => write_flaw(f, Place::Whole, "a scenario", flaw),
            HeadFlaw::Serving(flaw) => write_flaw(f, Place::Serving, "a scenario", flaw),
            HeadFlaw::Packet(flaw) => write_packet(f, PacketPlace::InScenario, flaw),
        }
    }
}

/// The gateway that lacks what is named.
#[derive(Clone, Copy)]
struct Owner(Role);

impl fmt::Display for Owner {
    fn fmt<W: fmt::Write>(&self, f: &mut fmt::Formatter<W>) -> fmt::Result {
        match self.0 {
            Role::Serving => f.write_str("the serving gateway"),
            Role::Packet => f.write_str("the packet gateway"),
        }
    }
}

/// That nothing has this name.
#[derive(Clone, Copy)]
struct Lacking(Name);

impl fmt::Display for Lacking {
    fn fmt<W: fmt::Write>(&self, f: &mut fmt::Formatter<W>) -> fmt::Result {
        match self.0 {
            Name::Newest | Name::All => f.write_str("no datagram was sent"),
            Name::Session(role, name) => {
                write!(
                    f,
                    "{} has no session of IMSI {} at {}",
                    Owner(role),
                    name.imsi,
                    name.access_point
                )
            }
            Name::Bearer(role, name) => {
                let session = name.session;
                write!(
                    f,
                    "{} has no bearer {} of IMSI {} at {}",
                    Owner(role),
                    name.identity.number(),
                    session.imsi,
                    session.access_point
                )
            }
        }
    }
}

/// Whether an event that is to have either a TEID or a name has both or neither.
fn is_about_teid(flaw: &ObjectFlaw) -> bool {
    match flaw {
        ObjectFlaw::Unknown(key) => key.as_str() == Key::Teid.text(),
        ObjectFlaw::Missing(key) => *key == Key::Teid,
        _ => false,
    }
}

/// What is wrong with the keys of an event of this kind.
fn write_keys<W: fmt::Write>(
    f: &mut fmt::Formatter<W>,
    kind: EventKind,
    flaw: &ObjectFlaw,
) -> fmt::Result {
    match kind.name_key() {
        Some(key) if is_about_teid(flaw) => {
            write!(f, "one of {} and {key} is wanted", Key::Teid)
        }
        _ => write_flaw(f, Place::Whole, kind.word(), flaw),
    }
}

impl fmt::Display for EventFlaw {
    fn fmt<W: fmt::Write>(&self, f: &mut fmt::Formatter<W>) -> fmt::Result {
        match self {
            EventFlaw::Entry(flaw) => write_flaw(f, Place::Whole, "an event", flaw),
            EventFlaw::NoEvent(word) => {
                write!(f, "do: no event is called {}", Quoted(word.as_str()))
            }
            EventFlaw::Keys(kind, flaw) => write_keys(f, *kind, flaw),
            EventFlaw::Named(kind, flaw) => match kind.name_key() {
                Some(key) => write_flaw(f, Place::Name(key), kind.word(), flaw),
                None => write_flaw(f, Place::Whole, kind.word(), flaw),
            },
            EventFlaw::Nothing(name) => write!(f, "{}", Lacking(*name)),
            EventFlaw::TooMany => f.write_str("more than 100000 events"),
        }
    }
}

impl fmt::Display for JsonFlaw {
    fn fmt<W: fmt::Write>(&self, f: &mut fmt::Formatter<W>) -> fmt::Result {
        match self {
            JsonFlaw::TooLong => f.write_str("more than 16777216 octets"),
            JsonFlaw::NotText(valid) => write!(f, "not UTF-8 from octet {valid}"),
            JsonFlaw::NotJson { line, column } => {
                write!(f, "line {line}, column {column}: invalid JSON")
            }
        }
    }
}

/// What is wrong with the head of a gateway by itself, as a line of English.
impl fmt::Display for GatewayFlaw {
    fn fmt<W: fmt::Write>(&self, f: &mut fmt::Formatter<W>) -> fmt::Result {
        match self {
            GatewayFlaw::Role(flaw) => write_flaw(f, Place::Whole, "a gateway", flaw),
            GatewayFlaw::Serving(flaw) => write_flaw(f, Place::Whole, "a serving gateway", flaw),
            GatewayFlaw::Packet(flaw) => write_packet(f, PacketPlace::Alone, flaw),
            GatewayFlaw::Peer(flaw) => write_flaw(f, Place::Peer, "a peer", flaw),
        }
    }
}

impl fmt::Display for Reason {
    fn fmt<W: fmt::Write>(&self, f: &mut fmt::Formatter<W>) -> fmt::Result {
        match self {
            Reason::Json(flaw) => write!(f, "{flaw}"),
            Reason::Head(flaw) => write!(f, "{flaw}"),
            Reason::Event(_, flaw) => write!(f, "{flaw}"),
        }
    }
}
