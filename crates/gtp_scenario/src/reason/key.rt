//! Keys of a scenario's objects.

ghost use Rattle.std.specs.Prelude.{◌≡◌};
ghost use Rattle.gtp_scenario.specs.Keys.{key_text, wanted_of, may_be_absent, member_keys};
ghost use Rattle.gtp_scenario.specs.Trees.{view};

use crate::members::has;
use crate::reason::wanted::Wanted;
use crate::tree::Tree;

/// A key of an object of a scenario, or of the head of a gateway by itself.
#[derive(Clone, Copy, Debug, PartialEq, Eq)]
pub enum Key {
    T3Response,
    N3Requests,
    Hold,
    Serving,
    Packet,
    Events,
    Control,
    User,
    Counter,
    Apns,
    Pool,
    Count,
    Pool6,
    Count6,
    Templates,
    Switches,
    Apn,
    Tft,
    Do,
    Expect,
    Times,
    Imsi,
    Ebi,
    Pdn,
    Teid,
    Node,
    Payload,
    Datagram,
    /// The `datagram` of an event that may be about all that wait, or about the one that was sent last.
    DatagramOrAll,
    Length,
    /// A session, by its subscriber and access point.
    Session,
    /// A bearer, by its session and identity.
    Bearer,
    /// Which gateway a gateway by itself is.
    Role,
    /// Its `control`, of either IP version.
    ControlAddress,
    /// Its `user`, of either IP version.
    UserAddress,
    Peer,
}

impl Key {
    /// The key as it stands in a scenario.
    pub fn text(self) -> &'static str
        ensures { result.now ≡ key_text self }
    {
        match self {
            Key::T3Response => "t3",
            Key::N3Requests => "n3",
            Key::Hold => "hold",
            Key::Serving => "serving",
            Key::Packet => "packet",
            Key::Events => "events",
            Key::Control => "control",
            Key::User => "user",
            Key::Counter => "counter",
            Key::Apns => "apns",
            Key::Pool => "pool",
            Key::Count => "count",
            Key::Pool6 => "pool6",
            Key::Count6 => "count6",
            Key::Templates => "templates",
            Key::Switches => "switches",
            Key::Apn => "apn",
            Key::Tft => "tft",
            Key::Do => "do",
            Key::Expect => "expect",
            Key::Times => "times",
            Key::Imsi => "imsi",
            Key::Ebi => "ebi",
            Key::Pdn => "pdn",
            Key::Teid => "teid",
            Key::Node => "node",
            Key::Payload => "payload",
            Key::Datagram | Key::DatagramOrAll => "datagram",
            Key::Length => "length",
            Key::Session => "session",
            Key::Bearer => "bearer",
            Key::Role => "role",
            Key::ControlAddress => "control",
            Key::UserAddress => "user",
            Key::Peer => "peer",
        }
    }

    /// What its value has to be.
    pub fn wanted(self) -> Wanted
        ensures { result ≡ wanted_of self }
    {
        match self {
            Key::T3Response => Wanted::Within(1, 1_000),
            Key::N3Requests => Wanted::Within(0, 100),
            Key::Hold => Wanted::Within(1, 100_000),
            Key::Counter => Wanted::Within(0, 255),
            Key::Count | Key::Count6 => Wanted::Within(0, 65_536),
            Key::Times => Wanted::Within(1, 1_000),
            Key::Ebi => Wanted::Within(5, 15),
            Key::Pdn => Wanted::Within(0, 7),
            Key::Datagram | Key::Length => Wanted::Number,
            Key::DatagramOrAll => Wanted::NumberOrAll,
            Key::Serving | Key::Packet | Key::Peer => Wanted::Object,
            Key::Events | Key::Templates => Wanted::List,
            Key::Switches => Wanted::Switches,
            Key::Do | Key::Expect => Wanted::Text,
            Key::Control | Key::User | Key::Pool => Wanted::Address,
            Key::Pool6 => Wanted::Address6,
            Key::Apns => Wanted::AccessPoints,
            Key::Apn => Wanted::AccessPoint,
            Key::Tft => Wanted::Tft,
            Key::Imsi => Wanted::Imsi,
            Key::Teid => Wanted::Teid,
            Key::Node | Key::Role => Wanted::Gateway,
            Key::ControlAddress | Key::UserAddress => Wanted::AddressOfEither,
            Key::Payload => Wanted::Octets,
            Key::Session => Wanted::Session,
            Key::Bearer => Wanted::Bearer,
        }
    }

    /// The keys of its value, where that is the name of a session or bearer.
    pub(crate) fn member_keys(self) -> &'static [Key]
        ensures { result.now ≡ member_keys self }
    {
        match self {
            Key::Session => &[Key::Imsi, Key::Apn],
            Key::Bearer => &[Key::Imsi, Key::Apn, Key::Ebi],
            _ => &[],
        }
    }

    /// Whether this object may do without it. A pool of IPv6 addresses has both of its keys or none.
    pub(crate) fn may_be_absent(self, value: &Tree<'_, '_>) -> bool
        ensures { result ≡ may_be_absent (view value.now) self }
    {
        match self {
            Key::T3Response | Key::N3Requests | Key::Hold | Key::Templates => true,
            Key::Switches | Key::Expect | Key::Times | Key::Pdn | Key::DatagramOrAll => true,
            Key::Pool6 => !has(value, "count6"),
            Key::Count6 => !has(value, "pool6"),
            _ => false,
        }
    }
}
