//! Kinds of events.

ghost use Rattle.std.specs.Prelude.{◌≡◌, Some};
ghost use Rattle.gtp_scenario.specs.Keys.{kind_of, event_keys, named_keys, name_key, has_name, keys_in};
ghost use Rattle.gtp_scenario.specs.Trees.{view};

use crate::members::has;
use crate::reason::key::Key;
use crate::tree::Tree;

/// What an event is, by its word.
#[derive(Clone, Copy, Debug, PartialEq, Eq)]
pub enum EventKind {
    CreateSession,
    DeleteSession,
    ReleaseSession,
    EndMarker,
    CreateBearer,
    DeleteBearer,
    Echo,
    Restart,
    Tick,
    Send,
    Deliver,
    Cut,
}

/// The kind that a word names.
pub(crate) fn kind_of(word: &str) -> Option<EventKind>
    ensures { result ≡ kind_of word.now }
{
    match word {
        "create_session" => Some(EventKind::CreateSession),
        "delete_session" => Some(EventKind::DeleteSession),
        "release_session" => Some(EventKind::ReleaseSession),
        "end_marker" => Some(EventKind::EndMarker),
        "create_bearer" => Some(EventKind::CreateBearer),
        "delete_bearer" => Some(EventKind::DeleteBearer),
        "echo" => Some(EventKind::Echo),
        "restart" => Some(EventKind::Restart),
        "tick" => Some(EventKind::Tick),
        "send" => Some(EventKind::Send),
        "deliver" => Some(EventKind::Deliver),
        "cut" => Some(EventKind::Cut),
        _ => None,
    }
}

impl EventKind {
    /// Its word: the value of the key `do`.
    pub fn word(self) -> &'static str
        ensures { kind_of result.now ≡ Some self }
    {
        match self {
            EventKind::CreateSession => "create_session",
            EventKind::DeleteSession => "delete_session",
            EventKind::ReleaseSession => "release_session",
            EventKind::EndMarker => "end_marker",
            EventKind::CreateBearer => "create_bearer",
            EventKind::DeleteBearer => "delete_bearer",
            EventKind::Echo => "echo",
            EventKind::Restart => "restart",
            EventKind::Tick => "tick",
            EventKind::Send => "send",
            EventKind::Deliver => "deliver",
            EventKind::Cut => "cut",
        }
    }

    /// Its keys, in order.
    fn keys(self) -> &'static [Key]
        ensures { result.now ≡ event_keys self }
    {
        match self {
            EventKind::CreateSession => &[
                Key::Do,
                Key::Expect,
                Key::Imsi,
                Key::Apn,
                Key::Ebi,
                Key::Pdn,
            ],
            EventKind::DeleteSession | EventKind::ReleaseSession | EventKind::EndMarker => {
                &[Key::Do, Key::Expect, Key::Teid]
            }
            EventKind::CreateBearer => &[Key::Do, Key::Expect, Key::Teid, Key::Tft],
            EventKind::DeleteBearer => &[Key::Do, Key::Expect, Key::Teid, Key::Ebi],
            EventKind::Echo | EventKind::Restart => &[Key::Do, Key::Expect, Key::Node],
            EventKind::Tick => &[Key::Do, Key::Expect, Key::Node, Key::Times],
            EventKind::Send => &[Key::Do, Key::Expect, Key::Node, Key::Teid, Key::Payload],
            EventKind::Deliver => &[Key::Do, Key::Expect, Key::DatagramOrAll],
            EventKind::Cut => &[Key::Do, Key::Expect, Key::Datagram, Key::Length],
        }
    }

    /// The same where a session or bearer is named in place of its TEID.
    fn named_keys(self) -> &'static [Key]
        ensures { result.now ≡ named_keys self }
    {
        match self {
            EventKind::DeleteSession | EventKind::ReleaseSession => {
                &[Key::Do, Key::Expect, Key::Session]
            }
            EventKind::CreateBearer => &[Key::Do, Key::Expect, Key::Session, Key::Tft],
            EventKind::DeleteBearer => &[Key::Do, Key::Expect, Key::Session, Key::Ebi],
            EventKind::EndMarker => &[Key::Do, Key::Expect, Key::Bearer],
            EventKind::Send => &[Key::Do, Key::Expect, Key::Node, Key::Bearer, Key::Payload],
            _ => self.keys(),
        }
    }

    /// The key at which it may name a session or bearer in place of a TEID.
    pub(crate) fn name_key(self) -> Option<Key>
        ensures { result ≡ name_key self }
    {
        match self {
            EventKind::DeleteSession
            | EventKind::ReleaseSession
            | EventKind::CreateBearer
            | EventKind::DeleteBearer => Some(Key::Session),
            EventKind::EndMarker | EventKind::Send => Some(Key::Bearer),
            _ => None,
        }
    }

    /// Whether an object has a name where an event of this kind may have one.
    fn has_name(self, value: &Tree<'_, '_>) -> bool
        ensures { result ≡ has_name (view value.now) self }
    {
        match self.name_key() {
            Some(key) => has(value, key.text()),
            None => false,
        }
    }

    /// The keys that an object is to have as an event of this kind.
    pub(crate) fn keys_in(self, value: &Tree<'_, '_>) -> &'static [Key]
        ensures { result.now ≡ keys_in (view value.now) self }
    {
        if self.has_name(value) {
            self.named_keys()
        } else {
            self.keys()
        }
    }
}
