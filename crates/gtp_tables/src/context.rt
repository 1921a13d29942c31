//! Sessions and bearers.

use gtp_values::{Addr, Apn, Below, Ebi, Imsi, Teid};

/// A context is pending until it is opened, then active; it is closing while the peer is asked to
/// end it.
#[derive(Clone, Copy, Debug, PartialEq, Eq)]
pub enum State {
    Pending,
    Active,
    Closing,
}

/// Who a session is for.
#[derive(Clone, Copy, Debug, PartialEq, Eq)]
pub struct Subscriber {
    pub imsi: Imsi,
    pub access_point: Apn,
    /// The EPS bearer identity of the default bearer.
    pub identity: Ebi,
}

/// A session, under the gateway's own control plane TEID. Until it is opened it has no remote and
/// no address.
#[derive(Clone, Copy, Debug, PartialEq, Eq)]
pub struct Session {
    /// The peer's control plane TEID.
    pub remote: Option<Teid>,
    pub subscriber: Subscriber,
    pub address: Option<Addr>,
    pub state: State,
}

/// A session's default bearer, or a dedicated one.
#[derive(Clone, Copy, Debug, PartialEq, Eq)]
pub enum Kind {
    Default,
    Dedicated,
}

/// A bearer, under the gateway's own user plane TEID.
#[derive(Clone, Copy, Debug, PartialEq, Eq)]
pub struct Bearer {
    /// The peer's user plane TEID.
    pub remote: Option<Teid>,
    /// The session's own control plane TEID.
    pub session: Teid,
    /// The EPS bearer identity.
    pub identity: Option<Ebi>,
    pub kind: Kind,
    pub state: State,
    /// An End Marker was sent or came.
    pub ended: bool,
}

impl Session {
    ghost use Rattle.std.specs.Prelude.{◌≡◌, ◌↔◌, IsTrue};

    /// Whether it is pending.
    pub fn is_pending(&self) -> bool
        ensures { IsTrue result ↔ (self.now.state ≡ State.Pending) }
    {
        self.state == State::Pending
    }

    /// Whether it is active.
    pub fn is_active(&self) -> bool
        ensures { IsTrue result ↔ (self.now.state ≡ State.Active) }
    {
        self.state == State::Active
    }

    /// Whether it is closing.
    pub fn is_closing(&self) -> bool
        ensures { IsTrue result ↔ (self.now.state ≡ State.Closing) }
    {
        self.state == State::Closing
    }

    /// Whether its default bearer has this EPS bearer identity.
    pub fn is_default(&self, identity: Below<16>) -> bool
        ensures { IsTrue result ↔ (identity ≡ self.now.subscriber.identity) }
    {
        identity.number() == self.subscriber.identity.number()
    }
}

impl Bearer {
    ghost use Rattle.std.specs.Prelude.{◌≡◌, ◌↔◌, IsTrue};

    /// Whether it is active.
    pub fn is_active(&self) -> bool
        ensures { IsTrue result ↔ (self.now.state ≡ State.Active) }
    {
        self.state == State::Active
    }

    /// Whether it is a dedicated one.
    pub fn is_dedicated(&self) -> bool
        ensures { IsTrue result ↔ (self.now.kind ≡ Kind.Dedicated) }
    {
        self.kind == Kind::Dedicated
    }
}
