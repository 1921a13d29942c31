//! Sessions and bearers of a gateway, as C has them.

ghost use Rattle.std.specs.Prelude.{◌≡◌, None, Some};
ghost use Rattle.gtp_c.specs.Contexts.{IsSession, IsBearer, state_number};

use crate::from_c::number_of_teid;
use crate::values::{Identity, Name};
use gtp_gateway::{Bearer, Kind, Session, State, Teid};

/// A session.
#[repr(C)]
#[derive(Clone, Copy)]
pub struct SessionRow {
    /// The gateway's own control plane TEID, and the peer's.
    pub teid: u32,
    pub remote: u32,
    /// 1 where the peer's TEID is known.
    pub has_remote: u8,
    /// 0 pending, 1 active, 2 closing.
    pub state: u8,
    /// The EPS bearer identity of the default bearer.
    pub identity: u8,
    /// 1 where the session has an address of the version.
    pub has_v4: u8,
    pub has_v6: u8,
    pub v4: [u8; 4],
    pub v6: [u8; 16],
    pub imsi: Identity,
    pub access_point: Name,
}

/// A bearer.
#[repr(C)]
#[derive(Clone, Copy)]
pub struct BearerRow {
    /// The gateway's own user plane TEID, and the peer's.
    pub teid: u32,
    pub remote: u32,
    /// The own control plane TEID of its session.
    pub session: u32,
    /// 1 where the peer's TEID is known.
    pub has_remote: u8,
    /// 0 pending, 1 active, 2 closing.
    pub state: u8,
    /// The EPS bearer identity; 0 for none yet.
    pub identity: u8,
    /// 1 for a dedicated bearer.
    pub dedicated: u8,
    /// 1 where an End Marker was sent or came.
    pub ended: u8,
}

/// The number of a state.
fn number_of(state: State) -> u8
    ensures { result ≡ state_number state }
{
    match state {
        State::Pending => 0,
        State::Active => 1,
        State::Closing => 2,
    }
}

impl SessionRow {
    pub(crate) fn of(teid: Teid, session: &Session) -> SessionRow
        ensures { IsSession teid session.now result }
    {
        let (has_remote, remote) = match session.remote {
            Some(remote) => (1, number_of_teid(remote)),
            None => (0, 0),
        };
        let (v4, v6) = match session.address {
            Some(address) => (address.v4(), address.v6()),
            None => (None, None),
        };
        let (has_v4, v4) = match v4 {
            Some(octets) => (1, octets),
            None => (0, [0; 4]),
        };
        let (has_v6, v6) = match v6 {
            Some(octets) => (1, octets),
            None => (0, [0; 16]),
        };
        SessionRow {
            teid: number_of_teid(teid),
            remote,
            has_remote,
            state: number_of(session.state),
            identity: session.subscriber.identity.number(),
            has_v4,
            has_v6,
            v4,
            v6,
            imsi: Identity::of(&session.subscriber.imsi),
            access_point: Name::of(&session.subscriber.access_point),
        }
    }
}

impl BearerRow {
    pub(crate) fn of(teid: Teid, bearer: &Bearer) -> BearerRow
        ensures { IsBearer teid bearer.now result }
    {
        let (has_remote, remote) = match bearer.remote {
            Some(remote) => (1, number_of_teid(remote)),
            None => (0, 0),
        };
        let identity = match bearer.identity {
            Some(identity) => identity.number(),
            None => 0,
        };
        let dedicated = match bearer.kind {
            Kind::Default => 0,
            Kind::Dedicated => 1,
        };
        BearerRow {
            teid: number_of_teid(teid),
            remote,
            session: number_of_teid(bearer.session),
            has_remote,
            state: number_of(bearer.state),
            identity,
            dedicated,
            ended: if bearer.ended { 1 } else { 0 },
        }
    }
}
