//! Events of a world, and their outcomes.

ghost use Rattle.std.specs.Prelude.{◌≡◌};
ghost use Rattle.gtp_world.specs.Commands.{role_of};

use gtp_gateway::{Counter, Ebi, Outcome, Qos, Role, SessionSpec, Teid, Tft};

/// An event of a world. A session is named by its control plane TEID at the gateway of the command, a bearer by its
/// user plane TEID there, and a datagram by its number in the order of sending, from 0.
#[derive(Debug, Drop)]
pub enum Event {
    /// Command: the serving gateway requests a session.
    CreateSession(SessionSpec),
    /// Command: the serving gateway deletes a session.
    DeleteSession(Teid),
    /// Command: the packet gateway requests a dedicated bearer of a session.
    CreateBearer {
        session: Teid,
        tft: Tft,
        qos: Qos,
    },
    /// Command: the packet gateway deletes the dedicated bearer of a session with this identity.
    DeleteBearer {
        session: Teid,
        ebi: Ebi,
    },
    /// Command: the packet gateway deletes a session.
    ReleaseSession(Teid),
    /// Command: the packet gateway sends an End Marker on a bearer.
    EndMarker(Teid),
    /// Command: a gateway sends an Echo Request.
    Echo(Role),
    /// Command: a gateway sends a user packet on a bearer.
    SendUser {
        node: Role,
        bearer: Teid,
        payload: Vec<u8>,
    },
    /// A tick passes at a gateway.
    Tick(Role),
    /// The datagram with this number is delivered to the gateway that did not send it. It can be delivered again.
    Deliver(u64),
    /// The first `length` octets of the datagram with this number are delivered to the gateway that did not send it;
    /// N3 unless the datagram is longer.
    Cut {
        datagram: u64,
        length: u64,
    },
    /// A gateway restarts: it loses all contexts, and its restart counter is one higher, modulo 256. N2 after 127
    /// restarts.
    Restart(Role),
}

impl Event {
    /// The gateway of a command. Other events have none.
    pub fn role(&self) -> Option<Role>
        ensures { result ≡ role_of self.now }
    {
        match self {
            Event::CreateSession(_) | Event::DeleteSession(_) => Some(Role::Serving),
            Event::CreateBearer { .. }
            | Event::DeleteBearer { .. }
            | Event::ReleaseSession(_)
            | Event::EndMarker(_) => Some(Role::Packet),
            Event::Echo(node) | Event::SendUser { node, .. } => Some(*node),
            Event::Tick(_) | Event::Deliver(_) | Event::Cut { .. } | Event::Restart(_) => None,
        }
    }
}

/// The outcome of an event.
#[derive(Clone, Copy, Debug, PartialEq, Eq)]
pub enum EventOutcome {
    /// The outcome of a command or of a delivered datagram.
    CameTo(Outcome),
    /// A tick passed.
    Ticked,
    /// A gateway was restarted, with this restart counter.
    Restarted(Counter),
    /// N1: no datagram has this number.
    NoSuchDatagram,
    /// N2: the gateway was restarted 127 times before.
    RestartsUsed,
    /// N3: the datagram is not longer than the cut.
    CutTooLong,
}
