//! Sessions and bearers: those that are pending, and which are active.

ghost use Rattle.std.specs.Prelude.{◌≡◌, ◌↔◌, IsTrue};
ghost use Rattle.gtp_machine.specs.Node.{Active, Closing};
ghost use Rattle.gtp_machine.specs.Command.{pending_dedicated};
ghost use Rattle.gtp_gateway.specs.command.CreateSession.{pending_session_of, pending_default_of};

use crate::command::create_session::SessionSpec;
use gtp_tables::{Bearer, Kind, Session, State};
use gtp_values::Teid;

/// Whether a session and a bearer are active.
pub fn are_active(session: &Session, bearer: &Bearer) -> bool
    ensures { IsTrue result ↔ ((session.now.state ≡ Active) × (bearer.now.state ≡ Active)) }
{
    session.is_active() && bearer.is_active()
}

/// A session that is pending.
pub fn pending_session(spec: &SessionSpec) -> Session
    ensures { result ≡ pending_session_of spec.now }
{
    Session {
        remote: None,
        subscriber: spec.subscriber,
        address: None,
        state: State::Pending,
    }
}

/// Its default bearer.
pub fn pending_default(session: Teid, spec: &SessionSpec) -> Bearer
    ensures { result ≡ pending_default_of session spec.now }
{
    Bearer {
        remote: None,
        session,
        identity: Some(spec.subscriber.identity),
        kind: Kind::Default,
        state: State::Pending,
        ended: false,
    }
}

/// A dedicated bearer that is pending: it has no identity and no remote.
pub fn pending_dedicated(session: Teid) -> Bearer
    ensures { result ≡ pending_dedicated session }
{
    Bearer {
        remote: None,
        session,
        identity: None,
        kind: Kind::Dedicated,
        state: State::Pending,
        ended: false,
    }
}

/// A bearer, closing.
pub fn closing(bearer: &Bearer) -> Bearer
    ensures { result ≡ record bearer.now { state = Closing } }
{
    Bearer {
        state: State::Closing,
        ..*bearer
    }
}
