//! What a request that waits for its answer is about.

use gtp_values::Teid;

/// What was asked of the peer.
#[derive(Clone, Copy, PartialEq, Eq)]
pub enum Asked {
    /// An answer, by an Echo Request (TS 29.274 7.1.1).
    Echo,
    /// A session (7.2.1), whose default bearer has this TEID of the user plane.
    CreateSession(Teid),
    /// To delete a session (7.2.9.1).
    DeleteSession,
    /// A dedicated bearer (7.2.3).
    CreateBearer,
    /// To delete a session by its default bearer, or a dedicated bearer (7.2.9.2).
    DeleteBearer,
}

/// What a request that waits for its answer is about.
#[derive(Clone, Copy)]
pub struct Purpose {
    pub asked: Asked,
    /// The session, by its own TEID of the control plane; an Echo Request is about none.
    pub session: Option<Teid>,
    /// The dedicated bearer, by its own TEID of the user plane; none of a request about a whole session.
    pub bearer: Option<Teid>,
    /// Whether a TEID stood in the header of the request.
    pub is_named: bool,
}

impl Purpose {
    ghost use Rattle.std.specs.Prelude.{◌≡◌, ◌↔◌, IsTrue, Some};
    ghost use Rattle.gtp_gateway.specs.command.Purpose.{session_of};
    ghost use Rattle.gtp_gateway.specs.tables.Removal.{goes_with_session, goes_with_bearer};

    /// Whether the request is about the session.
    pub fn is_of_session(&self, session: Teid) -> bool
        ensures goes { result ≡ goes_with_session session self.now }
        ensures about { IsTrue result ↔ (session_of self.now ≡ Some session) }
    {
        match self.session {
            Some(about) => about == session,
            None => false,
        }
    }

    /// Whether the request is about the bearer.
    pub fn is_of_bearer(&self, bearer: Teid) -> bool
        ensures { result ≡ goes_with_bearer bearer self.now }
    {
        match self.bearer {
            Some(about) => about == bearer,
            None => false,
        }
    }
}
