//! What goes where the peer does not know a bearer (TS 29.281 7.3.1).

ghost use Rattle.std.specs.Prelude.{◌≡◌, ◌||◌, not, filter, nat_eq};
ghost use Rattle.std.specs.FinMap as map;
ghost use Rattle.gtp_values.specs.FiniteMap.{kept};
ghost use Rattle.gtp_tables.specs.Index.{names, default_of};
ghost use Rattle.gtp_machine.specs.User.{default_among, broken};
ghost use Rattle.gtp_gateway.specs.user.ErrorIndication.{goes_with_remote};
ghost use Rattle.gtp_gateway.specs.Parts.{node_of};
ghost use Rattle.gtp_gateway.specs.GatewayState.{queues_of};

use crate::command::purpose::Purpose;
use crate::parts::Parts;
use gtp_tables::{Bearer, Bearers, Kind, Sessions};
use gtp_values::Teid;

/// Whether a bearer that may be absent has this remote.
fn has_remote(bearer: Option<Bearer>, remote: Teid) -> bool
    ensures { result ≡ names remote bearer }
{
    match bearer {
        Some(bearer) => bearer.remote == Some(remote),
        None => false,
    }
}

/// Whether the default bearer of the session has this remote, so that the session goes.
fn session_goes(bearers: &Bearers, remote: Teid, session: Teid) -> bool
    ensures { result ≡ default_among remote session bearers.now }
{
    bearers.has_default(remote, session)
}

/// Whether a request is about a session or a bearer that goes.
fn request_goes(bearers: &Bearers, remote: Teid, purpose: &Purpose) -> bool
    ensures { result ≡ goes_with_remote bearers.now remote purpose.now }
{
    let session = match purpose.session {
        Some(session) => session_goes(bearers, remote, session),
        None => false,
    };
    let bearer = match purpose.bearer {
        Some(bearer) => has_remote(bearers.get(bearer), remote),
        None => false,
    };
    session || bearer
}

/// The bearer under a TEID goes, and where it is a default bearer its session with all its bearers.
fn end_bearer(sessions: &mut Sessions, bearers: &mut Bearers, teid: Teid)
    ensures sessions { sessions.new ≡ record sessions.old {
      table = kept (λ t _. not (default_of t (map.get bearers.old teid))) sessions.old.table;
    } }
    ensures bearers { bearers.new
        ≡ kept (λ t b. not (nat_eq teid t || default_of b.session (map.get bearers.old teid)))
        bearers.old }
{
    let Some(bearer) = bearers.get(teid) else {
        return;
    };
    match bearer.kind {
        Kind::Default => {
            bearers.remove_of_session(bearer.session);
            sessions.remove(bearer.session);
        }
        Kind::Dedicated => bearers.remove(teid),
    }
}

/// The bearers with this remote go, and each session whose default bearer is one of them with all its bearers. Others
/// are not visited.
fn end_of_remote(sessions: &mut Sessions, bearers: &mut Bearers, remote: Teid)
    ensures sessions { sessions.new ≡ record sessions.old {
      table = kept (λ t _. not (default_among remote t bearers.old)) sessions.old.table;
    } }
    ensures bearers { bearers.new
        ≡ kept (λ t b. not (names remote (map.get bearers.old t)
        || default_among remote b.session bearers.old)) bearers.old }
{
    let mut next = bearers.first_of_remote(remote);
    while let Some(teid) = next {
        end_bearer(sessions, bearers, teid);
        next = bearers.next_of_remote(remote, teid);
    }
}

impl Parts {
    /// Bearers with this remote go, each session whose default bearer is one of them with all its
    /// bearers, and requests with what they are about. Allocates nothing.
    pub fn end_bearers_of_remote(&mut self, remote: Teid)
        ensures node { node_of self.new ≡ broken (node_of self.old) remote }
        ensures queues { queues_of self.new ≡ record (queues_of self.old) {
          waiting = filter (λ w. not (goes_with_remote self.old.bearers remote w.purpose))
              self.old.pending.waiting;
        } }
        ensures role { self.new.role ≡ self.old.role }
    {
        let bearers = &self.bearers;
        self.pending.finish_where(
            |purpose: &Purpose| -> bool
                ensures { result ≡ goes_with_remote bearers.entry.now remote purpose.now }
            { request_goes(bearers, remote, purpose) },
        );
        end_of_remote(&mut self.sessions, &mut self.bearers, remote);
    }
}
