//! Create Session Requests (TS 29.274 7.2.1), as they are read.

ghost use Rattle.std.specs.Prelude.{◌≡◌, ◌↔◌, [], ℕ, List, IsTrue};
ghost use Rattle.gtp_v2.specs.CreateSessionRequest.{create_session_request};
ghost use Rattle.gtp_v2.specs.Datagram.{IsMessage};
ghost use Rattle.gtp_machine.specs.Decoded.{message_of};
ghost use Rattle.gtp_machine.specs.Message.{Create_session_request};
ghost use Rattle.gtp_machine.specs.Message as messages;
ghost use Rattle.gtp_gateway.specs.receive.CreateSessionRequest.{ReadsContext, SaysCreateSession};

use gtp_v2::{Contexts, EbiValue, MessageView, PdnType};
use gtp_values::{Ambr, Apn, Below, FTeid, Imsi, Qos, Seq};

/// What a Create Session Request says of the session that it asks for.
#[derive(Clone, Copy)]
pub struct SessionRequest {
    pub seq: Seq,
    pub imsi: Imsi,
    /// The serving gateway's end of the control plane.
    pub control: FTeid,
    pub access_point: Apn,
    pub pdn: PdnType,
    pub ambr: Option<Ambr>,
    /// The first bearer context.
    pub default: RequestedDefault,
}

/// What it says of the default bearer.
#[derive(Clone, Copy)]
pub struct RequestedDefault {
    pub identity: Below<16>,
    pub qos: Qos,
    /// The serving gateway's end of the user plane.
    pub user: FTeid,
    /// No further bearer is asked for.
    pub is_alone: bool,
}

/// Whether no further bearer context is left.
fn none_is_left(contexts: &mut Contexts<'_>) -> bool
    ensures { IsTrue result ↔ (contexts.old ≡ []) }
{
    contexts.next().is_none()
}

/// What the message says of the default bearer.
fn requested_default(view: &MessageView<'_>) -> RequestedDefault
    requires { view.now.message.kind ≡ create_session_request.kind }
    ensures { ReadsContext view.now.message result }
{
    let mut contexts = view.contexts();
    let Some(first) = contexts.next() else {
        unreachable!()
    };
    let EbiValue(identity) = first.needed(0);
    RequestedDefault {
        identity,
        qos: first.needed(0),
        user: first.needed(2),
        is_alone: none_is_left(&mut contexts),
    }
}

/// What a Create Session Request says.
pub fn create_session_request_in(view: &MessageView<'_>) -> SessionRequest
    requires spelled { (octets : List ℕ) × IsMessage octets view.now.message }
    requires of { view.now.message.kind ≡ create_session_request.kind }
    ensures { (q : messages.CreateSessionRequest)
        × (message_of view.now.message ≡ Create_session_request q) × SaysCreateSession result q }
{
    SessionRequest {
        seq: view.seq(),
        imsi: view.needed(0),
        control: view.needed(0),
        access_point: view.needed(0),
        pdn: view.needed(0),
        ambr: view.value(0),
        default: requested_default(view),
    }
}
