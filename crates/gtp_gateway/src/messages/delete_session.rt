//! Delete Session Request and Delete Session Response (TS 29.274 7.2.9.1, 7.2.10.1).

ghost use Rattle.std.specs.Prelude.{◌≡◌, Some};
ghost use Rattle.gtp_machine.specs.Message.{Delete_session_request, Delete_session_response};
ghost use Rattle.gtp_machine.specs.Reading.{control_message};
ghost use Rattle.gtp_gateway.specs.messages.Own.{IsOwn};

use gtp_v2::{Body, DeleteSessionRequest, DeleteSessionResponse, EbiValue, Message, Recovery};
use gtp_values::{Cause, Counter, Ebi, Seq, Teid};

/// A Delete Session Request (TS 29.274 7.2.9.1), with the identity of the default bearer.
#[tactic(auto, unfolding(gtp_machine::specs::Decoded::row_in, gtp_machine::specs::Decoded::list_in, gtp_machine::specs::Decoded::contexts_in))]
pub fn delete_session_request(header: Teid, seq: Seq, identity: Ebi) -> Message
    ensures says { control_message result ≡ Delete_session_request (record {
      header = header;
      number = seq;
      linked = Some identity;
    }) }
    ensures own { IsOwn result }
{
    Message {
        teid: Some(header),
        seq,
        priority: None,
        body: Body::DeleteSessionRequest(DeleteSessionRequest {
            linked_ebi: Some(EbiValue::from(identity)),
        }),
    }
}

/// A Delete Session Response (TS 29.274 7.2.10.1).
#[tactic(auto, unfolding(gtp_machine::specs::Decoded::row_in, gtp_machine::specs::Decoded::list_in, gtp_machine::specs::Decoded::contexts_in))]
pub fn delete_session_response(header: Teid, seq: Seq, cause: Cause, counter: Counter) -> Message
    ensures says { control_message result ≡ Delete_session_response (record {
      header = header;
      number = seq;
      cause = cause;
      recovery = Some counter.0;
    }) }
    ensures own { IsOwn result }
{
    Message {
        teid: Some(header),
        seq,
        priority: None,
        body: Body::DeleteSessionResponse(DeleteSessionResponse {
            cause,
            recovery: Some(Recovery(counter)),
        }),
    }
}
