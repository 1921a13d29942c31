//! Delete Bearer Request and Delete Bearer Response (TS 29.274 7.2.9.2, 7.2.10.2).

ghost use Rattle.gtp_machine.specs.declared.message_type.MessageType.TheVariants as types;
ghost use Rattle.std.specs.Prelude.{◌≡◌, ◌∷◌, false, [], Some, None, IfOk, ◌≤◌, map, length};
ghost use Rattle.gtp_machine.specs.Message.{Delete_bearer_request, Delete_bearer_response};
ghost use Rattle.gtp_machine.specs.Element.{cause_of};
ghost use Rattle.gtp_machine.specs.Answer.{refusing};
ghost use Rattle.gtp_values.specs.Cause.{is_accepting_value};
ghost use Rattle.gtp_machine.specs.Reading.{control_message, removed_bearer};
ghost use Rattle.gtp_gateway.specs.messages.Own.{IsOwn};

use crate::messages::elements::plain_cause;
use gtp_v2::{
    Body, DeleteBearerRequest, DeleteBearerResponse, EbiValue, Listed, Message, Recovery,
    RemovalResponseContext,
};
use gtp_values::{Below, Cause, Counter, Ebi, Memory, Seq, Teid};
use std::alloc::Global;

/// A Delete Bearer Request (TS 29.274 7.2.9.2) for a whole session, with the identity of its default
/// bearer.
#[tactic(auto, unfolding(gtp_machine::specs::Decoded::row_in, gtp_machine::specs::Decoded::list_in, gtp_machine::specs::Decoded::contexts_in))]
pub fn delete_bearer_request_for_session(
    alloc: Global,
    header: Teid,
    seq: Seq,
    identity: Ebi,
) -> Message
    ensures says { control_message result ≡ Delete_bearer_request (record {
      header = header;
      number = seq;
      linked = Some identity;
      identities = [];
    }) }
    ensures own { IsOwn result }
{
    Message {
        teid: Some(header),
        seq,
        priority: None,
        body: Body::DeleteBearerRequest(DeleteBearerRequest {
            linked_ebi: Some(EbiValue::from(identity)),
            ebis: Listed::of(Vec::new(alloc)),
        }),
    }
}

/// A Delete Bearer Request (TS 29.274 7.2.9.2) for one dedicated bearer.
#[tactic(auto, unfolding(gtp_machine::specs::Decoded::row_in, gtp_machine::specs::Decoded::list_in, gtp_machine::specs::Decoded::contexts_in))]
pub fn delete_bearer_request(
    alloc: Global,
    header: Teid,
    seq: Seq,
    identity: Ebi,
) -> Result<Message, Memory>
    ensures says { IfOk result (λ message. control_message message
        ≡ Delete_bearer_request (record {
          header = header;
          number = seq;
          linked = None;
          identities = identity ∷ [];
        })) }
    ensures own { IfOk result (λ message. IsOwn message) }
{
    let ebis = Vec::from_slice(alloc, &[EbiValue::from(identity)])?;
    Ok(Message {
        teid: Some(header),
        seq,
        priority: None,
        body: Body::DeleteBearerRequest(DeleteBearerRequest {
            linked_ebi: None,
            ebis: Listed::of(ebis),
        }),
    })
}

/// A Delete Bearer Response (TS 29.274 7.2.10.2): the identity of the default bearer where the session
/// goes, and a bearer context for each dedicated bearer that was to go.
pub fn delete_bearer_response(
    header: Teid,
    seq: Seq,
    cause: u8,
    linked: Option<Below<16>>,
    contexts: Vec<RemovalResponseContext>,
    counter: Counter,
) -> Message
    requires { length contexts.items ≤ 11 }
    ensures says { control_message result ≡ Delete_bearer_response (record {
      header = header;
      number = seq;
      cause = cause_of cause;
      linked = linked;
      contexts = map removed_bearer contexts.items;
      recovery = Some counter.0;
    }) }
    ensures own { IsOwn result }
{
    Message {
        teid: Some(header),
        seq,
        priority: None,
        body: Body::DeleteBearerResponse(DeleteBearerResponse {
            cause: plain_cause(cause),
            linked_ebi: linked.map(EbiValue),
            contexts: Listed::of(contexts),
            recovery: Some(Recovery(counter)),
        }),
    }
}

/// A Delete Bearer Response that refuses.
#[tactic(auto, unfolding(gtp_machine::specs::Decoded::row_in, gtp_machine::specs::Decoded::list_in, gtp_machine::specs::Decoded::contexts_in))]
pub fn delete_bearer_refusal(
    alloc: Global,
    header: Teid,
    seq: Seq,
    cause: Cause,
    counter: Counter,
) -> Message
    requires { is_accepting_value cause.value ≡ false }
    ensures says { control_message result ≡ refusing types.DeleteBearerRequest header seq cause counter.0 }
    ensures own { IsOwn result }
{
    Message {
        teid: Some(header),
        seq,
        priority: None,
        body: Body::DeleteBearerResponse(DeleteBearerResponse {
            cause,
            linked_ebi: None,
            contexts: Listed::of(Vec::new(alloc)),
            recovery: Some(Recovery(counter)),
        }),
    }
}
