//! Create Bearer Request and Create Bearer Response (TS 29.274 7.2.3, 7.2.4).

ghost use Rattle.gtp_machine.specs.declared.message_type.MessageType.TheVariants as types;
ghost use Rattle.std.specs.Prelude.{◌≡◌, ◌∷◌, false, [], Some, None, IfOk};
ghost use Rattle.gtp_machine.specs.Message.{Create_bearer_request, Create_bearer_response};
ghost use Rattle.gtp_machine.specs.Element.{cause_of};
ghost use Rattle.gtp_machine.specs.Answer.{refusing};
ghost use Rattle.gtp_machine.specs.Node.{written};
ghost use Rattle.gtp_values.specs.Cause.{is_accepting_value};
ghost use Rattle.gtp_machine.specs.Reading.{control_message};
ghost use Rattle.gtp_gateway.specs.messages.Own.{IsOwn};

use crate::messages::elements::{plain_cause, written_teid};
use gtp_machine::causes::{NO_RESOURCES_AVAILABLE, REQUEST_ACCEPTED};
use gtp_tables::Session;
use gtp_v2::{
    BearerRequestContext, BearerResponseContext, Body, ChargingId, CreateBearerRequest,
    CreateBearerResponse, EbiValue, Listed, Message, Recovery,
};
use gtp_values::{Below, Cause, Counter, Ebi, FTeid, Memory, Qos, Seq, Teid, Tft};
use std::alloc::Global;

/// A Create Bearer Request (TS 29.274 7.2.3) for one bearer of a session, whose identity is to be given. The bearer's
/// charging identifier (8.29) is its TEID.
#[tactic(auto, unfolding(gtp_machine::specs::Decoded::row_in, gtp_machine::specs::Decoded::list_in, gtp_machine::specs::Decoded::contexts_in))]
pub fn create_bearer_request(
    alloc: Global,
    at: &Session,
    seq: Seq,
    tft: Tft,
    qos: Qos,
    user: FTeid,
) -> Result<Message, Memory>
    ensures says { IfOk result (λ message. control_message message
        ≡ Create_bearer_request (record {
          header = written at.now.remote;
          number = seq;
          transaction = None;
          linked = at.now.subscriber.identity;
          context = record {
            identity = 0;
            tft = tft;
            user = user;
            qos = qos;
            charging = Some user.teid;
          };
          further = [];
        })) }
    ensures own { IfOk result (λ message. IsOwn message) }
{
    let context = BearerRequestContext {
        ebi: EbiValue(Below::new(0)),
        tft,
        user,
        qos,
        charging_id: Some(ChargingId(user.teid().0)),
    };
    let contexts = Vec::from_slice(alloc, &[context])?;
    Ok(Message {
        teid: Some(written_teid(at.remote)),
        seq,
        priority: None,
        body: Body::CreateBearerRequest(CreateBearerRequest {
            pti: None,
            linked_ebi: EbiValue::from(at.subscriber.identity),
            contexts: Listed::of(contexts),
        }),
    })
}

/// A Create Bearer Response (TS 29.274 7.2.4) that accepts: the identity and the serving gateway's
/// F-TEID of the bearer, and the packet gateway's as it came.
#[tactic(auto, unfolding(gtp_machine::specs::Decoded::row_in, gtp_machine::specs::Decoded::list_in, gtp_machine::specs::Decoded::contexts_in))]
pub fn create_bearer_response(
    alloc: Global,
    header: Teid,
    seq: Seq,
    identity: Ebi,
    serving_user: FTeid,
    packet_user: FTeid,
    counter: Counter,
) -> Result<Message, Memory>
    ensures says { IfOk result (λ message. control_message message
        ≡ Create_bearer_response (record {
          header = header;
          number = seq;
          cause = cause_of REQUEST_ACCEPTED;
          contexts = record {
            identity = identity;
            cause = cause_of REQUEST_ACCEPTED;
            serving_user = Some serving_user;
            packet_user = Some packet_user;
          } ∷ [];
          recovery = Some counter.0;
        })) }
    ensures own { IfOk result (λ message. IsOwn message) }
{
    let context = BearerResponseContext {
        ebi: EbiValue::from(identity),
        cause: plain_cause(REQUEST_ACCEPTED),
        serving_user: Some(serving_user),
        packet_user: Some(packet_user),
    };
    let contexts = Vec::from_slice(alloc, &[context])?;
    Ok(Message {
        teid: Some(header),
        seq,
        priority: None,
        body: Body::CreateBearerResponse(CreateBearerResponse {
            cause: plain_cause(REQUEST_ACCEPTED),
            contexts: Listed::of(contexts),
            recovery: Some(Recovery(counter)),
        }),
    })
}

/// A Create Bearer Response (TS 29.274 7.2.4) that refuses for want of an identity or a TEID: its
/// context names no identity, and the packet gateway's F-TEID as it came.
#[tactic(auto, unfolding(gtp_machine::specs::Decoded::row_in, gtp_machine::specs::Decoded::list_in, gtp_machine::specs::Decoded::contexts_in))]
pub fn no_resources_response(
    alloc: Global,
    header: Teid,
    seq: Seq,
    packet_user: FTeid,
    counter: Counter,
) -> Result<Message, Memory>
    ensures says { IfOk result (λ message. control_message message
        ≡ Create_bearer_response (record {
          header = header;
          number = seq;
          cause = cause_of NO_RESOURCES_AVAILABLE;
          contexts = record {
            identity = 0;
            cause = cause_of NO_RESOURCES_AVAILABLE;
            serving_user = None;
            packet_user = Some packet_user;
          } ∷ [];
          recovery = Some counter.0;
        })) }
    ensures own { IfOk result (λ message. IsOwn message) }
{
    let context = BearerResponseContext {
        ebi: EbiValue(Below::new(0)),
        cause: plain_cause(NO_RESOURCES_AVAILABLE),
        serving_user: None,
        packet_user: Some(packet_user),
    };
    let contexts = Vec::from_slice(alloc, &[context])?;
    Ok(Message {
        teid: Some(header),
        seq,
        priority: None,
        body: Body::CreateBearerResponse(CreateBearerResponse {
            cause: plain_cause(NO_RESOURCES_AVAILABLE),
            contexts: Listed::of(contexts),
            recovery: Some(Recovery(counter)),
        }),
    })
}

/// A Create Bearer Response that refuses.
#[tactic(auto, unfolding(gtp_machine::specs::Decoded::row_in, gtp_machine::specs::Decoded::list_in, gtp_machine::specs::Decoded::contexts_in))]
pub fn create_bearer_refusal(
    alloc: Global,
    header: Teid,
    seq: Seq,
    cause: Cause,
    counter: Counter,
) -> Message
    requires { is_accepting_value cause.value ≡ false }
    ensures says { control_message result ≡ refusing types.CreateBearerRequest header seq cause counter.0 }
    ensures own { IsOwn result }
{
    Message {
        teid: Some(header),
        seq,
        priority: None,
        body: Body::CreateBearerResponse(CreateBearerResponse {
            cause,
            contexts: Listed::of(Vec::new(alloc)),
            recovery: Some(Recovery(counter)),
        }),
    }
}
