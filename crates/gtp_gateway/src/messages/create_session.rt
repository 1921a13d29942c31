//! Create Session Request and Create Session Response (TS 29.274 7.2.1, 7.2.2).

ghost use Rattle.gtp_machine.specs.declared.message_type.MessageType.TheVariants as types;
ghost use Rattle.std.specs.Prelude.{◌≡◌, false, IfOk};
ghost use Rattle.gtp_machine.specs.Message.{Create_session_request, Create_session_response};
ghost use Rattle.gtp_machine.specs.Command.{asked_allocation};
ghost use Rattle.gtp_machine.specs.Packet.{session_cause};
ghost use Rattle.gtp_gateway.specs.receive.CreateSessionRequest.{granted};
ghost use Rattle.gtp_machine.specs.Answer.{refusing};
ghost use Rattle.gtp_values.specs.Cause.{is_accepting_value};
ghost use Rattle.gtp_gateway.specs.command.CreateSession.{requested};
ghost use Rattle.gtp_machine.specs.Reading.{control_message};
ghost use Rattle.gtp_gateway.specs.messages.Own.{IsOwn};

use crate::command::create_session::SessionSpec;
use crate::messages::elements::plain_cause;
use crate::receive::create_session_request::read::SessionRequest;
use gtp_machine::causes;
use gtp_v2::{
    Body, Boxed, ChargingId, CreateSessionRequest, CreateSessionResponse, EbiValue, Listed,
    Message, Paa, PdnType, Recovery, SessionRequestContext, SessionResponseContext,
};
use gtp_values::{Addr, Cause, Counter, FTeid, Memory, Seq, Teid};
use std::alloc::Global;

/// The length in bits of the prefix of an IPv6 address that is given (TS 23.401 5.3.1.1).
const PREFIX: u8 = 64;

/// The PDN Address Allocation (TS 29.274 8.14) that is asked for, with no address yet: of the PDN type, and
/// as of version 4 for a type that is none of the three.
fn asked_allocation(pdn: PdnType) -> Paa
    ensures { result ≡ asked_allocation pdn.0 }
{
    match pdn.0.number() {
        2 => Paa::V6 {
            prefix: 0,
            address: [0; 16],
        },
        3 => Paa::V4V6 {
            prefix: 0,
            v6: [0; 16],
            v4: [0; 4],
        },
        _ => Paa::V4([0; 4]),
    }
}

/// A Create Session Request (TS 29.274 7.2.1), with the serving gateway's F-TEIDs.
#[tactic(auto, unfolding(gtp_machine::specs::Decoded::row_in, gtp_machine::specs::Decoded::list_in, gtp_machine::specs::Decoded::contexts_in))]
pub fn create_session_request(
    alloc: Global,
    seq: Seq,
    spec: &SessionSpec,
    control: FTeid,
    user: FTeid,
    counter: Counter,
) -> Result<Message, Memory>
    ensures says { IfOk result (λ message. control_message message
        ≡ Create_session_request (requested spec.now seq control user counter.0)) }
    ensures own { IfOk result (λ message. IsOwn message) }
{
    let context = SessionRequestContext {
        ebi: EbiValue::from(spec.subscriber.identity),
        qos: spec.qos,
        user,
    };
    let contexts = Vec::from_slice(alloc, &[context])?;
    let request = Boxed::new(
        alloc,
        CreateSessionRequest {
            imsi: spec.subscriber.imsi,
            rat: spec.rat,
            serving_network: Some(spec.plmn),
            control,
            apn: spec.subscriber.access_point,
            selection: Some(spec.selection),
            pdn_type: spec.pdn,
            paa: Some(asked_allocation(spec.pdn)),
            ambr: Some(spec.ambr),
            contexts: Listed::of(contexts),
            recovery: Some(Recovery(counter)),
        },
    )?;
    Ok(Message {
        teid: Some(Teid(0)),
        seq,
        priority: None,
        body: Body::CreateSessionRequest(request),
    })
}

/// The cause of the answer to a session that is granted (TS 29.274 8.4): a new PDN type if IPv4v6 was
/// requested and one version is given.
pub fn session_cause(pdn: PdnType, address: Addr) -> u8
    ensures { result ≡ session_cause pdn.0 address }
{
    if pdn.0.number() != 3 {
        return causes::REQUEST_ACCEPTED;
    }
    match (address.v4(), address.v6()) {
        (Some(_), Some(_)) => causes::REQUEST_ACCEPTED,
        _ => causes::NEW_PDN_TYPE_DUE_TO_NETWORK_PREFERENCE,
    }
}

/// A Create Session Response (TS 29.274 7.2.2) that grants a session, with the packet gateway's F-TEIDs.
#[tactic(auto, unfolding(gtp_machine::specs::Decoded::row_in, gtp_machine::specs::Decoded::list_in, gtp_machine::specs::Decoded::contexts_in))]
pub fn create_session_response(
    alloc: Global,
    request: &SessionRequest,
    control: FTeid,
    user: FTeid,
    address: Addr,
    counter: Counter,
) -> Result<Message, Memory>
    ensures says { IfOk result (λ message. control_message message
        ≡ Create_session_response (granted request.now control user address counter.0)) }
    ensures own { IfOk result (λ message. IsOwn message) }
{
    let context = SessionResponseContext {
        ebi: EbiValue(request.default.identity),
        cause: plain_cause(causes::REQUEST_ACCEPTED),
        user: Some(user),
        qos: Some(request.default.qos),
        charging_id: Some(ChargingId(user.teid().0)),
    };
    let contexts = Vec::from_slice(alloc, &[context])?;
    let response = Boxed::new(
        alloc,
        CreateSessionResponse {
            cause: plain_cause(session_cause(request.pdn, address)),
            control: Some(control),
            paa: Some(address.allocated(PREFIX)),
            ambr: request.ambr,
            contexts: Listed::of(contexts),
            recovery: Some(Recovery(counter)),
        },
    )?;
    Ok(Message {
        teid: Some(request.control.teid()),
        seq: request.seq,
        priority: None,
        body: Body::CreateSessionResponse(response),
    })
}

/// A Create Session Response that refuses.
#[tactic(auto, unfolding(gtp_machine::specs::Decoded::row_in, gtp_machine::specs::Decoded::list_in, gtp_machine::specs::Decoded::contexts_in))]
pub fn create_session_refusal(
    alloc: Global,
    header: Teid,
    seq: Seq,
    cause: Cause,
    counter: Counter,
) -> Result<Message, Memory>
    requires { is_accepting_value cause.value ≡ false }
    ensures says { IfOk result (λ message. control_message message
        ≡ refusing types.CreateSessionRequest header seq cause counter.0) }
    ensures own { IfOk result (λ message. IsOwn message) }
{
    let response = Boxed::new(
        alloc,
        CreateSessionResponse {
            cause,
            control: None,
            paa: None,
            ambr: None,
            contexts: Listed::of(Vec::new(alloc)),
            recovery: Some(Recovery(counter)),
        },
    )?;
    Ok(Message {
        teid: Some(header),
        seq,
        priority: None,
        body: Body::CreateSessionResponse(response),
    })
}
