//! Responses that refuse a request.

ghost use Rattle.std.specs.Prelude.{◌≡◌, false, IfOk};
ghost use Rattle.gtp_machine.specs.Answer.{refusing};
ghost use Rattle.gtp_values.specs.Cause.{is_accepting_value};
ghost use Rattle.gtp_machine.specs.Reading.{control_message};
ghost use Rattle.gtp_gateway.specs.messages.Own.{IsOwn};

use crate::messages::create_bearer::create_bearer_refusal;
use crate::messages::create_session::create_session_refusal;
use crate::messages::delete_bearer::delete_bearer_refusal;
use crate::messages::delete_session::delete_session_response;
use gtp_machine::MessageType;
use gtp_v2::Message;
use gtp_values::{Cause, Counter, Memory, Seq, Teid};
use std::alloc::Global;

/// A response that refuses a request of this type, of those that are answered: Cause and Recovery alone.
pub fn refusal(
    alloc: Global,
    request: MessageType,
    header: Teid,
    seq: Seq,
    cause: Cause,
    counter: Counter,
) -> Result<Message, Memory>
    requires { is_accepting_value cause.value ≡ false }
    ensures says { IfOk result (λ message. control_message message
        ≡ refusing request header seq cause counter.0) }
    ensures own { IfOk result (λ message. IsOwn message) }
{
    match request {
        MessageType::CreateSessionRequest => create_session_refusal(
            alloc, header, seq, cause, counter,
        ),
        MessageType::DeleteSessionRequest => Ok(delete_session_response(
            header, seq, cause, counter,
        )),
        MessageType::CreateBearerRequest => Ok(create_bearer_refusal(
            alloc, header, seq, cause, counter,
        )),
        _ => Ok(delete_bearer_refusal(alloc, header, seq, cause, counter)),
    }
}
