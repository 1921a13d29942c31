//! Echo Request and Echo Response (TS 29.274 7.1.1, 7.1.2).

ghost use Rattle.std.specs.Prelude.{◌≡◌};
ghost use Rattle.gtp_machine.specs.Message.{Echo_request, Echo_response};
ghost use Rattle.gtp_machine.specs.Reading.{control_message};
ghost use Rattle.gtp_gateway.specs.messages.Own.{IsOwn};

use gtp_v2::{Body, EchoRequest, EchoResponse, Message, Recovery};
use gtp_values::{Counter, Seq};

/// An Echo Request (TS 29.274 7.1.1).
#[tactic(auto, unfolding(gtp_machine::specs::Decoded::row_in, gtp_machine::specs::Decoded::list_in, gtp_machine::specs::Decoded::contexts_in))]
pub fn echo_request(seq: Seq, counter: Counter) -> Message
    ensures says { control_message result
        ≡ Echo_request (record { number = seq; recovery = counter.0 }) }
    ensures own { IsOwn result }
{
    Message {
        teid: None,
        seq,
        priority: None,
        body: Body::EchoRequest(EchoRequest {
            recovery: Recovery(counter),
        }),
    }
}

/// An Echo Response (TS 29.274 7.1.2).
#[tactic(auto, unfolding(gtp_machine::specs::Decoded::row_in, gtp_machine::specs::Decoded::list_in, gtp_machine::specs::Decoded::contexts_in))]
pub fn echo_response(seq: Seq, counter: Counter) -> Message
    ensures says { control_message result
        ≡ Echo_response (record { number = seq; recovery = counter.0 }) }
    ensures own { IsOwn result }
{
    Message {
        teid: None,
        seq,
        priority: None,
        body: Body::EchoResponse(EchoResponse {
            recovery: Recovery(counter),
        }),
    }
}
