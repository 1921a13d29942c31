//! Delete Session Responses (TS 29.274 7.2.10.1).

ghost use Rattle.std.specs.Prelude.{◌≡◌, false};
ghost use Rattle.gtp_gateway.specs.GatewayState.{state_of};
ghost use Rattle.gtp_gateway.specs.receive.DeleteSessionResponse.{TakesDeleteSessionResponse};
ghost use Rattle.gtp_gateway.specs.user.Receive.{RequestsWaitOn};

use crate::command::purpose::Asked;
use crate::parts::Parts;
use crate::receive::response::Response;
use crate::step::ControlStep;
use gtp_machine::Outcome;

impl Parts {
    /// Takes a Delete Session Response (TS 29.274 7.2.10.1): with any cause the session goes. Takes no
    /// memory.
    pub fn take_delete_session_response(&mut self, response: &Response) -> ControlStep
        ensures taken { TakesDeleteSessionResponse response.now
            (state_of self.old) result (state_of self.new) }
        ensures waits { RequestsWaitOn (state_of self.old) (state_of self.new) }
        ensures unmade { result.report.made ≡ false }
    {
        self.end_request(
            response.seq,
            Asked::DeleteSession,
            Some(response),
            Outcome::Closed,
        )
    }
}
