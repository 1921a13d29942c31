//! Echo Request and Echo Response (TS 29.274 7.1.1, 7.1.2).

ghost use Rattle.gtp_gateway.specs.user.Receive.{RequestsWaitOn};
ghost use Rattle.std.specs.Prelude.{◌≡◌, false, IfOk, OnOk, OnErr};
ghost use Rattle.gtp_gateway.specs.GatewayState.{state_of};
ghost use Rattle.gtp_gateway.specs.receive.RestartCounter.{IsHeard};
ghost use Rattle.gtp_gateway.specs.receive.Echo.{AnswersEcho, TakesEchoResponse};

use crate::command::purpose::Asked;
use crate::messages::echo::echo_response;
use crate::parts::Parts;
use crate::receive::arrival::Arrival;
use crate::receive::restart_counter::Heard;
use crate::step::ControlStep;
use gtp_machine::Outcome;
use gtp_values::{Memory, Seq};
use std::alloc::Global;

impl Parts {
    /// Takes an Echo Request, which is answered with the same number; the answer is not held.
    #[tactic(auto, using(crate::proofs::GivenUp::waiting))]
    pub fn take_echo_request(
        &mut self,
        alloc: Global,
        arrival: &Arrival<'_>,
        seq: Seq,
        heard: Heard,
    ) -> Result<ControlStep, Memory>
        requires weighed { IsHeard heard self.old.peer }
        ensures taken { IfOk result (λ step. AnswersEcho arrival.now seq heard
            (state_of self.old) step (state_of self.new)) }
        ensures waits { OnOk result (RequestsWaitOn (state_of self.old) (state_of self.new)) }
        ensures unmade { IfOk result (λ step. step.report.made ≡ false) }
        ensures err { OnErr result (state_of self.new ≡ state_of self.old) }
    {
        let message = echo_response(seq, self.draws.counter());
        let out = self.reply(alloc, arrival, &message)?;
        self.hear(heard);
        Ok(ControlStep::sent(out, Outcome::Echoed))
    }

    /// Takes an Echo Response (TS 29.274 7.1.2): its number and kind are enough. Allocates nothing.
    pub fn take_echo_response(&mut self, seq: Seq) -> ControlStep
        ensures taken { TakesEchoResponse seq (state_of self.old) result (state_of self.new) }
        ensures waits { RequestsWaitOn (state_of self.old) (state_of self.new) }
        ensures unmade { result.report.made ≡ false }
    {
        self.end_request(seq, Asked::Echo, None, Outcome::Alive)
    }
}
