//! The command that sends an Echo Request (TS 29.274 7.1.1).

ghost use Rattle.std.specs.Prelude.{◌≡◌, IfOk, OnErr};
ghost use Rattle.gtp_machine.specs.Input.{Send_echo};
ghost use Rattle.gtp_gateway.specs.command.Command.{IsCarriedOut, IsRefusedWhere, SendsRequestNext};
ghost use Rattle.gtp_gateway.specs.command.Request.{request_by, CanBeSent};
ghost use Rattle.gtp_gateway.specs.command.Echo.{request_to_echo};
ghost use Rattle.gtp_gateway.specs.Parts.{node_of};
ghost use Rattle.gtp_gateway.specs.GatewayState.{state_of};

use crate::command::purpose::{Asked, Purpose};
use crate::command::request::RequestToSend;
use crate::fault::CommandFault;
use crate::messages::echo::echo_request;
use crate::parts::Parts;
use crate::sent::Begun;
use crate::tables::change::Change;
use gtp_values::Seq;
use std::alloc::Global;

impl Parts {
    /// The Echo Request, with this number.
    fn request_to_echo(&self, seq: Seq) -> RequestToSend
        ensures says { request_by result ≡ request_to_echo seq (node_of self.now) }
        ensures ready { CanBeSent seq result }
    {
        RequestToSend {
            purpose: Purpose {
                asked: Asked::Echo,
                session: None,
                bearer: None,
                is_named: false,
            },
            change: Change::Stays,
            teid: None,
            message: echo_request(seq, self.draws.counter()),
        }
    }

    /// Sends an Echo Request.
    pub fn echo(&mut self, alloc: Global) -> Result<Begun, CommandFault>
        ensures done { IfOk result (λ begun.
            IsCarriedOut Send_echo (state_of self.old) begun (state_of self.new)) }
        ensures next { IfOk result (λ begun.
            SendsRequestNext (state_of self.old) begun (state_of self.new)) }
        ensures refused { IsRefusedWhere Send_echo (state_of self.old) result }
        ensures err { OnErr result (state_of self.new ≡ state_of self.old) }
    {
        let seq = self.next_number()?;
        let request = self.request_to_echo(seq);
        self.send_request(alloc, seq, &request)
    }
}
