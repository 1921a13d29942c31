//! Ticks: requests that are sent again or given up, and answers that are forgotten (TS 29.274 7.6).

ghost use Rattle.std.specs.Prelude.{◌≡◌, ◌+◌, ◌≤◌, [], map, length, vec_len, vec_capacity};
ghost use Rattle.std.specs.Prelude.{IsOk, IfOk, OnOk, OnErr};
ghost use Rattle.gtp_reliable.specs.Due.{message_of};
ghost use Rattle.gtp_gateway.specs.Parts.{node_of};
ghost use Rattle.gtp_gateway.specs.messages.Sent.{datagram_by};
ghost use Rattle.gtp_gateway.specs.GatewayState.{state_of, queues_of};
ghost use Rattle.gtp_gateway.specs.tables.Stays.{OnlyTablesChange};
ghost use Rattle.gtp_gateway.specs.Tick.{datagram_again, GivesUpOne, GivesUpEach};
ghost use Rattle.gtp_gateway.specs.Tick.{IsIdle, IsTicked, QueuesAfterTick};
ghost use Rattle.gtp_gateway.specs.user.Receive.{RequestsWaitOn};

use crate::command::purpose::Purpose;
use crate::command::send_request::control_end_of;
use crate::parts::Parts;
use crate::sent::Sent;
use gtp_machine::Plane;
use gtp_reliable::{Request, Resend};
use gtp_values::{Memory, Seq};
use std::alloc::Global;

/// What a tick did.
#[derive(Debug, Drop)]
pub struct Ticked {
    /// The requests to be sent again, oldest first.
    pub resent: Vec<Sent>,
    /// The sequence numbers of the requests that were given up, oldest first.
    pub gave_up: Vec<Seq>,
    /// The requests whose answers are no longer held, oldest first.
    pub forgotten: Vec<Request>,
}

impl Parts {
    /// A request as it is sent again.
    fn sent_again(&self, resend: Resend) -> Sent
        ensures { datagram_by result
            ≡ datagram_again self.now.config.config (message_of resend) }
    {
        Sent {
            plane: Plane::Control,
            from: control_end_of(self.config.own().control),
            to: resend.to,
            octets: resend.octets,
        }
    }

    /// Requests as they are sent again. Allocates nothing if there is none.
    fn send_again(&self, alloc: Global, resends: Vec<Resend>) -> Result<Vec<Sent>, Memory>
        ensures sent { IfOk result (λ sent. map datagram_by sent.items
            ≡ map (datagram_again self.now.config.config) (map message_of resends.items)) }
        ensures quiet { resends.items ≡ [] → IsOk result }
    {
        let mut sent = Vec::new(alloc);
        for resend in resends {
            sent.push(self.sent_again(resend))?;
        }
        Ok(sent)
    }

    /// The request of this number is given up, if it still waits, and what it was about goes:
    /// whether it was. Allocates nothing.
    fn give_up(&mut self, seq: Seq) -> bool
        ensures node { GivesUpOne (node_of self.old) seq result (node_of self.new) }
        ensures waits { RequestsWaitOn (state_of self.old) (state_of self.new) }
        ensures only { OnlyTablesChange self.old self.new }
    {
        let Some(purpose) = self.waiting(seq) else {
            return false;
        };
        self.finish(seq, &purpose);
        true
    }

    /// Each of these requests in turn that still waits is given up; their numbers are put into a
    /// list that has the room. Allocates nothing.
    fn give_up_each(&mut self, due: &[(Seq, Purpose)], gave_up: &mut Vec<Seq>)
        requires empty { gave_up.old.items ≡ [] }
        requires room { vec_len gave_up.old + length due.now ≤ vec_capacity gave_up.old }
        ensures each { GivesUpEach (node_of self.old) (map (λ g. g.0) due.now)
            gave_up.new.items (node_of self.new) }
        ensures waits { RequestsWaitOn (state_of self.old) (state_of self.new) }
        ensures only { OnlyTablesChange self.old self.new }
    {
        for entry in due {
            let seq = entry.0;
            if self.give_up(seq) && gave_up.push(seq).is_err() {
                unreachable!()
            }
        }
    }

    /// A tick passes. All allocations come first, and what follows cannot fail.
    #[tactic(auto, using(crate::proofs::QueuesAfter::tied_of))]
    pub fn tick(&mut self, alloc: Global) -> Result<Ticked, Memory>
        ensures ticked { IfOk result (λ ticked.
            IsTicked (state_of self.old) ticked (state_of self.new)) }
        ensures counts { OnOk result (QueuesAfterTick (state_of self.old) (state_of self.new)) }
        ensures few { IfOk result (λ ticked. length ticked.resent.items ≤ 256) }
        ensures few_forgotten { IfOk result (λ ticked. length ticked.forgotten.items ≤ 4096) }
        ensures quiet { IsIdle (queues_of self.old) → IsOk result }
        ensures err { OnErr result (state_of self.new ≡ state_of self.old) }
    {
        let Ok(due) = self.pending.due() else {
            return Err(Memory);
        };
        let Ok(forgotten) = self.held.due() else {
            return Err(Memory);
        };
        let resent = self.send_again(alloc, due.resend)?;
        let give_ups = due.gave_up.as_slice();
        let mut gave_up = Vec::new(alloc);
        gave_up.try_reserve(give_ups.len())?;
        self.give_up_each(give_ups, &mut gave_up);
        self.pending.tick();
        self.held.tick();
        Ok(Ticked {
            resent,
            gave_up,
            forgotten,
        })
    }
}
