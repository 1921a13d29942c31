//! A gateway with the datagrams that it has to send and that nobody took yet.

ghost use Rattle.std.specs.Prelude.{◌≡◌, ◌≢◌, ◌↔◌, ◌+◌, ◌≤◌, ◌++◌, [], ◌∷◌, IfOk, length, option_to_list};
ghost use Rattle.std.specs.VecDeque.{deque_len, deque_capacity};
ghost use Rattle.gtp_c.specs.Commands.{IsSettled};
ghost use Rattle.gtp_c.specs.Common.{IsOneOf};
ghost use Rattle.gtp_c.specs.Statuses.{IsFull, LacksRoom, ReceiveMayRunOut, TickMayRunOut};
ghost use Rattle.gtp_c.specs.Steps.{Keeps, KeepsRoom, HasReceived, HasTicked};

use crate::status::{DONE, FULL, NO_MEMORY, REFUSED};
use crate::told::Told;
use gtp_gateway::{Begun, CommandFault, Endpoint, Gateway, Plane, Sent};
use std::alloc::{AllocError, Global};
use std::collections::VecDeque;

/// So many datagrams may wait before a step is refused.
const MOST_WAITING: usize = 4_096;

/// The most that a tick sends again.
const MOST_RESENT: usize = 256;

/// A gateway, and what it has to send, oldest first.
#[derive(Drop)]
pub struct GatewayWithQueue {
    pub(crate) gateway: Gateway,
    pub(crate) waiting: VecDeque<Sent>,
}

impl GatewayWithQueue {
    /// A gateway with nothing to send, and room for all that may ever wait.
    pub(crate) fn new(alloc: Global, gateway: Gateway) -> Result<GatewayWithQueue, AllocError>
        ensures gateway { IfOk result (λ desk. desk.gateway ≡ gateway) }
        ensures waiting { IfOk result (λ desk. desk.waiting.items ≡ []) }
        ensures room { IfOk result (λ desk. 4352 ≤ deque_capacity desk.waiting) }
    {
        Ok(GatewayWithQueue {
            gateway,
            waiting: VecDeque::with_capacity(alloc, MOST_WAITING + MOST_RESENT)?,
        })
    }

    /// Room for so many datagrams more: 0, or why a step has to wait.
    pub(crate) fn room_for(&mut self, count: usize) -> u8
        ensures kept { Keeps self.old self.new }
        ensures room { result ≡ 0
            → deque_len self.new.waiting + count ≤ deque_capacity self.new.waiting }
        ensures full { (result ≡ 3) ↔ IsFull self.old }
        ensures memory { result ≡ 2 → LacksRoom count self.old }
        ensures known { IsOneOf (0 ∷ 2 ∷ 3 ∷ []) result }
    {
        if self.waiting.len() > MOST_WAITING {
            return FULL;
        }
        match self.waiting.reserve(count) {
            Ok(()) => DONE,
            Err(_) => NO_MEMORY,
        }
    }

    /// A datagram waits, where there is one, for which room was made.
    fn put(&mut self, sent: Option<Sent>)
        requires { deque_len self.old.waiting + 1 ≤ deque_capacity self.old.waiting }
        ensures gateway { self.new.gateway ≡ self.old.gateway }
        ensures waiting { self.new.waiting.items
            ≡ self.old.waiting.items ++ option_to_list sent }
        ensures room { KeepsRoom self.old self.new }
    {
        if let Some(sent) = sent {
            self.waiting.push_back_reserved(sent);
        }
    }

    /// Datagrams wait, for which room was made.
    fn put_all(&mut self, sent: Vec<Sent>)
        requires few { length sent.items ≤ 256 }
        requires room { deque_len self.old.waiting + 256 ≤ deque_capacity self.old.waiting }
        ensures gateway { self.new.gateway ≡ self.old.gateway }
        ensures waiting { self.new.waiting.items ≡ self.old.waiting.items ++ sent.items }
        ensures room { KeepsRoom self.old self.new }
    {
        let mut sent = VecDeque::from_vec(sent);
        if self.waiting.append(&mut sent).is_err() {
            unreachable!()
        }
    }

    /// A datagram came.
    #[tactic(auto, using(crate::proofs::Accepting::is_payload))]
    pub(crate) fn receive(
        &mut self,
        alloc: Global,
        source: Endpoint,
        plane: Plane,
        octets: &[u8],
        told: &mut Told,
    ) -> u8
        ensures done { result ≡ 0
            → HasReceived plane source octets.now told.new self.old self.new }
        ensures kept { result ≢ 0 → Keeps self.old self.new }
        ensures full { (result ≡ 3) ↔ IsFull self.old }
        ensures untold { result ≢ 0 → told.new ≡ told.old }
        ensures memory { result ≡ 2 → ReceiveMayRunOut plane source octets.now self.old }
        ensures known { IsOneOf (0 ∷ 2 ∷ 3 ∷ []) result }
    {
        let status = self.room_for(1);
        if status != DONE {
            return status;
        }
        match self.gateway.receive(alloc, source, plane, octets) {
            Ok(step) => {
                let report = Told::of_step(&step, 0);
                self.put(step.out);
                *told = report.with_waiting(self.waiting.len());
                DONE
            }
            Err(_) => NO_MEMORY,
        }
    }

    /// A tick passes.
    pub(crate) fn tick(&mut self, alloc: Global, told: &mut Told) -> u8
        ensures done { result ≡ 0 → HasTicked told.new self.old self.new }
        ensures kept { result ≢ 0 → Keeps self.old self.new }
        ensures full { (result ≡ 3) ↔ IsFull self.old }
        ensures untold { result ≢ 0 → told.new ≡ told.old }
        ensures memory { result ≡ 2 → TickMayRunOut self.old }
        ensures known { IsOneOf (0 ∷ 2 ∷ 3 ∷ []) result }
    {
        let status = self.room_for(MOST_RESENT);
        if status != DONE {
            return status;
        }
        match self.gateway.tick(alloc) {
            Ok(ticked) => {
                self.put_all(ticked.resent);
                *told = Told::of_tick(
                    ticked.gave_up.len(),
                    ticked.forgotten.len(),
                    self.waiting.len(),
                );
                DONE
            }
            Err(_) => NO_MEMORY,
        }
    }

    /// What a command sends waits, for which room was made, and what it came to is told.
    pub(crate) fn settle(
        &mut self,
        begun: Result<Begun, CommandFault>,
        number: u8,
        told: &mut Told,
    ) -> u8
        requires { deque_len self.old.waiting + 1 ≤ deque_capacity self.old.waiting }
        ensures { IsSettled begun number told.old told.new self.old self.new result }
    {
        match begun {
            Ok(begun) => {
                let report = Told::of_begun(number, &begun, 0);
                self.waiting.push_back_reserved(begun.out);
                *told = report.with_waiting(self.waiting.len());
                DONE
            }
            Err(CommandFault::Refused(why)) => {
                *told = Told::of_refusal(why, self.waiting.len());
                REFUSED
            }
            Err(CommandFault::Memory) => NO_MEMORY,
        }
    }
}
