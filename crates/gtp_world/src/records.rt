//! What is kept of what both gateways did.

ghost use Rattle.std.specs.Prelude.{◌≡◌, ◌+◌, ◌<◌, ◌≤◌, ◌++◌, [], ◌∷◌, false, map, length, vec_len, vec_capacity};
ghost use Rattle.std.specs.Prelude.{◌↔◌, IsTrue, IfSome, IfNone, OnOk};
ghost use Rattle.gtp_machine.specs.Input.{nothing};
ghost use Rattle.gtp_machine.specs.World.{signed, other, HasBy};
ghost use Rattle.gtp_gateway.specs.messages.Sent.{datagram_by};
ghost use Rattle.gtp_gateway.specs.receive.Taken.{datagrams};
ghost use Rattle.gtp_world.specs.Record.{log_of, told_by, entry_by, outcome_of, outcomes_in, sent_by};
ghost use Rattle.gtp_world.specs.Recorded.{HasRoom, empty_log, log_of_came, log_of_tick};
ghost use Rattle.gtp_world.specs.Stepped.{log_with, told_of};

use crate::event::EventOutcome;
use crate::handed::Handed;
use crate::log::{Datagram, Entry, Note};
use crate::room::{push_reserved, push_reserved_option};
use crate::simulated_gateway::StepRecord;
use gtp_gateway::{Memory, Role, Sent, Ticked};
use std::alloc::Global;

/// What is kept of what both gateways did.
#[derive(Drop)]
pub struct Records {
    /// Each datagram that was ever sent.
    pub datagrams: Vec<Datagram>,
    /// Each packet that was handed in.
    pub handed: Handed,
    /// Each packet that was accepted.
    pub accepted: Vec<Entry>,
    /// What came of each event.
    pub notes: Vec<Note>,
}

/// How many datagrams that is.
fn count_of(out: &Option<Sent>) -> usize
    ensures { result ≡ length (datagrams out.now) }
{
    usize::from(out.is_some())
}

impl Note {
    /// What comes of an event that sends nothing.
    fn of(alloc: Global, outcome: EventOutcome) -> Note
        ensures told { told_by result ≡ told_of (outcome_of outcome) nothing [] }
        ensures late { result.late ≡ false }
    {
        Note {
            outcome,
            second: None,
            restart: None,
            sent: 0,
            gave_up: Vec::new(alloc),
            forgotten: Vec::new(alloc),
            late: false,
        }
    }
}

impl Records {
    /// Nothing was done yet.
    pub fn new(alloc: Global) -> Records
        ensures { log_of result ≡ empty_log }
    {
        Records {
            datagrams: Vec::new(alloc),
            handed: Handed::new(alloc),
            accepted: Vec::new(alloc),
            notes: Vec::new(alloc),
        }
    }

    /// Room for an event that sends so many datagrams at most; nothing else changes.
    pub fn make_room(&mut self, datagrams: usize) -> Result<(), Memory>
        ensures room { OnOk result (HasRoom datagrams self.new) }
        ensures same { log_of self.new ≡ log_of self.old }
    {
        self.datagrams.try_reserve(datagrams)?;
        self.handed.make_room()?;
        self.accepted.try_reserve(1)?;
        self.notes.try_reserve(1)?;
        Ok(())
    }

    /// A datagram that was sent is kept, if one was.
    fn keep_sent(&mut self, node: Role, out: Option<Sent>)
        requires { vec_len self.old.datagrams < vec_capacity self.old.datagrams }
        ensures datagrams { map sent_by self.new.datagrams.items
            ≡ map sent_by self.old.datagrams.items ++ signed node (datagrams out) }
        ensures rest { self.new ≡ record self.old { datagrams = self.new.datagrams } }
    {
        if let Some(sent) = out {
            push_reserved(&mut self.datagrams, Datagram { node, sent });
        }
    }

    /// Datagrams that were sent are kept, in order.
    fn keep_all_sent(&mut self, node: Role, resent: Vec<Sent>)
        requires { vec_len self.old.datagrams + vec_len resent ≤ vec_capacity self.old.datagrams }
        ensures datagrams { map sent_by self.new.datagrams.items
            ≡ map sent_by self.old.datagrams.items ++ signed node (map datagram_by resent.items) }
        ensures rest { self.new ≡ record self.old { datagrams = self.new.datagrams } }
    {
        for sent in resent {
            push_reserved(&mut self.datagrams, Datagram { node, sent });
        }
    }

    /// What a command or a datagram came to at a gateway is kept.
    pub fn record_step(
        &mut self,
        alloc: Global,
        node: Role,
        came: StepRecord,
        late: bool,
    ) -> EventOutcome
        requires { HasRoom 1 self.old }
        ensures log { log_of self.new ≡ log_of_came (log_of self.old) node came late }
        ensures told { outcomes_in (log_of self.new)
            ≡ outcomes_in (log_of self.old) ++ outcome_of result ∷ [] }
    {
        let outcome = EventOutcome::CameTo(came.outcome);
        let note = Note {
            outcome,
            second: came.second,
            restart: came.restart,
            sent: count_of(&came.out),
            gave_up: Vec::new(alloc),
            forgotten: Vec::new(alloc),
            late,
        };
        self.keep_sent(node, came.out);
        self.handed.push_reserved_option(came.handed);
        push_reserved_option(&mut self.accepted, came.accepted);
        push_reserved(&mut self.notes, note);
        outcome
    }

    /// What a tick did at a gateway is kept.
    pub fn record_tick(&mut self, node: Role, ticked: Ticked) -> EventOutcome
        requires room { HasRoom (vec_len ticked.resent) self.old }
        ensures log { log_of self.new ≡ log_of_tick (log_of self.old) node ticked }
        ensures told { outcomes_in (log_of self.new)
            ≡ outcomes_in (log_of self.old) ++ outcome_of result ∷ [] }
    {
        let note = Note {
            outcome: EventOutcome::Ticked,
            second: None,
            restart: None,
            sent: ticked.resent.as_slice().len(),
            gave_up: ticked.gave_up,
            forgotten: ticked.forgotten,
            late: false,
        };
        self.keep_all_sent(node, ticked.resent);
        push_reserved(&mut self.notes, note);
        EventOutcome::Ticked
    }

    /// The index of the datagram with this number, if there is one.
    pub fn find(&self, number: u64) -> Option<usize>
        ensures some { IfSome result (λ i.
            (i ≡ number) × (number < length self.now.datagrams.items)) }
        ensures none { IfNone result (length self.now.datagrams.items ≤ number) }
    {
        (number < self.datagrams.len() as u64).then_some(number as usize)
    }

    /// An event that sends nothing is kept.
    pub fn record_outcome(&mut self, alloc: Global, outcome: EventOutcome) -> EventOutcome
        requires { HasRoom 1 self.old }
        ensures log { log_of self.new ≡ log_with (log_of self.old) (outcome_of outcome) }
        ensures told { outcomes_in (log_of self.new)
            ≡ outcomes_in (log_of self.old) ++ outcome_of result ∷ [] }
    {
        push_reserved(&mut self.notes, Note::of(alloc, outcome));
        outcome
    }

    /// Whether an accepted packet was handed in at the other gateway: octet for octet, for the same
    /// TEID, subscriber, access point and bearer.
    pub fn is_owed(&self, accepted: &Entry) -> bool
        ensures { IsTrue result
            ↔ HasBy
            (log_of self.now).handed (other accepted.now.node) (entry_by accepted.now).what }
    {
        self.handed.owes(accepted)
    }

    /// How many deliveries were late.
    #[tactic(auto, using(crate::proofs::Logs::late_are))]
    pub fn late(&self) -> usize
        ensures { result ≡ (log_of self.now).late }
    {
        self.notes.iter().filter(|note| note.late).count()
    }
}
