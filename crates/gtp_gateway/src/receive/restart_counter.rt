//! What a gateway does with the peer's restart counter, before it takes a message (TS 29.274 7.1.1,
//! TS 23.007 18).

ghost use Rattle.std.specs.Prelude.{◌≡◌, ◌↔◌, false, true, IsTrue, Option};
ghost use Rattle.std.specs.FinMap as map;
ghost use Rattle.gtp_machine.specs.Removal.{without};
ghost use Rattle.gtp_reliable.specs.Pending.{others};
ghost use Rattle.gtp_tables.specs.Contexts.{is_opened};
ghost use Rattle.gtp_gateway.specs.receive.RestartCounter.{IsHeard, goes_with, weighed_by, node_heard};
ghost use Rattle.gtp_gateway.specs.tables.Opening.{waiting_heard};
ghost use Rattle.gtp_gateway.specs.Parts.{node_of};
ghost use Rattle.gtp_gateway.specs.GatewayState.{state_of};
ghost use Rattle.gtp_gateway.specs.tables.Stays.{OnlyTablesChange};
ghost use Rattle.gtp_gateway.specs.user.Receive.{RequestsWaitOn};

use crate::command::purpose::Purpose;
use crate::parts::Parts;
use gtp_tables::{Sessions, State, end_opened};
use gtp_values::{Age, Counter};

/// What the restart counter of a message says.
#[derive(Clone, Copy)]
pub enum Heard {
    /// The message has none.
    Nothing,
    /// It is the first that is heard.
    First(Counter),
    /// It is the one that is known.
    Same(Counter),
    /// The peer has restarted.
    Later(Counter),
    /// It is of a start before the one that is known.
    Earlier(Counter),
}

impl Heard {
    ghost use Rattle.gtp_gateway.specs.receive.RestartCounter.{IsEarlier, told_in, later_in};

    /// Whether it is of an earlier start.
    pub fn is_earlier(self) -> bool
        ensures { IsTrue result ↔ IsEarlier self }
    {
        matches!(self, Heard::Earlier(_))
    }

    /// The counter that was told.
    pub fn told(self) -> Option<Counter>
        ensures { result ≡ told_in self }
    {
        match self {
            Heard::Nothing => None,
            Heard::First(counter)
            | Heard::Same(counter)
            | Heard::Later(counter)
            | Heard::Earlier(counter) => Some(counter),
        }
    }

    /// The same, where it is later than the one that was known.
    pub fn later(self) -> Option<Counter>
        ensures { result ≡ later_in self }
    {
        match self {
            Heard::Later(counter) => Some(counter),
            _ => None,
        }
    }
}

/// Whether a request is about a session that was opened.
pub fn is_of_opened(sessions: &Sessions, purpose: &Purpose) -> bool
    ensures { result ≡ goes_with sessions.now.table purpose.now }
{
    match purpose.session {
        None => false,
        Some(session) => match sessions.get(session) {
            None => false,
            Some(session) => session.state != State::Pending,
        },
    }
}

impl Parts {
    /// What a restart counter says, by the one that is known.
    pub fn compare_counter(&self, counter: Option<Counter>) -> Heard
        ensures { result ≡ weighed_by counter self.now.peer }
    {
        let Some(counter) = counter else {
            return Heard::Nothing;
        };
        if self.peer.known().is_none() {
            return Heard::First(counter);
        }
        match self.peer.age(counter) {
            Age::Same => Heard::Same(counter),
            Age::Later => Heard::Later(counter),
            Age::Earlier => Heard::Earlier(counter),
        }
    }

    /// The peer has restarted: opened sessions go, with their bearers and requests. Allocates nothing.
    fn end_opened(&mut self)
        ensures node { node_of self.new
            ≡ without (λ t. is_opened (map.get self.old.sessions.table t)) (λ t. false)
            (node_of self.old) }
        ensures waits { RequestsWaitOn (state_of self.old) (state_of self.new) }
        ensures waiting { self.new.pending.waiting
            ≡ others (goes_with self.old.sessions.table) self.old.pending.waiting }
        ensures next { self.new.pending.next ≡ self.old.pending.next }
        ensures ready { self.old.pending.has_room ≡ true → self.new.pending.has_room ≡ true }
        ensures room { self.new.sessions.has_room ≡ self.old.sessions.has_room }
        ensures only { OnlyTablesChange self.old self.new }
        ensures draws { self.new.draws ≡ self.old.draws }
    {
        let sessions = &self.sessions;
        self.pending.finish_where(
            |purpose: &Purpose| -> bool
                ensures { result ≡ goes_with sessions.entry.now.table purpose.now }
            { is_of_opened(sessions, purpose) },
        );
        end_opened(&mut self.sessions, &mut self.bearers);
    }

    /// Keeps the counter that was heard; after a restart of the peer what was opened goes. Takes no
    /// memory.
    #[tactic(auto, using(crate::proofs::UserRows::all_wait, crate::proofs::UserRows::all_stay))]
    pub fn hear(&mut self, heard: Heard)
        requires { IsHeard heard self.old.peer }
        ensures node { node_of self.new ≡ node_heard heard (node_of self.old) }
        ensures waits { RequestsWaitOn (state_of self.old) (state_of self.new) }
        ensures waiting { self.new.pending.waiting
            ≡ waiting_heard heard self.old.sessions.table self.old.pending.waiting }
        ensures next { self.new.pending.next ≡ self.old.pending.next }
        ensures ready { self.old.pending.has_room ≡ true → self.new.pending.has_room ≡ true }
        ensures room { self.new.sessions.has_room ≡ self.old.sessions.has_room }
        ensures only { OnlyTablesChange self.old self.new }
        ensures draws { self.new.draws ≡ self.old.draws }
    {
        match heard {
            Heard::Nothing | Heard::Same(_) | Heard::Earlier(_) => {}
            Heard::First(counter) => {
                self.peer.hear(counter);
            }
            Heard::Later(counter) => {
                self.peer.hear(counter);
                self.end_opened();
            }
        }
    }
}
