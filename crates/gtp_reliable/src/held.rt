//! Answers that are held for requests which come again.

ghost use Rattle.std.specs.Prelude.{◌≡◌, ◌≤◌, ◌↔◌, ◌⊎◌, [], ◌∷◌, ◌++◌, ℕ, List};
ghost use Rattle.std.specs.Prelude.{true, false, length, map, IsTrue, IsOk, OnOk, OnErr};
ghost use Rattle.std.specs.Prelude.{IfOk, IfErr, IfSome, IfNone, IsSomeAnd, Err};
ghost use Rattle.std.specs.List.{filter_map};
ghost use Rattle.gtp_reliable.specs.Held.{just_kept, after_tick, forgets, IsHeld};
ghost use Rattle.gtp_reliable.specs.Held.{AreAnswers, HasAnswer, IsHold, IsReady, IsQuiet};
ghost use Rattle.gtp_reliable.specs.Forgotten.{question_of};

use crate::fault::ReliableFault;
use crate::held_answer::Pair;
use crate::queue::{find, forgotten_by_tick, keep, place_of, tick_all};
use gtp_values::Endpoint;
use std::alloc::Global;
use std::collections::VecDeque;
use std::marker::Model;

/// The most answers that are held at a time.
const MOST: usize = 4096;

/// For how many answers room is made at first.
const LEAST: usize = 4;

/// A request: where it came from, and its octets.
#[derive(Clone, Debug, Drop, PartialEq, Eq)]
pub struct Request {
    pub source: Endpoint,
    pub octets: Vec<u8>,
}

/// Answers that are held in case their requests come again (TS 29.274 7.6), oldest first. An answer is held until
/// the `hold`-th tick after it was kept; a look-up does not prolong that, and only a tick drops an answer. At most
/// 4,096 are held, one for each request from a source. A look-up searches an index by source and octets by halving,
/// and the cost of a tick is that of what it drops.
#[derive(Debug, Drop)]
pub struct Held {
    alloc: Global,
    hold: u32,
    /// Oldest first.
    pairs: VecDeque<Pair>,
    /// The numbers of keeping, in order of source and octets.
    index: Vec<u64>,
    /// The number of keeping of the oldest pair, modulo 2^64.
    first: u64,
    /// The ticks that have passed, modulo 2^64.
    ticks: u64,
}

impl Model for Held {
    ghost use Rattle.std.specs.Prelude.{nat_lt, ◌&&◌, vec_len, vec_capacity};
    ghost use Rattle.std.specs.VecDeque.{deque_len, deque_capacity};
    ghost use Rattle.gtp_reliable.specs.Held.{Answers, AreAnswers};
    ghost use Rattle.gtp_reliable.specs.Index.{questions, IsIndex};
    ghost use Rattle.gtp_reliable.specs.Aging.{answers_of, AreAging};

    ghost Value = { Answers };

    ghost view = { λ a.
        answers_of a.hold a.ticks a.pairs.items
        (nat_lt (deque_len a.pairs) (deque_capacity a.pairs)
        && nat_lt (vec_len a.index) (vec_capacity a.index)) };

    ghost invariant = { λ a.
        AreAnswers (answers_of a.hold a.ticks a.pairs.items
        (nat_lt (deque_len a.pairs) (deque_capacity a.pairs)
        && nat_lt (vec_len a.index) (vec_capacity a.index)))
        × IsIndex a.first a.index.items (questions a.pairs.items)
        × AreAging a.ticks a.hold a.pairs.items };
}

impl Held {
    /// No answers. `hold` is 1 to 100,000 ticks. Allocates nothing.
    pub fn new(alloc: Global, hold: u32) -> Held
        requires { IsHold hold }
        ensures empty { result.pairs ≡ [] }
        ensures hold { result.hold ≡ hold }
    {
        Held {
            alloc,
            hold,
            pairs: VecDeque::new(alloc),
            index: Vec::new(alloc),
            first: 0,
            ticks: 0,
        }
    }

    /// The answer that is held for a request from this source with these octets, all of them.
    pub fn lookup(&self, source: Endpoint, request: &[u8]) -> Option<&[u8]>
        ensures found { IfSome result (λ answer.
            HasAnswer source request.now answer.now self.now.pairs) }
        ensures only { (a : List ℕ) → HasAnswer source request.now a self.now.pairs
            → IsSomeAnd result (λ answer. answer.now ≡ a) }
        ensures none { IfNone result (IsHeld source request.now self.now.pairs → ⊥) }
    {
        self.lookup_counted(source, request).0
    }

    /// The answer that is held for a request, as `lookup` returns it, and how many answers were compared for it: at
    /// most 14, whatever is held. Allocates nothing.
    pub fn lookup_counted(&self, source: Endpoint, request: &[u8]) -> (Option<&[u8]>, u32)
        ensures found { IfSome result.0 (λ answer.
            HasAnswer source request.now answer.now self.now.pairs) }
        ensures only { (a : List ℕ) → HasAnswer source request.now a self.now.pairs
            → IsSomeAnd result.0 (λ answer. answer.now ≡ a) }
        ensures none { IfNone result.0 (IsHeld source request.now self.now.pairs → ⊥) }
        ensures count { result.1 ≤ 14 }
    {
        let index = self.index.as_slice();
        match find(&self.pairs, index, self.first, source, request) {
            (Ok(at), compared) => {
                let pair = &self.pairs[place_of(self.first, index[at])];
                (Some(pair.answer.as_slice()), compared)
            }
            (Err(_), compared) => (None, compared),
        }
    }

    /// Whether 4,096 answers are held. Allocates nothing.
    pub fn is_full(&self) -> bool
        ensures full { IsTrue result ↔ (4096 ≤ length self.now.pairs) }
        // And what holds of the answers at all times.
        ensures always { AreAnswers self.now }
    {
        self.pairs.len() >= MOST
    }

    /// Room for one more answer; nothing else changes. After an error all is as before: each part
    /// of the value that contracts see, `has_room` among them.
    pub fn prepare(&mut self) -> Result<(), ReliableFault>
        ensures ready { OnOk result (IsReady self.new) }
        ensures room { OnOk result (self.new ≡ record self.old { has_room = true }) }
        ensures full { (result ≡ Err ReliableFault.HeldFull) ↔ (4096 ≤ length self.old.pairs) }
        ensures fault { IfErr result (λ f.
            (f ≡ ReliableFault.HeldFull) ⊎ (f ≡ ReliableFault.Memory)) }
        ensures memory { result ≡ Err ReliableFault.Memory → self.old.has_room ≡ false }
        ensures err { OnErr result (self.new ≡ self.old) }
    {
        if self.is_full() {
            return Err(ReliableFault::HeldFull);
        }
        let count = self.pairs.len();
        if count == self.pairs.capacity() {
            self.pairs.reserve_exact(count.max(LEAST))?;
        }
        self.index.try_reserve(1)?;
        Ok(())
    }

    /// Keeps the answer to a request for which none is held, in the room that was prepared.
    pub fn keep(&mut self, source: Endpoint, request: Vec<u8>, answer: Vec<u8>)
        requires ready { IsReady self.old }
        requires free { IsHeld source request.items self.old.pairs → ⊥ }
        ensures pairs { self.new.pairs
            ≡ self.old.pairs ++ just_kept source request.items answer.items ∷ [] }
        ensures hold { self.new.hold ≡ self.old.hold }
    {
        let pair = Pair {
            source,
            request,
            answer,
            kept: self.ticks,
        };
        keep(&mut self.pairs, &mut self.index, self.first, pair);
    }

    /// The requests whose answers the next tick drops. Allocates nothing if there is none.
    pub fn due(&self) -> Result<Vec<Request>, ReliableFault>
        ensures list { IfOk result (λ v. map question_of v.items ≡ forgets self.now) }
        ensures quiet { IsQuiet self.now → IsOk result }
        ensures fault { IfErr result (λ f. f ≡ ReliableFault.Memory) }
        // What holds of the answers at all times.
        ensures always { AreAnswers self.now }
    {
        let requests = forgotten_by_tick(self.alloc, &self.pairs, self.ticks, self.hold)?;
        Ok(requests)
    }

    /// A tick passes: each answer that was held for `hold` ticks is dropped.
    pub fn tick(&mut self)
        ensures pairs { self.new.pairs ≡ filter_map (after_tick self.old.hold) self.old.pairs }
        ensures hold { self.new.hold ≡ self.old.hold }
    {
        tick_all(
            &mut self.pairs,
            &mut self.index,
            &mut self.first,
            self.ticks,
            self.hold,
        );
        self.ticks = self.ticks.wrapping_add(1);
    }
}
