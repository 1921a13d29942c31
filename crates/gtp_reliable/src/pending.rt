//! Requests that wait for their answers.

ghost use Rattle.std.specs.Prelude.{◌≡◌, ◌<◌, ◌≤◌, ◌↔◌, ◌⊎◌, [], ◌∷◌, ◌++◌, ◌==◌};
ghost use Rattle.std.specs.Prelude.{Bool, true, false, not, length, filter, map, option_map};
ghost use Rattle.std.specs.Prelude.{IsTrue, IsOk, OnOk, OnErr, IfOk, IfErr, IfSome, IfNone, Err};
ghost use Rattle.std.specs.Fn.{FnReturnsAt};
ghost use Rattle.std.specs.List.{filter_map};
ghost use Rattle.gtp_reliable.specs.Waiting.{just_sent, after_tick};
ghost use Rattle.gtp_reliable.specs.Pending.{numbers, number_after, is_pending, IsNextFree};
ghost use Rattle.gtp_reliable.specs.Pending.{purpose_of, others, IsPrepared, AreLimits, SameTimes};
ghost use Rattle.gtp_reliable.specs.Pending.{AreRequests, IsQuiet, resends, given_ups};
ghost use Rattle.gtp_reliable.specs.Due.{message_of};

use crate::fault::ReliableFault;
use crate::rows::Rows;
use crate::waiting::Row;
use gtp_values::{Endpoint, Seq};
use std::alloc::{AllocError, Global};
use std::marker::Model;

/// The most requests that are pending at a time.
const MOST: usize = 256;

/// The last number of a request.
const LAST: u32 = 8_388_607;

/// A request to be sent again: the same octets to the same place.
#[derive(Clone, Debug, Drop, PartialEq, Eq)]
pub struct Resend {
    pub seq: Seq,
    pub to: Endpoint,
    pub octets: Vec<u8>,
}

/// What the next tick does, oldest request first.
#[derive(Debug, Drop)]
pub struct Due<P: Copy> {
    /// What it sends again.
    pub resend: Vec<Resend>,
    /// The number and the purpose of what it gives up.
    pub gave_up: Vec<(Seq, P)>,
}

/// Requests that wait for their answers (TS 29.274 7.6), oldest first, each with a purpose. A request waits `t3` ticks
/// (T3-RESPONSE); then it is sent again, at most `n3` times (N3-REQUESTS), and then given up. Sequence numbers rise by
/// one, from 0 or a number that is set, to 8,388,607, and then from 0 again; a number that is pending is skipped. At
/// most 256 requests are pending. A request is found by its number in a map, and a tick visits what is due.
#[derive(Debug, Drop)]
pub struct Pending<P: Copy> {
    alloc: Global,
    t3: u32,
    n3: u32,
    /// The number from which the next free one is sought.
    next: u32,
    /// The ticks that have passed, modulo 2^32.
    ticks: u32,
    /// In order of the last sending, so that what is due stands in front.
    rows: Rows<P>,
}

impl<P: Copy> Model for Pending<P> {
    ghost use Rattle.std.specs.Prelude.{map};
    ghost use Rattle.gtp_reliable.specs.Pending.{Requests, AreRequests};
    ghost use Rattle.gtp_reliable.specs.Rows.{seen};
    ghost use Rattle.gtp_reliable.specs.Ages.{by_age, AreInTurn};

    ghost Value = { Requests P };

    ghost view = { λ a.
        record {
          t3 = a.t3;
          n3 = a.n3;
          next = a.next;
          waiting = by_age (map (seen a.ticks) a.rows.rows);
          has_room = a.rows.has_room;
        } };

    ghost invariant = { λ a.
        AreRequests (record {
          t3 = a.t3;
          n3 = a.n3;
          next = a.next;
          waiting = by_age (map (seen a.ticks) a.rows.rows);
          has_room = a.rows.has_room;
        })
        × AreInTurn a.t3 (map (seen a.ticks) a.rows.rows) };
}

/// The number after a number.
fn following(number: u32) -> u32
    requires { number < numbers }
    ensures { result ≡ number_after number }
{
    if number == LAST { 0 } else { number + 1 }
}

impl<P: Copy> Pending<P> {
    /// No requests; sequence numbers begin at 0. `t3` is 1 to 1,000 ticks, `n3` at most 100. Allocates nothing.
    pub fn new(alloc: Global, t3: u32, n3: u32) -> Pending<P>
        requires { AreLimits t3 n3 }
        ensures empty { result.waiting ≡ [] }
        ensures next { result.next ≡ 0 }
        ensures times { (result.t3 ≡ t3) × (result.n3 ≡ n3) }
    {
        Pending {
            alloc,
            t3,
            n3,
            next: 0,
            ticks: 0,
            rows: Rows::new(alloc),
        }
    }

    /// No requests, as `new`; sequence numbers begin at `next`, at most 8,388,607.
    pub fn new_at(alloc: Global, t3: u32, n3: u32, next: Seq) -> Pending<P>
        requires limits { AreLimits t3 n3 }
        requires number { next < numbers }
        ensures empty { result.waiting ≡ [] }
        ensures next { result.next ≡ next }
        ensures times { (result.t3 ≡ t3) × (result.n3 ≡ n3) }
    {
        Pending {
            alloc,
            t3,
            n3,
            next: next.number(),
            ticks: 0,
            rows: Rows::new(alloc),
        }
    }

    /// Whether 256 requests are pending. Allocates nothing.
    pub fn is_full(&self) -> bool
        ensures full { IsTrue result ↔ (256 ≤ length self.now.waiting) }
        // And what holds of the requests at all times.
        ensures always { AreRequests self.now }
    {
        self.rows.len() >= MOST
    }

    /// Room for one more request, of which `prepare` then needs no memory; nothing else changes. After an error
    /// all is as before, as after one of `prepare`.
    pub fn reserve(&mut self) -> Result<(), AllocError>
        ensures room { OnOk result (self.new ≡ record self.old { has_room = true }) }
        ensures memory { OnErr result (self.old.has_room ≡ false) }
        ensures err { OnErr result (self.new ≡ self.old) }
    {
        self.rows.reserve()?;
        Ok(())
    }

    /// The next free number, and room for its request; nothing else changes. After an error all is
    /// as before: each part of the value that contracts see, `has_room` among them.
    pub fn prepare(&mut self) -> Result<Seq, ReliableFault>
        ensures prepared { IfOk result (IsPrepared self.new) }
        ensures room { OnOk result (self.new ≡ record self.old { has_room = true }) }
        ensures full { (result ≡ Err ReliableFault.PendingFull) ↔ (256 ≤ length self.old.waiting) }
        ensures fault { IfErr result (λ f.
            (f ≡ ReliableFault.PendingFull) ⊎ (f ≡ ReliableFault.Memory)) }
        ensures memory { result ≡ Err ReliableFault.Memory → self.old.has_room ≡ false }
        ensures err { OnErr result (self.new ≡ self.old) }
        // What holds of the requests at all times.
        ensures always { AreRequests self.old }
    {
        if self.is_full() {
            return Err(ReliableFault::PendingFull);
        }
        self.reserve()?;
        Ok(Seq::new(self.next_free()))
    }

    /// Whether a request of this number is pending.
    fn has_number(&self, number: u32) -> bool
        ensures { result ≡ is_pending number self.now.waiting }
    {
        self.rows.get(number).is_some()
    }

    /// The first number from the next one on that no request has.
    fn next_free(&self) -> u32
        ensures number { IsNextFree self.now.next self.now.waiting result }
        ensures small { result < numbers }
    {
        let mut number = self.next;
        while self.has_number(number) {
            number = following(number);
        }
        number
    }

    /// The number that the next request will have: `None` where 256 are pending. Allocates nothing.
    pub fn next_number(&self) -> Option<Seq>
        ensures some { IfSome result (λ seq. IsNextFree self.now.next self.now.waiting seq) }
        ensures few { IfSome result (λ _. length self.now.waiting < 256) }
        ensures none { IfNone result (256 ≤ length self.now.waiting) }
        // What holds of the requests at all times.
        ensures always { AreRequests self.now }
    {
        if self.is_full() {
            return None;
        }
        Some(Seq::new(self.next_free()))
    }

    /// Whether a request of this number has a purpose that does not meet the test.
    fn is_other<F: Fn(&P) -> bool>(&self, number: u32, test: &F) -> bool
        ghost meets: { P → Bool }
        requires callable { F.IsAlwaysCallable test.now }
        requires answers { (p : P) (b : Bool) → FnReturnsAt F.Fn test.now p b → b ≡ meets p }
        ensures { result ≡ is_pending number (others meets self.now.waiting) }
    {
        match self.rows.get(number) {
            Some(row) => !row.meets(test),
            None => false,
        }
    }

    /// The number that the next request would have, if those whose purpose passes the test were no longer pending:
    /// `None` where 256 would be pending still. Allocates nothing. `meets` is the test as contracts see it; the caller
    /// chooses it.
    pub fn next_without<F: Fn(&P) -> bool>(&self, test: F) -> Option<Seq>
        ghost meets: { P → Bool }
        requires callable { F.IsAlwaysCallable test }
        requires answers { (p : P) (b : Bool) → FnReturnsAt F.Fn test p b → b ≡ meets p }
        ensures some { IfSome result (λ seq.
            IsNextFree self.now.next (others meets self.now.waiting) seq) }
        ensures few { IfSome result (λ _. length (others meets self.now.waiting) < 256) }
        ensures none { IfNone result (256 ≤ length (others meets self.now.waiting)) }
        // What holds of the requests at all times.
        ensures always { AreRequests self.now }
    {
        if self.is_full() && self.rows.count_others(&test) >= MOST {
            return None;
        }
        let mut number = self.next;
        while self.is_other(number, &test) {
            number = following(number);
        }
        Some(Seq::new(number))
    }

    /// Stores the prepared request as pending; the caller sends it now.
    pub fn begin(&mut self, seq: Seq, to: Endpoint, octets: Vec<u8>, purpose: P)
        requires { IsPrepared self.old seq }
        ensures waiting { self.new.waiting
            ≡ self.old.waiting ++ just_sent seq to octets.items purpose ∷ [] }
        ensures next { self.new.next ≡ number_after seq }
        ensures times { SameTimes self.old self.new }
    {
        self.next = following(seq.number());
        self.rows.push(Row {
            seq,
            to,
            octets,
            purpose,
            sent: self.ticks,
            resent: 0,
        });
    }

    /// What the pending request of this number is for.
    pub fn matched(&self, seq: Seq) -> Option<&P>
        ensures { option_map (λ p. p.now) result ≡ purpose_of seq self.now.waiting }
    {
        match self.rows.get(seq.number()) {
            Some(row) => Some(&row.purpose),
            None => None,
        }
    }

    /// The request of this number, if it is pending, waits no longer.
    pub fn finish(&mut self, seq: Seq)
        ensures waiting { self.new.waiting ≡ filter (λ w. not (w.seq == seq)) self.old.waiting }
        ensures next { self.new.next ≡ self.old.next }
        ensures times { SameTimes self.old self.new }
    {
        self.rows.finish(seq.number());
    }

    /// All requests whose purpose passes the test are no longer pending. Allocates nothing. `meets` is the test as
    /// contracts see it; the caller chooses it.
    pub fn finish_where<F: Fn(&P) -> bool>(&mut self, test: F)
        ghost meets: { P → Bool }
        requires callable { F.IsAlwaysCallable test }
        requires answers { (p : P) (b : Bool) → FnReturnsAt F.Fn test p b → b ≡ meets p }
        ensures waiting { self.new.waiting ≡ others meets self.old.waiting }
        ensures next { self.new.next ≡ self.old.next }
        ensures times { SameTimes self.old self.new }
        ensures room { self.old.has_room ≡ true → self.new.has_room ≡ true }
        // What holds of the requests at all times.
        ensures always { AreRequests self.old }
    {
        self.rows.finish_where(&test);
    }

    /// What the next tick does. Allocates nothing if that is nothing.
    pub fn due(&self) -> Result<Due<P>, ReliableFault>
        ensures resend { IfOk result (λ due. map message_of due.resend.items ≡ resends self.now) }
        ensures gave_up { IfOk result (λ due. due.gave_up.items ≡ given_ups self.now) }
        ensures quiet { IsQuiet self.now → IsOk result }
        ensures fault { IfErr result (λ f. f ≡ ReliableFault.Memory) }
        // What holds of the requests at all times.
        ensures always { AreRequests self.now }
    {
        let due = self.rows.due(self.alloc, self.ticks, self.t3, self.n3)?;
        Ok(due)
    }

    /// A tick passes: each request that is due counts as sent again, which the caller does, or is given up.
    pub fn tick(&mut self)
        ensures waiting { self.new.waiting
            ≡ filter_map (after_tick self.old.t3 self.old.n3) self.old.waiting }
        ensures next { self.new.next ≡ self.old.next }
        ensures times { SameTimes self.old self.new }
    {
        self.rows.tick(self.ticks, self.t3, self.n3);
        self.ticks = self.ticks.wrapping_add(1);
    }
}
