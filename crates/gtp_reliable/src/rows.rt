//! The requests that wait, in order of their last sending, and found by their numbers.

ghost use Rattle.std.specs.Prelude.{◌≡◌, ◌<◌, ◌≤◌, ◌+◌, ◌++◌, ℕ, Bool, [], ◌∷◌, IsOk, IfOk};
ghost use Rattle.std.specs.Prelude.{OnOk, OnErr, true, false, None, option_map, length, map};
ghost use Rattle.std.specs.Prelude.{slice_get};
ghost use Rattle.std.specs.Fn.{FnReturnsAt};
ghost use Rattle.std.specs.List.{filter_map, AllByRecursion};
ghost use Rattle.std.specs.VecDeque.{deque_len, deque_capacity};
ghost use Rattle.indexmap.specs.IndexMap.{spare};
ghost use Rattle.gtp_reliable.specs.Waiting.{sent_again, given_up};
ghost use Rattle.gtp_reliable.specs.Due.{message_of};
ghost use Rattle.gtp_reliable.specs.Rows.{seen, row_of, without, others_of, moved};
ghost use Rattle.gtp_reliable.specs.Rows.{front_is_due, ticked, rows_of, has_gap, slot_of};
ghost use Rattle.gtp_reliable.specs.Rows.{number_where, is_other};
ghost use Rattle.gtp_reliable.specs.Rows.{AreNamed, AreApart};
ghost use Rattle.gtp_reliable.specs.Ages.{AreInTurn};

use crate::numbered::{move_to, put_in, take_out};
use crate::pending::{Due, Resend};
use crate::queue::place_of;
use crate::waiting::{NextTick, Row};
use indexmap::IndexMap;
use std::alloc::{AllocError, Global};
use std::collections::VecDeque;
use std::marker::Model;

/// Requests in order of their last sending, so that those that are due stand in front. A request is found by its
/// number. One that ends leaves a gap. Gaps in front are dropped. All gaps are closed where no slot is left and half of
/// the slots are gaps; that moves no more requests than have ended.
#[derive(Debug, Drop)]
pub struct Rows<P: Copy> {
    /// In order of the last sending. There is no gap in front.
    slots: VecDeque<Option<Row<P>>>,
    /// The number of the front slot. Slots are numbered one after another, modulo 2^64.
    first: u64,
    /// The number of the slot of each request, by the request's number.
    names: IndexMap<u32, u64>,
    /// Whether there is room for one more.
    ready: bool,
}

impl<P: Copy> Model for Rows<P> {
    ghost use Rattle.std.specs.Prelude.{◌≡◌, ◌<◌, true, false, length};
    ghost use Rattle.std.specs.VecDeque.{deque_len, deque_capacity};
    ghost use Rattle.indexmap.specs.IndexMap.{spare};
    ghost use Rattle.gtp_reliable.specs.Rows.{Queued, rows_of, has_gap, AreNamed, AreApart};

    ghost Value = { Queued P };

    ghost view = { λ a. record { rows = rows_of a.slots.items; has_room = a.ready } };

    ghost invariant = { λ a. record {
      names : AreNamed a.names.entries a.first a.slots.items;
      apart : AreApart (rows_of a.slots.items);
      front : has_gap a.slots.items ≡ false;
      count : length a.names.entries ≡ length (rows_of a.slots.items);
      room : a.ready ≡ true
          → (deque_len a.slots < deque_capacity a.slots) × (0 < spare a.names);
    } };
}

/// Whether there is a gap in front.
fn has_gap<P: Copy>(slots: &VecDeque<Option<Row<P>>>) -> bool
    ensures { result ≡ has_gap slots.now.items }
{
    matches!(slots.front(), Some(None))
}

/// Drops the gaps in front.
fn drop_gaps<P: Copy>(slots: &mut VecDeque<Option<Row<P>>>, first: &mut u64)
    ensures rows { rows_of slots.new.items ≡ rows_of slots.old.items }
    ensures names { (n : ℕ) → slot_of n first.new slots.new.items
        ≡ slot_of n first.old slots.old.items }
    ensures front { has_gap slots.new.items ≡ false }
    ensures capacity { deque_capacity slots.new ≡ deque_capacity slots.old }
    ensures len { deque_len slots.new ≤ deque_len slots.old }
{
    while has_gap(slots) {
        slots.pop_front();
        *first = first.wrapping_add(1);
    }
}

/// Makes gaps of the requests whose purpose meets the test.
fn cut_where<P: Copy, F: Fn(&P) -> bool>(
    slots: &mut VecDeque<Option<Row<P>>>,
    names: &mut IndexMap<u32, u64>,
    first: u64,
    test: &F,
)
    ghost meets: { P → Bool }
    requires callable { F.IsAlwaysCallable test.now }
    requires answers { (p : P) (b : Bool) → FnReturnsAt F.Fn test.now p b → b ≡ meets p }
    requires named { AreNamed names.old.entries first slots.old.items }
    requires apart { AreApart (rows_of slots.old.items) }
    requires count { length names.old.entries ≡ length (rows_of slots.old.items) }
    ensures rows { rows_of slots.new.items ≡ others_of meets (rows_of slots.old.items) }
    ensures named { AreNamed names.new.entries first slots.new.items }
    ensures count { length names.new.entries ≡ length (rows_of slots.new.items) }
    ensures room { (deque_len slots.new ≡ deque_len slots.old)
        × (deque_capacity slots.new ≡ deque_capacity slots.old)
        × (spare names.old ≤ spare names.new) }
{
    for at in 0..slots.len() {
        if let Some(number) = number_where(&slots[at], test) {
            take_out(names, number);
            slots[at] = None;
        }
    }
}

/// The number of the request in a slot, if its purpose meets the test.
fn number_where<P: Copy, F: Fn(&P) -> bool>(slot: &Option<Row<P>>, test: &F) -> Option<u32>
    ghost meets: { P → Bool }
    requires callable { F.IsAlwaysCallable test.now }
    requires answers { (p : P) (b : Bool) → FnReturnsAt F.Fn test.now p b → b ≡ meets p }
    ensures { result ≡ number_where meets slot.now }
{
    match slot {
        Some(row) if row.meets(test) => Some(row.seq.number()),
        _ => None,
    }
}

/// Whether there is a request in a slot whose purpose does not meet the test.
fn is_other<P: Copy, F: Fn(&P) -> bool>(slot: &Option<Row<P>>, test: &F) -> bool
    ghost meets: { P → Bool }
    requires callable { F.IsAlwaysCallable test.now }
    requires answers { (p : P) (b : Bool) → FnReturnsAt F.Fn test.now p b → b ≡ meets p }
    ensures { result ≡ is_other meets slot.now }
{
    match slot {
        Some(row) => !row.meets(test),
        None => false,
    }
}

/// How many requests have a purpose that does not meet the test.
fn count_others<P: Copy, F: Fn(&P) -> bool>(slots: &VecDeque<Option<Row<P>>>, test: &F) -> usize
    ghost meets: { P → Bool }
    requires callable { F.IsAlwaysCallable test.now }
    requires answers { (p : P) (b : Bool) → FnReturnsAt F.Fn test.now p b → b ≡ meets p }
    ensures { result ≡ length (others_of meets (rows_of slots.now.items)) }
{
    let mut count = 0;
    for at in 0..slots.len() {
        if is_other(&slots[at], test) {
            count += 1;
        }
    }
    count
}

/// The request in a slot, to be sent again.
fn resend_of<P: Copy>(alloc: Global, row: &Row<P>) -> Result<Resend, AllocError>
    ensures { IfOk result (λ r.
        (r.seq ≡ row.now.seq) × (r.to ≡ row.now.to) × (r.octets.items ≡ row.now.octets)) }
{
    Ok(Resend {
        seq: row.seq,
        to: row.to,
        octets: Vec::from_slice(alloc, row.octets.as_slice())?,
    })
}

/// What the tick after `now` does, from the front. Allocates nothing if that is nothing.
fn due_of<P: Copy>(
    alloc: Global,
    slots: &VecDeque<Option<Row<P>>>,
    now: u32,
    t3: u32,
    n3: u32,
) -> Result<Due<P>, AllocError>
    requires times { 1 ≤ t3 }
    requires turn { AreInTurn t3 (map (seen now) (rows_of slots.now.items)) }
    ensures resend { IfOk result (λ due. map message_of due.resend.items
        ≡ filter_map (sent_again t3 n3) (map (seen now) (rows_of slots.now.items))) }
    ensures gave_up { IfOk result (λ due. due.gave_up.items
        ≡ filter_map (given_up t3 n3) (map (seen now) (rows_of slots.now.items))) }
    ensures quiet { AllByRecursion (λ w. w.waited + 1 < t3)
        (map (seen now) (rows_of slots.now.items)) → IsOk result }
{
    let mut resend = Vec::new(alloc);
    let mut gave_up = Vec::new(alloc);
    for at in 0..slots.len() {
        if let Some(row) = &slots[at] {
            match row.next_tick(now, t3, n3) {
                NextTick::WaitsOn => break,
                NextTick::SentAgain => resend.push(resend_of(alloc, row)?)?,
                NextTick::GivenUp => gave_up.push((row.seq, row.purpose))?,
            }
        }
    }
    Ok(Due { resend, gave_up })
}

impl<P: Copy> Rows<P> {
    /// No requests. Takes no memory.
    pub fn new(alloc: Global) -> Rows<P>
        ensures { result ≡ record { rows = []; has_room = false } }
    {
        Rows {
            slots: VecDeque::new(alloc),
            first: 0,
            names: IndexMap::new(alloc),
            ready: false,
        }
    }

    /// How many there are.
    pub fn len(&self) -> usize
        ensures { result ≡ length self.now.rows }
    {
        self.names.len()
    }

    /// The request of a number.
    pub fn get(&self, number: u32) -> Option<&Row<P>>
        ensures { option_map (λ r. r.now) result ≡ row_of number self.now.rows }
    {
        let slot = self.names.get(&number)?;
        self.slots[place_of(self.first, *slot)].as_ref()
    }

    /// The request that waits longest.
    fn front(&self) -> Option<&Row<P>>
        ensures front { option_map (λ r. r.now) result ≡ slice_get self.now.rows 0 }
        // What holds of the requests at all times.
        ensures always { AreApart self.now.rows }
    {
        self.slots.front()?.as_ref()
    }

    /// How many requests have a purpose that does not meet the test.
    pub fn count_others<F: Fn(&P) -> bool>(&self, test: &F) -> usize
        ghost meets: { P → Bool }
        requires callable { F.IsAlwaysCallable test.now }
        requires answers { (p : P) (b : Bool) → FnReturnsAt F.Fn test.now p b → b ≡ meets p }
        ensures { result ≡ length (others_of meets self.now.rows) }
    {
        count_others(&self.slots, test)
    }

    /// What the tick after `now` does, in order of the last sending. Allocates nothing if that is nothing.
    pub fn due(&self, alloc: Global, now: u32, t3: u32, n3: u32) -> Result<Due<P>, AllocError>
        requires times { 1 ≤ t3 }
        requires turn { AreInTurn t3 (map (seen now) self.now.rows) }
        ensures resend { IfOk result (λ due. map message_of due.resend.items
            ≡ filter_map (sent_again t3 n3) (map (seen now) self.now.rows)) }
        ensures gave_up { IfOk result (λ due. due.gave_up.items
            ≡ filter_map (given_up t3 n3) (map (seen now) self.now.rows)) }
        ensures quiet { AllByRecursion (λ w. w.waited + 1 < t3) (map (seen now) self.now.rows)
            → IsOk result }
    {
        due_of(alloc, &self.slots, now, t3, n3)
    }

    /// Puts the front request behind all others, with a tick of sending and a count.
    fn front_to_back(&mut self, sent: u32, resent: u32)
        requires { 0 < length self.old.rows }
        ensures rows { self.new.rows ≡ moved sent resent self.old.rows }
        ensures room { self.new.has_room ≡ self.old.has_room }
    {
        let Some(Some(mut row)) = self.slots.pop_front() else {
            unreachable!()
        };
        row.sent = sent;
        row.resent = resent;
        self.first = self.first.wrapping_add(1);
        let slot = self.first.wrapping_add(self.slots.len() as u64);
        move_to(&mut self.names, row.seq.number(), slot);
        self.slots.push_back_reserved(Some(row));
        drop_gaps(&mut self.slots, &mut self.first);
    }

    /// Closes all gaps: each request goes behind all others once.
    fn close_up(&mut self)
        ensures { self.new ≡ self.old }
    {
        for _turn in 0..self.len() {
            let Some(row) = self.front() else {
                unreachable!()
            };
            let (sent, resent) = (row.sent, row.resent);
            self.front_to_back(sent, resent);
        }
    }

    /// Whether no slot is left, and half of them or more are gaps.
    fn has_half_gaps(&self) -> bool {
        self.slots.len() == self.slots.capacity() && self.len() <= self.slots.len() / 2
    }

    /// Room for one more; nothing else changes. After an error all is as before.
    pub fn reserve(&mut self) -> Result<(), AllocError>
        ensures room { OnOk result (self.new ≡ record self.old { has_room = true }) }
        ensures memory { OnErr result (self.old.has_room ≡ false) }
        ensures err { OnErr result (self.new ≡ self.old) }
    {
        if self.ready {
            return Ok(());
        }
        if self.has_half_gaps() {
            self.close_up();
        }
        self.slots.try_reserve(1)?;
        self.names.reserve(1)?;
        self.ready = true;
        Ok(())
    }

    /// Puts a request behind all others, in the room that there is.
    pub fn push(&mut self, row: Row<P>)
        requires room { self.old.has_room ≡ true }
        requires free { row_of row.seq self.old.rows ≡ None }
        ensures { self.new.rows ≡ self.old.rows ++ row ∷ [] }
    {
        let slot = self.first.wrapping_add(self.slots.len() as u64);
        put_in(&mut self.names, row.seq.number(), slot);
        self.slots.push_back_reserved(Some(row));
        self.ready = false;
    }

    /// The request of a number ends, where there is one.
    pub fn finish(&mut self, number: u32)
        ensures rows { self.new.rows ≡ without number self.old.rows }
        ensures room { self.new.has_room ≡ self.old.has_room }
    {
        if let Some(slot) = take_out(&mut self.names, number) {
            let at = place_of(self.first, slot);
            self.slots[at] = None;
            drop_gaps(&mut self.slots, &mut self.first);
        }
    }

    /// All requests end whose purpose meets the test.
    pub fn finish_where<F: Fn(&P) -> bool>(&mut self, test: &F)
        ghost meets: { P → Bool }
        requires callable { F.IsAlwaysCallable test.now }
        requires answers { (p : P) (b : Bool) → FnReturnsAt F.Fn test.now p b → b ≡ meets p }
        ensures rows { self.new.rows ≡ others_of meets self.old.rows }
        ensures room { self.new.has_room ≡ self.old.has_room }
    {
        cut_where(&mut self.slots, &mut self.names, self.first, test);
        drop_gaps(&mut self.slots, &mut self.first);
    }

    /// Sends the front request again or gives it up, if the tick after `now` does: whether it does.
    fn tick_front(&mut self, now: u32, t3: u32, n3: u32) -> bool
        requires { 1 ≤ t3 }
        ensures due { result ≡ front_is_due t3 now self.old.rows }
        ensures rows { self.new.rows ≡ ticked t3 n3 now 1 self.old.rows }
        ensures room { self.new.has_room ≡ self.old.has_room }
    {
        let Some(row) = self.front() else {
            return false;
        };
        let number = row.seq.number();
        let resent = row.resent;
        match row.next_tick(now, t3, n3) {
            NextTick::WaitsOn => return false,
            NextTick::SentAgain => self.front_to_back(now.wrapping_add(1), resent + 1),
            NextTick::GivenUp => self.finish(number),
        }
        true
    }

    /// The tick after `now` passes: what is due is sent again or given up, from the front.
    pub fn tick(&mut self, now: u32, t3: u32, n3: u32)
        requires { 1 ≤ t3 }
        ensures rows { self.new.rows ≡ ticked t3 n3 now (length self.old.rows) self.old.rows }
        ensures room { self.new.has_room ≡ self.old.has_room }
    {
        for _turn in 0..self.len() {
            if !self.tick_front(now, t3, n3) {
                break;
            }
        }
    }
}
