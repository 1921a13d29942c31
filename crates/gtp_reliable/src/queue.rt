//! A queue of held pairs with its index: where a request is found, and what a tick gives up.

ghost use Rattle.std.specs.Prelude.{◌≡◌, ◌<◌, ◌≤◌, ◌+◌, ◌%◌, ◌^◌, ◌++◌, [], ◌∷◌, All, drop};
ghost use Rattle.std.specs.Prelude.{length, map, vec_len, vec_capacity, IfOk, IfErr, IsOk};
ghost use Rattle.std.specs.VecDeque.{deque_len, deque_capacity};
ghost use Rattle.std.specs.List.{filter_map};
ghost use Rattle.gtp_reliable.specs.Held.{after_tick, forgotten};
ghost use Rattle.gtp_reliable.specs.Forgotten.{question_of};
ghost use Rattle.gtp_reliable.specs.Index.{after, asked, question, questions, question_at, IsNamed};
ghost use Rattle.gtp_reliable.specs.Index.{AreLower, AreHigher, IsGap, IsIndex};
ghost use Rattle.gtp_reliable.specs.Aging.{seen, is_due, AreAging};

use crate::held::Request;
use crate::held_answer::Pair;
use gtp_values::Endpoint;
use std::alloc::{AllocError, Global};
use std::cmp::Ordering;
use std::collections::VecDeque;

/// The place in the queue of the pair that was kept under a number, where the front one was kept
/// under `first`.
pub fn place_of(first: u64, number: u64) -> usize
    ensures { result ≡ after first number }
{
    number.wrapping_sub(first) as usize
}

/// The sequence number of a request (TS 29.274 5.1).
fn number_of(request: &[u8]) -> u32 {
    match request.get(8..11) {
        Some(octets) => u32::from_be_bytes([0, octets[0], octets[1], octets[2]]),
        None => 0,
    }
}

/// The place of the index to look at first: where the request would stand if the sequence numbers
/// rose evenly. Any place would do.
fn guess(pairs: &VecDeque<Pair>, index: &[u64], first: u64, request: &[u8]) -> usize
    requires some { 0 < length index.now }
    requires indexed { IsIndex first index.now (questions pairs.now.items) }
    ensures { result < length index.now }
{
    let last = index.len() - 1;
    let lowest = number_of(pairs[place_of(first, index[0])].request.as_slice());
    let highest = number_of(pairs[place_of(first, index[last])].request.as_slice());
    let above = u64::from(number_of(request).saturating_sub(lowest));
    let range = u64::from(highest.saturating_sub(lowest)).max(1);
    let place = above.saturating_mul(last as u64) / range;
    place.min(last as u64) as usize
}

/// Where the index names a pair for the request, or where it would name one, by halving the places
/// from `from` up to `to`; and how many pairs were compared with the request.
fn halve(
    pairs: &VecDeque<Pair>,
    index: &[u64],
    first: u64,
    source: Endpoint,
    request: &[u8],
    from: usize,
    to: usize,
) -> (Result<usize, usize>, u32)
    requires few { length index.now ≤ 4096 }
    requires indexed { IsIndex first index.now (questions pairs.now.items) }
    requires range { (from ≤ to) × (to ≤ length index.now) }
    requires lower { AreLower first index.now
        (questions pairs.now.items) (question source request.now) from }
    requires higher { AreHigher first index.now
        (questions pairs.now.items) (question source request.now) to }
    ensures found { IfOk result.0
        (IsNamed first index.now (questions pairs.now.items) (question source request.now)) }
    ensures absent { IfErr result.0
        (IsGap first index.now (questions pairs.now.items) (question source request.now)) }
    ensures count { result.1 ≤ 13 }
{
    let mut low = from;
    let mut high = to;
    let mut compared: u32 = 0;
    while low < high {
        let middle = low + (high - low) / 2;
        let pair = &pairs[place_of(first, index[middle])];
        compared += 1;
        match pair.compare(source, request) {
            Ordering::Less => low = middle + 1,
            Ordering::Equal => return (Ok(middle), compared),
            Ordering::Greater => high = middle,
        }
    }
    (Err(low), compared)
}

/// Where the index names a pair for the request, or where it would name one: first where its
/// sequence number lets it be expected, and then by halving what is left; and how many pairs were
/// compared with the request.
pub fn find(
    pairs: &VecDeque<Pair>,
    index: &[u64],
    first: u64,
    source: Endpoint,
    request: &[u8],
) -> (Result<usize, usize>, u32)
    requires few { length index.now ≤ 4096 }
    requires indexed { IsIndex first index.now (questions pairs.now.items) }
    ensures found { IfOk result.0
        (IsNamed first index.now (questions pairs.now.items) (question source request.now)) }
    ensures absent { IfErr result.0
        (IsGap first index.now (questions pairs.now.items) (question source request.now)) }
    ensures count { result.1 ≤ 14 }
{
    if index.is_empty() {
        return (Err(0), 0);
    }
    let at = guess(pairs, index, first, request);
    let pair = &pairs[place_of(first, index[at])];
    let (found, compared) = match pair.compare(source, request) {
        Ordering::Less => halve(pairs, index, first, source, request, at + 1, index.len()),
        Ordering::Equal => return (Ok(at), 1),
        Ordering::Greater => halve(pairs, index, first, source, request, 0, at),
    };
    (found, compared + 1)
}

/// Keeps a pair for a request for which none is held, in the room that was prepared.
pub fn keep(pairs: &mut VecDeque<Pair>, index: &mut Vec<u64>, first: u64, pair: Pair)
    requires queue { deque_len pairs.old < deque_capacity pairs.old }
    requires room { vec_len index.old < vec_capacity index.old }
    requires few { length pairs.old.items ≤ 4096 }
    requires indexed { IsIndex first index.old.items (questions pairs.old.items) }
    requires free { (k : _) → k < length pairs.old.items
        → question_at (questions pairs.old.items) k ≡ asked pair → ⊥ }
    ensures pairs { pairs.new.items ≡ pairs.old.items ++ pair ∷ [] }
    ensures indexed { IsIndex first index.new.items (questions pairs.new.items) }
{
    let (found, _) = find(
        pairs,
        index.as_slice(),
        first,
        pair.source,
        pair.request.as_slice(),
    );
    let Err(at) = found else { unreachable!() };
    let number = first.wrapping_add(pairs.len() as u64);
    if index.insert(at, number).is_err() {
        unreachable!()
    }
    pairs.push_back_reserved(pair);
}

/// The front pair is given up.
fn forget(pairs: &mut VecDeque<Pair>, index: &mut Vec<u64>, first: &mut u64)
    requires some { 0 < length pairs.old.items }
    requires few { length pairs.old.items ≤ 4096 }
    requires indexed { IsIndex first.old index.old.items (questions pairs.old.items) }
    ensures pairs { pairs.new.items ≡ drop 1 pairs.old.items }
    ensures indexed { IsIndex first.new index.new.items (questions pairs.new.items) }
{
    let front = &pairs[0];
    let (found, _) = find(
        pairs,
        index.as_slice(),
        *first,
        front.source,
        front.request.as_slice(),
    );
    let Ok(at) = found else { unreachable!() };
    index.remove(at);
    pairs.pop_front();
    *first = first.wrapping_add(1);
}

/// Whether the next tick gives up the front pair.
fn front_is_due(pairs: &VecDeque<Pair>, now: u64, hold: u32) -> bool
    requires { 1 ≤ hold }
    ensures { result ≡ is_due now hold pairs.now.items }
{
    match pairs.front() {
        Some(pair) => !pair.stays(now, hold),
        None => false,
    }
}

/// A tick passes: gives up what is due, from the front. `now` is the tick before.
pub fn tick_all(
    pairs: &mut VecDeque<Pair>,
    index: &mut Vec<u64>,
    first: &mut u64,
    now: u64,
    hold: u32,
)
    requires hold { 1 ≤ hold }
    requires few { length pairs.old.items ≤ 4096 }
    requires indexed { IsIndex first.old index.old.items (questions pairs.old.items) }
    requires aging { AreAging now hold pairs.old.items }
    ensures pairs { map (seen ((now + 1) % 2 ^ 64)) pairs.new.items
        ≡ filter_map (after_tick hold) (map (seen now) pairs.old.items) }
    ensures indexed { IsIndex first.new index.new.items (questions pairs.new.items) }
    ensures aging { AreAging ((now + 1) % 2 ^ 64) hold pairs.new.items }
{
    while front_is_due(pairs, now, hold) {
        forget(pairs, index, first);
    }
}

/// The requests that the next tick forgets, from the front. Allocates nothing if there is none.
pub fn forgotten_by_tick(
    alloc: Global,
    pairs: &VecDeque<Pair>,
    now: u64,
    hold: u32,
) -> Result<Vec<Request>, AllocError>
    requires hold { 1 ≤ hold }
    requires aging { AreAging now hold pairs.now.items }
    ensures list { IfOk result (λ v.
        map question_of v.items ≡ filter_map (forgotten hold) (map (seen now) pairs.now.items)) }
    ensures quiet { All (λ p. p.age + 1 < hold) (map (seen now) pairs.now.items) → IsOk result }
{
    let mut requests = Vec::new(alloc);
    for at in 0..pairs.len() {
        let pair = &pairs[at];
        if pair.stays(now, hold) {
            break;
        }
        requests.push(Request {
            source: pair.source,
            octets: Vec::from_slice(alloc, pair.request.as_slice())?,
        })?;
    }
    Ok(requests)
}
