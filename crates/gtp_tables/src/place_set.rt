//! Sets of places.

ghost use Rattle.std.specs.Prelude.{◌≡◌, ◌<◌, ◌≤◌, ◌+◌, ◌*◌, ◌/◌, ◌^◌, ℕ, true, false, not, nat_eq, cond};
ghost use Rattle.std.specs.Prelude.{length, replicate, IfOk};
ghost use Rattle.gtp_tables.specs.Lowest.{IsFirstFree, IsLowest};
ghost use Rattle.gtp_tables.specs.PlaceSet.{has_place, is_empty, IsWritten};

use std::alloc::{AllocError, Global};
use std::marker::Model;

/// How many places a word has.
const WIDTH: usize = 64;

/// A set of places. Contracts see its words, in which each place has a bit.
#[derive(Drop)]
pub(crate) struct PlaceSet {
    words: Vec<u64>,
    /// A bit for each word, set where the word is not 0.
    summary: Vec<u64>,
}

impl Model for PlaceSet {
    ghost use Rattle.std.specs.Prelude.{ℕ, List};
    ghost use Rattle.gtp_tables.specs.PlaceSet.{AreSummed};

    ghost Value = { List ℕ };

    ghost view = { λ a. a.words.items };

    ghost invariant = { λ a. AreSummed a.words.items a.summary.items };
}

impl PlaceSet {
    /// No places, and room for those below a count.
    pub fn new(alloc: Global, count: u32) -> Result<PlaceSet, AllocError>
        ensures { IfOk result (λ places. places ≡ replicate (count / 64 + 1) 0) }
    {
        let words = count as usize / WIDTH + 1;
        Ok(PlaceSet {
            words: vec![in alloc; 0; words]?,
            summary: vec![in alloc; 0; words / WIDTH + 1]?,
        })
    }

    /// Adds a place.
    pub fn insert(&mut self, place: usize)
        requires within { place < 64 * length self.old }
        ensures room { length self.new ≡ length self.old }
        ensures places { (p : ℕ) → has_place self.new p
            ≡ cond (nat_eq p place) true (has_place self.old p) }
    {
        set_bit(&mut self.words, place);
        set_bit(&mut self.summary, place / WIDTH);
    }

    /// Removes a place that it has.
    pub fn remove(&mut self, place: usize)
        requires within { place < 64 * length self.old }
        requires has { has_place self.old place ≡ true }
        ensures room { length self.new ≡ length self.old }
        ensures places { (p : ℕ) → has_place self.new p
            ≡ cond (nat_eq p place) false (has_place self.old p) }
    {
        let word = place / WIDTH;
        clear_bit(&mut self.words, place);
        if is_empty(&self.words, word) {
            clear_bit(&mut self.summary, word);
        }
    }

    /// The lowest place.
    pub fn lowest(&self) -> Option<usize>
        ensures { IsFirstFree (64 * length self.now) (λ p. not (has_place self.now p)) result }
    {
        let word = lowest_bit(&self.summary)?;
        Some(lowest_bit_of(&self.words, word))
    }
}

/// Whether a word has no place.
fn is_empty(words: &[u64], word: usize) -> bool
    requires { word < length words.now }
    ensures { result ≡ is_empty words.now word }
{
    words[word] == 0
}

/// Sets the bit of a place.
fn set_bit(words: &mut [u64], place: usize)
    requires { place < 64 * length words.old }
    ensures { IsWritten words.old place true words.new }
{
    words[place / WIDTH] |= 1 << (place % WIDTH);
}

/// Clears the bit of a place.
fn clear_bit(words: &mut [u64], place: usize)
    requires { place < 64 * length words.old }
    ensures { IsWritten words.old place false words.new }
{
    words[place / WIDTH] &= !(1 << (place % WIDTH));
}

/// The lowest place whose bit is set.
fn lowest_bit(words: &[u64]) -> Option<usize>
    requires { length words.now ≤ 2 ^ 32 }
    ensures { IsFirstFree (64 * length words.now) (λ p. not (has_place words.now p)) result }
{
    let word = words.iter().position(|word| *word != 0)?;
    Some(lowest_bit_of(words, word))
}

/// The lowest place whose bit is set, by the first word that is not 0.
fn lowest_bit_of(words: &[u64], word: usize) -> usize
    requires few { length words.now ≤ 2 ^ 32 }
    requires first { IsLowest (length words.now) (is_empty words.now) word }
    ensures { IsLowest (64 * length words.now) (λ p. not (has_place words.now p)) result }
{
    word * WIDTH + words[word].trailing_zeros() as usize
}
