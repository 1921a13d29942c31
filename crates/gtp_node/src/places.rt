//! Keys in order, each with the place of the first one.

ghost use Rattle.std.specs.Prelude.{◌≡◌, ◌++◌, ◌-◌, [], ◌∷◌, length, take, Some, None, IsSome, OnOk, OnErr};
ghost use Rattle.std.specs.BTreeMap.{get, IsUnchanged, Updates};
ghost use Rattle.gtp_node.specs.Places.{first_by};

use gtp_values::Memory;
use std::alloc::Global;
use std::cmp::Ord;
use std::collections::BTreeMap;
use std::marker::Model;

/// Keys, as the addresses of peers, in the order in which they were added. Contracts see the list.
#[derive(Drop)]
pub struct Places<K: Ord + Copy> {
    order: Vec<K>,
    /// Of each key the first place.
    first: BTreeMap<K, usize>,
}

impl<K: Ord + Copy> Model for Places<K> {
    ghost use Rattle.std.specs.Prelude.{◌≡◌, List};
    ghost use Rattle.std.specs.BTreeMap.{get};
    ghost use Rattle.std.specs.Coded.{codes};
    ghost use Rattle.gtp_node.specs.Places.{first_by};

    ghost Value = { List K };

    ghost coded = { Prim.hlevel (codes, K.code) };

    ghost view = { λ p. p.order.items };

    ghost invariant = { λ p. (key : K) → get K.cmp p.first key ≡ first_by K.eq key p.order.items };
}

/// Puts a place under a key that has none. `Memory` if an allocation was refused: then nothing changes.
fn put_absent<K: Ord + Copy>(
    first: &mut BTreeMap<K, usize>,
    key: K,
    place: usize,
) -> Result<(), Memory>
    ensures present { IsSome (get K.cmp first.old key) → IsUnchanged first.old first.new }
    ensures absent { OnOk result (get K.cmp first.old key ≡ None →
        Updates K.cmp first.old first.new key (Some place)) }
    ensures err { OnErr result (IsUnchanged first.old first.new) }
{
    if first.get(&key).is_some() {
        return Ok(());
    }
    match first.insert(key, place) {
        Ok(_) => Ok(()),
        Err(_) => Err(Memory),
    }
}

impl<K: Ord + Copy> Places<K> {
    /// No keys. Takes no memory.
    pub fn new(alloc: Global) -> Places<K>
        ensures { result ≡ [] }
    {
        Places {
            order: Vec::new(alloc),
            first: BTreeMap::new(alloc),
        }
    }

    /// How many there are.
    pub fn len(&self) -> usize
        ensures { result ≡ length self.now }
    {
        self.order.len()
    }

    /// The first place of a key. Takes time that grows with the logarithm of their number, and no memory.
    pub fn place_of(&self, key: &K) -> Option<usize>
        ensures { result ≡ first_by K.eq key.now self.now }
    {
        self.first.get(key).copied()
    }

    /// Adds a key behind the others. `Memory` if an allocation was refused: then nothing changes.
    pub fn push(&mut self, key: K) -> Result<(), Memory>
        ensures ok { OnOk result (self.new ≡ self.old ++ key ∷ []) }
        ensures err { OnErr result (self.new ≡ self.old) }
    {
        let place = self.order.len();
        if self.order.try_reserve(1).is_err() {
            return Err(Memory);
        }
        put_absent(&mut self.first, key, place)?;
        match self.order.push(key) {
            Ok(()) => Ok(()),
            Err(_) => unreachable!(),
        }
    }

    /// Takes the last key away, if there is one.
    pub fn pop(&mut self)
        ensures { self.new ≡ take (length self.old - 1) self.old }
    {
        let Some(key) = self.order.pop() else {
            return;
        };
        if self.first.get(&key).copied() == Some(self.order.len()) {
            self.first.remove(&key);
        }
    }
}
