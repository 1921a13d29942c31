//! Contexts by own TEID.

ghost use Rattle.std.specs.Prelude.{◌≡◌, ◌↔◌, ◌<◌, ◌≤◌, ℕ, Bool, Option, None, Some, true, false, not};
ghost use Rattle.std.specs.Prelude.{IsSome, IsTrue, IsOk, IfErr, OnOk, OnErr};
ghost use Rattle.std.specs.Prelude.{filter, slice_get, is_some, length};
ghost use Rattle.std.specs.Prelude.{vec_len, vec_capacity};
ghost use Rattle.std.specs.List.{list_any, IsDistinct};
ghost use Rattle.std.specs.Fn.{FnReturnsAt};
ghost use Rattle.std.specs.Prelude.{[], ◌∷◌, ◌++◌, cond, nat_eq};
ghost use Rattle.std.specs.FinMap as map;
ghost use Rattle.std.specs.Map.{lookup, set_value, keys_of};
ghost use Rattle.indexmap.specs.IndexMap.{spare};
ghost use Rattle.gtp_values.specs.FiniteMap.{Each, kept};
ghost use Rattle.gtp_tables.specs.Deciding.{Answers};
ghost use Rattle.gtp_tables.specs.Rows.{AreRising};

use crate::fault::TablesFault;
use gtp_values::Teid;
use indexmap::IndexMap;
use std::alloc::Global;
use std::marker::Model;

/// What stands under each TEID of the gateway's own, in order of the TEIDs. Contracts see a finite
/// map, and whether one more can be added without an allocation.
#[derive(Drop)]
pub struct Table<V: Copy> {
    /// In no order, so that a removal moves one row and not all that come after it.
    pub(crate) rows: IndexMap<Teid, V>,
    /// The TEIDs of the rows, ascending.
    keys: Vec<Teid>,
    ready: bool,
}

impl<V: Copy> Model for Table<V> {
    ghost use Rattle.std.specs.Prelude.{◌≡◌, ◌<◌, true, nat_eq, vec_len, vec_capacity};
    ghost use Rattle.std.specs.List.{IsDistinct};
    ghost use Rattle.std.specs.Map.{keys_of};
    ghost use Rattle.std.specs.FinMap as map;
    ghost use Rattle.std.specs.Ordering.{nat_cmp};
    ghost use Rattle.indexmap.specs.IndexMap.{spare};
    ghost use Rattle.gtp_tables.specs.Rows.{Rows, rows_code};

    ghost Value = { Rows V };

    ghost coded = { rows_code V.code };

    ghost view = { λ a. record { table = map.from_entries a.rows.entries; has_room = a.ready } };

    ghost invariant = { λ a. record {
      keys : a.keys.items ≡ map.keys (map.from_entries {R = nat_cmp} a.rows.entries);
      distinct : IsDistinct nat_eq (keys_of a.rows.entries);
      room : a.ready ≡ true → (0 < spare a.rows) × (vec_len a.keys < vec_capacity a.keys);
    } };
}

impl<V: Copy> Table<V> {
    /// An empty table. Takes no memory.
    pub fn new(alloc: Global) -> Table<V>
        ensures { result ≡ record { table = map.empty; has_room = false } }
    {
        Table {
            rows: IndexMap::new(alloc),
            keys: Vec::new(alloc),
            ready: false,
        }
    }

    /// How many there are.
    pub fn len(&self) -> usize
        ensures { result ≡ map.len self.now.table }
    {
        self.keys.len()
    }

    /// What stands under a TEID.
    pub fn get(&self, teid: Teid) -> Option<V>
        ensures { result ≡ map.get self.now.table teid }
    {
        self.rows.get(&teid).copied()
    }

    /// Room for one more, however many there are: `Memory` where an allocation was refused. Nothing
    /// else changes.
    pub fn reserve_one(&mut self) -> Result<(), TablesFault>
        ensures ok { OnOk result (self.new ≡ record self.old { has_room = true }) }
        ensures err { OnErr result (self.new ≡ self.old) }
        ensures fault { IfErr result (λ f. f ≡ TablesFault.Memory) }
        ensures ready { self.old.has_room ≡ true → IsOk result }
    {
        if !self.ready {
            self.rows.reserve(1)?;
            self.keys.try_reserve(1)?;
            self.ready = true;
        }
        Ok(())
    }

    /// Adds one under a TEID above all those in the table, in the room that was prepared. Takes no
    /// memory.
    pub fn add(&mut self, teid: Teid, value: V)
        requires room { self.old.has_room ≡ true }
        requires rises { Each (λ key _. key < teid) self.old.table }
        ensures table { self.new.table ≡ map.insert self.old.table teid value }
    {
        put_last(&mut self.rows, teid, value);
        if self.keys.push(teid).is_err() {
            unreachable!()
        }
        self.ready = false;
    }

    /// Whether a TEID is above all those in the table, so that one can be added under it.
    pub fn is_above(&self, teid: Teid) -> bool
        ensures { IsTrue result ↔ Each (λ key _. key < teid) self.now.table }
    {
        let len = self.len();
        if len == 0 {
            return true;
        }
        match self.at(len - 1) {
            Some(last) => last.0 < teid,
            None => unreachable!(),
        }
    }

    /// Puts another in the place of one that stands there. Takes no memory.
    pub fn replace(&mut self, teid: Teid, value: V)
        requires stands { IsSome (map.get self.old.table teid) }
        ensures { self.new ≡ record self.old { table = map.insert self.old.table teid value } }
    {
        put_there(&mut self.rows, teid, value);
    }

    /// What stands at an index in order of the TEIDs, from 0.
    pub fn at(&self, index: usize) -> Option<(Teid, V)>
        ensures { result ≡ slice_get (map.entries self.now.table) index }
    {
        let teid = key_at(self.keys.as_slice(), index)?;
        match self.get(teid) {
            Some(value) => Some((teid, value)),
            None => unreachable!(),
        }
    }

    /// What stands there, in any order: whether a test is met, and how often, is the same in each.
    pub(crate) fn values(&self) -> &[V]
        ensures any { (p : V → Bool) → list_any p result.now
            ≡ list_any p (map.values self.now.table) }
        ensures count { (p : V → Bool) → length (filter p result.now)
            ≡ map.len (kept (λ _ x. p x) self.now.table) }
    {
        self.rows.values().as_slice()
    }

    /// Removes all that meet the test, whose answer a value determines. Takes no memory.
    pub fn remove_where<F: Fn(&V) -> bool>(&mut self, test: F)
        requires callable { F.IsAlwaysCallable test }
        requires decides { (goes : V → Bool) × Answers (FnReturnsAt F.Fn test) goes }
        ensures { (goes : V → Bool) → Answers (FnReturnsAt F.Fn test) goes
            → self.new ≡ record self.old { table = kept (λ _ x. not (goes x)) self.old.table } }
    {
        drop_where(&mut self.rows, test);
        keep_keys(&mut self.keys, &self.rows);
    }

    /// Removes what stands under each TEID that meets the test, whose answer a TEID determines. Takes
    /// no memory.
    pub fn remove_keys_where<F: Fn(&Teid) -> bool>(&mut self, test: F)
        requires callable { F.IsAlwaysCallable test }
        requires decides { (goes : ℕ → Bool) × Answers (FnReturnsAt F.Fn test) goes }
        ensures { (goes : ℕ → Bool) → Answers (FnReturnsAt F.Fn test) goes
            → self.new ≡ record self.old { table = kept (λ t _. not (goes t)) self.old.table } }
    {
        drop_keys_where(&mut self.rows, test);
        keep_keys(&mut self.keys, &self.rows);
    }

    /// Removes what stands under a TEID, if anything does. Takes no memory.
    pub fn remove(&mut self, teid: Teid)
        ensures { self.new ≡ record self.old { table = map.remove self.old.table teid } }
    {
        take_out(&mut self.rows, teid);
        cut_key(&mut self.keys, teid);
    }
}

/// The key at a place.
fn key_at(keys: &[Teid], index: usize) -> Option<Teid>
    ensures { result ≡ slice_get keys.now index }
{
    keys.get(index).copied()
}

/// Adds a row under a new key.
fn put_last<V: Copy>(rows: &mut IndexMap<Teid, V>, key: Teid, value: V)
    requires room { 0 < spare rows.old }
    requires new { lookup (nat_eq key) rows.old.entries ≡ None }
    ensures entries { rows.new.entries ≡ rows.old.entries ++ (key, value) ∷ [] }
    ensures distinct { IsDistinct nat_eq (keys_of rows.new.entries) }
{
    if rows.insert(key, value).is_err() {
        unreachable!()
    }
}

/// Puts another value in the place of one that stands there.
fn put_there<V: Copy>(rows: &mut IndexMap<Teid, V>, key: Teid, value: V)
    requires stands { IsSome (lookup (nat_eq key) rows.old.entries) }
    ensures entries { rows.new.entries ≡ set_value (nat_eq key) rows.old.entries value }
    ensures distinct { IsDistinct nat_eq (keys_of rows.new.entries) }
    ensures room { spare rows.old ≡ spare rows.new }
{
    match rows.get_mut(&key) {
        Some(there) => *there = value,
        None => unreachable!(),
    }
}

/// Takes a row out.
pub(crate) fn take_out<V: Copy>(rows: &mut IndexMap<Teid, V>, key: Teid)
    ensures distinct { IsDistinct nat_eq (keys_of rows.new.entries) }
    ensures rows { (q : ℕ) → lookup (nat_eq q) rows.new.entries
        ≡ cond (nat_eq key q) None (lookup (nat_eq q) rows.old.entries) }
    ensures room { spare rows.old ≤ spare rows.new }
{
    rows.swap_remove(&key);
}

/// Takes a key out, where it is there.
fn cut_key(keys: &mut Vec<Teid>, key: Teid)
    requires rising { AreRising keys.old.items }
    ensures keys { keys.new.items ≡ filter (λ k. not (nat_eq key k)) keys.old.items }
    ensures room { vec_len keys.old < vec_capacity keys.old
        → vec_len keys.new < vec_capacity keys.new }
{
    if let Ok(at) = keys.binary_search(&key) {
        keys.remove(at);
    }
}

/// Keeps the keys that have a row.
fn keep_keys<V: Copy>(keys: &mut Vec<Teid>, rows: &IndexMap<Teid, V>)
    ensures keys { keys.new.items
        ≡ filter (λ k. is_some (lookup (nat_eq k) rows.now.entries)) keys.old.items }
    ensures room { vec_len keys.old < vec_capacity keys.old
        → vec_len keys.new < vec_capacity keys.new }
{
    keys.retain(
        |key: &Teid| -> bool
            ensures { result ≡ is_some (lookup (nat_eq key.now) rows.entry.now.entries) }
        { rows.contains_key(key) },
    );
}

/// Drops the rows whose value meets the test.
fn drop_where<V: Copy, F: Fn(&V) -> bool>(rows: &mut IndexMap<Teid, V>, test: F)
    requires callable { F.IsAlwaysCallable test }
    ensures entries { (goes : V → Bool) → Answers (FnReturnsAt F.Fn test) goes
        → rows.new.entries ≡ filter (λ e. not (goes e.1)) rows.old.entries }
    ensures distinct { IsDistinct nat_eq (keys_of rows.new.entries) }
    ensures room { spare rows.old ≤ spare rows.new }
{
    rows.retain(
        |_key: &Teid, value: &mut V| -> bool
            requires { F.IsAlwaysCallable test }
            ensures { ((r : Bool) × FnReturnsAt F.Fn test value.old r × (result ≡ not r))
                × (value.new ≡ value.old) }
        { !meets(&test, &*value) },
    );
}

/// Drops the rows whose key meets the test.
fn drop_keys_where<V: Copy, F: Fn(&Teid) -> bool>(rows: &mut IndexMap<Teid, V>, test: F)
    requires callable { F.IsAlwaysCallable test }
    ensures entries { (goes : ℕ → Bool) → Answers (FnReturnsAt F.Fn test) goes
        → rows.new.entries ≡ filter (λ e. not (goes e.0)) rows.old.entries }
    ensures distinct { IsDistinct nat_eq (keys_of rows.new.entries) }
    ensures room { spare rows.old ≤ spare rows.new }
{
    rows.retain(
        |key: &Teid, value: &mut V| -> bool
            requires { F.IsAlwaysCallable test }
            ensures { ((r : Bool) × FnReturnsAt F.Fn test key.now r × (result ≡ not r))
                × (value.new ≡ value.old) }
        { !meets(&test, key) },
    );
}

/// What a test answers.
pub(crate) fn meets<V: Copy, F: Fn(&V) -> bool>(test: &F, value: &V) -> bool
    requires { F.IsAlwaysCallable test.now }
    ensures { FnReturnsAt F.Fn test.now value.now result }
{
    test(value)
}
