//! Sessions by own control plane TEID.

ghost use Rattle.std.specs.Prelude.{◌≡◌, ◌↔◌, ◌⊎◌, ◌<◌, ◌≤◌, ◌+◌, ◌^◌, ℕ, Bool, List, ◌∷◌, None, true, false, not};
ghost use Rattle.std.specs.Prelude.{IsSome, IsTrue, IsOk, IfOk, IfErr, OnOk, OnErr, IsErrOf};
ghost use Rattle.std.specs.Prelude.{filter, length, slice_get};
ghost use Rattle.std.specs.Fn.{FnReturnsAt};
ghost use Rattle.std.specs.List.{list_any};
ghost use Rattle.std.specs.FinMap as map;
ghost use Rattle.gtp_values.specs.FiniteMap.{Each, kept};
ghost use Rattle.gtp_tables.specs.declared.context.Session.{Session as OneSession};
ghost use Rattle.gtp_tables.specs.Deciding.{Answers};
ghost use Rattle.gtp_tables.specs.Free.{IpVersion, asks_for};
ghost use Rattle.gtp_tables.specs.Lowest.{IsLowestPlace, place_in};
ghost use Rattle.gtp_tables.specs.PoolPlaces.{AreCountedIn};

use crate::context::Session;
use crate::fault::TablesFault;
use crate::listing::SessionList;
use crate::pool::{Asked, Places, Pools};
use crate::pool_places::PoolPlaces;
use crate::table::Table;
use gtp_values::Teid;
use std::alloc::Global;
use std::marker::Model;

/// The most sessions at a time.
pub(crate) const MOST: usize = 1000;

/// Sessions by own control plane TEID. At most 1,000 are made room for. Those of a packet gateway
/// also count who has the addresses of its pools. Contracts see a finite map, and whether one more
/// can be added without an allocation.
#[derive(Drop)]
pub struct Sessions {
    table: Table<Session>,
    /// How many sessions have each address of the pools, where the gateway has pools.
    places: Option<PoolPlaces>,
}

impl Model for Sessions {
    ghost use Rattle.std.specs.FinMap.{values};
    ghost use Rattle.gtp_tables.specs.Rows.{Rows, rows_code};
    ghost use Rattle.gtp_tables.specs.declared.context.Session.{Session as OneSession};
    ghost use Rattle.gtp_tables.specs.contracts.context.Session as session;

    ghost Value = { Rows OneSession };

    ghost coded = { rows_code session.the_row.coded };

    ghost view = { λ a. a.table };

    ghost use Rattle.gtp_tables.specs.PoolPlaces.{AreCountedIn};

    ghost invariant = { λ a. AreCountedIn (values a.table.table) a.places };
}

impl Sessions {
    /// An empty table. Takes no memory.
    pub fn new(alloc: Global) -> Sessions
        ensures { result ≡ record { table = map.empty; has_room = false } }
    {
        Sessions {
            table: Table::new(alloc),
            places: None,
        }
    }

    /// An empty table of a packet gateway with these pools: the lowest free address of them is found
    /// without a search. `Memory` where an allocation was refused.
    pub fn with_pools(alloc: Global, pools: &Pools) -> Result<Sessions, TablesFault>
        ensures value { IfOk result (λ sessions.
            sessions ≡ record { table = map.empty; has_room = false }) }
        ensures fault { IfErr result (λ f. f ≡ TablesFault.Memory) }
    {
        Ok(Sessions {
            table: Table::new(alloc),
            places: Some(PoolPlaces::new(alloc, pools)?),
        })
    }

    /// How many there are.
    pub fn len(&self) -> usize
        ensures { result ≡ map.len self.now.table }
    {
        self.table.len()
    }

    /// Whether there is no place for one more.
    pub fn is_full(&self) -> bool
        ensures { IsTrue result ↔ (1000 ≤ map.len self.now.table) }
    {
        self.len() >= MOST
    }

    /// What stands under a TEID.
    pub fn get(&self, teid: Teid) -> Option<Session>
        ensures { result ≡ map.get self.now.table teid }
    {
        self.table.get(teid)
    }

    /// What stands at an index in order of the TEIDs, from 0.
    pub fn at(&self, index: usize) -> Option<(Teid, Session)>
        ensures { result ≡ slice_get (map.entries self.now.table) index }
    {
        self.table.at(index)
    }

    /// All that stands there, in order of the TEIDs. Takes no memory.
    pub fn iter(&self) -> SessionList<'_>
        ensures { result ≡ map.entries self.now.table }
    {
        self.table.iter()
    }

    /// What stands there, in any order: whether a test is met, and how often, is the same in each.
    pub(crate) fn values(&self) -> &[Session]
        ensures any { (p : OneSession → Bool) → list_any p result.now
            ≡ list_any p (map.values self.now.table) }
        ensures count { (p : OneSession → Bool) → length (filter p result.now)
            ≡ map.len (kept (λ _ x. p x) self.now.table) }
    {
        self.table.values()
    }

    /// The places of the lowest addresses that none of the sessions has that are seen, of the
    /// versions that are asked for: by the counts, where these pools are counted and all sessions
    /// are seen, and else by a search.
    pub(crate) fn lowest_places(&self, pools: &Pools, asked: Asked, restarted: bool) -> Places
        ensures lowest { (version : IpVersion) → asks_for asked version ≡ true
            → IsLowestPlace restarted version pools.now (map.values self.now.table)
            (place_in result version) }
        ensures unasked { (version : IpVersion) → asks_for asked version ≡ false
            → place_in result version ≡ None }
    {
        match &self.places {
            Some(places) if !restarted && places.are_of(pools) => places.lowest(asked),
            _ => pools.lowest_places(asked, self.values(), restarted),
        }
    }

    /// Room for one more session: `SessionsFull` with 1,000, `Memory` where an allocation was
    /// refused. Nothing else changes.
    pub fn prepare(&mut self) -> Result<(), TablesFault>
        ensures full { IsErrOf result TablesFault.SessionsFull ↔ (1000 ≤ map.len self.old.table) }
        ensures ok { OnOk result (self.new ≡ record self.old { has_room = true }) }
        ensures err { OnErr result (self.new ≡ self.old) }
        ensures fault { IfErr result (λ f.
            (f ≡ TablesFault.SessionsFull) ⊎ (f ≡ TablesFault.Memory)) }
        ensures ready { self.old.has_room ≡ true → map.len self.old.table < 1000 → IsOk result }
    {
        if self.is_full() {
            return Err(TablesFault::SessionsFull);
        }
        self.reserve_one()
    }

    /// Room for one more, however many there are: `Memory` where an allocation was refused. Nothing
    /// else changes.
    pub fn reserve_one(&mut self) -> Result<(), TablesFault>
        ensures ok { OnOk result (self.new ≡ record self.old { has_room = true }) }
        ensures err { OnErr result (self.new ≡ self.old) }
        ensures fault { IfErr result (λ f. f ≡ TablesFault.Memory) }
        ensures ready { self.old.has_room ≡ true → IsOk result }
    {
        self.table.reserve_one()
    }

    /// Adds one under a TEID above all those in the table, in the room that was prepared. Takes no
    /// memory.
    pub fn add(&mut self, teid: Teid, session: Session)
        requires room { self.old.has_room ≡ true }
        requires rises { Each (λ key _. key < teid) self.old.table }
        ensures table { self.new.table ≡ map.insert self.old.table teid session }
    {
        self.table.add(teid, session);
        // Then no count passes the greatest number.
        prove!(self.table.len() <= usize::MAX);
        note(&mut self.places, &session);
    }

    /// Whether a TEID is above all those in the table, so that one can be added under it.
    pub fn is_above(&self, teid: Teid) -> bool
        ensures { IsTrue result ↔ Each (λ key _. key < teid) self.now.table }
    {
        self.table.is_above(teid)
    }

    /// Puts another in the place of one that stands there. Takes no memory.
    pub fn replace(&mut self, teid: Teid, session: Session)
        requires stands { IsSome (map.get self.old.table teid) }
        ensures { self.new ≡ record self.old { table = map.insert self.old.table teid session } }
    {
        forget(&mut self.places, &self.table, teid);
        self.table.replace(teid, session);
        // Then no count passes the greatest number.
        prove!(self.table.len() <= usize::MAX);
        note(&mut self.places, &session);
    }

    /// Removes all that meet the test, whose answer a value determines. Takes no memory.
    pub fn remove_where<F: Fn(&Session) -> bool>(&mut self, test: F)
        requires callable { F.IsAlwaysCallable test }
        requires decides { (goes : OneSession → Bool) × Answers (FnReturnsAt F.Fn test) goes }
        ensures { (goes : OneSession → Bool) → Answers (FnReturnsAt F.Fn test) goes
            → self.new ≡ record self.old { table = kept (λ _ x. not (goes x)) self.old.table } }
    {
        forget_where(&mut self.places, &self.table, &test);
        self.table.remove_where(test);
    }

    /// Removes what stands under each TEID that meets the test, whose answer a TEID determines.
    /// Takes no memory.
    pub fn remove_keys_where<F: Fn(&Teid) -> bool>(&mut self, test: F)
        requires callable { F.IsAlwaysCallable test }
        requires decides { (goes : ℕ → Bool) × Answers (FnReturnsAt F.Fn test) goes }
        ensures { (goes : ℕ → Bool) → Answers (FnReturnsAt F.Fn test) goes
            → self.new ≡ record self.old { table = kept (λ t _. not (goes t)) self.old.table } }
    {
        forget_keys_where(&mut self.places, &self.table, &test);
        self.table.remove_keys_where(test);
    }

    /// Removes what stands under a TEID, if anything does. Takes no memory.
    pub fn remove(&mut self, teid: Teid)
        ensures { self.new ≡ record self.old { table = map.remove self.old.table teid } }
    {
        forget(&mut self.places, &self.table, teid);
        self.table.remove(teid);
    }
}

/// Counts one session more, where places are counted.
fn note(places: &mut Option<PoolPlaces>, session: &Session)
    requires { (others : List OneSession) × AreCountedIn others places.old
        × (length others + 1 < 2 ^ 64) }
    ensures { (others : List OneSession) → AreCountedIn others places.old
        → AreCountedIn (session.now ∷ others) places.new }
{
    if let Some(places) = places {
        places.note(session);
    }
}

/// Counts what stands under a TEID no more, where something does and places are counted.
fn forget(places: &mut Option<PoolPlaces>, table: &Table<Session>, teid: Teid)
    requires { AreCountedIn (map.values table.now.table) places.old }
    ensures { AreCountedIn (map.values (map.remove table.now.table teid)) places.new }
{
    let Some(places) = places else {
        return;
    };
    if let Some(session) = table.get(teid) {
        places.forget(&session);
    }
}

/// Counts the sessions no more that meet the test, where places are counted.
fn forget_where<F: Fn(&Session) -> bool>(
    places: &mut Option<PoolPlaces>,
    table: &Table<Session>,
    test: &F,
)
    requires callable { F.IsAlwaysCallable test.now }
    requires decides { (goes : OneSession → Bool) × Answers (FnReturnsAt F.Fn test.now) goes }
    requires counted { AreCountedIn (map.values table.now.table) places.old }
    ensures { (goes : OneSession → Bool) → Answers (FnReturnsAt F.Fn test.now) goes
        → AreCountedIn (map.values (kept (λ _ s. not (goes s)) table.now.table)) places.new }
{
    if let Some(places) = places {
        places.forget_where(table, test);
    }
}

/// Counts the sessions no more whose TEIDs meet the test, where places are counted.
fn forget_keys_where<F: Fn(&Teid) -> bool>(
    places: &mut Option<PoolPlaces>,
    table: &Table<Session>,
    test: &F,
)
    requires callable { F.IsAlwaysCallable test.now }
    requires decides { (goes : ℕ → Bool) × Answers (FnReturnsAt F.Fn test.now) goes }
    requires counted { AreCountedIn (map.values table.now.table) places.old }
    ensures { (goes : ℕ → Bool) → Answers (FnReturnsAt F.Fn test.now) goes
        → AreCountedIn (map.values (kept (λ t _. not (goes t)) table.now.table)) places.new }
{
    if let Some(places) = places {
        places.forget_keys_where(table, test);
    }
}
