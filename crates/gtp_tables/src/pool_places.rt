//! The places of the pools of a packet gateway.

ghost use Rattle.std.specs.Prelude.{◌≡◌, ◌<◌, ◌+◌, ◌^◌, ℕ, Bool, not, List, [], ◌∷◌, length, true, false, None, IfOk, IsTrue};
ghost use Rattle.std.specs.Fn.{FnReturnsAt};
ghost use Rattle.std.specs.FinMap.{values};
ghost use Rattle.gtp_values.specs.FiniteMap.{kept};
ghost use Rattle.gtp_tables.specs.Deciding.{Answers};
ghost use Rattle.gtp_tables.specs.declared.context.Session.{Session as OneSession};
ghost use Rattle.gtp_tables.specs.Free.{asks_for};
ghost use Rattle.gtp_tables.specs.Lowest.{IsFirstFree, is_marked, place_in};
ghost use Rattle.gtp_tables.specs.PoolPlaces.{IsCounted, AreCounted, counts_in};

use crate::context::Session;
use crate::place_counts::PlaceCounts;
use crate::pool::{Asked, IpVersion, Places, Pools};
use crate::table::{Table, meets};
use gtp_values::Teid;
use std::alloc::{AllocError, Global};

/// The pools of a packet gateway, and how many sessions have the address with each place.
#[derive(Drop)]
pub(crate) struct PoolPlaces {
    pools: Pools,
    v4: PlaceCounts,
    v6: PlaceCounts,
}

impl PoolPlaces {
    /// No session has one of the addresses.
    pub fn new(alloc: Global, pools: &Pools) -> Result<PoolPlaces, AllocError>
        ensures { IfOk result (AreCounted []) }
    {
        Ok(PoolPlaces {
            pools: *pools,
            v4: PlaceCounts::new(alloc, pools.v4.count())?,
            v6: PlaceCounts::new(alloc, pools.v6.count())?,
        })
    }

    /// Whether they are the places of these pools.
    pub fn are_of(&self, pools: &Pools) -> bool
        ensures { IsTrue result → self.now.pools ≡ pools.now }
    {
        self.pools == *pools
    }

    /// Counts one session more.
    pub fn note(&mut self, session: &Session)
        requires { (others : List OneSession) × AreCounted others self.old
            × (length others + 1 < 2 ^ 64) }
        ensures { (others : List OneSession) → AreCounted others self.old
            → AreCounted (session.now ∷ others) self.new }
    {
        note(&mut self.v4, &self.pools, IpVersion::V4, session);
        note(&mut self.v6, &self.pools, IpVersion::V6, session);
    }

    /// Counts a session no more.
    pub fn forget(&mut self, session: &Session)
        requires { (others : List OneSession) × AreCounted (session.now ∷ others) self.old }
        ensures { (others : List OneSession) → AreCounted (session.now ∷ others) self.old
            → AreCounted others self.new }
    {
        forget(&mut self.v4, &self.pools, IpVersion::V4, session);
        forget(&mut self.v6, &self.pools, IpVersion::V6, session);
    }

    /// Counts the sessions no more that meet the test.
    pub fn forget_where<F: Fn(&Session) -> bool>(&mut self, table: &Table<Session>, test: &F)
        requires callable { F.IsAlwaysCallable test.now }
        requires decides { (goes : OneSession → Bool) × Answers (FnReturnsAt F.Fn test.now) goes }
        requires counted { AreCounted (values table.now.table) self.old }
        ensures { (goes : OneSession → Bool) → Answers (FnReturnsAt F.Fn test.now) goes
            → AreCounted (values (kept (λ _ s. not (goes s)) table.now.table)) self.new }
    {
        for (_, session) in table.iter() {
            if meets(test, &session) {
                self.forget(&session);
            }
        }
    }

    /// Counts the sessions no more whose TEIDs meet the test.
    pub fn forget_keys_where<F: Fn(&Teid) -> bool>(&mut self, table: &Table<Session>, test: &F)
        requires callable { F.IsAlwaysCallable test.now }
        requires decides { (goes : ℕ → Bool) × Answers (FnReturnsAt F.Fn test.now) goes }
        requires counted { AreCounted (values table.now.table) self.old }
        ensures { (goes : ℕ → Bool) → Answers (FnReturnsAt F.Fn test.now) goes
            → AreCounted (values (kept (λ t _. not (goes t)) table.now.table)) self.new }
    {
        for (teid, session) in table.iter() {
            if meets(test, &teid) {
                self.forget(&session);
            }
        }
    }

    /// The lowest places that no session has, of the versions that are asked for.
    pub fn lowest(&self, asked: Asked) -> Places
        ensures lowest { (version : IpVersion) → asks_for asked version ≡ true
            → IsFirstFree (length (counts_in self.now version))
            (is_marked (counts_in self.now version)) (place_in result version) }
        ensures unasked { (version : IpVersion) → asks_for asked version ≡ false
            → place_in result version ≡ None }
    {
        Places {
            v4: lowest_if(asked.v4, &self.v4),
            v6: lowest_if(asked.v6, &self.v6),
        }
    }
}

/// Counts one session more, where it has an address of the pool of this version.
fn note(counts: &mut PlaceCounts, pools: &Pools, version: IpVersion, session: &Session)
    requires { (others : List OneSession) × IsCounted pools.now version others counts.old
        × (length others + 1 < 2 ^ 64) }
    ensures { (others : List OneSession) → IsCounted pools.now version others counts.old
        → IsCounted pools.now version (session.now ∷ others) counts.new }
{
    if let Some(place) = pools.seen_place(version, session, false) {
        counts.take(place);
    }
}

/// Counts a session no more, where it has an address of the pool of this version.
fn forget(counts: &mut PlaceCounts, pools: &Pools, version: IpVersion, session: &Session)
    requires { (others : List OneSession)
        × IsCounted pools.now version (session.now ∷ others) counts.old }
    ensures { (others : List OneSession)
        → IsCounted pools.now version (session.now ∷ others) counts.old
        → IsCounted pools.now version others counts.new }
{
    if let Some(place) = pools.seen_place(version, session, false) {
        counts.give_back(place);
    }
}

/// The lowest place that no session has, where one is asked for.
fn lowest_if(is_asked: bool, counts: &PlaceCounts) -> Option<u32>
    ensures lowest { is_asked ≡ true
        → IsFirstFree (length counts.now) (is_marked counts.now) result }
    ensures unasked { is_asked ≡ false → result ≡ None }
{
    if is_asked { counts.lowest_free() } else { None }
}
