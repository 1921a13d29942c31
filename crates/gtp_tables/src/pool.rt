//! Addresses that a packet gateway gives to sessions.

ghost use Rattle.std.specs.Prelude.{◌≡◌, ◌≢◌, ◌↔◌, ◌+◌, ◌-◌, min, ◌<◌, ◌≤◌, ◌^◌, ◌||◌, ◌++◌, ℕ, true, false, Some, drop, nat_eq};
ghost use Rattle.std.specs.Prelude.{IsOk, IfOk, IfErr, IfSome, IfNone};
ghost use Rattle.std.specs.Option.{option_map};
ghost use Rattle.gtp_values.specs.declared.fault.ValueFault.TheVariants.{OutOfRange};
ghost use Rattle.gtp_tables.specs.Contexts.{is_seen, takes};
ghost use Rattle.std.specs.Int.{w32, w64, to_be_bytes, from_be_bytes};
ghost use Rattle.gtp_tables.specs.Free.{count_of, address_at, asks_for, IsPlaceOf};
ghost use Rattle.gtp_tables.specs.Lowest.{IsFirstFree, IsLowestPlace, is_marked, is_taken, place_in};
ghost use Rattle.gtp_tables.specs.Part.{part_in};
ghost use Rattle.gtp_tables.specs.Pool.{IsPool, ArePrefixes, prefix_of, no_prefixes};

use crate::context::{Session, State};
use gtp_values::{Addr, ValueFault};
use memchr::memchr;
use std::marker::Model;

/// The most addresses of a pool.
const MOST: u32 = 65_536;

/// How many addresses are looked for in one go over the sessions. It is above the most sessions
/// that there can be, so that the first go finds a free address where the pool has one.
const WINDOW: u32 = 1024;

/// The mark of a place in a window whose address no session has.
const FREE: u8 = 0;

/// The mark of a place in a window whose address a session has.
const TAKEN: u8 = 1;

/// The IP versions, of which each has a pool.
#[derive(Clone, Copy, Debug, PartialEq, Eq)]
pub enum IpVersion {
    V4,
    V6,
}

/// Of which IP versions an address is asked for.
#[derive(Clone, Copy, Debug, PartialEq, Eq)]
pub struct Asked {
    pub v4: bool,
    pub v6: bool,
}

/// IPv4 addresses in a row, as numbers: at most 65,536, up to 255.255.255.255. Contracts see the
/// first and how many.
#[derive(Clone, Copy, Debug, PartialEq, Eq)]
pub struct Pool {
    start: u32,
    count: u32,
}

impl Model for Pool {
    ghost use Rattle.gtp_tables.specs.Pool.{Range, IsPool};

    ghost Value = { Range };

    ghost view = { λ a. record { start = a.start; count = a.count } };

    ghost invariant = { λ a. IsPool (record { start = a.start; count = a.count }) };

    ghost inverse = { λ r. record { start = r.start; count = r.count } };
}

impl Pool {
    /// The addresses from `start` on: `OutOfRange` for more than 65,536, and where they go past
    /// 255.255.255.255.
    pub fn try_new(start: u32, count: u32) -> Result<Pool, ValueFault>
        ensures ok { IsOk result ↔ IsPool (record { start = start; count = count }) }
        ensures value { IfOk result (λ pool. pool ≡ record { start = start; count = count }) }
        ensures fault { IfErr result (λ f. f ≡ OutOfRange) }
    {
        let last = u64::from(start) + u64::from(count);
        if count > MOST || last > 1 << 32 {
            return Err(ValueFault::OutOfRange);
        }
        Ok(Pool { start, count })
    }

    /// The first address.
    pub fn start(self) -> u32
        ensures { result ≡ self.start }
    {
        self.start
    }

    /// How many addresses, at most 65,536.
    pub fn count(self) -> u32
        ensures value { result ≡ self.count }
        ensures few { result ≤ 65536 }
    {
        self.count
    }

    /// The address with this place.
    pub(crate) fn at(self, place: u32) -> [u8; 4]
        requires { place < self.count }
        ensures { result ≡ to_be_bytes w32 (self.start + place) }
    {
        (self.start + place).to_be_bytes()
    }

    /// The address with the place that was found, where one was.
    pub(crate) fn at_found(self, found: Option<u32>) -> Option<[u8; 4]>
        requires { IfSome found (λ place. place < self.count) }
        ensures { result ≡ option_map (λ place. to_be_bytes w32 (self.start + place)) found }
    {
        Some(self.at(found?))
    }

    /// The first addresses, at most 1,024 of them.
    fn front(self) -> Pool
        ensures { result ≡ record { start = self.start; count = min self.count 1024 } }
    {
        Pool {
            count: WINDOW.min(self.count),
            ..self
        }
    }

    /// The addresses from a place on, at most 1,024 of them.
    fn window(self, first: u32) -> Pool
        requires { first < self.count }
        ensures { result ≡ record { start = self.start + first; count = min (self.count - first) 1024 } }
    {
        Pool {
            start: self.start + first,
            count: WINDOW.min(self.count - first),
        }
    }

    /// The place of an address, where it is one of the pool.
    fn place_of(self, address: [u8; 4]) -> Option<u32>
        ensures range { IsPool self }
        ensures some { IfSome result (λ place. (place < self.count)
            × (address ≡ to_be_bytes w32 (self.start + place))) }
        ensures none { IfNone result ((p : ℕ) → p < self.count
            → address ≢ to_be_bytes w32 (self.start + p)) }
    {
        // In 64 bits, as wide as an index.
        let number = u64::from(u32::from_be_bytes(address));
        let place = number.wrapping_sub(u64::from(self.start));
        if place >= u64::from(self.count) {
            return None;
        }
        Some(place as u32)
    }
}

/// IPv6 addresses, one under each of some prefixes of 64 bits in a row, which the first eight octets number: at most
/// 65,536. All have the last eight octets of the first one. Contracts see its octets, and how many.
#[derive(Clone, Copy, Debug, PartialEq, Eq)]
pub struct Prefixes {
    start: [u8; 16],
    count: u32,
}

impl Model for Prefixes {
    ghost use Rattle.gtp_tables.specs.Pool.{Prefixes as Range, ArePrefixes};

    ghost Value = { Range };

    ghost view = { λ a. record { start = a.start; count = a.count } };

    ghost invariant = { λ a. ArePrefixes (record { start = a.start; count = a.count }) };

    ghost inverse = { λ r. record { start = r.start; count = r.count } };
}

/// The number of an address's prefix, its first eight octets.
fn prefix_of(octets: [u8; 16]) -> u64
    ensures value { result ≡ prefix_of octets }
    ensures range { result < 2 ^ 64 }
{
    match octets.first_chunk::<8>() {
        Some(front) => u64::from_be_bytes(*front),
        None => unreachable!(),
    }
}

/// The last eight octets of an address, as a number.
fn rest_of(octets: [u8; 16]) -> u64
    ensures { result ≡ from_be_bytes w64 (drop 8 octets) }
{
    match octets.last_chunk::<8>() {
        Some(back) => u64::from_be_bytes(*back),
        None => unreachable!(),
    }
}

impl Prefixes {
    /// `count` addresses from `start` on, one a prefix: `OutOfRange` for more than 65,536, and where the
    /// number of a prefix passes 2^64 - 1.
    pub fn try_new(start: [u8; 16], count: u32) -> Result<Prefixes, ValueFault>
        ensures ok { IsOk result
            ↔ ((count ≤ 65536) × (prefix_of start + count ≤ 2 ^ 64)) }
        ensures value { IfOk result (λ pool. pool ≡ record { start = start; count = count }) }
        ensures fault { IfErr result (λ f. f ≡ OutOfRange) }
    {
        let last = u128::from(prefix_of(start)) + u128::from(count);
        if count > MOST || last > 1 << 64 {
            return Err(ValueFault::OutOfRange);
        }
        Ok(Prefixes { start, count })
    }

    /// No addresses.
    pub fn none() -> Prefixes
        ensures { result ≡ no_prefixes }
    {
        Prefixes {
            start: [0; 16],
            count: 0,
        }
    }

    /// The first address.
    pub fn start(self) -> [u8; 16]
        ensures value { result ≡ self.start }
        ensures range { ArePrefixes self }
    {
        self.start
    }

    /// How many addresses, at most 65,536.
    pub fn count(self) -> u32
        ensures value { result ≡ self.count }
        ensures few { result ≤ 65536 }
    {
        self.count
    }

    /// The address with this place.
    pub(crate) fn at(self, place: u32) -> [u8; 16]
        requires { place < self.count }
        ensures { result ≡ to_be_bytes w64 (prefix_of self.start + place) ++ drop 8 self.start }
    {
        let prefix = prefix_of(self.start) + u64::from(place);
        let mut octets = self.start;
        octets[..8].copy_from_slice(&prefix.to_be_bytes());
        octets
    }

    /// The address with the place that was found, where one was.
    pub(crate) fn at_found(self, found: Option<u32>) -> Option<[u8; 16]>
        requires { IfSome found (λ place. place < self.count) }
        ensures { result ≡ option_map (λ place.
            to_be_bytes w64 (prefix_of self.start + place) ++ drop 8 self.start) found }
    {
        Some(self.at(found?))
    }

    /// The first addresses, at most 1,024 of them.
    fn front(self) -> Prefixes
        ensures { result ≡ record { start = self.start; count = min self.count 1024 } }
    {
        Prefixes {
            count: WINDOW.min(self.count),
            ..self
        }
    }

    /// The addresses from a place on, at most 1,024 of them.
    fn window(self, first: u32) -> Prefixes
        requires { first < self.count }
        ensures count { result.count ≡ min (self.count - first) 1024 }
        ensures places { (p : ℕ) → p < result.count
            → to_be_bytes w64 (prefix_of result.start + p) ++ drop 8 result.start
            ≡ to_be_bytes w64 (prefix_of self.start + (first + p)) ++ drop 8 self.start }
    {
        Prefixes {
            start: self.at(first),
            count: WINDOW.min(self.count - first),
        }
    }

    /// The place of an address, where it is one of the pool.
    fn place_of(self, address: [u8; 16]) -> Option<u32>
        ensures range { ArePrefixes self }
        ensures some { IfSome result (λ place. (place < self.count)
            × (address ≡ to_be_bytes w64 (prefix_of self.start + place) ++ drop 8 self.start)) }
        ensures none { IfNone result ((p : ℕ) → p < self.count
            → address ≢ to_be_bytes w64 (prefix_of self.start + p) ++ drop 8 self.start) }
    {
        let place = prefix_of(address).wrapping_sub(prefix_of(self.start));
        if place >= u64::from(self.count) || rest_of(address) != rest_of(self.start) {
            return None;
        }
        let place = place as u32;
        // The numbers have decided it; the contract speaks of the octets.
        (self.at(place) == address).then_some(place)
    }
}

/// A place in the pool of each version, where there is one.
#[derive(Clone, Copy)]
pub(crate) struct Places {
    pub v4: Option<u32>,
    pub v6: Option<u32>,
}

/// The addresses of each version that a packet gateway gives.
#[derive(Clone, Copy, Debug, PartialEq, Eq)]
pub struct Pools {
    pub v4: Pool,
    pub v6: Prefixes,
}

impl Pools {
    /// How many addresses of this version.
    fn count_of(&self, version: IpVersion) -> u32
        ensures value { result ≡ count_of self.now version }
        ensures few { result ≤ 65536 }
    {
        match version {
            IpVersion::V4 => self.v4.count(),
            IpVersion::V6 => self.v6.count(),
        }
    }

    /// The addresses of this version from a place on, at most 1,024 of them.
    fn window(&self, version: IpVersion, first: u32) -> Pools
        requires { first < count_of self.now version }
        ensures count { count_of result version ≡ min (count_of self.now version - first) 1024 }
        ensures places { (p : ℕ) → p < count_of result version
            → address_at result version p ≡ address_at self.now version (first + p) }
    {
        match version {
            IpVersion::V4 => Pools {
                v4: self.v4.window(first),
                ..*self
            },
            IpVersion::V6 => Pools {
                v6: self.v6.window(first),
                ..*self
            },
        }
    }

    /// The place of an address's part of this version, where it is one of the pool.
    fn place_of(&self, version: IpVersion, address: &Addr) -> Option<u32>
        ensures some { IfSome result (IsPlaceOf self.now version (part_in version address.now)) }
        ensures none { IfNone result ((p : ℕ) → p < count_of self.now version
            → part_in version address.now ≢ Some (address_at self.now version p)) }
    {
        match version {
            IpVersion::V4 => self.v4.place_of(address.v4()?),
            IpVersion::V6 => self.v6.place_of(address.v6()?),
        }
    }

    /// The places of the lowest addresses that none of the sessions has that are seen, of the versions
    /// that are asked for.
    pub(crate) fn lowest_places(
        &self,
        asked: Asked,
        sessions: &[Session],
        restarted: bool,
    ) -> Places
        ensures lowest { (version : IpVersion) → asks_for asked version ≡ true
            → IsLowestPlace restarted version self.now sessions.now (place_in result version) }
        ensures unasked { (version : IpVersion) → asks_for asked version ≡ false
            → place_in result version ≡ None }
    {
        match (asked.v4, asked.v6) {
            (true, true) => self.lowest_of_both(sessions, restarted),
            (true, false) => Places {
                v4: self.lowest_place(IpVersion::V4, sessions, restarted),
                v6: None,
            },
            (false, true) => Places {
                v4: None,
                v6: self.lowest_place(IpVersion::V6, sessions, restarted),
            },
            (false, false) => Places { v4: None, v6: None },
        }
    }

    /// The place of the lowest address of each version that none of the sessions has that are seen.
    fn lowest_of_both(&self, sessions: &[Session], restarted: bool) -> Places
        ensures { (version : IpVersion)
            → IsLowestPlace restarted version self.now sessions.now (place_in result version) }
    {
        let found = self.front().places_in_windows(sessions, restarted);
        Places {
            v4: self.lowest_after(IpVersion::V4, found.v4, sessions, restarted),
            v6: self.lowest_after(IpVersion::V6, found.v6, sessions, restarted),
        }
    }

    /// The first addresses of each version, at most 1,024 of each.
    fn front(&self) -> Pools
        ensures count { (version : IpVersion)
            → count_of result version ≡ min (count_of self.now version) 1024 }
        ensures places { (version : IpVersion) → (p : ℕ)
            → address_at result version p ≡ address_at self.now version p }
    {
        Pools {
            v4: self.v4.front(),
            v6: self.v6.front(),
        }
    }

    /// The lowest place of this version, after what was found in the first window of its pool.
    fn lowest_after(
        &self,
        version: IpVersion,
        found: Option<u32>,
        sessions: &[Session],
        restarted: bool,
    ) -> Option<u32>
        requires { IsFirstFree (min (count_of self.now version) 1024)
            (is_taken restarted version self.now sessions.now) found }
        ensures { IsLowestPlace restarted version self.now sessions.now result }
    {
        if found.is_none() && self.count_of(version) > WINDOW {
            return self.lowest_place(version, sessions, restarted);
        }
        found
    }

    /// The place in the pool of this version of the lowest address that none of the sessions has that are
    /// seen.
    fn lowest_place(&self, version: IpVersion, sessions: &[Session], restarted: bool) -> Option<u32>
        ensures { IsLowestPlace restarted version self.now sessions.now result }
    {
        let count = self.count_of(version);
        for turn in 0..64u32 {
            let first = turn * WINDOW;
            if first >= count {
                return None;
            }
            let window = self.window(version, first);
            if let Some(place) = window.place_in_window(version, sessions, restarted) {
                return Some(first + place);
            }
        }
        None
    }

    /// The place of a session's address, where it is one of the pool and the session is seen.
    pub(crate) fn seen_place(
        &self,
        version: IpVersion,
        session: &Session,
        restarted: bool,
    ) -> Option<u32>
        ensures within { IfSome result (λ place. place < count_of self.now version) }
        ensures some { IfSome result (λ place. (p : ℕ) → p < count_of self.now version
            → takes restarted version (address_at self.now version p) session.now ≡ nat_eq p place) }
        ensures none { IfNone result ((p : ℕ) → p < count_of self.now version
            → takes restarted version (address_at self.now version p) session.now ≡ false) }
    {
        if !is_seen(session, restarted) {
            return None;
        }
        match &session.address {
            Some(address) => self.place_of(version, address),
            None => None,
        }
    }

    /// Marks the place of a session's address, where it is one of a window and the session is seen.
    fn mark(&self, version: IpVersion, marks: &mut [u8; 1024], session: &Session, restarted: bool)
        requires { count_of self.now version ≤ 1024 }
        ensures { (p : ℕ) → p < count_of self.now version
            → is_marked marks.new p ≡ (is_marked marks.old p
            || takes restarted version (address_at self.now version p) session.now) }
    {
        if let Some(place) = self.seen_place(version, session, restarted) {
            marks[place as usize] = TAKEN;
        }
    }

    /// The first place of a window whose address none of the sessions has that are seen.
    fn place_in_window(
        &self,
        version: IpVersion,
        sessions: &[Session],
        restarted: bool,
    ) -> Option<u32>
        requires { count_of self.now version ≤ 1024 }
        ensures { IsLowestPlace restarted version self.now sessions.now result }
    {
        let mut marks = [FREE; 1024];
        for session in sessions {
            self.mark(version, &mut marks, session, restarted);
        }
        self.first_free(version, &marks)
    }

    /// The same of a window of each version, in one go over the sessions.
    fn places_in_windows(&self, sessions: &[Session], restarted: bool) -> Places
        requires { (version : IpVersion) → count_of self.now version ≤ 1024 }
        ensures { (version : IpVersion)
            → IsLowestPlace restarted version self.now sessions.now (place_in result version) }
    {
        let mut v4 = [FREE; 1024];
        let mut v6 = [FREE; 1024];
        for session in sessions {
            self.mark(IpVersion::V4, &mut v4, session, restarted);
            self.mark(IpVersion::V6, &mut v6, session, restarted);
        }
        Places {
            v4: self.first_free(IpVersion::V4, &v4),
            v6: self.first_free(IpVersion::V6, &v6),
        }
    }

    /// The first place of a window of this version that is not marked.
    fn first_free(&self, version: IpVersion, marks: &[u8; 1024]) -> Option<u32>
        requires { count_of self.now version ≤ 1024 }
        ensures { IsFirstFree (count_of self.now version) (is_marked marks.now) result }
    {
        let place = first_unmarked(marks)?;
        (place < self.count_of(version)).then_some(place)
    }
}

/// Whether a session is seen: a pending one also after a restart.
pub(crate) fn is_seen(session: &Session, restarted: bool) -> bool
    ensures { result ≡ is_seen restarted session.now }
{
    !restarted || session.state == State::Pending
}

/// The first place of a window that is not marked.
fn first_unmarked(marks: &[u8; 1024]) -> Option<u32>
    ensures { IsFirstFree 1024 (is_marked marks.now) result }
{
    let place = memchr(FREE, marks)?;
    Some(place as u32)
}
