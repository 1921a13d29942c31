//! Bearers by own user plane TEID, and by the peer's.

ghost use Rattle.std.specs.Prelude.{◌≡◌, ◌↔◌, ◌<◌, ◌≤◌, ℕ, Option, None, Some};
ghost use Rattle.std.specs.Prelude.{true, false, IsTrue, IfSome, IfNone, IsOk, IfErr, OnOk, OnErr};
ghost use Rattle.std.specs.Prelude.{slice_get};
ghost use Rattle.std.specs.FinMap as map;
ghost use Rattle.std.specs.Prelude.{Bool, not, map as mapped};
ghost use Rattle.std.specs.Fn.{FnReturnsAt};
ghost use Rattle.gtp_tables.specs.declared.context.Bearer.{Bearer as OneBearer};
ghost use Rattle.gtp_values.specs.FiniteMap.{Each, kept, changed, with_value};
ghost use Rattle.gtp_tables.specs.Deciding.{Answers};
ghost use Rattle.gtp_tables.specs.Identity.{closing_bearer, has_number, IsUnused, IsBearerWith};
ghost use Rattle.gtp_tables.specs.Index.{remote_at, HasRemote, IsUnnamed, IsUnopened};
ghost use Rattle.gtp_tables.specs.BySession.{is_of, with_number, shut, IsOfSession, IsInPlace};
ghost use Rattle.std.specs.Option.{option_map};
ghost use Rattle.std.specs.Prelude.{cond, nat_eq};
ghost use Rattle.gtp_tables.specs.Index.{default_of, HasDefault};

use crate::context::{Bearer, Kind, State};
use crate::fault::TablesFault;
use crate::index::{
    first_named, keep_named, name, name_if, next_named, unname, unname_if, unname_of,
};
use crate::listing::BearerList;
use crate::table::Table;
use gtp_values::{Ebi, Teid};
use std::alloc::Global;
use std::collections::BTreeSet;
use std::marker::Model;

/// Bearers by own user plane TEID. A second index finds them by the peer's, a third by their
/// session. Contracts see a finite map.
#[derive(Drop)]
pub struct Bearers {
    table: Table<Bearer>,
    /// Exactly the pairs of a remote and an own TEID of the bearers that have a remote.
    by_remote: BTreeSet<(Teid, Teid)>,
    /// Exactly the pairs of a session and an own TEID of its bearers.
    by_session: BTreeSet<(Teid, Teid)>,
}

impl Model for Bearers {
    ghost use Rattle.std.specs.Coded.{coded_ℕ};
    ghost use Rattle.std.specs.FinMap as map;
    ghost use Rattle.gtp_values.specs.FiniteMap.{FiniteMap};
    ghost use Rattle.gtp_tables.specs.Index.{IsIndexed};
    ghost use Rattle.gtp_tables.specs.BySession.{AreBySession};
    ghost use Rattle.gtp_tables.specs.declared.context.Bearer.{Bearer as OneBearer};
    ghost use Rattle.gtp_tables.specs.contracts.context.Bearer as bearer;

    ghost Value = { FiniteMap OneBearer };

    ghost coded = { map.code coded_ℕ bearer.the_row.coded };

    ghost view = { λ a. a.table.table };

    ghost invariant = { λ a. record {
      indexed : IsIndexed a.table.table a.by_remote;
      sessions : AreBySession a.table.table a.by_session;
    } };
}

impl Bearers {
    /// No bearers. Takes no memory.
    pub fn new(alloc: Global) -> Bearers
        ensures { result ≡ map.empty }
    {
        Bearers {
            table: Table::new(alloc),
            by_remote: BTreeSet::new(alloc),
            by_session: BTreeSet::new(alloc),
        }
    }

    /// How many there are.
    pub fn len(&self) -> usize
        ensures { result ≡ map.len self.now }
    {
        self.table.len()
    }

    /// The bearer under a TEID.
    pub fn get(&self, teid: Teid) -> Option<Bearer>
        ensures { result ≡ map.get self.now teid }
    {
        self.table.get(teid)
    }

    /// The bearer at an index in order of the TEIDs, from 0.
    pub fn at(&self, index: usize) -> Option<(Teid, Bearer)>
        ensures { result ≡ slice_get (map.entries self.now) index }
    {
        self.table.at(index)
    }

    /// All bearers, in order of the TEIDs. Takes no memory.
    pub fn iter(&self) -> BearerList<'_>
        ensures { result ≡ map.entries self.now }
    {
        self.table.iter()
    }

    /// The bearer that has this remote TEID: of several the one under the lowest TEID.
    pub fn first_of_remote(&self, remote: Teid) -> Option<Teid>
        ensures found { IfSome result (λ teid. HasRemote self.now remote teid) }
        ensures lowest { IfSome result (λ teid. (t : ℕ)
            → HasRemote self.now remote t → teid ≤ t) }
        ensures none { IfNone result (IsUnnamed self.now remote) }
    {
        first_named(&self.by_remote, remote)
    }

    /// The bearer after this one, in order of the own TEIDs, that has this remote TEID.
    pub fn next_of_remote(&self, remote: Teid, after: Teid) -> Option<Teid>
        ensures found { IfSome result (λ teid. HasRemote self.now remote teid) }
        ensures after { IfSome result (λ teid. after < teid) }
        ensures next { IfSome result (λ teid. (t : ℕ) → after < t
            → HasRemote self.now remote t → teid ≤ t) }
        ensures none { IfNone result ((t : ℕ) → after < t
            → HasRemote self.now remote t → ⊥) }
    {
        next_named(&self.by_remote, remote, after)
    }

    /// Whether the default bearer of the session has this remote TEID.
    pub fn has_default(&self, remote: Teid, session: Teid) -> bool
        ensures { IsTrue result ↔ HasDefault self.now remote session }
    {
        let mut next = self.first_of_remote(remote);
        while let Some(teid) = next {
            if is_default_of(self.get(teid), session) {
                return true;
            }
            next = self.next_of_remote(remote, teid);
        }
        false
    }

    /// Whether a TEID is above all those in the table, so that a bearer can be added under it.
    pub fn is_above(&self, teid: Teid) -> bool
        ensures { IsTrue result ↔ Each (λ key _. key < teid) self.now }
    {
        self.table.is_above(teid)
    }

    /// Adds a bearer under a TEID above all those in the table: `Memory` where an allocation was
    /// refused, and then nothing has changed.
    pub fn add(&mut self, teid: Teid, bearer: Bearer) -> Result<(), TablesFault>
        requires rises { Each (λ key _. key < teid) self.old }
        ensures ok { OnOk result (self.new ≡ map.insert self.old teid bearer) }
        ensures err { OnErr result (self.new ≡ self.old) }
        ensures fault { IfErr result (λ f. f ≡ TablesFault.Memory) }
    {
        self.table.reserve_one()?;
        name(&mut self.by_session, bearer.session, teid)?;
        match name_if(&mut self.by_remote, bearer.remote, teid) {
            Ok(()) => {
                self.table.add(teid, bearer);
                Ok(())
            }
            Err(_) => {
                unname(&mut self.by_session, bearer.session, teid);
                Err(TablesFault::Memory)
            }
        }
    }

    /// Puts a bearer in the place of one of the same session that has no remote: `Memory` where an
    /// allocation was refused, and then nothing has changed.
    pub fn open(&mut self, teid: Teid, bearer: Bearer) -> Result<(), TablesFault>
        requires unopened { IsUnopened self.old teid }
        requires session { IsOfSession self.old teid bearer.session }
        ensures ok { OnOk result (self.new ≡ map.insert self.old teid bearer) }
        ensures err { OnErr result (self.new ≡ self.old) }
        ensures fault { IfErr result (λ f. f ≡ TablesFault.Memory) }
        ensures unnamed { bearer.remote ≡ None → IsOk result }
    {
        name_if(&mut self.by_remote, bearer.remote, teid)?;
        self.table.replace(teid, bearer);
        Ok(())
    }

    /// Puts a bearer in the place of one of the same session and with the same remote, or with none
    /// if it has none. Takes no memory.
    pub fn replace(&mut self, teid: Teid, bearer: Bearer)
        requires same { IsInPlace self.old teid bearer }
        ensures { self.new ≡ map.insert self.old teid bearer }
    {
        self.table.replace(teid, bearer);
    }

    /// The bearer of the session under the lowest TEID.
    fn first_of_session(&self, session: Teid) -> Option<Teid>
        ensures found { IfSome result (λ teid. is_of session (map.get self.now teid) ≡ true) }
        ensures lowest { IfSome result (λ teid. (t : ℕ)
            → is_of session (map.get self.now t) ≡ true → teid ≤ t) }
        ensures none { IfNone result ((t : ℕ) → is_of session (map.get self.now t) ≡ false) }
    {
        first_named(&self.by_session, session)
    }

    /// The bearer of the session after this one, in order of the own TEIDs.
    fn next_of_session(&self, session: Teid, after: Teid) -> Option<Teid>
        ensures found { IfSome result (λ teid. is_of session (map.get self.now teid) ≡ true) }
        ensures after { IfSome result (λ teid. after < teid) }
        ensures next { IfSome result (λ teid. (t : ℕ) → after < t
            → is_of session (map.get self.now t) ≡ true → teid ≤ t) }
        ensures none { IfNone result ((t : ℕ) → after < t
            → is_of session (map.get self.now t) ≡ false) }
    {
        next_named(&self.by_session, session, after)
    }

    /// The bearer of the session that has the identity, whatever its state: the one under the
    /// lowest TEID.
    pub fn with_identity(&self, session: Teid, identity: Ebi) -> Option<Teid>
        ensures found { IfSome result (λ teid.
            IsBearerWith self.now session identity teid) }
        ensures none { IfNone result (IsUnused self.now session identity) }
    {
        let mut next = self.first_of_session(session);
        while let Some(teid) = next {
            if is_with(self.get(teid), session, identity) {
                return Some(teid);
            }
            next = self.next_of_session(session, teid);
        }
        None
    }

    /// Removes all bearers that meet the test, whose answer a bearer determines. Takes no memory.
    pub fn remove_where<F: Fn(&Bearer) -> bool>(&mut self, test: F)
        requires callable { F.IsAlwaysCallable test }
        requires decides { (goes : OneBearer → Bool) × Answers (FnReturnsAt F.Fn test) goes }
        ensures { (goes : OneBearer → Bool) → Answers (FnReturnsAt F.Fn test) goes
            → self.new ≡ kept (λ _ b. not (goes b)) self.old }
    {
        self.table.remove_where(test);
        keep_named(&mut self.by_remote, &self.table);
        keep_named(&mut self.by_session, &self.table);
    }

    /// Removes the bearers of a session. Takes no memory.
    pub fn remove_of_session(&mut self, session: Teid)
        ensures { self.new ≡ kept (λ _ b. not (nat_eq b.session session)) self.old }
    {
        let mut next = self.first_of_session(session);
        while let Some(teid) = next {
            self.remove(teid);
            next = self.next_of_session(session, teid);
        }
    }

    /// Closes the bearer under a TEID, where one stands.
    fn close(&mut self, teid: Teid)
        ensures { (o : ℕ) → map.get self.new o
            ≡ cond (nat_eq teid o) (option_map shut (map.get self.old teid)) (map.get self.old o) }
    {
        if let Some(bearer) = self.get(teid) {
            self.replace(
                teid,
                Bearer {
                    state: State::Closing,
                    ..bearer
                },
            );
        }
    }

    /// Closes the bearers of a session, whatever they were. Takes no memory.
    pub fn close_of_session(&mut self, session: Teid)
        ensures { self.new ≡ changed (closing_bearer session) self.old }
    {
        let mut next = self.first_of_session(session);
        while let Some(teid) = next {
            self.close(teid);
            next = self.next_of_session(session, teid);
        }
    }

    /// Removes the bearer under a TEID, if there is one. Takes no memory.
    pub fn remove(&mut self, teid: Teid)
        ensures { self.new ≡ map.remove self.old teid }
    {
        let remote = remote_of(&self.table, teid);
        unname_if(&mut self.by_remote, remote, teid);
        unname_of(&mut self.by_session, self.table.get(teid), teid);
        self.table.remove(teid);
    }
}

/// Whether it is a bearer of the session, with the identity.
fn has(bearer: &Bearer, session: Teid, identity: Ebi) -> bool
    ensures { result ≡ has_number session identity bearer.now }
{
    bearer.session == session && bearer.identity == Some(identity)
}

/// Whether it is a bearer of the session, with the identity, where there is one.
fn is_with(bearer: Option<Bearer>, session: Teid, identity: Ebi) -> bool
    ensures { result ≡ with_number session identity bearer }
{
    match bearer {
        Some(bearer) => has(&bearer, session, identity),
        None => false,
    }
}

/// Whether it is the default bearer of the session.
fn is_default_of(bearer: Option<Bearer>, session: Teid) -> bool
    ensures { result ≡ default_of session bearer }
{
    match bearer {
        Some(bearer) => bearer.kind == Kind::Default && bearer.session == session,
        None => false,
    }
}

/// The remote TEID of a bearer.
fn remote_of(table: &Table<Bearer>, teid: Teid) -> Option<Teid>
    ensures { result ≡ remote_at (map.get table.now.table teid) }
{
    match table.get(teid) {
        Some(bearer) => bearer.remote,
        None => None,
    }
}
