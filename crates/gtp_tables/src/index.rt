//! Own TEIDs by remote TEID, and by session.

ghost use Rattle.std.specs.Prelude.{◌≡◌, ◌<◌, ◌≤◌, ◌&&◌, ℕ, None, cond, true, false, nat_eq};
ghost use Rattle.std.specs.Prelude.{IfSome, IfNone, IsOk, OnOk, OnErr};
ghost use Rattle.std.specs.Prelude.{is_some};
ghost use Rattle.std.specs.BTreeSet.{contains};
ghost use Rattle.std.specs.FinMap.{get};
ghost use Rattle.gtp_values.specs.Number.{is_number};
ghost use Rattle.gtp_tables.specs.Index.{pair_cmp};
ghost use Rattle.gtp_tables.specs.BySession.{is_of};

use crate::context::Bearer;
use crate::table::Table;
use gtp_values::Teid;
use std::alloc::AllocError;
use std::collections::BTreeSet;
use std::ops::Bound;

/// Names an own TEID under a remote one, or under its session's.
pub(crate) fn name(
    index: &mut BTreeSet<(Teid, Teid)>,
    remote: Teid,
    own: Teid,
) -> Result<(), AllocError>
    ensures ok { OnOk result ((r o : ℕ) → contains pair_cmp index.new (r, o)
        ≡ cond (nat_eq remote r && nat_eq own o) true (contains pair_cmp index.old (r, o))) }
    ensures err { OnErr result (index.new.keys ≡ index.old.keys) }
{
    index.insert((remote, own))?;
    Ok(())
}

/// Names an own TEID under a remote one, where there is one.
pub(crate) fn name_if(
    index: &mut BTreeSet<(Teid, Teid)>,
    remote: Option<Teid>,
    own: Teid,
) -> Result<(), AllocError>
    ensures ok { OnOk result ((r o : ℕ) → contains pair_cmp index.new (r, o)
        ≡ cond (is_number r remote && nat_eq own o) true (contains pair_cmp index.old (r, o))) }
    ensures err { OnErr result (index.new.keys ≡ index.old.keys) }
    ensures none { remote ≡ None → IsOk result }
{
    match remote {
        Some(remote) => name(index, remote, own),
        None => Ok(()),
    }
}

/// Names an own TEID no more under a remote one, or under its session's.
pub(crate) fn unname(index: &mut BTreeSet<(Teid, Teid)>, remote: Teid, own: Teid)
    ensures { (r o : ℕ) → contains pair_cmp index.new (r, o)
        ≡ cond (nat_eq remote r && nat_eq own o) false (contains pair_cmp index.old (r, o)) }
{
    index.remove(&(remote, own));
}

/// Names an own TEID no more under a remote one, where there is one.
pub(crate) fn unname_if(index: &mut BTreeSet<(Teid, Teid)>, remote: Option<Teid>, own: Teid)
    ensures { (r o : ℕ) → contains pair_cmp index.new (r, o)
        ≡ cond (is_number r remote && nat_eq own o) false (contains pair_cmp index.old (r, o)) }
{
    if let Some(remote) = remote {
        unname(index, remote, own);
    }
}

/// Names an own TEID no more under the session of the bearer that stands there, where one does.
pub(crate) fn unname_of(index: &mut BTreeSet<(Teid, Teid)>, bearer: Option<Bearer>, own: Teid)
    ensures { (s o : ℕ) → contains pair_cmp index.new (s, o)
        ≡ cond (is_of s bearer && nat_eq own o) false (contains pair_cmp index.old (s, o)) }
{
    if let Some(bearer) = bearer {
        unname(index, bearer.session, own);
    }
}

/// The lowest own TEID that is named under a remote one.
pub(crate) fn first_named(index: &BTreeSet<(Teid, Teid)>, remote: Teid) -> Option<Teid>
    ensures found { IfSome result (λ o. contains pair_cmp index.now (remote, o) ≡ true) }
    ensures lowest { IfSome result (λ own. (o : ℕ)
        → contains pair_cmp index.now (remote, o) ≡ true → own ≤ o) }
    ensures none { IfNone result ((o : ℕ) → contains pair_cmp index.now (remote, o) ≡ false) }
{
    let &(r, own) = index.range((remote, Teid(0))..).next()?;
    if r == remote { Some(own) } else { None }
}

/// The lowest own TEID after this one that is named under a remote one.
pub(crate) fn next_named(index: &BTreeSet<(Teid, Teid)>, remote: Teid, after: Teid) -> Option<Teid>
    ensures found { IfSome result (λ o. contains pair_cmp index.now (remote, o) ≡ true) }
    ensures after { IfSome result (λ o. after < o) }
    ensures lowest { IfSome result (λ own. (o : ℕ) → after < o
        → contains pair_cmp index.now (remote, o) ≡ true → own ≤ o) }
    ensures none { IfNone result ((o : ℕ) → after < o
        → contains pair_cmp index.now (remote, o) ≡ false) }
{
    let above = (Bound::Excluded((remote, after)), Bound::Unbounded);
    let &(r, next) = index.range(above).next()?;
    if r == remote { Some(next) } else { None }
}

/// Keeps the own TEIDs under which a bearer stands.
pub(crate) fn keep_named(index: &mut BTreeSet<(Teid, Teid)>, table: &Table<Bearer>)
    ensures { (r o : ℕ) → contains pair_cmp index.new (r, o)
        ≡ (is_some (get table.now.table o) && contains pair_cmp index.old (r, o)) }
{
    index.retain(
        |pair: &(Teid, Teid)| -> bool
            ensures { result ≡ is_some (get table.entry.now.table pair.now.1) }
        { table.get(pair.1).is_some() },
    );
}
