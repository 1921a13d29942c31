//! What is wrong with an entry of the list of events.

ghost use Rattle.std.specs.Prelude.{◌≡◌, Some, None, codes, IfOk, IfSome, MatchOption};
ghost use Rattle.gtp_scenario.specs.Json.{text_at};
ghost use Rattle.gtp_scenario.specs.Named.{IsRight};
ghost use Rattle.gtp_scenario.specs.Keys.{keys_in, name_key};
ghost use Rattle.gtp_scenario.specs.Reasons.{IsOfKind, IsWordless, IsFlaw, IsNameFlaw, IsEntryFlaw};
ghost use Rattle.gtp_scenario.specs.Trees.{view};

use crate::members::{has, is_object, text_at, value_at};
use crate::name::Name;
use crate::reason::flaw::{ObjectFlaw, flaw_of};
use crate::reason::key::Key;
use crate::reason::kind::{EventKind, kind_of};
use crate::tree::Tree;
use gtp_values::Memory;
use std::alloc::Global;

/// What is wrong with an entry of the list of events: one of these.
#[derive(Debug, Drop)]
pub enum EventFlaw {
    /// It is no object, or its key `do` is missing or has no text.
    Entry(ObjectFlaw),
    /// No event is called so.
    NoEvent(String),
    /// Something is wrong with the keys that an event of this kind has.
    Keys(EventKind, ObjectFlaw),
    /// Something is wrong in the object by which it names a session or bearer.
    Named(EventKind, ObjectFlaw),
    /// What it names is not there: no datagram was sent, or the gateway has no such session or bearer.
    Nothing(Name),
    /// With it there are more than 100,000 events.
    TooMany,
}

/// What is wrong with an entry that has no word.
fn wordless(value: &Tree<'_, '_>) -> ObjectFlaw
    requires { text_at (codes "do") (view value.now) ≡ None }
    ensures { IsWordless (view value.now) result }
{
    if !is_object(value) {
        return ObjectFlaw::NoObject;
    }
    if has(value, "do") {
        ObjectFlaw::Bad(Key::Do)
    } else {
        ObjectFlaw::Missing(Key::Do)
    }
}

/// What is wrong in the object by which an entry of this kind names a session or bearer, if it is one.
fn name_flaw(
    alloc: Global,
    kind: EventKind,
    value: &Tree<'_, '_>,
) -> Result<Option<ObjectFlaw>, Memory>
    ensures { IfOk result (λ flaw. IfSome flaw (IsNameFlaw (view value.now) (name_key kind))) }
{
    let Some(key) = kind.name_key() else {
        return Ok(None);
    };
    let Some(name) = value_at(value, key.text()) else {
        return Ok(None);
    };
    if !is_object(&name) {
        return Ok(None);
    }
    flaw_of(alloc, key.member_keys(), &name)
}

/// What is wrong with an entry of this kind that has this flaw: of a name that is bad, what is wrong in it.
fn keys_flaw(
    alloc: Global,
    kind: EventKind,
    flaw: ObjectFlaw,
    value: &Tree<'_, '_>,
) -> Result<EventFlaw, Memory>
    requires kind { IsOfKind (view value.now) kind }
    requires flaw { IsFlaw (keys_in (view value.now) kind) (view value.now) flaw }
    ensures { IfOk result (IsEntryFlaw (view value.now)) }
{
    let (ObjectFlaw::Bad(Key::Session) | ObjectFlaw::Bad(Key::Bearer)) = flaw else {
        return Ok(EventFlaw::Keys(kind, flaw));
    };
    match name_flaw(alloc, kind, value)? {
        Some(inner) => Ok(EventFlaw::Named(kind, inner)),
        None => Ok(EventFlaw::Keys(kind, flaw)),
    }
}

/// What is wrong with an entry that has this word.
fn worded(alloc: Global, word: &str, value: &Tree<'_, '_>) -> Result<Option<EventFlaw>, Memory>
    requires { text_at (codes "do") (view value.now) ≡ Some word.now }
    ensures { IfOk result (λ flaw. MatchOption flaw (IsRight (view value.now))
        (IsEntryFlaw (view value.now))) }
{
    let Some(kind) = kind_of(word) else {
        return Ok(Some(EventFlaw::NoEvent(String::from_str(alloc, word)?)));
    };
    match flaw_of(alloc, kind.keys_in(value), value)? {
        Some(flaw) => Ok(Some(keys_flaw(alloc, kind, flaw, value)?)),
        None => Ok(None),
    }
}

/// What is wrong with an entry itself.
pub(crate) fn entry_flaw(alloc: Global, value: &Tree<'_, '_>) -> Result<Option<EventFlaw>, Memory>
    ensures { IfOk result (λ flaw. MatchOption flaw (IsRight (view value.now))
        (IsEntryFlaw (view value.now))) }
{
    match text_at(value, "do") {
        Some(word) => worded(alloc, word, value),
        None => Ok(Some(EventFlaw::Entry(wordless(value)))),
    }
}
