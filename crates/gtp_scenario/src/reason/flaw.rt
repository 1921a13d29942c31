//! What is wrong with the keys of an object.

ghost use Rattle.std.specs.Prelude.{◌≡◌, true, false, List, IfOk, MatchOption, find, map, is_some};
ghost use Rattle.json.specs.Json as json;
ghost use Rattle.json.specs.Find.{InMembers};
ghost use Rattle.serde_json.specs.Data.{no_members};
ghost use Rattle.serde_json.specs.Find.{get_member, as_object};
ghost use Rattle.gtp_scenario.specs.Json.{is_among, all_among, has_only};
ghost use Rattle.gtp_scenario.specs.Keys.{key_text, is_met, is_unmet};
ghost use Rattle.gtp_scenario.specs.Reasons.{IsUnknown, IsFirst, IsFlaw, fits};
ghost use Rattle.gtp_scenario.specs.Trees.{view, members_said};

use crate::members::{has, is_object, value_at};
use crate::reason::key::Key;
use crate::tree::Tree;
use gtp_values::Memory;
use json::Members;
use std::alloc::Global;

/// What is wrong with an object: one of these.
#[derive(Debug, Drop)]
pub enum ObjectFlaw {
    /// It is no object.
    NoObject,
    /// It has a key that is none of its own: this one.
    Unknown(String),
    /// It needs this key, and has none. Of the keys at fault it is the first.
    Missing(Key),
    /// The value of this key is not as it has to be. Of the keys at fault it is the first.
    Bad(Key),
}

/// Whether a key is one of these.
fn is_key(keys: &[Key], text: &str) -> bool
    ensures { result ≡ is_among (map key_text keys.now) text.now }
{
    keys.iter().any(|key| text == key.text())
}

/// The first key of the members that is none of these.
fn unknown_among<'a>(keys: &[Key], mut members: Members<'_, 'a>) -> Option<&'a str>
    ensures { (ms : json.Members) → InMembers members.entry ms → MatchOption result
        (all_among (map key_text keys.now) (members_said ms no_members) ≡ true)
        (λ text. (is_some (get_member text.now (members_said ms no_members)) ≡ true)
        × (is_among (map key_text keys.now) text.now ≡ false)) }
{
    while let Some((text, _)) = members.next() {
        if !is_key(keys, text) {
            return Some(text);
        }
    }
    None
}

/// The first key of an object that is none of these.
fn unknown_key<'a>(keys: &[Key], value: &Tree<'_, 'a>) -> Option<&'a str>
    ensures { MatchOption result
        (is_some (as_object (view value.now)) ≡ true
        → has_only (map key_text keys.now) (view value.now) ≡ true)
        (λ text. IsUnknown keys.now (view value.now) text.now) }
{
    match value.element.members() {
        Some(members) => unknown_among(keys, members),
        None => None,
    }
}

/// Whether what stands at a key is as it has to be.
fn is_met(alloc: Global, key: Key, value: &Tree<'_, '_>) -> Result<bool, Memory>
    ensures { IfOk result (λ met. met ≡ is_met (view value.now) key) }
{
    match value_at(value, key.text()) {
        Some(found) => key.wanted().is_good(alloc, &found),
        None => Ok(key.may_be_absent(value)),
    }
}

/// The first of these keys at which something is wrong.
fn first_unmet(alloc: Global, keys: &[Key], value: &Tree<'_, '_>) -> Result<Option<Key>, Memory>
    ensures { IfOk result (λ key. key ≡ find (is_unmet (view value.now)) keys.now) }
{
    for key in keys {
        if !is_met(alloc, *key, value)? {
            return Ok(Some(*key));
        }
    }
    Ok(None)
}

/// What is wrong at a key, of those at fault the first.
fn flaw_at(key: Key, value: &Tree<'_, '_>) -> ObjectFlaw
    ensures { (known : List Key) → IsFirst known (view value.now) key
        → IsFlaw known (view value.now) result }
{
    if has(value, key.text()) {
        ObjectFlaw::Bad(key)
    } else {
        ObjectFlaw::Missing(key)
    }
}

/// What is wrong with an object that is to have these keys.
pub(crate) fn flaw_of(
    alloc: Global,
    keys: &[Key],
    value: &Tree<'_, '_>,
) -> Result<Option<ObjectFlaw>, Memory>
    ensures { IfOk result (λ flaw. MatchOption flaw (fits keys.now (view value.now) ≡ true)
        (IsFlaw keys.now (view value.now))) }
{
    if !is_object(value) {
        return Ok(Some(ObjectFlaw::NoObject));
    }
    if let Some(text) = unknown_key(keys, value) {
        return Ok(Some(ObjectFlaw::Unknown(String::from_str(alloc, text)?)));
    }
    match first_unmet(alloc, keys, value)? {
        Some(key) => Ok(Some(flaw_at(key, value))),
        None => Ok(None),
    }
}
