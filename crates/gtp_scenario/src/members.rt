//! Members of a JSON object.

ghost use Rattle.std.specs.Prelude.{◌≡◌, ◌≤◌, ◌<◌, map, length, IfSome, OnSome, option_map, is_some};
ghost use Rattle.json.specs.Json as json;
ghost use Rattle.json.specs.Find.{InMembers};
ghost use Rattle.serde_json.specs.Data.{no_members};
ghost use Rattle.serde_json.specs.Find.{get, as_str, as_number, as_array, as_object};
ghost use Rattle.gtp_scenario.specs.Json.{text_at, whole_number, number_at, text_if, number_or, within, is_among, all_among, has_only};
ghost use Rattle.gtp_scenario.specs.Trees.{view, items_view, members_said, number_said, unless_empty};

use crate::tree::{Number, Tree, number_of};
use json::Members;
use std::marker::Model;

/// What is left of a list.
#[derive(Drop)]
pub struct Items<'t, 'a> {
    items: json::Items<'t, 'a>,
}

impl<'t, 'a> Model for Items<'t, 'a> {
    ghost use Rattle.std.specs.Prelude.{List};
    ghost use Rattle.json.specs.Token.{Token, tokens_code};

    ghost Value = { List Token };

    ghost coded = { tokens_code };

    ghost use Rattle.gtp_scenario.specs.Trees.{HasItems};

    ghost view = { λ a. a.items };

    ghost invariant = { λ a. HasItems a.items };
}

impl<'t, 'a> Items<'t, 'a> {
    /// The next item.
    pub fn next(&mut self) -> Option<Tree<'t, 'a>>
        ensures value { items_view self.old
            ≡ unless_empty (option_map view result) (items_view self.new) }
        ensures shorter { OnSome result (length self.new < length self.old) }
    {
        Some(Tree {
            element: self.items.next()?,
        })
    }
}

/// The value of a key.
pub fn value_at<'t, 'a>(value: &Tree<'t, 'a>, key: &str) -> Option<Tree<'t, 'a>>
    ensures { option_map view result ≡ get key.now (view value.now) }
{
    Some(Tree {
        element: value.element.get(key)?,
    })
}

/// Whether there is a value of this key.
pub fn has(value: &Tree<'_, '_>, key: &str) -> bool
    ensures { result ≡ is_some (get key.now (view value.now)) }
{
    value_at(value, key).is_some()
}

/// The text that a value is.
pub(crate) fn as_text<'a>(value: &Tree<'_, 'a>) -> Option<&'a str>
    ensures { option_map (λ s. s.now) result ≡ as_str (view value.now) }
{
    value.element.as_str()
}

/// The text of the number that a value is.
fn as_number<'a>(value: &Tree<'_, 'a>) -> Option<&'a str>
    ensures { option_map (λ s. number_said s.now) result ≡ as_number (view value.now) }
{
    value.element.as_number()
}

/// The whole number from 0 to 2^64 - 1 that a value is.
pub(crate) fn whole_number(value: &Tree<'_, '_>) -> Option<u64>
    ensures { result ≡ whole_number (view value.now) }
{
    match number_of(as_number(value)?)? {
        Number::Whole(n) => Some(n),
        Number::Other => None,
    }
}

/// The items of a list.
pub fn as_list<'t, 'a>(value: &Tree<'t, 'a>) -> Option<Items<'t, 'a>>
    ensures { option_map items_view result ≡ as_array (view value.now) }
{
    Some(Items {
        items: value.element.items()?,
    })
}

/// The text of a key that must be there.
pub fn text_at<'a>(value: &Tree<'_, 'a>, key: &str) -> Option<&'a str>
    ensures { option_map (λ s. s.now) result ≡ text_at key.now (view value.now) }
{
    as_text(&value_at(value, key)?)
}

/// The number of a key that must be there.
pub fn number_at(value: &Tree<'_, '_>, key: &str) -> Option<u64>
    ensures { result ≡ number_at key.now (view value.now) }
{
    whole_number(&value_at(value, key)?)
}

/// The text of a key that may be absent.
pub(crate) fn text_if<'a>(value: &Tree<'_, 'a>, key: &str) -> Option<Option<&'a str>>
    ensures { option_map (option_map (λ s. s.now)) result
        ≡ text_if (get key.now (view value.now)) }
{
    match value_at(value, key) {
        None => Some(None),
        Some(found) => Some(Some(as_text(&found)?)),
    }
}

/// The number of a key that may be absent, and is this one then.
pub(crate) fn number_or(value: &Tree<'_, '_>, key: &str, absent: u64) -> Option<u64>
    ensures { result ≡ number_or absent (get key.now (view value.now)) }
{
    match value_at(value, key) {
        None => Some(absent),
        Some(found) => whole_number(&found),
    }
}

/// The number, where it is from `low` to `high`.
pub fn within(low: u32, high: u32, number: u64) -> Option<u32>
    ensures value { result ≡ within low high number }
    ensures range { IfSome result (λ n. (low ≤ n) × (n ≤ high)) }
{
    let number = u32::try_from(number).ok()?;
    if number < low || number > high {
        return None;
    }
    Some(number)
}

/// Whether the key is one of these.
fn is_among(keys: &[&str], key: &str) -> bool
    ensures { result ≡ is_among (map (λ k. k.now) keys.now) key.now }
{
    keys.iter().any(|known| key == *known)
}

/// Whether each key of the members is one of these.
fn all_among(keys: &[&str], mut members: Members<'_, '_>) -> bool
    ensures { (ms : json.Members) → InMembers members.entry ms
        → result ≡ all_among (map (λ k. k.now) keys.now) (members_said ms no_members) }
{
    while let Some((key, _)) = members.next() {
        if !is_among(keys, key) {
            return false;
        }
    }
    true
}

/// Whether the value is an object.
pub(crate) fn is_object(value: &Tree<'_, '_>) -> bool
    ensures { result ≡ is_some (as_object (view value.now)) }
{
    match value.element.members() {
        Some(_) => true,
        None => false,
    }
}

/// Whether the value is an object with no keys but these.
pub fn has_only(value: &Tree<'_, '_>, keys: &[&str]) -> bool
    ensures { result ≡ has_only (map (λ k. k.now) keys.now) (view value.now) }
{
    match value.element.members() {
        Some(members) => all_among(keys, members),
        None => false,
    }
}
