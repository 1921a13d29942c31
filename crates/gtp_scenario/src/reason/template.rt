//! What is wrong with the templates of access points.

ghost use Rattle.std.specs.Prelude.{◌≡◌, true, Some, IfOk, MatchOption};
ghost use Rattle.serde_json.specs.Data.{Items};
ghost use Rattle.gtp_scenario.specs.Json.{is_among};
ghost use Rattle.gtp_scenario.specs.Keys.{template_keys};
ghost use Rattle.gtp_scenario.specs.Reasons.{names_one_of, IsTemplateFlaw, IsTemplateAt};
ghost use Rattle.gtp_scenario.specs.reading.Faultless.{is_template, are_templates};
ghost use Rattle.gtp_scenario.specs.Trees.{view, items_view};

use crate::members::{Items, text_at};
use crate::reason::flaw::{ObjectFlaw, flaw_of};
use crate::reason::key::Key;
use crate::text::apn_of;
use crate::tree::Tree;
use gtp_gateway::Apn;
use gtp_values::Memory;
use std::alloc::Global;

/// What is wrong with a template of an access point: one of these.
#[derive(Debug, Drop)]
pub enum TemplateFlaw {
    /// Something is wrong with its keys.
    Keys(ObjectFlaw),
    /// The packet gateway has no access point of this name.
    NoAccessPoint,
}

/// Whether an access point is one of these.
fn is_among(names: &[Apn], name: &Apn) -> bool
    ensures { result ≡ is_among names.now name.now }
{
    names.iter().any(|known| name.octets() == known.octets())
}

/// Whether the access point of a template is one of these.
fn names_one_of(names: &[Apn], value: &Tree<'_, '_>) -> bool
    ensures { result ≡ names_one_of names.now (view value.now) }
{
    let Some(text) = text_at(value, "apn") else {
        return false;
    };
    match apn_of(text) {
        Some(name) => is_among(names, &name),
        None => false,
    }
}

fn template_flaw(
    alloc: Global,
    names: &[Apn],
    value: &Tree<'_, '_>,
) -> Result<Option<TemplateFlaw>, Memory>
    ensures { IfOk result (λ flaw. MatchOption flaw (is_template names.now (view value.now) ≡ true)
        (IsTemplateFlaw names.now (view value.now))) }
{
    if let Some(flaw) = flaw_of(alloc, &[Key::Apn, Key::Tft], value)? {
        return Ok(Some(TemplateFlaw::Keys(flaw)));
    }
    if !names_one_of(names, value) {
        return Ok(Some(TemplateFlaw::NoAccessPoint));
    }
    Ok(None)
}

/// The place of the first template at fault, and what is wrong with it.
pub(crate) fn first_template(
    alloc: Global,
    names: &[Apn],
    mut values: Items<'_, '_>,
) -> Result<Option<(usize, TemplateFlaw)>, Memory>
    ensures { IfOk result (λ found. MatchOption found
        (are_templates names.now (items_view values.entry) ≡ true)
        (λ f. IsTemplateAt names.now (items_view values.entry) f.0 f.1)) }
{
    let mut place: usize = 0;
    while let Some(value) = values.next() {
        if let Some(flaw) = template_flaw(alloc, names, &value)? {
            return Ok(Some((place, flaw)));
        }
        // There is one: no list in memory has 2^64 items.
        let Some(next) = place.checked_add(1) else {
            return Err(Memory);
        };
        place = next;
    }
    Ok(None)
}
