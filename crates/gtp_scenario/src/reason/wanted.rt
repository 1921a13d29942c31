//! What the value of a key has to be.

ghost use Rattle.std.specs.Prelude.{◌≡◌, false, IfOk, option_map};
ghost use Rattle.std.specs.Option.{option_map_or};
ghost use Rattle.serde_json.specs.Find.{as_str};
ghost use Rattle.gtp_scenario.specs.Keys.{octets_in, is_good, is_good_text};
ghost use Rattle.gtp_scenario.specs.Trees.{view};

use crate::event::role_of;
use crate::fault::Fault;
use crate::head::{access_points_in, switches_in};
use crate::members::{as_list, as_text, is_object, whole_number, within};
use crate::name::{bearer_name_of, session_name_of};
use crate::text::{address_of, apn_of, imsi_of, ipv6_of, octets_of, teid_of};
use crate::tree::Tree;
use gtp_values::Memory;
use std::alloc::Global;

/// The most octets of a traffic flow template.
const MOST_TFT: usize = 255;

/// What a value has to be.
#[derive(Clone, Copy, Debug, PartialEq, Eq)]
pub enum Wanted {
    Object,
    List,
    Text,
    /// A number from 0 to 2^64 - 1, without a fraction and an exponent.
    Number,
    /// Such a number, or the text `all`.
    NumberOrAll,
    /// Such a number, from the first of these to the second.
    Within(u32, u32),
    /// An IPv4 address.
    Address,
    /// An IPv6 address, in 32 hexadecimal digits.
    Address6,
    /// An IPv4 address, or an IPv6 address in 32 hexadecimal digits.
    AddressOfEither,
    AccessPoint,
    /// A list of at most 16 access points.
    AccessPoints,
    /// A list of switches, by their words.
    Switches,
    Imsi,
    Teid,
    /// `serving` or `packet`.
    Gateway,
    /// Two hexadecimal digits for each octet.
    Octets,
    /// At most 255 octets.
    Tft,
    /// An object with `imsi` and `apn`.
    Session,
    /// An object with `imsi`, `apn` and `ebi`.
    Bearer,
}

/// The octets that a value is in hexadecimal digits.
fn octets_in(alloc: Global, value: &Tree<'_, '_>) -> Result<Option<Vec<u8>>, Memory>
    ensures { IfOk result (λ octets. option_map (λ v. v.items) octets
        ≡ octets_in (view value.now)) }
{
    let Some(text) = as_text(value) else {
        return Ok(None);
    };
    match octets_of(alloc, text) {
        Ok(octets) => Ok(Some(octets)),
        Err(Fault::Wrong) => Ok(None),
        Err(Fault::Memory) => Err(Memory),
    }
}

fn are_octets(alloc: Global, value: &Tree<'_, '_>) -> Result<bool, Memory>
    ensures { IfOk result (λ good. good ≡ is_good Wanted.Octets (view value.now)) }
{
    Ok(octets_in(alloc, value)?.is_some())
}

fn is_tft(alloc: Global, value: &Tree<'_, '_>) -> Result<bool, Memory>
    ensures { IfOk result (λ good. good ≡ is_good Wanted.Tft (view value.now)) }
{
    match octets_in(alloc, value)? {
        Some(octets) => Ok(octets.len() <= MOST_TFT),
        None => Ok(false),
    }
}

fn are_access_points(alloc: Global, value: &Tree<'_, '_>) -> Result<bool, Memory>
    ensures { IfOk result (λ good. good ≡ is_good Wanted.AccessPoints (view value.now)) }
{
    let Some(items) = as_list(value) else {
        return Ok(false);
    };
    match access_points_in(alloc, items) {
        Ok(_) => Ok(true),
        Err(Fault::Wrong) => Ok(false),
        Err(Fault::Memory) => Err(Memory),
    }
}

fn are_switches(value: &Tree<'_, '_>) -> bool
    ensures { result ≡ is_good Wanted.Switches (view value.now) }
{
    match as_list(value) {
        Some(words) => switches_in(words).is_some(),
        None => false,
    }
}

/// Whether a value is a number in a range.
fn is_within(value: &Tree<'_, '_>, low: u32, high: u32) -> bool
    ensures { result ≡ is_good (Wanted.Within low high) (view value.now) }
{
    match whole_number(value) {
        Some(number) => within(low, high, number).is_some(),
        None => false,
    }
}

/// Whether a text is one that is wanted; of no other kind of value is that asked.
fn is_wanted_text(wanted: Wanted, text: &str) -> bool
    ensures { result ≡ is_good_text wanted text.now }
{
    match wanted {
        Wanted::Text => true,
        Wanted::Address => address_of(text).is_some(),
        Wanted::Address6 => ipv6_of(text).is_some(),
        Wanted::AddressOfEither => address_of(text).is_some() || ipv6_of(text).is_some(),
        Wanted::AccessPoint => apn_of(text).is_some(),
        Wanted::Imsi => imsi_of(text).is_some(),
        Wanted::Teid => teid_of(text).is_some(),
        Wanted::Gateway => role_of(text).is_some(),
        Wanted::NumberOrAll => text == "all",
        _ => false,
    }
}

fn is_text(wanted: Wanted, value: &Tree<'_, '_>) -> bool
    ensures { result ≡ option_map_or (is_good_text wanted) (as_str (view value.now)) false }
{
    match as_text(value) {
        Some(text) => is_wanted_text(wanted, text),
        None => false,
    }
}

/// Whether a value is a number or the text `all`.
fn is_number_or_all(value: &Tree<'_, '_>) -> bool
    ensures { result ≡ is_good Wanted.NumberOrAll (view value.now) }
{
    whole_number(value).is_some() || is_text(Wanted::NumberOrAll, value)
}

impl Wanted {
    /// Whether a value is as it has to be.
    pub(crate) fn is_good(self, alloc: Global, value: &Tree<'_, '_>) -> Result<bool, Memory>
        ensures { IfOk result (λ good. good ≡ is_good self (view value.now)) }
    {
        match self {
            Wanted::Object => Ok(is_object(value)),
            Wanted::List => Ok(as_list(value).is_some()),
            Wanted::Number => Ok(whole_number(value).is_some()),
            Wanted::NumberOrAll => Ok(is_number_or_all(value)),
            Wanted::Within(low, high) => Ok(is_within(value, low, high)),
            Wanted::AccessPoints => are_access_points(alloc, value),
            Wanted::Switches => Ok(are_switches(value)),
            Wanted::Octets => are_octets(alloc, value),
            Wanted::Tft => is_tft(alloc, value),
            Wanted::Session => Ok(session_name_of(value).is_some()),
            Wanted::Bearer => Ok(bearer_name_of(value).is_some()),
            _ => Ok(is_text(self, value)),
        }
    }
}
