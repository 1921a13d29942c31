//! The access points of a text, with commas between them.

ghost use Rattle.std.specs.Prelude.{◌≡◌, ◌↔◌, ◌≤◌, length, IfOk, IfErr, OnOk, OnErr, IsErrOf, IfSome, IsSome};
ghost use Rattle.gtp_values.specs.Apn.{IsApnText};
ghost use Rattle.gtp_c.specs.Names.{AreNames, AreGoodNames, AreFewNames, IsCut, IsPut, names_in, word_length as spec_word_length};
ghost use Rattle.gtp_c.specs.Setups.{no_gateway};
ghost use Rattle.gtp_c.specs.Common.{IsOneOf};

use crate::session::access_point_of;
use crate::status::{BAD_VALUE, NO_MEMORY};
use gtp_gateway::Apn;
use std::alloc::Global;

/// So many access points a gateway is set up with at most.
const MOST_NAMES: usize = 16;

/// How many octets stand before the first comma.
fn word_length(octets: &[u8]) -> usize
    ensures value { result ≡ spec_word_length octets.now }
    ensures most { result ≤ length octets.now }
{
    octets
        .iter()
        .position(|octet| *octet == b',')
        .unwrap_or(octets.len())
}

/// The octets before the first comma, and those after it, where there is one.
fn cut(octets: &[u8]) -> (&[u8], Option<&[u8]>)
    ensures { IsCut octets.now result.0.now result.1 }
{
    let len = word_length(octets);
    if len == octets.len() {
        return (octets, None);
    }
    (&octets[..len], Some(&octets[len + 1..]))
}

/// A name more, which a text writes.
fn put_name(names: &mut Vec<Apn>, text: &[u8]) -> Result<(), u8>
    ensures ok { OnOk result (IsPut names.old.items text.now names.new.items) }
    ensures good { OnOk result (IsApnText text.now) }
    ensures err { IfErr result (IsOneOf no_gateway) }
    ensures bad { IsErrOf result 1 → ¬ IsApnText text.now }
{
    let Some(name) = access_point_of(text) else {
        return Err(BAD_VALUE);
    };
    match names.push(name) {
        Ok(()) => Ok(()),
        Err(_) => Err(NO_MEMORY),
    }
}

/// The access points of a text; none of an empty one.
pub(crate) fn access_points_of(alloc: Global, octets: &[u8]) -> Result<Vec<Apn>, u8>
    ensures ok { IfOk result (λ names. AreNames octets.now names.items) }
    ensures good { OnOk result (AreGoodNames octets.now) }
    ensures err { IfErr result (IsOneOf no_gateway) }
    ensures bad { IsErrOf result 1 → ¬ AreGoodNames octets.now }
{
    let mut names = Vec::new(alloc);
    if octets.is_empty() {
        return Ok(names);
    }
    let mut rest = octets;
    loop {
        let (word, after) = cut(rest);
        put_name(&mut names, word)?;
        match after {
            Some(after) => rest = after,
            None => return Ok(names),
        }
    }
}

/// How many access points a text names; none where a word of it is no name, or they are too many. Takes no memory.
pub(crate) fn count_of_names(octets: &[u8]) -> Option<usize>
    ensures some { IsSome result ↔ AreFewNames octets.now }
    ensures value { IfSome result (λ count. count ≡ length (names_in octets.now)) }
{
    if octets.is_empty() {
        return Some(0);
    }
    let mut rest = octets;
    let mut count = 1;
    loop {
        let (word, after) = cut(rest);
        if access_point_of(word).is_none() {
            return None;
        }
        let Some(after) = after else {
            return Some(count);
        };
        if count == MOST_NAMES {
            return None;
        }
        rest = after;
        count += 1;
    }
}
