//! Elements with an index of those that messages have rows of.

ghost use Rattle.std.specs.Prelude.{◌≡◌, ◌+◌, ◌<◌, ◌^◌, None, ℕ, get_or, length, option_map};
ghost use Rattle.gtp_ie.specs.Element.{elements_of, first_of, all_of};
ghost use Rattle.gtp_ie.specs.reading.Index.{slot, IsIndexed};
ghost use Rattle.gtp_ie.specs.reading.View.{stop_of};
ghost use Rattle.gtp_ie.specs.View.{element_of};
ghost use Rattle.gtp_ie.specs.Walked.{IsWalked, FindsElements};

use super::{AllOf, Elements, front};
use crate::fault::IeFault;
use crate::kinds::{
    AMBR, APN, BEARER_CONTEXT, CAUSE, CHARGING_ID, EBI, FTEID, IMSI, PAA, PDN_TYPE, PLMN, PTI, QOS,
    RAT, RECOVERY, SELECTION, TFT,
};
use crate::view::ElementView;
use std::marker::Model;

/// How many slots there are: one for each type and instance that a message has a row of, and one for
/// all others.
const SLOTS: usize = 22;

/// The slot of a type and instance. Inlined, since most callers name both.
#[inline(always)]
#[tactic(auto, unfolding(crate::specs::reading::Index::slot))]
fn slot_of(kind: u8, instance: u8) -> usize
    ensures value { result ≡ slot kind instance }
    ensures range { result < 22 }
{
    match (kind, instance) {
        (IMSI, 0) => 1,
        (CAUSE, 0) => 2,
        (RECOVERY, 0) => 3,
        (APN, 0) => 4,
        (AMBR, 0) => 5,
        (EBI, 0) => 6,
        (PAA, 0) => 7,
        (QOS, 0) => 8,
        (RAT, 0) => 9,
        (PLMN, 0) => 10,
        (TFT, 0) => 11,
        (FTEID, 0) => 12,
        (BEARER_CONTEXT, 0) => 13,
        (CHARGING_ID, 0) => 14,
        (PDN_TYPE, 0) => 15,
        (PTI, 0) => 16,
        (SELECTION, 0) => 17,
        (EBI, 1) => 18,
        (FTEID, 1) => 19,
        (FTEID, 2) => 20,
        (FTEID, 3) => 21,
        _ => 0,
    }
}

/// The same, where a walk asks for the slot of any element.
#[inline(never)]
fn slot_in_walk(kind: u8, instance: u8) -> usize
    ensures value { result ≡ slot kind instance }
    ensures range { result < 22 }
{
    slot_of(kind, instance)
}

/// Elements one after the other in fewer than 65,536 octets, of which the first of each type and instance
/// that a message has a row of is found without a walk. Takes no memory. Contracts see the list of the
/// elements.
#[derive(Debug, Drop)]
pub struct Indexed<'a> {
    octets: &'a [u8],
    at: usize,
    /// By slot, how many octets are left from its first element on; 0 where it has none.
    lefts: [u16; SLOTS],
}

impl<'a> Model for Indexed<'a> {
    ghost use Rattle.std.specs.Prelude.{List};
    ghost use Rattle.gtp_ie.specs.Element.{Element, elements_of, list_of};
    ghost use Rattle.gtp_ie.specs.reading.Index.{IsIndexed};

    ghost Value = { List Element };

    ghost view = { λ a. list_of (elements_of a.at a.octets.now) };

    ghost invariant = { λ a. IsIndexed a.at a.octets.now a.lefts };
}

/// The elements of the octets, whose first octet has this place in the datagram, by one walk:
/// `Truncated` where they are not whole elements, at the first octet of the first one that isn't.
#[inline(always)]
pub fn indexed_at(octets: &[u8], base: usize) -> Result<Indexed<'_>, IeFault>
    requires place { base + length octets.now < 2 ^ 64 }
    requires stated { length octets.now < 2 ^ 16 }
    ensures walked { IsWalked result (elements_of base octets.now) }
    ensures elements { FindsElements base octets.now result }
{
    index_from(octets, base)
}

/// The same, by one reading.
#[inline(always)]
fn index_from(octets: &[u8], base: usize) -> Result<Indexed<'_>, IeFault>
    requires place { base + length octets.now < 2 ^ 64 }
    requires stated { length octets.now < 2 ^ 16 }
    ensures { IsWalked result (elements_of base octets.now) }
{
    let mut lefts = [0u16; SLOTS];
    match fill(&mut lefts, octets, base) {
        None => Ok(Indexed {
            octets,
            at: base,
            lefts,
        }),
        Some(at) => Err(IeFault::Truncated { at }),
    }
}

/// Fills the slots by one walk over the octets; the place of the first element that isn't whole. The slots are where
/// the caller has them, and the answer in registers, so that no index is moved.
#[inline(never)]
fn fill(lefts: &mut [u16; SLOTS], octets: &[u8], base: usize) -> Option<usize>
    requires place { base + length octets.now < 2 ^ 64 }
    requires stated { length octets.now < 2 ^ 16 }
    requires none { (s : ℕ) → get_or lefts.old s 0 ≡ 0 }
    ensures stop { result ≡ stop_of (elements_of base octets.now) }
    ensures index { result ≡ None → IsIndexed base octets.now lefts.new }
{
    let mut rest = octets;
    let mut at = base;
    while !rest.is_empty() {
        let Some((view, after)) = front(rest, at) else {
            return Some(at);
        };
        let slot = slot_in_walk(view.kind, view.instance);
        if lefts[slot] == 0 {
            lefts[slot] = rest.len() as u16;
        }
        at += 4 + view.body.len();
        rest = after;
    }
    None
}

impl<'a> Indexed<'a> {
    /// The same elements in order.
    pub fn iter(&self) -> Elements<'a>
        ensures { result ≡ self.now }
    {
        Elements {
            rest: self.octets,
            at: self.at,
        }
    }

    /// A part of the list that has all elements of a type and instance, in order.
    pub fn from_first(&self, kind: u8, instance: u8) -> Elements<'a>
        ensures first { first_of kind instance result ≡ first_of kind instance self.now }
        ensures all { all_of kind instance result ≡ all_of kind instance self.now }
    {
        let left = self.lefts[slot_of(kind, instance)];
        let passed = self.octets.len() - usize::from(left);
        let (_, rest) = self.octets.split_at(passed);
        Elements {
            rest,
            at: self.at + passed,
        }
    }

    /// The first element of a type and instance.
    pub fn first(&self, kind: u8, instance: u8) -> Option<ElementView<'a>>
        ensures { option_map element_of result ≡ first_of kind instance self.now }
    {
        self.from_first(kind, instance).first(kind, instance)
    }

    /// All elements of a type and instance.
    pub fn all(&self, kind: u8, instance: u8) -> AllOf<'a>
        ensures { result ≡ all_of kind instance self.now }
    {
        self.from_first(kind, instance).all(kind, instance)
    }
}
