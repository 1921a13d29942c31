//! Elements in the place where they lie.

ghost use Rattle.std.specs.Prelude.{◌≡◌, ◌+◌, ◌<◌, ◌^◌, [], length, option_map};
ghost use Rattle.gtp_ie.specs.Element.{Element, front_of, elements_of, first_of, all_of};
ghost use Rattle.gtp_ie.specs.View.{element_of};
ghost use Rattle.gtp_ie.specs.reading.View.{FrontIs};
ghost use Rattle.std.specs.Iterator.{YieldsFirstBy, item_count};
ghost use Rattle.gtp_ie.specs.Walked.{IsWalked, FindsElements};

use crate::fault::IeFault;
use crate::view::ElementView;
use std::marker::Model;

mod index;

pub use index::{Indexed, indexed_at};

impl<'a> ElementView<'a> {
    /// The elements that the body holds as a group (TS 29.274 6.1.2). Takes no memory.
    pub fn inner(&self) -> Result<Elements<'a>, IeFault>
        ensures walked { IsWalked result (elements_of (self.now.at + 4) self.now.body.now) }
        ensures elements { FindsElements (self.now.at + 4) self.now.body.now result }
    {
        elements_at(self.body, self.at + 4)
    }

    /// The same with an index. Takes no memory.
    pub fn indexed(&self) -> Result<Indexed<'a>, IeFault>
        ensures walked { IsWalked result (elements_of (self.now.at + 4) self.now.body.now) }
        ensures elements { FindsElements (self.now.at + 4) self.now.body.now result }
    {
        indexed_at(self.body, self.at + 4)
    }
}

/// The element at the front, and the octets after it.
fn front(octets: &[u8], at: usize) -> Option<(ElementView<'_>, &[u8])>
    requires { at + length octets.now < 2 ^ 64 }
    ensures { FrontIs result (front_of at octets.now) }
{
    let [kind, high, low, last, rest @ ..] = octets else {
        return None;
    };
    let len = usize::from(u16::from_be_bytes([*high, *low]));
    if rest.len() < len {
        return None;
    }
    let (body, rest) = rest.split_at(len);
    let view = ElementView {
        kind: *kind,
        spare: *last >> 4,
        instance: *last & 0x0f,
        body,
        at,
    };
    Some((view, rest))
}

/// Elements one after the other, which cover the octets that they were made of. Contracts see the list
/// of those that are left.
#[derive(Debug, Drop)]
pub struct Elements<'a> {
    rest: &'a [u8],
    at: usize,
}

impl<'a> Model for Elements<'a> {
    ghost use Rattle.std.specs.Prelude.{List};
    ghost use Rattle.gtp_ie.specs.Element.{Element, elements_of, list_of};
    ghost use Rattle.gtp_ie.specs.reading.View.{IsWhole};

    ghost Value = { List Element };

    ghost view = { λ a. list_of (elements_of a.at a.rest.now) };

    ghost invariant = { λ a. IsWhole a.at a.rest.now };
}

/// The elements of the octets: `Truncated` where they are not whole elements, at the first octet of
/// the first one that isn't. Takes no memory.
pub fn all_elements(octets: &[u8]) -> Result<Elements<'_>, IeFault>
    ensures walked { IsWalked result (elements_of 0 octets.now) }
    ensures elements { FindsElements 0 octets.now result }
{
    elements_at(octets, 0)
}

/// The same, where the first octet has this place in the datagram.
pub fn elements_at(octets: &[u8], base: usize) -> Result<Elements<'_>, IeFault>
    requires { base + length octets.now < 2 ^ 64 }
    ensures walked { IsWalked result (elements_of base octets.now) }
    ensures elements { FindsElements base octets.now result }
{
    walk_from(octets, base)
}

/// The elements of the octets, by one reading.
fn walk_from(octets: &[u8], base: usize) -> Result<Elements<'_>, IeFault>
    requires { base + length octets.now < 2 ^ 64 }
    ensures { IsWalked result (elements_of base octets.now) }
{
    let mut rest = octets;
    let mut at = base;
    while !rest.is_empty() {
        let Some((view, after)) = front(rest, at) else {
            return Err(IeFault::Truncated { at });
        };
        at += 4 + view.body.len();
        rest = after;
    }
    Ok(Elements {
        rest: octets,
        at: base,
    })
}

impl<'a> Iterator for Elements<'a> {
    type Item = ElementView<'a>;

    ghost next_gives = { YieldsFirstBy element_of (λ es. es) };

    ghost remaining = { item_count (λ es. es) };

    fn next(&mut self) -> Option<ElementView<'a>> {
        let (view, rest) = front(self.rest, self.at)?;
        self.at += 4 + view.body.len();
        self.rest = rest;
        Some(view)
    }
}

impl<'a> Elements<'a> {
    /// No elements.
    pub fn none() -> Elements<'a>
        ensures { result ≡ [] }
    {
        Elements { rest: &[], at: 0 }
    }

    /// The same elements again.
    pub fn iter(&self) -> Elements<'a>
        ensures { result ≡ self.now }
    {
        Elements {
            rest: self.rest,
            at: self.at,
        }
    }

    /// All elements of a type and instance.
    pub fn all(&self, kind: u8, instance: u8) -> AllOf<'a>
        ensures { result ≡ all_of kind instance self.now }
    {
        AllOf {
            elements: self.iter(),
            kind,
            instance,
        }
    }

    /// The first element of a type and instance.
    pub fn first(&self, kind: u8, instance: u8) -> Option<ElementView<'a>>
        ensures { option_map element_of result ≡ first_of kind instance self.now }
    {
        for view in self.iter() {
            if view.kind == kind && view.instance == instance {
                return Some(view);
            }
        }
        None
    }
}

/// The elements of one type and instance. Contracts see the list of those that are left.
#[derive(Debug, Drop)]
pub struct AllOf<'a> {
    elements: Elements<'a>,
    kind: u8,
    instance: u8,
}

impl<'a> Model for AllOf<'a> {
    ghost use Rattle.std.specs.Prelude.{List};
    ghost use Rattle.gtp_ie.specs.Element.{Element, all_of};

    ghost Value = { List Element };

    ghost view = { λ a. all_of a.kind a.instance a.elements };
}

impl<'a> Iterator for AllOf<'a> {
    type Item = ElementView<'a>;

    ghost next_gives = { YieldsFirstBy element_of (λ es. es) };

    ghost remaining = { item_count (λ es. es) };

    fn next(&mut self) -> Option<ElementView<'a>> {
        while let Some(view) = self.elements.next() {
            if view.kind == self.kind && view.instance == self.instance {
                return Some(view);
            }
        }
        None
    }
}
