//! Extension headers, and the chain of them (TS 29.281 5.2).

ghost use Rattle.std.specs.Prelude.{◌≡◌, ◌+◌, ◌≤◌, [], List, length, IfOk, IfErr, IsOkAnd, Err};
ghost use Rattle.std.specs.Iterator.{YieldsFirstBy, item_count};
ghost use Rattle.gtp_user.specs.declared.fault.UserFault.{UserFault as AnyFault};
ghost use Rattle.gtp_values.specs.Steps.{Gives};
ghost use Rattle.gtp_user.specs.Chain.{Extension, IsChain, WholeChainFails, AreExtensions, first_kind, chain_encoding, extension_of};
ghost use Rattle.gtp_user.specs.reading.Walk.{chain_at, whole_at, headers_in, HasNoRest};
ghost use Rattle.gtp_user.specs.reading.Chained.{chained_of};

use crate::fault::UserFault;
use crate::front::read_front;
use std::marker::Model;

/// An extension header, as it lies in the datagram.
#[derive(Clone, Copy, Debug, PartialEq, Eq)]
pub struct ExtensionHeader<'a> {
    pub kind: u8,
    pub content: &'a [u8],
}

/// A whole chain of extension headers, as it lies in the datagram. Contracts see the list of its
/// headers.
#[derive(Clone, Debug, Drop)]
pub struct Extensions<'a> {
    /// The type of the first header, 0 where there is none.
    first: u8,
    /// The octets of the chain, after that type.
    octets: &'a [u8],
}

impl<'a> Model for Extensions<'a> {
    ghost use Rattle.std.specs.Prelude.{List};
    ghost use Rattle.gtp_user.specs.Chain.{Extension};
    ghost use Rattle.gtp_user.specs.reading.Walk.{headers_in, HasNoRest};

    ghost Value = { List Extension };

    ghost view = { λ a. headers_in a.first a.octets.now };

    ghost invariant = { λ a. HasNoRest a.first a.octets.now };
}

/// The chain at the start of the last octets of a datagram of `end` octets, its first header of
/// this type, and the octets after it.
#[inline(always)]
pub fn read_chain(
    first: u8,
    octets: &[u8],
    end: usize,
) -> Result<(Extensions<'_>, &[u8]), UserFault>
    requires { length octets.now ≤ end }
    ensures chain { Gives chained_of result (chain_at end first octets.now) }
    ensures within { IfOk result (λ p. length p.1.now ≤ length octets.now) }
{
    let mut kind = first;
    let mut rest = octets;
    while kind != 0 {
        let front = read_front(kind, rest, end)?;
        kind = front.next;
        rest = front.rest;
    }
    let chain = Extensions {
        first,
        octets: &octets[..octets.len() - rest.len()],
    };
    Ok((chain, rest))
}

/// The headers of a whole chain, by one reading.
#[tactic(auto, unfolding(crate::specs::reading::Walk::whole_at))]
fn read_whole(first: u8, octets: &[u8]) -> Result<Extensions<'_>, UserFault>
    ensures { Gives (λ headers. headers) result (whole_at first octets.now) }
{
    let (headers, rest) = read_chain(first, octets, octets.len())?;
    if !rest.is_empty() {
        return Err(UserFault::Length {
            stated: octets.len() - rest.len(),
            held: octets.len(),
        });
    }
    Ok(headers)
}

impl<'a> Extensions<'a> {
    /// The headers of octets that are a whole chain, the first one of this type.
    #[inline(always)]
    pub(crate) fn of(first: u8, octets: &'a [u8]) -> Extensions<'a>
        requires { HasNoRest first octets.now }
        ensures { result ≡ headers_in first octets.now }
    {
        Extensions { first, octets }
    }

    /// No headers.
    #[inline(always)]
    pub fn none() -> Extensions<'a>
        ensures { result ≡ [] }
    {
        Extensions {
            first: 0,
            octets: &[],
        }
    }

    /// The headers that a whole chain has, the first one of this type; 0 is the empty chain. Places
    /// in a fault count from the start of `octets`; `Length` says that octets are left after the chain.
    pub fn try_new(first: u8, octets: &'a [u8]) -> Result<Extensions<'a>, UserFault>
        ensures found { IfOk result (λ headers. IsChain first octets.now headers []) }
        ensures only { (es : List Extension) →
            IsChain first octets.now es [] → IsOkAnd result (λ headers. headers ≡ es) }
        ensures fault { IfErr result (WholeChainFails first octets.now) }
        ensures first { (f : AnyFault) → WholeChainFails first octets.now f → result ≡ Err f }
    {
        read_whole(first, octets)
    }

    /// The headers, in order.
    pub fn iter(&self) -> ExtensionHeaders<'a>
        ensures { result ≡ self.now }
    {
        ExtensionHeaders {
            next: self.first,
            octets: self.octets,
        }
    }

    /// The type of the first header, 0 where there is none.
    pub fn first_kind(&self) -> u8
        ensures { result ≡ first_kind self.now }
    {
        self.first
    }

    /// The octets of the chain, after the type of its first header.
    pub fn octets(&self) -> &'a [u8]
        ensures encoding { result.now ≡ chain_encoding self.now }
        ensures headers { AreExtensions self.now }
    {
        self.octets
    }
}

impl PartialEq for Extensions<'_> {
    ghost use Rattle.std.specs.Cmp.Lexicographic.{pointwise, lists_per};
    ghost use Rattle.std.specs.Cmp.Rules.{comparing};
    ghost use Rattle.std.proofs.Common.{rules};
    ghost use Rattle.gtp_user.specs.Chain.{header_eq};

    ghost eq = { pointwise header_eq };

    ghost laws = { lists_per (Prim.search (comparing, rules)) };

    fn eq(&self, other: &Extensions<'_>) -> bool {
        self.first == other.first && self.octets == other.octets
    }
}

impl Eq for Extensions<'_> {
    ghost use Rattle.std.specs.Cmp.Lexicographic.{lists_equiv};
    ghost use Rattle.std.specs.Cmp.Rules.{comparing};
    ghost use Rattle.std.proofs.Common.{rules};

    ghost laws = { lists_equiv (Prim.search (comparing, rules)) };
}

impl<'a> IntoIterator for Extensions<'a> {
    type Item = ExtensionHeader<'a>;

    type IntoIter = ExtensionHeaders<'a>;

    ghost into_iter_gives = { λ chain headers. headers ≡ chain };

    fn into_iter(self) -> ExtensionHeaders<'a> {
        self.iter()
    }
}

impl<'a> IntoIterator for &Extensions<'a> {
    type Item = ExtensionHeader<'a>;

    type IntoIter = ExtensionHeaders<'a>;

    ghost into_iter_gives = { λ chain headers. headers ≡ chain.now };

    fn into_iter(self) -> ExtensionHeaders<'a> {
        self.iter()
    }
}

/// Gives the headers of a chain in order. Contracts see the list of those that are left.
#[derive(Clone, Debug, Drop)]
pub struct ExtensionHeaders<'a> {
    /// The type of the next header, 0 where there is none.
    next: u8,
    /// The octets that are left, after that type.
    octets: &'a [u8],
}

impl<'a> Model for ExtensionHeaders<'a> {
    ghost use Rattle.std.specs.Prelude.{List};
    ghost use Rattle.gtp_user.specs.Chain.{Extension};
    ghost use Rattle.gtp_user.specs.reading.Walk.{headers_in, HasNoRest};

    ghost Value = { List Extension };

    ghost view = { λ a. headers_in a.next a.octets.now };

    ghost invariant = { λ a. HasNoRest a.next a.octets.now };
}

impl<'a> Iterator for ExtensionHeaders<'a> {
    type Item = ExtensionHeader<'a>;

    ghost next_gives = { YieldsFirstBy extension_of (λ es. es) };

    ghost remaining = { item_count (λ es. es) };

    fn next(&mut self) -> Option<ExtensionHeader<'a>> {
        let kind = self.next;
        if kind == 0 {
            return None;
        }
        let Ok(front) = read_front(kind, self.octets, self.octets.len()) else {
            return None;
        };
        self.next = front.next;
        self.octets = front.rest;
        Some(ExtensionHeader {
            kind,
            content: front.content,
        })
    }
}
