//! The extension headers of a datagram of the user plane at fault, as far as they are whole (TS 29.281 5.2.1).

ghost use Rattle.std.specs.Prelude.{◌≡◌, ◌*◌, ◌++◌, IfOk, OnOk, map, option_map};
ghost use Rattle.std.specs.List.{flat_map};
ghost use Rattle.gtp_user.specs.Chain.{extension_of};
ghost use Rattle.gtp_lines.specs.Fronts.{begun_by, begun_at as spec_begun_at, header_of, front_of, chain_at as spec_chain_at, broken_line, carried_line, end_line, front_lines};
ghost use Rattle.gtp_lines.specs.Named.{extension_lines};
ghost use Rattle.gtp_lines.specs.reading.Header.{front_seen, begun_seen, chain_of};

use crate::named::put_extension;
use crate::text::{put, put_hex, put_octets};
use gtp_names::Names;
use gtp_user::ExtensionHeader;
use gtp_user::flags::{EXTENSION_HEADER, GTP, PROTOCOL_TYPE};
use gtp_user::kinds::G_PDU;
use gtp_values::has_bit;
use std::alloc::{AllocError, Global};

/// A header, the type of the next one, and the octets after that.
#[derive(Clone, Copy)]
struct Begun<'a> {
    content: &'a [u8],
    next: u8,
    rest: &'a [u8],
}

/// The headers of a datagram at fault.
#[derive(Drop)]
pub struct ChainFront<'a> {
    /// Those that are whole, in order.
    pub headers: Vec<ExtensionHeader<'a>>,
    /// The type of the next one, which is not whole; 0 where there is none.
    pub next: u8,
    /// The octets after the headers.
    pub rest: &'a [u8],
}

/// The content of a header, in octets behind one that states so many, itself counted.
fn begun_by(size: usize, octets: &[u8]) -> Option<Begun<'_>>
    ensures { option_map begun_seen result ≡ begun_by size octets.now }
{
    if size < 4 {
        return None;
    }
    if octets.len() < size - 1 {
        return None;
    }
    let (front, rest) = octets.split_at(size - 1);
    let (content, _) = front.split_at(size - 2);
    Some(Begun {
        content,
        next: octets[size - 2],
        rest,
    })
}

/// The header at the front of octets.
fn begun_at(octets: &[u8]) -> Option<Begun<'_>>
    ensures { option_map begun_seen result ≡ spec_begun_at octets.now }
{
    match octets {
        [units, behind @ ..] => begun_by(4 * usize::from(*units), behind),
        [] => None,
    }
}

/// The header of a type at the front of octets; of type 0 there is none.
#[tactic(auto, unfolding(crate::specs::Fronts::header_of))]
fn header_of(kind: u8, octets: &[u8]) -> Option<Begun<'_>>
    ensures { option_map begun_seen result ≡ header_of kind octets.now }
{
    if kind == 0 { None } else { begun_at(octets) }
}

/// The headers at the front of octets, the first one of this type, as far as they are whole. The error is that an allocation was
/// refused.
pub fn chain_front(alloc: Global, first: u8, octets: &[u8]) -> Result<ChainFront<'_>, AllocError>
    ensures { IfOk result (λ front. front_seen front ≡ front_of first octets.now) }
{
    let mut headers = Vec::new(alloc);
    let mut kind = first;
    let mut rest = octets;
    while let Some(begun) = header_of(kind, rest) {
        headers.push(ExtensionHeader {
            kind,
            content: begun.content,
        })?;
        kind = begun.next;
        rest = begun.rest;
    }
    Ok(ChainFront {
        headers,
        next: kind,
        rest,
    })
}

/// Where a datagram says that extension headers follow, the type of the first one, and the octets behind it.
pub fn chain_at(octets: &[u8]) -> Option<(u8, &[u8])>
    ensures { option_map chain_of result ≡ spec_chain_at octets.now }
{
    let [first, _, _, _, _, _, _, _, _, _, _, next, rest @ ..] = octets else {
        return None;
    };
    if first >> PROTOCOL_TYPE != GTP >> PROTOCOL_TYPE {
        return None;
    }
    if !has_bit(*first, EXTENSION_HEADER) {
        return None;
    }
    if *next == 0 {
        return None;
    }
    Some((*next, rest))
}

/// Appends the line of octets that are no whole header of a type.
#[tactic(auto, using(crate::proofs::Appends::appending))]
fn put_broken(out: &mut Vec<u8>, kind: u8, rest: &[u8]) -> Result<(), AllocError>
    ensures ok { OnOk result (out.new.items ≡ out.old.items ++ broken_line kind rest.now) }
{
    put(out, b"ext ")?;
    put_hex(out, &[kind])?;
    put(out, b" short rest ")?;
    put_octets(out, rest)?;
    put(out, b"\n")
}

/// Appends the line of what a message of a type carries.
#[tactic(auto, using(crate::proofs::Appends::appending))]
fn put_carried(out: &mut Vec<u8>, kind: u8, rest: &[u8]) -> Result<(), AllocError>
    ensures ok { OnOk result (out.new.items ≡ out.old.items ++ carried_line kind rest.now) }
{
    if kind == G_PDU {
        put(out, b"payload ")?;
    } else {
        put(out, b"rest ")?;
    }
    put_octets(out, rest)?;
    put(out, b"\n")
}

/// Appends what follows the headers of a message of a type.
fn put_end(out: &mut Vec<u8>, kind: u8, next: u8, rest: &[u8]) -> Result<(), AllocError>
    ensures ok { OnOk result (out.new.items ≡ out.old.items ++ end_line kind next rest.now) }
{
    if next == 0 {
        return put_carried(out, kind, rest);
    }
    put_broken(out, next, rest)
}

/// Appends the lines of headers.
fn put_headers(
    out: &mut Vec<u8>,
    names: &Names,
    headers: &[ExtensionHeader],
) -> Result<(), AllocError>
    ensures ok { OnOk result (out.new.items
        ≡ out.old.items ++ flat_map (extension_lines names.now) (map extension_of headers.now)) }
{
    for header in headers {
        put_extension(out, names, header)?;
    }
    Ok(())
}

/// Appends the lines of the headers of a message of a type, and of what follows them.
#[tactic(auto, using(crate::proofs::Appends::appending))]
pub fn put_front(
    out: &mut Vec<u8>,
    names: &Names,
    kind: u8,
    front: &ChainFront,
) -> Result<(), AllocError>
    ensures ok { OnOk result (out.new.items ≡ out.old.items ++ front_lines names.now kind (front_seen front.now)) }
{
    put_headers(out, names, &front.headers)?;
    put_end(out, kind, front.next, front.rest)
}
