//! One line of a hex dump.

ghost use Rattle.std.specs.Prelude.{◌≡◌, ◌≢◌, ◌≤◌, [], length, slice_index, IsTrue, None, Ok, Err, IfOk, IfSome, IsErr};
ghost use Rattle.hex.specs.Hex.{decode_of};
ghost use Rattle.gtp_dump.specs.Text.{is_between, begins_prefix, from_digit, digits_in, has_digits, HasOctets, Names, plane_by_version, Spells, SpellsWord, IsBlank, IsBad};

use gtp_values::{Memory, Plane};
use hex::FromHexError;
use std::alloc::Global;
use thiserror::Error;

/// The most octets that a line may have, its line feed with them.
pub const MOST_OCTETS: usize = 1_048_576;

/// The datagram of a line, and its plane.
#[derive(Debug, Drop)]
pub struct Dumped {
    pub plane: Plane,
    pub octets: Vec<u8>,
}

/// Why a line has no datagram.
#[derive(Clone, Copy, Debug, PartialEq, Eq, Error)]
pub enum LineFault {
    /// The line is too long, a character is no hexadecimal digit, or the number of digits is odd.
    #[error("bad hex")]
    BadHex,
    /// An allocation was refused.
    #[error("no memory")]
    Memory,
}

/// The character at a place of a text, or 0 behind its end.
pub fn octet_at(text: &[u8], place: usize) -> u8
    ensures { result ≡ slice_index text.now place }
{
    match text.get(place) {
        Some(c) => *c,
        None => 0,
    }
}

/// Whether a character may stand between octets: a blank, a colon or a comma.
fn is_between(c: u8) -> bool
    ensures { result ≡ is_between c }
{
    c.is_ascii_whitespace() || c == b':' || c == b','
}

/// Whether a text of this character and what follows begins with `0x` or `0X`.
pub fn begins_prefix(first: u8, after: &[u8]) -> bool
    ensures value { result ≡ begins_prefix first after.now }
    ensures one { IsTrue result → 1 ≤ length after.now }
{
    first == b'0' && matches!(after.first(), Some(b'x' | b'X'))
}

/// A text from the first of its digits on: a comment, prefixes, and what stands between octets are passed over.
pub fn from_digit(text: &[u8]) -> &[u8]
    ensures value { result.now ≡ from_digit text.now }
    ensures within { length result.now ≤ length text.now }
{
    let mut rest = text;
    while let Some((first, after)) = rest.split_first() {
        if begins_prefix(*first, after) {
            let (_, behind) = after.split_at(1);
            rest = behind;
            continue;
        }
        if *first == b'#' {
            return &[];
        }
        if !is_between(*first) {
            return rest;
        }
        rest = after;
    }
    rest
}

/// The digits of a text.
pub fn digits_in(alloc: Global, text: &[u8]) -> Result<Vec<u8>, Memory>
    ensures { IfOk result (λ digits. digits.items ≡ digits_in text.now) }
{
    let mut digits = Vec::with_capacity(alloc, text.len())?;
    let mut rest = from_digit(text);
    while let Some((first, after)) = rest.split_first() {
        digits.push(*first)?;
        rest = from_digit(after);
    }
    Ok(digits)
}

/// Whether a text has digits.
pub fn has_digits(text: &[u8]) -> bool
    ensures { result ≡ has_digits text.now }
{
    !from_digit(text).is_empty()
}

/// The octets of a text that has their digits and no more than blanks before and after them; none of any other text.
fn octets_at_once(alloc: Global, text: &[u8]) -> Option<Vec<u8>>
    ensures { IfSome result (λ octets. HasOctets text.now octets.items) }
{
    let digits = text.trim_ascii();
    if digits.is_empty() {
        return None;
    }
    hex::decode(alloc, digits).ok()
}

/// The octets of a text, or none in one without digits.
fn octets_of(alloc: Global, text: &[u8]) -> Result<Option<Vec<u8>>, LineFault>
    ensures some { IfOk result (λ found. IfSome found (λ octets. HasOctets text.now octets.items)) }
    ensures none { result ≡ Ok None → digits_in text.now ≡ [] }
    ensures bad { result ≡ Err LineFault.BadHex → IsErr (decode_of (digits_in text.now)) }
{
    if let Some(octets) = octets_at_once(alloc, text) {
        return Ok(Some(octets));
    }
    let Ok(digits) = digits_in(alloc, text) else {
        return Err(LineFault::Memory);
    };
    if digits.is_empty() {
        return Ok(None);
    }
    match hex::decode(alloc, digits.as_slice()) {
        Ok(octets) => Ok(Some(octets)),
        Err(FromHexError::OutOfMemory) => Err(LineFault::Memory),
        Err(_) => Err(LineFault::BadHex),
    }
}

/// The plane whose word the text begins with, and what follows.
pub fn named(text: &[u8]) -> (Option<Plane>, &[u8])
    ensures { Names text.now result.0 result.1.now }
{
    if let Some(rest) = text.strip_prefix(b"control") {
        return (Some(Plane::Control), rest);
    }
    if let Some(rest) = text.strip_prefix(b"user") {
        return (Some(Plane::User), rest);
    }
    (None, text)
}

/// The plane by the version of a datagram.
pub fn plane_by_version(octets: &[u8]) -> Plane
    ensures { result ≡ plane_by_version octets.now }
{
    match octets.first() {
        Some(first) if *first / 32 == 1 => Plane::User,
        _ => Plane::Control,
    }
}

/// The datagram that a line spells, or none in a line without digits: hexadecimal digits of either case; blanks, colons,
/// commas and the prefix `0x` are passed over, and `#` begins a comment. The line may begin with `control` or `user`: its plane.
/// Else it is the plane that is asked for, and else that of the version: 1 is of the user plane, any other of the control plane.
/// A line of more than 1,048,576 octets is bad.
pub fn read_line(
    alloc: Global,
    asked: Option<Plane>,
    line: &[u8],
) -> Result<Option<Dumped>, LineFault>
    ensures some { IfOk result (λ found. IfSome found (λ dumped.
        Spells asked line.now dumped.plane dumped.octets.items)) }
    ensures none { result ≡ Ok None → IsBlank line.now }
    ensures bad { result ≡ Err LineFault.BadHex → IsBad line.now }
{
    if line.len() > MOST_OCTETS {
        return Err(LineFault::BadHex);
    }
    let (plane, text) = named(line);
    let octets = match octets_of(alloc, text) {
        Ok(Some(octets)) => octets,
        Ok(None) => return Ok(None),
        Err(fault) => return Err(fault),
    };
    let plane = plane.or(asked).unwrap_or_else(|| plane_by_version(&octets));
    Ok(Some(Dumped { plane, octets }))
}

/// The datagram that a word spells, as `read_line` reads it; an empty word is a datagram of no octets.
pub fn read_word(
    alloc: Global,
    asked: Option<Plane>,
    word: &[u8],
) -> Result<Option<Dumped>, LineFault>
    ensures some { IfOk result (λ found. IfSome found (λ dumped.
        SpellsWord asked word.now dumped.plane dumped.octets.items)) }
    ensures none { result ≡ Ok None → IsBlank word.now × (word.now ≢ []) }
    ensures bad { result ≡ Err LineFault.BadHex → IsBad word.now × (word.now ≢ []) }
{
    if word.is_empty() {
        return Ok(Some(Dumped {
            plane: asked.unwrap_or_else(|| plane_by_version(word)),
            octets: Vec::new(alloc),
        }));
    }
    read_line(alloc, asked, word)
}
