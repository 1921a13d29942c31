//! Why a line of a hex dump is bad.

ghost use Rattle.std.specs.Prelude.{◌≡◌, ◌++◌, ◌-◌, OnOk};
ghost use Rattle.gtp_dump.specs.Flaw.{from_wrong, octet_text, flaw_text, IsFlaw, IsFlawFrom};

use crate::text::{MOST_OCTETS, from_digit, named};
use gtp_lines::text::{put, put_number};
use std::alloc::AllocError;

/// Why a line is bad.
#[derive(Clone, Copy, Debug, PartialEq, Eq)]
pub enum Flaw {
    /// The line is too long.
    TooLong,
    /// A character is no hexadecimal digit; `octet` is its first octet, and places count from 0.
    Character { octet: u8, place: usize },
    /// The number of digits is odd.
    Odd,
}

/// A text from the first of its digits on that is no hexadecimal digit; nothing where there is none.
fn from_wrong(text: &[u8]) -> &[u8]
    ensures { result.now ≡ from_wrong text.now }
{
    let mut rest = from_digit(text);
    while let Some((first, after)) = rest.split_first() {
        if !first.is_ascii_hexdigit() {
            return rest;
        }
        rest = from_digit(after);
    }
    rest
}

/// Why the text is bad with which a line ends, of which it is known that it is.
pub fn flaw_from(line: &[u8], text: &[u8]) -> Flaw
    ensures { IsFlawFrom line.now text.now result }
{
    let wrong = from_wrong(text);
    match wrong.first() {
        Some(octet) => Flaw::Character {
            octet: *octet,
            place: line.len().saturating_sub(wrong.len()),
        },
        None => Flaw::Odd,
    }
}

/// Why a line is bad, of which it is known that it is.
pub fn flaw_of(line: &[u8]) -> Flaw
    ensures { IsFlaw line.now result }
{
    if line.len() > MOST_OCTETS {
        return Flaw::TooLong;
    }
    let (_, text) = named(line);
    flaw_from(line, text)
}

/// Appends how an octet of a text is called.
#[tactic(auto, using(crate::proofs::Texts::appending))]
fn put_octet(out: &mut Vec<u8>, octet: u8) -> Result<(), AllocError>
    ensures { OnOk result (out.new.items ≡ out.old.items ++ octet_text octet) }
{
    if octet.is_ascii_graphic() {
        put(out, b"the character ")?;
        return put(out, &[octet]);
    }
    put(out, b"the octet ")?;
    put_number(out, u64::from(octet))
}

/// Appends why a line is bad, in words.
#[tactic(auto, using(crate::proofs::Texts::appending))]
pub fn put_flaw(out: &mut Vec<u8>, flaw: Flaw) -> Result<(), AllocError>
    ensures { OnOk result (out.new.items ≡ out.old.items ++ flaw_text flaw) }
{
    match flaw {
        Flaw::TooLong => put(out, b"more than 1048576 octets"),
        Flaw::Character { octet, place } => {
            put_octet(out, octet)?;
            put(out, b" at place ")?;
            put_number(out, place as u64)?;
            put(out, b" is no hexadecimal digit")
        }
        Flaw::Odd => put(out, b"an odd number of digits"),
    }
}
