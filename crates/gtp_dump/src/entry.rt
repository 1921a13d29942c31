//! Lines that are read together: the rows of a dump, or lines that are joined.

ghost use Rattle.std.specs.Prelude.{◌≡◌, ◌+◌, ◌-◌, ◌/◌, ◌^◌, ◌<◌, ◌≤◌, [], ◌∷◌, ◌++◌, List, ℕ, false, true, not, None, IsTrue, IfOk, IfSome, length};
ghost use Rattle.std.specs.List.{list_all};
ghost use Rattle.std.specs.Char.{is_ascii_hexdigit};
ghost use Rattle.gtp_dump.specs.Row.{begins_dump};
ghost use Rattle.gtp_dump.specs.Entries.{IsPlain, GoesOnAt, StandsAlone, StandTogether, from_of, digits_of, is_good, IsWrong, Gives, GiveTogether};
ghost use Rattle.gtp_dump.specs.Held.{reading_of, IsKept};

use crate::flaw::{Flaw, flaw_from, flaw_of};
use crate::row::{begins_dump, is_row_at, row_digits, row_from};
use crate::text::{
    Dumped, LineFault, MOST_OCTETS, digits_in, has_digits, named, plane_by_version, read_line,
};
use gtp_values::{Memory, Plane};
use hex::FromHexError;
use std::alloc::Global;

/// What lines give.
#[derive(Debug, Drop)]
pub enum Reading {
    Nothing,
    /// The line of a number, from 1, is bad.
    Bad { number: u64, flaw: Flaw },
    Datagram(Dumped),
}

/// The first line that is wrong of those that are read together.
#[derive(Clone, Copy, Debug)]
pub struct Wrong {
    /// Its number among all lines, from 1.
    pub number: u64,
    pub flaw: Flaw,
}

/// Lines that are read together, and may go on.
#[derive(Debug, Drop)]
pub struct Kept {
    /// Whether they are lines that are joined; else they are rows.
    pub is_joined: bool,
    /// How many there are.
    pub lines: u64,
    /// The octets of their text.
    size: usize,
    /// The octets of the rows.
    octets: u64,
    /// Their digits.
    digits: Vec<u8>,
    wrong: Option<Wrong>,
}

impl Kept {
    /// No lines.
    pub fn none(alloc: Global, is_joined: bool) -> Kept
        ensures held { (start : ℕ) → IsKept start result [] }
        ensures kind { result.is_joined ≡ is_joined }
        ensures lines { result.lines ≡ 0 }
        ensures octets { result.octets ≡ 0 }
    {
        Kept {
            is_joined,
            lines: 0,
            size: 0,
            octets: 0,
            digits: Vec::new(alloc),
            wrong: None,
        }
    }
}

/// Whether a line has digits, and no word before them.
fn is_plain(line: &[u8]) -> bool
    ensures yes { IsTrue result → IsPlain line.now }
    ensures no { result ≡ false → ¬ IsPlain line.now }
{
    match named(line) {
        (None, _) => has_digits(line),
        _ => false,
    }
}

/// Whether a line goes on after those that are kept.
pub fn goes_on(kept: &Kept, line: &[u8]) -> bool
    ensures yes { IsTrue result → GoesOnAt kept.now.is_joined kept.now.octets line.now }
    ensures no { result ≡ false → ¬ GoesOnAt kept.now.is_joined kept.now.octets line.now }
    ensures bound { IsTrue result → kept.now.is_joined ≡ false → kept.now.octets < 2 ^ 32 }
{
    if kept.is_joined {
        is_plain(line)
    } else {
        is_row_at(kept.octets, line)
    }
}

/// Whether a line opens lines that are read together, and whether these are joined; nothing for a line that stands alone.
pub fn opening(join: bool, line: &[u8]) -> Option<bool>
    ensures some { IfSome result (λ joined. (joined ≡ true → join ≡ true)
        × (begins_dump line.now ≡ not joined) × GoesOnAt joined 0 line.now) }
    ensures none { result ≡ None → StandsAlone join line.now }
{
    if begins_dump(line) {
        return Some(false);
    }
    if join && is_plain(line) {
        return Some(true);
    }
    None
}

/// The digits of a line.
fn digits_of(alloc: Global, is_joined: bool, line: &[u8]) -> Result<Vec<u8>, Memory>
    ensures { IfOk result (λ digits. digits.items ≡ digits_of is_joined line.now) }
{
    if is_joined {
        digits_in(alloc, line)
    } else {
        row_digits(alloc, line)
    }
}

/// From where on a line has its digits.
fn from_of(is_joined: bool, line: &[u8]) -> &[u8]
    ensures { result.now ≡ from_of is_joined line.now }
{
    if is_joined { line } else { row_from(line) }
}

/// Whether all digits are hexadecimal.
fn are_hex(digits: &[u8]) -> bool
    ensures { result ≡ list_all is_ascii_hexdigit digits.now }
{
    let mut rest = digits;
    while let Some((first, after)) = rest.split_first() {
        if !first.is_ascii_hexdigit() {
            return false;
        }
        rest = after;
    }
    true
}

/// What is wrong with a line of these digits, after so many octets of text.
fn wrong_of(is_joined: bool, size: usize, line: &[u8], digits: &[u8]) -> Option<Flaw>
    requires { digits.now ≡ digits_of is_joined line.now }
    ensures some { IfSome result (IsWrong is_joined size line.now) }
    ensures good { result ≡ None → is_good is_joined line.now ≡ true }
    ensures fits { result ≡ None → size + length line.now ≤ 1048576 }
{
    if line.len() > MOST_OCTETS || size > MOST_OCTETS - line.len() {
        return Some(Flaw::TooLong);
    }
    if are_hex(digits) && (is_joined || digits.len() % 2 == 0) {
        return None;
    }
    Some(flaw_from(line, from_of(is_joined, line)))
}

/// The octets of rows, and those of one more of these digits.
fn octets_with(kept: &Kept, digits: &[u8]) -> u64
    requires { kept.now.is_joined ≡ false → kept.now.octets < 2 ^ 32 }
    ensures { kept.now.is_joined ≡ false
        → result ≡ kept.now.octets + (length digits.now + 1) / 2 }
{
    if kept.is_joined {
        return 0;
    }
    kept.octets + (digits.len() as u64 + 1) / 2
}

impl Kept {
    /// One line more, of this number, which goes on.
    pub fn add(mut self, alloc: Global, number: u64, line: &[u8]) -> Result<Kept, Memory>
        requires few { self.lines < 2 ^ 64 - 1 }
        requires bound { self.is_joined ≡ false → self.octets < 2 ^ 32 }
        ensures held { IfOk result (λ after. (start : ℕ) (lines : List (List ℕ)) →
            number ≡ start + self.lines + 1 → IsKept start self lines
            → IsKept start after (lines ++ line.now ∷ [])) }
        ensures count { IfOk result (λ after. after.lines ≡ self.lines + 1) }
        ensures kind { IfOk result (λ after. after.is_joined ≡ self.is_joined) }
    {
        let digits = digits_of(alloc, self.is_joined, line)?;
        self.octets = octets_with(&self, &digits);
        if self.wrong.is_none() {
            match wrong_of(self.is_joined, self.size, line, &digits) {
                Some(flaw) => {
                    self.wrong = Some(Wrong { number, flaw });
                }
                None => {
                    self.size += line.len();
                    self.digits.extend_from_slice(&digits)?;
                }
            }
        }
        self.lines += 1;
        Ok(self)
    }

    /// What the lines give, after so many others.
    pub fn read(self, alloc: Global, asked: Option<Plane>, start: u64) -> Result<Reading, Memory>
        requires { start < 2 ^ 64 - 1 }
        ensures { IfOk result (λ reading. (lines : List (List ℕ)) → IsKept start self lines
            → GiveTogether asked self.is_joined start lines (reading_of reading)) }
    {
        if let Some(wrong) = self.wrong {
            return Ok(Reading::Bad {
                number: wrong.number,
                flaw: wrong.flaw,
            });
        }
        match hex::decode(alloc, self.digits.as_slice()) {
            Ok(octets) => {
                let plane = asked.unwrap_or_else(|| plane_by_version(&octets));
                Ok(Reading::Datagram(Dumped { plane, octets }))
            }
            Err(FromHexError::OutOfMemory) => Err(Memory),
            Err(_) => Ok(Reading::Bad {
                number: start + 1,
                flaw: Flaw::Odd,
            }),
        }
    }
}

/// What one line gives, after so many others.
pub fn read_alone(
    alloc: Global,
    asked: Option<Plane>,
    start: u64,
    line: &[u8],
) -> Result<Reading, Memory>
    requires { start < 2 ^ 64 - 1 }
    ensures { IfOk result (λ reading. Gives asked start line.now (reading_of reading)) }
{
    match read_line(alloc, asked, line) {
        Ok(None) => Ok(Reading::Nothing),
        Ok(Some(dumped)) => Ok(Reading::Datagram(dumped)),
        Err(LineFault::BadHex) => Ok(Reading::Bad {
            number: start + 1,
            flaw: flaw_of(line),
        }),
        Err(LineFault::Memory) => Err(Memory),
    }
}
