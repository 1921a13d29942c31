//! A row of a hex dump: an offset, at most 16 octets, and perhaps the same as text.

ghost use Rattle.std.specs.Prelude.{◌≡◌, ◌^◌, ◌<◌, ◌≤◌, IsTrue, IfOk, length};
ghost use Rattle.std.specs.List.{prefix_len};
ghost use Rattle.std.specs.Str.Parse.{AllDigits, digits_value};
ghost use Rattle.gtp_dump.specs.Row.{from_text, behind_prefix, is_hex, offset_digits, behind_offset, ends_offset, is_row_at, row_from, is_blank_at, ends_column, column_len, column, row_digits, begins_dump};

use crate::text::{begins_prefix, digits_in, has_digits, octet_at};
use gtp_values::Memory;
use std::alloc::Global;

/// The most digits of a row.
const MOST_DIGITS: usize = 32;

/// A text from the first character on that is no blank.
fn from_text(text: &[u8]) -> &[u8]
    ensures { result.now ≡ from_text text.now }
{
    text.trim_ascii_start()
}

/// A text behind the prefix `0x`, where it begins with one.
fn behind_prefix(text: &[u8]) -> &[u8]
    ensures { result.now ≡ behind_prefix text.now }
{
    match text.split_first() {
        Some((first, after)) if begins_prefix(*first, after) => {
            let (_, behind) = after.split_at(1);
            behind
        }
        _ => text,
    }
}

/// How many hexadecimal digits a text begins with.
fn digits_at_front(text: &[u8]) -> usize
    ensures value { result ≡ prefix_len is_hex text.now }
    ensures within { result ≤ length text.now }
{
    let mut count = 0;
    let mut rest = text;
    while let Some((first, after)) = rest.split_first() {
        if !(*first as char).is_digit(16) {
            return count;
        }
        count += 1;
        rest = after;
    }
    count
}

/// The number that at most eight hexadecimal digits write.
fn value_of(digits: &[u8]) -> u64
    requires few { length digits.now ≤ 8 }
    requires hexadecimal { AllDigits 16 digits.now }
    ensures value { result ≡ digits_value 16 digits.now }
    ensures bound { result < 2 ^ 32 }
{
    let mut value = 0u64;
    let mut rest = digits;
    while let Some((first, after)) = rest.split_first() {
        let digit = (*first as char).to_digit(16).unwrap_or(0);
        value = value * 16 + u64::from(digit);
        rest = after;
    }
    value
}

/// Whether a blank stands at a place of a text.
fn is_blank_at(text: &[u8], place: usize) -> bool
    ensures { result ≡ is_blank_at text.now place }
{
    octet_at(text, place).is_ascii_whitespace()
}

/// Whether an offset ends before this text: at a colon, at a blank, or with the text.
fn ends_offset(text: &[u8]) -> bool
    ensures { result ≡ ends_offset text.now }
{
    text.is_empty() || octet_at(text, 0) == b':' || is_blank_at(text, 0)
}

/// The digits of the offset that a line begins with, and what follows them.
fn offset_of(line: &[u8]) -> (&[u8], &[u8])
    ensures digits { result.0.now ≡ offset_digits line.now }
    ensures behind { result.1.now ≡ behind_offset line.now }
{
    let text = behind_prefix(from_text(line));
    text.split_at(digits_at_front(text))
}

/// Whether a line is a row at this offset.
pub fn is_row_at(offset: u64, line: &[u8]) -> bool
    ensures value { result ≡ is_row_at offset line.now }
    ensures bound { IsTrue result → offset < 2 ^ 32 }
{
    let (digits, behind) = offset_of(line);
    if digits.len() < 3 || digits.len() > 8 || !ends_offset(behind) {
        return false;
    }
    value_of(digits) == offset
}

/// A row from the first of its octets on.
pub fn row_from(line: &[u8]) -> &[u8]
    ensures { result.now ≡ row_from line.now }
{
    let (_, behind) = offset_of(line);
    match behind.split_first() {
        Some((_, rest)) => from_text(rest),
        None => behind,
    }
}

/// Whether the octets of a row end before this text: at three blanks or a bar.
fn ends_column(text: &[u8]) -> bool
    ensures { result ≡ ends_column text.now }
{
    octet_at(text, 0) == b'|'
        || is_blank_at(text, 0) && is_blank_at(text, 1) && is_blank_at(text, 2)
}

/// How many characters the column of the octets has, at the beginning of a text.
fn column_len(text: &[u8]) -> usize
    ensures value { result ≡ column_len text.now }
    ensures within { result ≤ length text.now }
{
    let mut count = 0;
    let mut rest = text;
    while let Some((_, after)) = rest.split_first() {
        if ends_column(rest) {
            return count;
        }
        count += 1;
        rest = after;
    }
    count
}

/// The column of the octets, at the beginning of a text.
fn column(text: &[u8]) -> &[u8]
    ensures { result.now ≡ column text.now }
{
    let (front, _) = text.split_at(column_len(text));
    front
}

/// The digits of a row, at most 32.
pub fn row_digits(alloc: Global, line: &[u8]) -> Result<Vec<u8>, Memory>
    ensures { IfOk result (λ digits. digits.items ≡ row_digits line.now) }
{
    let mut digits = digits_in(alloc, column(row_from(line)))?;
    digits.truncate(MOST_DIGITS);
    Ok(digits)
}

/// Whether a line begins a dump: it is a row of digits at the offset 0.
pub fn begins_dump(line: &[u8]) -> bool
    ensures { result ≡ begins_dump line.now }
{
    is_row_at(0, line) && has_digits(column(row_from(line)))
}
