//! Texts that octets spell.

ghost use Rattle.std.specs.Prelude.{◌≡◌, ◌<◌, [], ◌∷◌, ◌++◌, true, OnOk, IfOk, decimal, string_bytes};
ghost use Rattle.std.specs.List.{flat_map};
ghost use Rattle.hex.specs.Hex.{encode_lower};
ghost use Rattle.gtp_forms.specs.Text.{digit, halves, high_half, last_halves, digits as spec_digits, dotted, dotted_more, country as spec_country, operator as spec_operator, address as spec_address, is_printable as spec_is_printable, are_printable as spec_are_printable, text as spec_text, are_labels as spec_are_labels, label_text, labels as spec_labels, two, sign, zone as spec_zone, spelled as spec_spelled};

use crate::form::Spelling;
use itoa::Buffer;
use std::alloc::{AllocError, Global};

/// Appends a character of ASCII.
#[tactic(auto, using(crate::proofs::Letters::letters))]
fn push(text: &mut String, octet: u8) -> Result<(), AllocError>
    requires { octet < 128 }
    ensures ok { OnOk result (string_bytes text.new ≡ string_bytes text.old ++ octet ∷ []) }
{
    text.push(char::from(octet))
}

/// Appends a digit below sixteen.
fn push_digit(text: &mut String, value: u8) -> Result<(), AllocError>
    requires { value < 16 }
    ensures ok { OnOk result (string_bytes text.new ≡ string_bytes text.old ++ digit value) }
{
    if value < 10 {
        push(text, b'0' + value)
    } else {
        push(text, b'a' + (value - 10))
    }
}

/// Appends the digits of octets, the low half of each first.
#[tactic(auto, using(crate::proofs::Events::appending))]
fn push_halves(text: &mut String, octets: &[u8]) -> Result<(), AllocError>
    ensures ok { OnOk result
        (string_bytes text.new ≡ string_bytes text.old ++ flat_map halves octets.now) }
{
    for octet in octets {
        push_digit(text, *octet % 16)?;
        push_digit(text, *octet / 16)?;
    }
    Ok(())
}

/// Appends the high half of an octet, where it is no filler.
fn push_high_half(text: &mut String, octet: u8) -> Result<(), AllocError>
    ensures ok { OnOk result (string_bytes text.new ≡ string_bytes text.old ++ high_half octet) }
{
    if octet / 16 == 15 {
        return Ok(());
    }
    push_digit(text, octet / 16)
}

/// Appends the digits of a last octet; a filler in its high half is left out.
#[tactic(auto, using(crate::proofs::Events::appending))]
fn push_last_halves(text: &mut String, octets: &[u8]) -> Result<(), AllocError>
    ensures ok { OnOk result
        (string_bytes text.new ≡ string_bytes text.old ++ last_halves octets.now) }
{
    let [octet, ..] = octets else {
        return Ok(());
    };
    push_digit(text, *octet % 16)?;
    push_high_half(text, *octet)
}

fn digits(alloc: Global, octets: &[u8]) -> Result<String, AllocError>
    ensures { IfOk result (λ text. string_bytes text ≡ spec_digits octets.now) }
{
    let mut text = String::new(alloc);
    let (most, last) = octets.split_at(octets.len().saturating_sub(1));
    push_halves(&mut text, most)?;
    push_last_halves(&mut text, last)?;
    Ok(text)
}

/// The digits of an MCC, by the first two octets of a network.
#[tactic(auto, using(crate::proofs::Events::appending))]
pub fn country(alloc: Global, first: u8, second: u8) -> Result<String, AllocError>
    ensures { IfOk result (λ text. string_bytes text ≡ spec_country first second) }
{
    let mut text = String::new(alloc);
    push_digit(&mut text, first % 16)?;
    push_digit(&mut text, first / 16)?;
    push_digit(&mut text, second % 16)?;
    Ok(text)
}

/// The digits of an MNC, by the last two octets of a network.
#[tactic(auto, using(crate::proofs::Events::appending))]
pub fn operator(alloc: Global, second: u8, third: u8) -> Result<String, AllocError>
    ensures { IfOk result (λ text. string_bytes text ≡ spec_operator second third) }
{
    let mut text = String::new(alloc);
    push_digit(&mut text, third % 16)?;
    push_digit(&mut text, third / 16)?;
    push_high_half(&mut text, second)?;
    Ok(text)
}

/// Appends a number in decimal.
fn push_number(text: &mut String, number: u64) -> Result<(), AllocError>
    ensures ok { OnOk result (string_bytes text.new ≡ string_bytes text.old ++ decimal number) }
{
    let mut buffer = Buffer::new();
    text.push_str(buffer.format(number))
}

/// Appends octets in decimal, a dot before each.
#[tactic(auto, using(crate::proofs::Events::appending))]
fn push_more(text: &mut String, octets: &[u8]) -> Result<(), AllocError>
    ensures ok { OnOk result
        (string_bytes text.new ≡ string_bytes text.old ++ dotted_more octets.now) }
{
    for octet in octets {
        text.push_str(".")?;
        push_number(text, u64::from(*octet))?;
    }
    Ok(())
}

/// Appends octets in decimal, with dots between them.
#[tactic(auto, using(crate::proofs::Events::appending))]
fn push_dotted(text: &mut String, octets: &[u8]) -> Result<(), AllocError>
    ensures ok { OnOk result
        (string_bytes text.new ≡ string_bytes text.old ++ dotted octets.now) }
{
    let [first, more @ ..] = octets else {
        return Ok(());
    };
    push_number(text, u64::from(*first))?;
    push_more(text, more)
}

fn address(alloc: Global, octets: &[u8]) -> Result<String, AllocError>
    ensures { IfOk result (λ text. string_bytes text ≡ spec_address octets.now) }
{
    if octets.len() != 4 {
        return hexadecimal(alloc, octets);
    }
    let mut text = String::new(alloc);
    push_dotted(&mut text, octets)?;
    Ok(text)
}

fn is_printable(octet: u8) -> bool
    ensures { result ≡ spec_is_printable octet }
{
    octet > 32 && octet < 127
}

fn are_printable(octets: &[u8]) -> bool
    ensures { result ≡ spec_are_printable octets.now }
{
    for octet in octets {
        if !is_printable(*octet) {
            return false;
        }
    }
    true
}

/// Appends printable characters.
#[tactic(auto, using(crate::proofs::Events::appending, crate::proofs::Letters::texts))]
fn push_printable(text: &mut String, octets: &[u8]) -> Result<(), AllocError>
    requires { spec_are_printable octets.now ≡ true }
    ensures ok { OnOk result (string_bytes text.new ≡ string_bytes text.old ++ octets.now) }
{
    for octet in octets {
        push(text, *octet)?;
    }
    Ok(())
}

fn text(alloc: Global, octets: &[u8]) -> Result<String, AllocError>
    ensures { IfOk result (λ text. string_bytes text ≡ spec_text octets.now) }
{
    if !are_printable(octets) {
        return hexadecimal(alloc, octets);
    }
    let mut text = String::new(alloc);
    push_printable(&mut text, octets)?;
    Ok(text)
}

/// Whether octets are labels, each behind its length.
#[tactic(auto, using(crate::proofs::Labels::labels))]
fn are_labels(octets: &[u8]) -> bool
    ensures { result ≡ spec_are_labels 0 octets.now }
{
    let mut left = 0u8;
    for octet in octets {
        if left == 0 {
            if *octet == 0 {
                return false;
            }
            left = *octet;
        } else {
            if !is_printable(*octet) {
                return false;
            }
            left -= 1;
        }
    }
    left == 0
}

/// Appends labels, of whose first so many octets are left, with a dot in place of each length.
#[tactic(auto, using(crate::proofs::Events::appending, crate::proofs::Labels::texts))]
fn push_labels(text: &mut String, size: u8, octets: &[u8]) -> Result<(), AllocError>
    requires { spec_are_labels size octets.now ≡ true }
    ensures ok { OnOk result
        (string_bytes text.new ≡ string_bytes text.old ++ label_text size octets.now) }
{
    let mut left = size;
    for octet in octets {
        if left == 0 {
            push(text, b'.')?;
            left = *octet;
        } else {
            push(text, *octet)?;
            left -= 1;
        }
    }
    Ok(())
}

#[tactic(auto, using(crate::proofs::Labels::labels))]
fn labels(alloc: Global, octets: &[u8]) -> Result<String, AllocError>
    ensures { IfOk result (λ text. string_bytes text ≡ spec_labels octets.now) }
{
    if !are_labels(octets) {
        return hexadecimal(alloc, octets);
    }
    let mut text = String::new(alloc);
    let [size, more @ ..] = octets else {
        return Ok(text);
    };
    push_labels(&mut text, *size, more)?;
    Ok(text)
}

#[tactic(auto, using(crate::proofs::Events::appending))]
fn push_two(text: &mut String, number: u8) -> Result<(), AllocError>
    ensures ok { OnOk result (string_bytes text.new ≡ string_bytes text.old ++ two number) }
{
    push_digit(text, number / 10 % 10)?;
    push_digit(text, number % 10)
}

fn sign_of(octet: u8) -> &'static str
    ensures { result.now ≡ sign octet }
{
    if octet / 8 % 2 == 1 { "-" } else { "+" }
}

#[tactic(auto, using(crate::proofs::Events::appending))]
fn zone(alloc: Global, octets: &[u8]) -> Result<String, AllocError>
    ensures { IfOk result (λ text. string_bytes text ≡ spec_zone octets.now) }
{
    let [octet] = octets else {
        return hexadecimal(alloc, octets);
    };
    let quarters = 10 * (*octet % 8) + *octet / 16;
    let mut text = String::new(alloc);
    text.push_str(sign_of(*octet))?;
    push_two(&mut text, quarters / 4)?;
    text.push_str(":")?;
    push_two(&mut text, 15 * (quarters % 4))?;
    Ok(text)
}

/// Octets in lower case hexadecimal.
pub fn hexadecimal(alloc: Global, octets: &[u8]) -> Result<String, AllocError>
    ensures { IfOk result (λ text. string_bytes text ≡ encode_lower octets.now) }
{
    Ok(hex::encode(alloc, octets)?)
}

/// The text that octets spell.
#[tactic(auto, unfolding(crate::specs::Text::spelled))]
pub fn spelled(alloc: Global, spelling: Spelling, octets: &[u8]) -> Result<String, AllocError>
    ensures { IfOk result (λ text. string_bytes text ≡ spec_spelled spelling octets.now) }
{
    match spelling {
        Spelling::Digits => digits(alloc, octets),
        Spelling::Address => address(alloc, octets),
        Spelling::Labels => labels(alloc, octets),
        Spelling::Text => text(alloc, octets),
        Spelling::Zone => zone(alloc, octets),
        Spelling::Octets => hexadecimal(alloc, octets),
    }
}
