//! What was told, as members of a JSON object.

ghost use Rattle.std.specs.Prelude.{◌≡◌, ◌++◌, true, OnOk, IfOk, map, option_map, codes, decimal, string_bytes};
ghost use Rattle.json.specs.Json.{string as string_json, boolean as boolean_json, number as number_json};
ghost use Rattle.gtp_forms.specs.Told.{event_of};
ghost use Rattle.gtp_forms.specs.Tokens.{written, key_of, one_member, flag_member, word_member, spare_member, network_members, members_in, field_members, event_tokens, tokens_of};

use crate::form::{How, View, word_of};
use crate::numbers::{are_zero, bits_of, number_in};
use crate::spelling::{country, hexadecimal, operator, spelled};
use crate::told::Told;
use json::Writer;
use std::alloc::{AllocError, Global};

/// The key of a member: the name of a value, or that of one without a name.
fn key(name: &str) -> &str
    ensures { result.now ≡ key_of name.now }
{
    if name.is_empty() { "value" } else { name }
}

/// The key of the word of a number.
fn word_key(alloc: Global, name: &str) -> Result<String, AllocError>
    ensures { IfOk result (λ text. string_bytes text ≡ key_of name.now ++ codes "_name") }
{
    let mut text = String::new(alloc);
    text.push_str(key(name))?;
    text.push_str("_name")?;
    Ok(text)
}

fn write_string(out: &mut Writer<Global>, name: &str, text: &str) -> Result<(), AllocError>
    ensures ok { OnOk result (out.new.tokens ≡ out.old.tokens ++ written (one_member name.now (string_json text.now))) }
    ensures before { out.new.before ≡ out.old.before }
{
    out.key(key(name))?;
    out.string(text)
}

fn write_number(out: &mut Writer<Global>, name: &str, number: u64) -> Result<(), AllocError>
    ensures ok { OnOk result (out.new.tokens ≡ out.old.tokens ++ written (one_member name.now (number_json (decimal number)))) }
    ensures before { out.new.before ≡ out.old.before }
{
    out.key(key(name))?;
    out.u64(number)
}

fn write_true(out: &mut Writer<Global>, name: &str) -> Result<(), AllocError>
    ensures ok { OnOk result (out.new.tokens ≡ out.old.tokens ++ written (one_member name.now (boolean_json true))) }
    ensures before { out.new.before ≡ out.old.before }
{
    out.key(key(name))?;
    out.boolean(true)
}

#[tactic(auto, using(crate::proofs::Events::appending))]
fn write_flag(out: &mut Writer<Global>, name: &str, number: u64) -> Result<(), AllocError>
    ensures ok { OnOk result (out.new.tokens ≡ out.old.tokens ++ written (flag_member number name.now)) }
    ensures before { out.new.before ≡ out.old.before }
{
    if number == 0 {
        return Ok(());
    }
    write_true(out, name)
}

/// Writes the word of a number, where it has one.
#[tactic(auto, using(crate::proofs::Events::appending))]
fn write_word(
    alloc: Global,
    out: &mut Writer<Global>,
    name: &str,
    word: Option<&'static str>,
) -> Result<(), AllocError>
    ensures ok { OnOk result (out.new.tokens ≡ out.old.tokens ++ written (word_member name.now (option_map (λ w. w.now) word.entry))) }
    ensures before { out.new.before ≡ out.old.before }
{
    let Some(word) = word else {
        return Ok(());
    };
    let name = word_key(alloc, name)?;
    out.key(&name)?;
    out.string(word)
}

#[tactic(auto, using(crate::proofs::Events::appending))]
fn write_named(
    alloc: Global,
    out: &mut Writer<Global>,
    name: &str,
    number: u64,
    word: Option<&'static str>,
) -> Result<(), AllocError>
    ensures ok { OnOk result (out.new.tokens ≡ out.old.tokens ++ written (one_member name.now (number_json (decimal number)) ++ word_member name.now (option_map (λ w. w.now) word.entry))) }
    ensures before { out.new.before ≡ out.old.before }
{
    write_number(out, name, number)?;
    write_word(alloc, out, name, word)
}

#[tactic(auto, using(crate::proofs::Events::appending))]
fn write_network(alloc: Global, out: &mut Writer<Global>, octets: &[u8]) -> Result<(), AllocError>
    ensures ok { OnOk result (out.new.tokens ≡ out.old.tokens ++ written (network_members octets.now)) }
    ensures before { out.new.before ≡ out.old.before }
{
    let [first, second, third] = octets else {
        return write_string(out, "network", &hexadecimal(alloc, octets)?);
    };
    write_string(out, "mcc", &country(alloc, *first, *second)?)?;
    write_string(out, "mnc", &operator(alloc, *second, *third)?)
}

#[tactic(auto, using(crate::proofs::Events::appending))]
fn write_spare(alloc: Global, out: &mut Writer<Global>, octets: &[u8]) -> Result<(), AllocError>
    ensures ok { OnOk result (out.new.tokens ≡ out.old.tokens ++ written (spare_member octets.now)) }
    ensures before { out.new.before ≡ out.old.before }
{
    if are_zero(octets) {
        return Ok(());
    }
    write_string(out, "spare", &hexadecimal(alloc, octets)?)
}

/// Writes a value in octets.
#[tactic(auto, unfolding(crate::specs::Tokens::members_in))]
fn write_seen(
    alloc: Global,
    out: &mut Writer<Global>,
    how: How,
    name: &str,
    octets: &[u8],
) -> Result<(), AllocError>
    ensures ok { OnOk result (out.new.tokens ≡ out.old.tokens ++ written (members_in how name.now octets.now)) }
    ensures before { out.new.before ≡ out.old.before }
{
    match how {
        How::Number(bits) => write_number(out, name, bits_of(bits, number_in(octets))),
        How::Named(bits, words) => {
            let number = bits_of(bits, number_in(octets));
            write_named(alloc, out, name, number, word_of(words, number))
        }
        How::Flag(bits) => write_flag(out, name, bits_of(bits, number_in(octets))),
        How::Network => write_network(alloc, out, octets),
        How::Spelled(spelling) => write_string(out, name, &spelled(alloc, spelling, octets)?),
        How::Spare => write_spare(alloc, out, octets),
    }
}

#[tactic(auto, using(crate::proofs::Events::appending))]
fn write_views(
    alloc: Global,
    out: &mut Writer<Global>,
    views: &[View],
    octets: &[u8],
) -> Result<(), AllocError>
    ensures ok { OnOk result (out.new.tokens ≡ out.old.tokens ++ written (field_members views.now octets.now)) }
    ensures before { out.new.before ≡ out.old.before }
{
    for view in views {
        write_seen(alloc, out, view.how, view.name, octets)?;
    }
    Ok(())
}

/// Writes one thing that was told.
#[tactic(auto, using(crate::proofs::Events::appending))]
fn write_one(alloc: Global, out: &mut Writer<Global>, told: &Told) -> Result<(), AllocError>
    ensures ok { OnOk result (out.new.tokens ≡ out.old.tokens ++ event_tokens (event_of told.now)) }
    ensures before { out.new.before ≡ out.old.before }
{
    match told {
        Told::Field { views, octets } => write_views(alloc, out, *views, *octets),
        Told::BeginPart { name } => {
            out.key(*name)?;
            out.begin_object()
        }
        Told::BeginList { name } => {
            out.key(*name)?;
            out.begin_array()
        }
        Told::EndList => out.end_array(),
        Told::BeginItem { .. } => out.begin_object(),
        Told::EndPart | Told::EndItem { .. } => out.end_object(),
        Told::Missing => write_true(out, "short"),
        Told::Left { octets } => write_string(out, "rest", &hexadecimal(alloc, *octets)?),
    }
}

/// Writes what was told as members of an object, which the caller begins and ends: the same as its lines show.
#[tactic(auto, using(crate::proofs::Events::appending))]
pub fn write_told(alloc: Global, out: &mut Writer<Global>, told: &[Told]) -> Result<(), AllocError>
    ensures ok { OnOk result (out.new.tokens ≡ out.old.tokens ++ tokens_of (map event_of told.now)) }
    ensures before { out.new.before ≡ out.old.before }
{
    for one in told {
        write_one(alloc, out, one)?;
    }
    Ok(())
}
