//! The words of the standard for what elements say.

ghost use Rattle.std.specs.Prelude.{◌≡◌, ◌++◌, OnOk, option_map};
ghost use Rattle.gtp_ie.specs.Form.{number_of};
ghost use Rattle.gtp_ie.specs.Value.{value_at};
ghost use Rattle.gtp_lines.specs.Words.{value_word, read_word, form_word as spec_form_word, body_word as spec_body_word, word_shown, said};

use crate::text::put;
use crate::values::put_body;
use gtp_codes::{cause_word, interface_type_word, pdn_type_word, rat_type_word};
use gtp_ie::{Form, IeValue, PdnType, Rat};
use gtp_values::{Cause, FTeid, Paa};
use std::alloc::AllocError;

/// A value with a number that may have a word.
trait Named: IeValue {
    /// The word of its number, where it has one.
    fn word(&self) -> Option<&'static str>
        ensures { option_map (λ w. w.now) result ≡ value_word (Self.value self.now) };
}

impl Named for Cause {
    fn word(&self) -> Option<&'static str> {
        cause_word(self.value)
    }
}

impl Named for Rat {
    fn word(&self) -> Option<&'static str> {
        rat_type_word(self.0)
    }
}

impl Named for FTeid {
    fn word(&self) -> Option<&'static str> {
        interface_type_word(self.interface().number())
    }
}

impl Named for PdnType {
    fn word(&self) -> Option<&'static str> {
        pdn_type_word(self.0.number())
    }
}

impl Named for Paa {
    fn word(&self) -> Option<&'static str> {
        match self {
            Paa::Other(other) => pdn_type_word(other.number()),
            _ => None,
        }
    }
}

/// The word of what a body says, where it reads and has one.
fn word_of<T: Named>(body: &[u8]) -> Option<&'static str>
    ensures { option_map (λ w. w.now) result ≡ read_word (value_at T.KIND body.now) }
{
    match T::parse(body) {
        Ok(value) => value.word(),
        Err(_) => None,
    }
}

/// The same of a body of this form.
#[tactic(auto, unfolding(gtp_ie::specs::Value::value_at))]
pub fn form_word(form: Form, body: &[u8]) -> Option<&'static str>
    ensures { option_map (λ w. w.now) result
        ≡ spec_form_word form (value_at (number_of form) body.now) }
{
    match form {
        Form::Cause => word_of::<Cause>(body),
        Form::Paa => word_of::<Paa>(body),
        Form::Rat => word_of::<Rat>(body),
        Form::FTeid => word_of::<FTeid>(body),
        Form::PdnType => word_of::<PdnType>(body),
        _ => None,
    }
}

/// The word of what a body of this type of element says, where it has one.
#[tactic(auto, unfolding(crate::specs::Words::body_word))]
fn body_word(kind: u8, body: &[u8]) -> Option<&'static str>
    ensures { option_map (λ w. w.now) result ≡ spec_body_word kind body.now }
{
    match Form::of(kind) {
        Some(form) => form_word(form, body),
        None => None,
    }
}

/// Appends a word, where there is one.
#[tactic(auto, using(crate::proofs::Appends::appending))]
fn put_word(out: &mut Vec<u8>, word: Option<&'static str>) -> Result<(), AllocError>
    ensures ok { OnOk result
        (out.new.items ≡ out.old.items ++ word_shown (option_map (λ w. w.now) word.entry)) }
{
    let Some(word) = word else {
        return Ok(());
    };
    put(out, b" (")?;
    put(out, word.as_bytes())?;
    put(out, b")")
}

/// Appends what a body of this type of element says, and its word, where it has one.
#[tactic(auto, using(crate::proofs::Appends::appending))]
pub fn put_said(out: &mut Vec<u8>, kind: u8, body: &[u8]) -> Result<(), AllocError>
    ensures ok { OnOk result (out.new.items ≡ out.old.items ++ said kind body.now) }
{
    put_body(out, kind, body)?;
    put_word(out, body_word(kind, body))
}
