//! Access point names.

ghost use Rattle.std.specs.Prelude.{◌≡◌, ◌<◌, ◌≤◌, ◌↔◌, length, IsTrue, Some, IsOk, IfOk, IsErrOf};
ghost use Rattle.gtp_values.specs.Apn.{IsApn, HasApnLength, AreLabels, ReadsApn, apn_text};
ghost use Rattle.std.specs.Fmt.{WritesOnOk};
ghost use Rattle.gtp_values.specs.Apn.{joined_from, are_labels_from, is_label_length as spec_is_label_length, is_label_octet as spec_is_label_octet, label_length as spec_label_length, octets_of_text as spec_octets_of_text};

use crate::fault::ValueFault;
use crate::octets::Octets;
use std::fmt;
use std::marker::Model;
use std::str::FromStr;

/// An access point name: labels, each after an octet with its length, 1 to 100 octets in all
/// (TS 29.274 8.6, TS 23.003 9.1). Contracts see the list of these octets.
#[derive(Clone, Copy, Debug, PartialEq, Eq)]
pub struct Apn {
    octets: Octets<100>,
}

impl Model for Apn {
    ghost use Rattle.std.specs.Prelude.{ℕ, List};

    ghost Value = { List ℕ };

    ghost use Rattle.gtp_values.specs.Apn.{IsApn};

    ghost view = { λ a. a.octets };

    ghost invariant = { λ a. IsApn a.octets };

    ghost inverse = { λ octets. record { octets = octets } };
}

impl Apn {
    /// The name of these octets: labels, each after an octet with its length. `TooShort` for none,
    /// `TooLong` above 100, `BadLabel` where they are no labels.
    #[tactic(auto, using(crate::proofs::Labels::labels_are, crate::proofs::Labels::are_labels))]
    pub fn try_new(octets: &[u8]) -> Result<Apn, ValueFault>
        ensures ok { IsOk result ↔ IsApn octets.now }
        ensures value { IfOk result (λ apn. apn ≡ octets.now) }
        ensures short { IsErrOf result ValueFault.TooShort ↔ (length octets.now < 1) }
        ensures long { IsErrOf result ValueFault.TooLong ↔ (100 < length octets.now) }
        ensures label { IsErrOf result ValueFault.BadLabel
            ↔ (HasApnLength octets.now × ¬ AreLabels octets.now) }
    {
        if octets.is_empty() {
            return Err(ValueFault::TooShort);
        }
        if octets.len() > 100 {
            return Err(ValueFault::TooLong);
        }
        if !are_labels(octets) {
            return Err(ValueFault::BadLabel);
        }
        Ok(Apn::of(octets))
    }

    /// The name of these octets, which are one.
    pub fn of(octets: &[u8]) -> Apn
        requires { IsApn octets.now }
        ensures { result ≡ octets.now }
    {
        Apn {
            octets: Octets::of(octets),
        }
    }

    /// Whether octets are a name, of which none is built.
    #[tactic(auto, using(crate::proofs::Labels::labels_are, crate::proofs::Labels::are_labels))]
    pub fn is_name(octets: &[u8]) -> bool
        ensures { IsTrue result ↔ IsApn octets.now }
    {
        !octets.is_empty() && octets.len() <= 100 && are_labels(octets)
    }

    /// The name whose labels a text gives, joined by dots: `TooShort` for an empty text, `TooLong`
    /// above 99 octets, `BadLabel` where they are no labels.
    #[tactic(auto, using(crate::proofs::NamesAsText::text_has_length, crate::proofs::NamesAsText::name_of_text, crate::proofs::NamesAsText::says_its_name, crate::proofs::NamesAsText::same_text))]
    pub fn from_text(text: &str) -> Result<Apn, ValueFault>
        ensures { ReadsApn text.now result }
    {
        let text = text.as_bytes();
        if text.is_empty() {
            return Err(ValueFault::TooShort);
        }
        if text.len() > 99 {
            return Err(ValueFault::TooLong);
        }
        Apn::try_new(octets_of_text(text).as_slice())
    }

    /// The labels, each after an octet with its length.
    pub fn octets(&self) -> &[u8]
        ensures value { result.now ≡ self.now }
        ensures range { IsApn self.now }
    {
        self.octets.as_slice()
    }
}

/// The labels, joined by dots.
impl fmt::Display for Apn {
    ghost output = { λ apn. Some (apn_text apn) };

    fn fmt<W: fmt::Write>(&self, f: &mut fmt::Formatter<W>) -> fmt::Result {
        match self.octets() {
            [] => Ok(()),
            [first, rest @ ..] => write_labels(f, *first, rest),
        }
    }
}

impl FromStr for Apn {
    type Err = ValueFault;

    ghost from_str_gives = { ReadsApn };

    fn from_str(text: &str) -> Result<Apn, ValueFault> {
        Apn::from_text(text)
    }
}

/// Whether an octet may stand in a label.
fn is_label_octet(octet: u8) -> bool
    ensures { result ≡ spec_is_label_octet octet }
{
    octet.is_ascii_graphic() && octet != b'.'
}

/// Whether a label may have so many octets.
fn is_label_length(length: u8) -> bool
    ensures { result ≡ spec_is_label_length length }
{
    matches!(length, 1..=63)
}

/// Whether octets are labels, each after its length.
#[tactic(auto, unfolding(crate::specs::Apn::are_labels_from))]
fn are_labels(octets: &[u8]) -> bool
    ensures { result ≡ are_labels_from 0 octets.now }
{
    let mut left = 0u8;
    for octet in octets {
        if left == 0 {
            if !is_label_length(*octet) {
                return false;
            }
            left = *octet;
        } else {
            if !is_label_octet(*octet) {
                return false;
            }
            left -= 1;
        }
    }
    left == 0
}

/// Writes the octets of labels, of which so many of the present one are left, with a dot for the
/// length of each later one.
fn write_labels<W: fmt::Write>(f: &mut fmt::Formatter<W>, first: u8, octets: &[u8]) -> fmt::Result
    requires labels { IsTrue (are_labels_from first octets.now) }
    ensures written { WritesOnOk W.Write.write_str_gives f.old result
        (joined_from first octets.now) f.new }
{
    let mut to_come = first;
    for octet in octets {
        if to_come == 0 {
            f.write_char('.')?;
            to_come = *octet;
        } else {
            f.write_char(char::from(*octet))?;
            to_come -= 1;
        }
    }
    Ok(())
}

/// How many octets stand before the first dot.
fn label_length(text: &[u8]) -> usize
    ensures value { result ≡ spec_label_length text.now }
    ensures most { result ≤ length text.now }
{
    text.iter()
        .position(|octet| *octet == b'.')
        .unwrap_or(text.len())
}

/// The octets of the labels of a text: the length of the first, and each dot replaced by that of
/// the label after it.
fn octets_of_text(text: &[u8]) -> Octets<100>
    requires room { length text.now < 100 }
    ensures value { result ≡ spec_octets_of_text text.now }
{
    let mut octets = Octets::new();
    octets.push(label_length(text) as u8);
    for index in 0..text.len() {
        let octet = text[index];
        octets.push(if octet == b'.' {
            label_length(&text[index + 1..]) as u8
        } else {
            octet
        });
    }
    octets
}
