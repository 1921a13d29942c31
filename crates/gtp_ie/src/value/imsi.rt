//! International mobile subscriber identities as elements (TS 29.274 8.3).

ghost use Rattle.gtp_ie.specs.Form.{number_of};
ghost use Rattle.gtp_ie.specs.declared.form.Form.TheVariants as forms;
ghost use Rattle.std.specs.Prelude.{◌≡◌, ◌≤◌, length};
ghost use Rattle.std.proofs.Common.{rules};
ghost use Rattle.gtp_ie.specs.Value.{OfImsi};
ghost use Rattle.gtp_values.specs.Imsi.{IsImsi};
ghost use Rattle.gtp_ie.specs.Digits.{digits_in, are_decimal, packed};

use crate::fault::ReadFault;
use crate::kinds::IMSI;
use crate::value::IeValue;
use gtp_values::{Imsi, Octets};
use std::alloc::AllocError;

/// The digits in the halves of octets, the low half first, but for a filler at the end.
fn unpacked(body: &[u8]) -> Octets<15>
    requires { length (digits_in body.now) ≤ 15 }
    ensures { result ≡ digits_in body.now }
{
    let mut digits = Octets::new();
    let mut left = body;
    while let [octet, rest @ ..] = left {
        digits.push(*octet & 0x0f);
        if !(rest.is_empty() && *octet >> 4 == 0x0f) {
            digits.push(*octet >> 4);
        }
        left = rest;
    }
    digits
}

/// Whether the halves of octets are decimal digits, but for a filler at the end.
fn are_digits(body: &[u8]) -> bool
    ensures { result ≡ are_decimal (digits_in body.now) }
{
    let mut left = body;
    while let [octet, rest @ ..] = left {
        let high = *octet >> 4;
        let is_filler = rest.is_empty() && high == 0x0f;
        if *octet & 0x0f > 9 || (high > 9 && !is_filler) {
            return false;
        }
        left = rest;
    }
    true
}

/// Digits two an octet, the first in the low half, with a filler at the end for an odd count.
fn packed_octets(digits: &[u8]) -> Octets<8>
    requires { IsImsi digits.now }
    ensures { result ≡ packed digits.now }
{
    let mut octets = Octets::new();
    let mut left = digits;
    while let [low, high, rest @ ..] = left {
        octets.push(16 * *high + *low);
        left = rest;
    }
    if let [last] = left {
        octets.push(240 + *last);
    }
    octets
}

impl IeValue for Imsi {
    const KIND: u8 = IMSI;

    ghost KIND = { number_of forms.Imsi };

    ghost value = { OfImsi };

    ghost one_value = { Prim.search rules };

    #[tactic(auto, unfolding(crate::specs::Value::value_at), using(crate::proofs::Read::imsi_long))]
    fn check(body: &[u8]) -> Result<(), ReadFault> {
        let [_, _, .., last] = body else {
            return Err(ReadFault::Short);
        };
        if body.len() > 8 {
            return Err(ReadFault::Bad);
        }
        let fillers = if *last >> 4 == 0x0f { 1 } else { 0 };
        let digits = 2 * body.len() - fillers;
        if digits < 6 || digits > 15 || !are_digits(body) {
            return Err(ReadFault::Bad);
        }
        Ok(())
    }

    #[tactic(auto, unfolding(crate::specs::Value::value_at))]
    fn build(body: &[u8]) -> Imsi {
        Imsi::of(unpacked(body))
    }

    #[tactic(auto, unfolding(crate::specs::Value::encoding_of), using(crate::proofs::AgainNames::imsi_again, crate::proofs::FreeKinds::encoding_free))]
    fn write(&self, out: &mut Vec<u8>) -> Result<(), AllocError> {
        out.extend_from_slice(packed_octets(self.digits()).as_slice())?;
        Ok(())
    }

    #[tactic(auto, unfolding(crate::specs::Value::encoding_of))]
    fn body_length(&self) -> usize {
        self.digits().len().div_ceil(2)
    }
}
