//! Serving networks as elements (TS 29.274 8.18).

ghost use Rattle.gtp_ie.specs.Form.{number_of};
ghost use Rattle.gtp_ie.specs.declared.form.Form.TheVariants as forms;
ghost use Rattle.std.specs.Prelude.{◌≡◌, ◌≤◌, length};
ghost use Rattle.std.proofs.Common.{rules};
ghost use Rattle.gtp_ie.specs.Value.{OfPlmn, network_in};
ghost use Rattle.gtp_ie.specs.Digits.{are_decimal as spec_are_decimal};

use crate::fault::ReadFault;
use crate::kinds::PLMN;
use crate::value::{IeValue, long_enough};
use gtp_values::{Octets, Plmn};
use std::alloc::AllocError;

/// The codes of a network, which may have digits that are not decimal.
#[derive(Clone, Copy)]
struct Codes {
    mcc: Octets<3>,
    mnc: Octets<3>,
}

/// The codes in a body.
fn codes_in(body: &[u8]) -> Codes
    requires { 3 ≤ length body.now }
    ensures country { result.mcc ≡ (network_in body.now).mcc }
    ensures network { result.mnc ≡ (network_in body.now).mnc }
{
    let mcc = Octets::of(&[body[0] & 0x0f, body[0] >> 4, body[1] & 0x0f]);
    let mut mnc = Octets::of(&[body[2] & 0x0f, body[2] >> 4]);
    let third = body[1] >> 4;
    if third != 15 {
        mnc.push(third);
    }
    Codes { mcc, mnc }
}

/// Whether these are decimal digits.
fn are_decimal(digits: &[u8]) -> bool
    ensures { result ≡ spec_are_decimal digits.now }
{
    digits.iter().all(|digit| *digit < 10)
}

impl IeValue for Plmn {
    const KIND: u8 = PLMN;

    ghost KIND = { number_of forms.Plmn };

    ghost value = { OfPlmn };

    ghost one_value = { Prim.search rules };

    #[tactic(auto, unfolding(crate::specs::Value::value_at))]
    fn check(body: &[u8]) -> Result<(), ReadFault> {
        long_enough(body, 3)?;
        let codes = codes_in(body);
        if !are_decimal(codes.mcc.as_slice()) || !are_decimal(codes.mnc.as_slice()) {
            return Err(ReadFault::Bad);
        }
        Ok(())
    }

    #[tactic(auto, unfolding(crate::specs::Value::value_at))]
    fn build(body: &[u8]) -> Plmn {
        let codes = codes_in(body);
        Plmn::of(codes.mcc, codes.mnc)
    }

    #[tactic(auto, unfolding(crate::specs::Value::encoding_of), using(crate::proofs::AgainAddresses::plmn_again, crate::proofs::FreeKinds::encoding_free))]
    fn write(&self, out: &mut Vec<u8>) -> Result<(), AllocError> {
        let mcc = self.mcc();
        let mnc = self.mnc();
        let third = if mnc.len() == 3 { mnc[2] } else { 15 };
        out.extend_from_slice(&[
            16 * mcc[1] + mcc[0],
            16 * third + mcc[2],
            16 * mnc[1] + mnc[0],
        ])?;
        Ok(())
    }

    #[tactic(auto, unfolding(crate::specs::Value::encoding_of))]
    fn body_length(&self) -> usize {
        3
    }
}
