//! PDN address allocations as elements (TS 29.274 8.14).

ghost use Rattle.gtp_ie.specs.Form.{number_of};
ghost use Rattle.gtp_ie.specs.declared.form.Form.TheVariants as forms;
ghost use Rattle.std.proofs.Common.{rules};
ghost use Rattle.gtp_ie.specs.Value.{OfPaa};

use crate::fault::ReadFault;
use crate::kinds::PAA;
use crate::value::{IeValue, first, long_enough};
use crate::writing::append;
use gtp_values::{OtherPdnType, Paa};
use std::alloc::AllocError;

impl IeValue for Paa {
    const KIND: u8 = PAA;

    ghost KIND = { number_of forms.Paa };

    ghost value = { OfPaa };

    ghost one_value = { Prim.search rules };

    #[tactic(auto, unfolding(crate::specs::Value::value_at))]
    fn check(body: &[u8]) -> Result<(), ReadFault> {
        long_enough(body, 1)?;
        match body[0] & 0x07 {
            1 => long_enough(body, 5),
            2 => long_enough(body, 18),
            3 => long_enough(body, 22),
            _ => Ok(()),
        }
    }

    #[tactic(auto, unfolding(crate::specs::Value::value_at))]
    fn build(body: &[u8]) -> Paa {
        match body[0] & 0x07 {
            1 => Paa::V4(first(&body[1..])),
            2 => Paa::V6 {
                prefix: body[1],
                address: first(&body[2..]),
            },
            3 => Paa::V4V6 {
                prefix: body[1],
                v6: first(&body[2..]),
                v4: first(&body[18..]),
            },
            other => Paa::Other(OtherPdnType::of(other)),
        }
    }

    #[tactic(auto, unfolding(crate::specs::Value::encoding_of), using(crate::proofs::AgainAddresses::v4_again, crate::proofs::AgainAddresses::v6_again, crate::proofs::AgainAddresses::v4v6_again, crate::proofs::AgainAddresses::other_again, crate::proofs::FreeKinds::encoding_free))]
    fn write(&self, out: &mut Vec<u8>) -> Result<(), AllocError> {
        match self {
            Paa::V4(v4) => out.extend_from_slice(&[1, v4[0], v4[1], v4[2], v4[3]]),
            Paa::V6 { prefix, address } => append(out, &[&[2, *prefix], address]),
            Paa::V4V6 { prefix, v6, v4 } => append(out, &[&[3, *prefix], v6, v4]),
            Paa::Other(other) => append(out, &[&[other.number()]]),
        }
    }

    #[tactic(auto, unfolding(crate::specs::Value::encoding_of))]
    fn body_length(&self) -> usize {
        let paa = *self;
        match paa {
            Paa::V4(v4) => 1 + v4.len(),
            Paa::V6 { address, .. } => 2 + address.len(),
            Paa::V4V6 { v6, v4, .. } => 2 + v6.len() + v4.len(),
            Paa::Other(_) => 1,
        }
    }
}
