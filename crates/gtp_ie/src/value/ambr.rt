//! Aggregate maximum bit rates as elements (TS 29.274 8.7).

ghost use Rattle.gtp_ie.specs.Form.{number_of};
ghost use Rattle.gtp_ie.specs.declared.form.Form.TheVariants as forms;
ghost use Rattle.std.proofs.Common.{rules};
ghost use Rattle.gtp_ie.specs.Value.{OfAmbr};

use crate::fault::ReadFault;
use crate::kinds::AMBR;
use crate::value::{IeValue, long_enough};
use byteorder::{BigEndian, ByteOrder};
use gtp_values::Ambr;
use std::alloc::AllocError;

impl IeValue for Ambr {
    const KIND: u8 = AMBR;

    ghost KIND = { number_of forms.Ambr };

    ghost value = { OfAmbr };

    ghost one_value = { Prim.search rules };

    #[tactic(auto, unfolding(crate::specs::Value::value_at))]
    fn check(body: &[u8]) -> Result<(), ReadFault> {
        long_enough(body, 8)
    }

    #[tactic(auto, unfolding(crate::specs::Value::value_at))]
    fn build(body: &[u8]) -> Ambr {
        Ambr {
            up: BigEndian::read_u32(body),
            down: BigEndian::read_u32(&body[4..]),
        }
    }

    #[tactic(auto, unfolding(crate::specs::Value::encoding_of), using(crate::proofs::Again::ambr_again, crate::proofs::FreeKinds::encoding_free))]
    fn write(&self, out: &mut Vec<u8>) -> Result<(), AllocError> {
        let up = self.up;
        let down = self.down;
        let mut octets = [0u8; 8];
        BigEndian::write_u32(&mut octets, up);
        BigEndian::write_u32(&mut octets[4..], down);
        out.extend_from_slice(&octets)?;
        Ok(())
    }

    #[tactic(auto, unfolding(crate::specs::Value::encoding_of))]
    fn body_length(&self) -> usize {
        8
    }
}
