//! Charging identifiers as elements (TS 29.274 8.29).

ghost use Rattle.gtp_ie.specs.Form.{number_of};
ghost use Rattle.gtp_ie.specs.declared.form.Form.TheVariants as forms;
ghost use Rattle.std.proofs.Common.{rules};
ghost use Rattle.gtp_ie.specs.Value.{OfChargingId};

use crate::fault::ReadFault;
use crate::kinds::CHARGING_ID;
use crate::value::{IeValue, long_enough};
use byteorder::{BigEndian, ByteOrder};
use std::alloc::AllocError;

/// The charging identifier of a bearer (TS 29.274 8.29).
#[derive(Clone, Copy, Debug, PartialEq, Eq)]
pub struct ChargingId(pub u32);

impl IeValue for ChargingId {
    const KIND: u8 = CHARGING_ID;

    ghost KIND = { number_of forms.ChargingId };

    ghost value = { λ id. OfChargingId id.0 };

    ghost one_value = { Prim.search rules };

    #[tactic(auto, unfolding(crate::specs::Value::value_at))]
    fn check(body: &[u8]) -> Result<(), ReadFault> {
        long_enough(body, 4)
    }

    #[tactic(auto, unfolding(crate::specs::Value::value_at))]
    fn build(body: &[u8]) -> ChargingId {
        ChargingId(BigEndian::read_u32(body))
    }

    #[tactic(auto, unfolding(crate::specs::Value::encoding_of), using(crate::proofs::Again::charging_id_again, crate::proofs::FreeKinds::encoding_free))]
    fn write(&self, out: &mut Vec<u8>) -> Result<(), AllocError> {
        let number = self.0;
        let mut octets = [0u8; 4];
        BigEndian::write_u32(&mut octets, number);
        out.extend_from_slice(&octets)?;
        Ok(())
    }

    #[tactic(auto, unfolding(crate::specs::Value::encoding_of))]
    fn body_length(&self) -> usize {
        4
    }
}
