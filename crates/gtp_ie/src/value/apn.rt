//! Access point names as elements, whose form is the whole body (TS 29.274 8.6).

ghost use Rattle.gtp_ie.specs.Form.{number_of};
ghost use Rattle.gtp_ie.specs.declared.form.Form.TheVariants as forms;
ghost use Rattle.std.proofs.Common.{rules};
ghost use Rattle.gtp_ie.specs.Value.{OfApn};

use crate::fault::ReadFault;
use crate::kinds::APN;
use crate::value::{IeValue, long_enough};
use gtp_values::Apn;
use std::alloc::AllocError;

impl IeValue for Apn {
    const KIND: u8 = APN;

    ghost KIND = { number_of forms.Apn };

    ghost value = { OfApn };

    ghost one_value = { Prim.search rules };

    #[tactic(auto, using(crate::proofs::Read::apn_read, crate::proofs::Read::apn_unread), unfolding(crate::specs::Value::value_at))]
    fn check(body: &[u8]) -> Result<(), ReadFault> {
        long_enough(body, 1)?;
        if !Apn::is_name(body) {
            return Err(ReadFault::Bad);
        }
        Ok(())
    }

    #[tactic(auto, using(crate::proofs::Read::apn_checked), unfolding(crate::specs::Value::value_at))]
    fn build(body: &[u8]) -> Apn {
        Apn::of(body)
    }

    #[tactic(auto, unfolding(crate::specs::Value::encoding_of), using(crate::proofs::AgainNames::apn_again, crate::proofs::FreeKinds::encoding_free))]
    fn write(&self, out: &mut Vec<u8>) -> Result<(), AllocError> {
        out.extend_from_slice(self.octets())?;
        Ok(())
    }

    #[tactic(auto, unfolding(crate::specs::Value::encoding_of))]
    fn body_length(&self) -> usize {
        self.octets().len()
    }
}
