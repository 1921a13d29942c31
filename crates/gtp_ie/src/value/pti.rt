//! Procedure transaction identities as elements (TS 29.274 8.35).

ghost use Rattle.gtp_ie.specs.Form.{number_of};
ghost use Rattle.gtp_ie.specs.declared.form.Form.TheVariants as forms;
ghost use Rattle.std.proofs.Common.{rules};
ghost use Rattle.gtp_ie.specs.Value.{OfPti};

use crate::fault::ReadFault;
use crate::kinds::PTI;
use crate::value::{IeValue, long_enough};
use std::alloc::AllocError;

/// The procedure transaction identity (TS 29.274 8.35).
#[derive(Clone, Copy, Debug, PartialEq, Eq)]
pub struct Pti(pub u8);

impl IeValue for Pti {
    const KIND: u8 = PTI;

    ghost KIND = { number_of forms.Pti };

    ghost value = { λ x. OfPti x.0 };

    ghost one_value = { Prim.search rules };

    #[tactic(auto, unfolding(crate::specs::Value::value_at))]
    fn check(body: &[u8]) -> Result<(), ReadFault> {
        long_enough(body, 1)
    }

    #[tactic(auto, unfolding(crate::specs::Value::value_at))]
    fn build(body: &[u8]) -> Pti {
        Pti(body[0])
    }

    #[tactic(auto, unfolding(crate::specs::Value::encoding_of), using(crate::proofs::Again::pti_again, crate::proofs::FreeKinds::encoding_free))]
    fn write(&self, out: &mut Vec<u8>) -> Result<(), AllocError> {
        out.push(self.0)?;
        Ok(())
    }

    #[tactic(auto, unfolding(crate::specs::Value::encoding_of))]
    fn body_length(&self) -> usize {
        1
    }
}
