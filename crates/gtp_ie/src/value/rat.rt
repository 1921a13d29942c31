//! Radio access technologies as elements (TS 29.274 8.17).

ghost use Rattle.gtp_ie.specs.Form.{number_of};
ghost use Rattle.gtp_ie.specs.declared.form.Form.TheVariants as forms;
ghost use Rattle.std.proofs.Common.{rules};
ghost use Rattle.gtp_ie.specs.Value.{OfRat};

use crate::fault::ReadFault;
use crate::kinds::RAT;
use crate::value::{IeValue, long_enough};
use std::alloc::AllocError;

/// The radio access technology, by its number: 6 is E-UTRAN (TS 29.274 8.17).
#[derive(Clone, Copy, Debug, PartialEq, Eq)]
pub struct Rat(pub u8);

impl IeValue for Rat {
    const KIND: u8 = RAT;

    ghost KIND = { number_of forms.Rat };

    ghost value = { λ x. OfRat x.0 };

    ghost one_value = { Prim.search rules };

    #[tactic(auto, unfolding(crate::specs::Value::value_at))]
    fn check(body: &[u8]) -> Result<(), ReadFault> {
        long_enough(body, 1)
    }

    #[tactic(auto, unfolding(crate::specs::Value::value_at))]
    fn build(body: &[u8]) -> Rat {
        Rat(body[0])
    }

    #[tactic(auto, unfolding(crate::specs::Value::encoding_of), using(crate::proofs::Again::rat_again, crate::proofs::FreeKinds::encoding_free))]
    fn write(&self, out: &mut Vec<u8>) -> Result<(), AllocError> {
        out.push(self.0)?;
        Ok(())
    }

    #[tactic(auto, unfolding(crate::specs::Value::encoding_of))]
    fn body_length(&self) -> usize {
        1
    }
}
