//! Selection modes as elements (TS 29.274 8.58).

ghost use Rattle.gtp_ie.specs.Form.{number_of};
ghost use Rattle.gtp_ie.specs.declared.form.Form.TheVariants as forms;
ghost use Rattle.std.proofs.Common.{rules};
ghost use Rattle.gtp_ie.specs.Value.{OfSelection};

use crate::fault::ReadFault;
use crate::kinds::SELECTION;
use crate::value::{IeValue, long_enough};
use gtp_values::Below;
use std::alloc::AllocError;

/// How the access point name was selected, by its number (TS 29.274 8.58).
#[derive(Clone, Copy, Debug, PartialEq, Eq)]
pub struct Selection(pub Below<4>);

impl IeValue for Selection {
    const KIND: u8 = SELECTION;

    ghost KIND = { number_of forms.Selection };

    ghost value = { λ x. OfSelection x.0 };

    ghost one_value = { Prim.search rules };

    #[tactic(auto, unfolding(crate::specs::Value::value_at))]
    fn check(body: &[u8]) -> Result<(), ReadFault> {
        long_enough(body, 1)
    }

    #[tactic(auto, unfolding(crate::specs::Value::value_at))]
    fn build(body: &[u8]) -> Selection {
        Selection(Below::new(body[0] & 0x03))
    }

    #[tactic(auto, unfolding(crate::specs::Value::encoding_of), using(crate::proofs::Again::selection_again, crate::proofs::FreeKinds::encoding_free))]
    fn write(&self, out: &mut Vec<u8>) -> Result<(), AllocError> {
        out.push(self.0.number())?;
        Ok(())
    }

    #[tactic(auto, unfolding(crate::specs::Value::encoding_of))]
    fn body_length(&self) -> usize {
        1
    }
}
