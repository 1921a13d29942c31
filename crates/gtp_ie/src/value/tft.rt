//! Traffic flow templates as elements, whose form is the whole body (TS 29.274 8.19).

ghost use Rattle.gtp_ie.specs.Form.{number_of};
ghost use Rattle.gtp_ie.specs.declared.form.Form.TheVariants as forms;
ghost use Rattle.std.proofs.Common.{rules};
ghost use Rattle.gtp_ie.specs.Value.{OfTft};

use crate::fault::ReadFault;
use crate::kinds::TFT;
use crate::value::IeValue;
use gtp_values::Tft;
use std::alloc::AllocError;

impl IeValue for Tft {
    const KIND: u8 = TFT;

    ghost KIND = { number_of forms.Tft };

    ghost value = { OfTft };

    ghost one_value = { Prim.search rules };

    #[tactic(auto, unfolding(crate::specs::Value::value_at))]
    fn check(body: &[u8]) -> Result<(), ReadFault> {
        if body.len() > 255 {
            return Err(ReadFault::Bad);
        }
        Ok(())
    }

    #[tactic(auto, unfolding(crate::specs::Value::value_at))]
    fn build(body: &[u8]) -> Tft {
        Tft::of(body)
    }

    #[tactic(auto, unfolding(crate::specs::Value::encoding_of), using(crate::proofs::AgainNames::tft_again, crate::proofs::FreeKinds::encoding_free))]
    fn write(&self, out: &mut Vec<u8>) -> Result<(), AllocError> {
        out.extend_from_slice(self.octets())
    }

    #[tactic(auto, unfolding(crate::specs::Value::encoding_of))]
    fn body_length(&self) -> usize {
        self.octets().len()
    }
}
