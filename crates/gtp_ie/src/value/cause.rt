//! Causes as elements.

ghost use Rattle.gtp_ie.specs.Form.{number_of};
ghost use Rattle.gtp_ie.specs.declared.form.Form.TheVariants as forms;
ghost use Rattle.std.proofs.Common.{rules};
ghost use Rattle.gtp_ie.specs.Value.{OfCause};

use crate::fault::ReadFault;
use crate::kinds::CAUSE;
use crate::value::{IeValue, long_enough};
use gtp_values::{Below, Cause, Offending};
use std::alloc::AllocError;

impl IeValue for Cause {
    const KIND: u8 = CAUSE;

    ghost KIND = { number_of forms.Cause };

    ghost value = { OfCause };

    ghost one_value = { Prim.search rules };

    #[tactic(auto, unfolding(crate::specs::Value::value_at))]
    fn check(body: &[u8]) -> Result<(), ReadFault> {
        long_enough(body, 2)
    }

    #[tactic(auto, unfolding(crate::specs::Value::value_at))]
    fn build(body: &[u8]) -> Cause {
        let flags = body[1];
        let offending = (body.len() >= 6).then(|| Offending {
            kind: body[2],
            instance: Below::new(body[5] & 0x0f),
        });
        Cause {
            value: body[0],
            pce: flags >> 2 & 1 == 1,
            bce: flags >> 1 & 1 == 1,
            cs: flags & 1 == 1,
            offending,
        }
    }

    #[tactic(auto, unfolding(crate::specs::Value::encoding_of), using(crate::proofs::Again::cause_again, crate::proofs::FreeKinds::encoding_free))]
    fn write(&self, out: &mut Vec<u8>) -> Result<(), AllocError> {
        let flags = 4 * u8::from(self.pce) + 2 * u8::from(self.bce) + u8::from(self.cs);
        match self.offending {
            None => out.extend_from_slice(&[self.value, flags])?,
            Some(offending) => {
                let instance = offending.instance.number();
                out.extend_from_slice(&[self.value, flags, offending.kind, 0, 0, instance])?
            }
        }
        Ok(())
    }

    #[tactic(auto, unfolding(crate::specs::Value::encoding_of))]
    fn body_length(&self) -> usize {
        if self.offending.is_some() { 6 } else { 2 }
    }
}
