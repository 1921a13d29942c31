//! Restart counters as elements (TS 29.274 8.5).

ghost use Rattle.gtp_ie.specs.Form.{number_of};
ghost use Rattle.gtp_ie.specs.declared.form.Form.TheVariants as forms;
ghost use Rattle.std.proofs.Common.{rules};
ghost use Rattle.gtp_ie.specs.Value.{OfRecovery};

use crate::fault::ReadFault;
use crate::kinds::RECOVERY;
use crate::value::{IeValue, long_enough};
use gtp_values::Counter;
use std::alloc::AllocError;

/// The restart counter of the sender (TS 29.274 8.5).
#[derive(Clone, Copy, Debug, PartialEq, Eq)]
pub struct Recovery(pub Counter);

impl IeValue for Recovery {
    const KIND: u8 = RECOVERY;

    ghost KIND = { number_of forms.Recovery };

    ghost value = { λ recovery. OfRecovery recovery.0.0 };

    ghost one_value = { Prim.search rules };

    #[tactic(auto, unfolding(crate::specs::Value::value_at))]
    fn check(body: &[u8]) -> Result<(), ReadFault> {
        long_enough(body, 1)
    }

    #[tactic(auto, unfolding(crate::specs::Value::value_at))]
    fn build(body: &[u8]) -> Recovery {
        Recovery(Counter(body[0]))
    }

    #[tactic(auto, unfolding(crate::specs::Value::encoding_of), using(crate::proofs::Again::recovery_again, crate::proofs::FreeKinds::encoding_free))]
    fn write(&self, out: &mut Vec<u8>) -> Result<(), AllocError> {
        out.push(self.0.0)?;
        Ok(())
    }

    #[tactic(auto, unfolding(crate::specs::Value::encoding_of))]
    fn body_length(&self) -> usize {
        1
    }
}
