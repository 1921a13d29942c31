//! PDN types as elements (TS 29.274 8.34).

ghost use Rattle.gtp_ie.specs.Form.{number_of};
ghost use Rattle.gtp_ie.specs.declared.form.Form.TheVariants as forms;
ghost use Rattle.std.proofs.Common.{rules};
ghost use Rattle.gtp_ie.specs.Value.{OfPdnType};

use crate::fault::ReadFault;
use crate::kinds::PDN_TYPE;
use crate::value::{IeValue, long_enough};
use gtp_values::Below;
use std::alloc::AllocError;

/// The PDN type that is asked for, by its number: 1 is IPv4, 2 IPv6, 3 IPv4v6 (TS 29.274 8.34).
#[derive(Clone, Copy, Debug, PartialEq, Eq)]
pub struct PdnType(pub Below<8>);

impl IeValue for PdnType {
    const KIND: u8 = PDN_TYPE;

    ghost KIND = { number_of forms.PdnType };

    ghost value = { λ x. OfPdnType x.0 };

    ghost one_value = { Prim.search rules };

    #[tactic(auto, unfolding(crate::specs::Value::value_at))]
    fn check(body: &[u8]) -> Result<(), ReadFault> {
        long_enough(body, 1)
    }

    #[tactic(auto, unfolding(crate::specs::Value::value_at))]
    fn build(body: &[u8]) -> PdnType {
        PdnType(Below::new(body[0] & 0x07))
    }

    #[tactic(auto, unfolding(crate::specs::Value::encoding_of), using(crate::proofs::Again::pdn_type_again, crate::proofs::FreeKinds::encoding_free))]
    fn write(&self, out: &mut Vec<u8>) -> Result<(), AllocError> {
        out.push(self.0.number())?;
        Ok(())
    }

    #[tactic(auto, unfolding(crate::specs::Value::encoding_of))]
    fn body_length(&self) -> usize {
        1
    }
}
