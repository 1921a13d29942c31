//! EPS bearer identities as elements (TS 29.274 8.8).

ghost use Rattle.gtp_ie.specs.Form.{number_of};
ghost use Rattle.gtp_ie.specs.declared.form.Form.TheVariants as forms;
ghost use Rattle.std.specs.Prelude.{◌≡◌, IfErr};
ghost use Rattle.std.specs.Result.{OkIff};
ghost use Rattle.std.proofs.Common.{rules};
ghost use Rattle.gtp_values.specs.Ebi.{IsEbi};
ghost use Rattle.gtp_values.specs.declared.fault.ValueFault.TheVariants.{OutOfRange};
ghost use Rattle.gtp_ie.specs.Value.{OfEbi};

use crate::fault::ReadFault;
use crate::kinds::EBI;
use crate::value::{IeValue, long_enough};
use gtp_values::{Below, Ebi, ValueFault};
use std::alloc::AllocError;

/// An EPS bearer identity as an element has it, 0 to 15: 0 where none is given yet (TS 29.274 8.8).
#[derive(Clone, Copy, Debug, PartialEq, Eq)]
pub struct EbiValue(pub Below<16>);

/// The identity of a bearer that stands is one that an element has.
impl From<Ebi> for EbiValue {
    ghost from_gives = { λ ebi value. value.0 ≡ ebi };

    fn from(ebi: Ebi) -> EbiValue {
        EbiValue(Below::new(ebi.number()))
    }
}

/// `OutOfRange` for an identity below 5, which no bearer has.
impl TryFrom<EbiValue> for Ebi {
    type Error = ValueFault;

    ghost try_from_gives = { λ value result. OkIff result (IsEbi value.0) value.0
        × IfErr result (λ f. f ≡ OutOfRange) };

    fn try_from(value: EbiValue) -> Result<Ebi, ValueFault> {
        Ebi::try_new(value.0.number())
    }
}

impl IeValue for EbiValue {
    const KIND: u8 = EBI;

    ghost KIND = { number_of forms.Ebi };

    ghost value = { λ ebi. OfEbi ebi.0 };

    ghost one_value = { Prim.search rules };

    #[tactic(auto, unfolding(crate::specs::Value::value_at))]
    fn check(body: &[u8]) -> Result<(), ReadFault> {
        long_enough(body, 1)
    }

    #[tactic(auto, unfolding(crate::specs::Value::value_at))]
    fn build(body: &[u8]) -> EbiValue {
        EbiValue(Below::new(body[0] & 0x0f))
    }

    #[tactic(auto, unfolding(crate::specs::Value::encoding_of), using(crate::proofs::Again::ebi_again, crate::proofs::FreeKinds::encoding_free))]
    fn write(&self, out: &mut Vec<u8>) -> Result<(), AllocError> {
        out.push(self.0.number())?;
        Ok(())
    }

    #[tactic(auto, unfolding(crate::specs::Value::encoding_of))]
    fn body_length(&self) -> usize {
        1
    }
}
