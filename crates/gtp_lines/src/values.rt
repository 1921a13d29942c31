//! What elements say, as text.

ghost use Rattle.std.specs.Prelude.{◌≡◌, ◌++◌, OnOk};
ghost use Rattle.gtp_values.specs.Bit.{bit as bit_of};
ghost use Rattle.gtp_ie.specs.Value.{value_at};
ghost use Rattle.gtp_ie.specs.Form.{number_of, name_of};
ghost use Rattle.gtp_lines.specs.Values.{shown, body_shown, raw_shown, offending_shown, rates_shown, v4_shown, v6_shown, field_shown, named_shown, class_shown};

use crate::text::{
    put, put_digits, put_display, put_hex, put_number, put_octets, put_teid, put_v4,
};
use gtp_ie::{ChargingId, EbiValue, Form, IeValue, PdnType, Pti, Rat, Recovery, Selection};
use gtp_values::{Ambr, Apn, Cause, FTeid, Imsi, Offending, Paa, Plmn, Qos, Rates, Tft};
use std::alloc::AllocError;

/// A value that is shown as text.
pub trait Show: IeValue {
    /// Appends the text of the value.
    fn show(&self, out: &mut Vec<u8>) -> Result<(), AllocError>
        ensures ok { OnOk result (out.new.items ≡ out.old.items ++ shown (Self.value self.now)) };
}

/// Appends a mark and a number.
#[tactic(auto, using(crate::proofs::Appends::appending))]
pub fn put_field(out: &mut Vec<u8>, mark: &[u8], number: u64) -> Result<(), AllocError>
    ensures ok { OnOk result (out.new.items ≡ out.old.items ++ field_shown mark.now number) }
{
    put(out, mark)?;
    put_number(out, number)
}

impl Show for Recovery {
    #[tactic(auto, unfolding(crate::specs::Values::shown))]
    fn show(&self, out: &mut Vec<u8>) -> Result<(), AllocError> {
        put_number(out, u64::from(self.0.0))
    }
}

impl Show for EbiValue {
    #[tactic(auto, unfolding(crate::specs::Values::shown))]
    fn show(&self, out: &mut Vec<u8>) -> Result<(), AllocError> {
        put_number(out, u64::from(self.0.number()))
    }
}

impl Show for Rat {
    #[tactic(auto, unfolding(crate::specs::Values::shown))]
    fn show(&self, out: &mut Vec<u8>) -> Result<(), AllocError> {
        put_number(out, u64::from(self.0))
    }
}

impl Show for ChargingId {
    #[tactic(auto, unfolding(crate::specs::Values::shown))]
    fn show(&self, out: &mut Vec<u8>) -> Result<(), AllocError> {
        put_number(out, u64::from(self.0))
    }
}

impl Show for PdnType {
    #[tactic(auto, unfolding(crate::specs::Values::shown))]
    fn show(&self, out: &mut Vec<u8>) -> Result<(), AllocError> {
        put_number(out, u64::from(self.0.number()))
    }
}

impl Show for Pti {
    #[tactic(auto, unfolding(crate::specs::Values::shown))]
    fn show(&self, out: &mut Vec<u8>) -> Result<(), AllocError> {
        put_number(out, u64::from(self.0))
    }
}

impl Show for Selection {
    #[tactic(auto, unfolding(crate::specs::Values::shown))]
    fn show(&self, out: &mut Vec<u8>) -> Result<(), AllocError> {
        put_number(out, u64::from(self.0.number()))
    }
}

impl Show for Imsi {
    #[tactic(auto, unfolding(crate::specs::Values::shown))]
    fn show(&self, out: &mut Vec<u8>) -> Result<(), AllocError> {
        put_digits(out, self.digits())
    }
}

impl Show for Apn {
    #[tactic(auto, unfolding(crate::specs::Values::shown))]
    fn show(&self, out: &mut Vec<u8>) -> Result<(), AllocError> {
        put_display(out, self)
    }
}

impl Show for Tft {
    #[tactic(auto, unfolding(crate::specs::Values::shown))]
    fn show(&self, out: &mut Vec<u8>) -> Result<(), AllocError> {
        put_octets(out, self.octets())
    }
}

/// Appends the element at fault, where there is one.
#[tactic(auto, using(crate::proofs::Appends::appending))]
fn put_offending(out: &mut Vec<u8>, offending: &Option<Offending>) -> Result<(), AllocError>
    ensures ok { OnOk result (out.new.items ≡ out.old.items ++ offending_shown offending.now) }
{
    let Some(offending) = offending else {
        return Ok(());
    };
    put_field(out, b" offending ", u64::from(offending.kind))?;
    put_field(out, b" ", u64::from(offending.instance.number()))
}

impl Show for Cause {
    #[tactic(auto, unfolding(crate::specs::Values::shown), using(crate::proofs::Appends::appending))]
    fn show(&self, out: &mut Vec<u8>) -> Result<(), AllocError> {
        put_number(out, u64::from(self.value))?;
        put_offending(out, &self.offending)
    }
}

impl Show for Ambr {
    #[tactic(auto, unfolding(crate::specs::Values::shown), using(crate::proofs::Appends::appending))]
    fn show(&self, out: &mut Vec<u8>) -> Result<(), AllocError> {
        put_number(out, u64::from(self.up))?;
        put_field(out, b" ", u64::from(self.down))
    }
}

impl Show for Paa {
    #[tactic(auto, unfolding(crate::specs::Values::shown), using(crate::proofs::Appends::appending))]
    fn show(&self, out: &mut Vec<u8>) -> Result<(), AllocError> {
        match self {
            Paa::V4(v4) => {
                put(out, b"ipv4 ")?;
                put_v4(out, v4)
            }
            Paa::V6 { prefix, address } => {
                put_field(out, b"ipv6 ", u64::from(*prefix))?;
                put(out, b" ")?;
                put_hex(out, address)
            }
            Paa::V4V6 { prefix, v6, v4 } => {
                put_field(out, b"ipv4v6 ", u64::from(*prefix))?;
                put(out, b" ")?;
                put_hex(out, v6)?;
                put(out, b" ")?;
                put_v4(out, v4)
            }
            Paa::Other(other) => put_field(out, b"other ", u64::from(other.number())),
        }
    }
}

/// Appends rates, up before down.
#[tactic(auto, using(crate::proofs::Appends::appending))]
fn put_rates(out: &mut Vec<u8>, rates: &Rates) -> Result<(), AllocError>
    ensures ok { OnOk result (out.new.items ≡ out.old.items ++ rates_shown rates.now) }
{
    put_number(out, rates.up.number())?;
    put_field(out, b" ", rates.down.number())
}

/// 1 for a bit that is set, and else 0.
fn number_of(bit: bool) -> u64
    ensures { result ≡ bit_of bit }
{
    if bit { 1 } else { 0 }
}

/// Appends the priority and the class of a bearer's quality.
#[tactic(auto, using(crate::proofs::Appends::appending))]
fn put_class(out: &mut Vec<u8>, qos: &Qos) -> Result<(), AllocError>
    ensures ok { OnOk result (out.new.items ≡ out.old.items ++ class_shown qos.now) }
{
    put_field(out, b"pci ", number_of(qos.pci))?;
    put_field(out, b" pl ", u64::from(qos.pl.number()))?;
    put_field(out, b" pvi ", number_of(qos.pvi))?;
    put_field(out, b" qci ", u64::from(qos.qci))
}

impl Show for Qos {
    #[tactic(auto, unfolding(crate::specs::Values::shown), using(crate::proofs::Appends::appending))]
    fn show(&self, out: &mut Vec<u8>) -> Result<(), AllocError> {
        put_class(out, self)?;
        put(out, b" mbr ")?;
        put_rates(out, &self.mbr)?;
        put(out, b" gbr ")?;
        put_rates(out, &self.gbr)
    }
}

impl Show for Plmn {
    #[tactic(auto, unfolding(crate::specs::Values::shown), using(crate::proofs::Appends::appending))]
    fn show(&self, out: &mut Vec<u8>) -> Result<(), AllocError> {
        put_digits(out, self.mcc())?;
        put(out, b" ")?;
        put_digits(out, self.mnc())
    }
}

/// Appends an address of version 4, where there is one.
#[tactic(auto, using(crate::proofs::Appends::appending))]
fn put_some_v4(out: &mut Vec<u8>, address: &Option<[u8; 4]>) -> Result<(), AllocError>
    ensures ok { OnOk result (out.new.items ≡ out.old.items ++ v4_shown address.now) }
{
    let Some(address) = address else {
        return Ok(());
    };
    put(out, b" v4 ")?;
    put_v4(out, address)
}

/// Appends an address of version 6, where there is one.
#[tactic(auto, using(crate::proofs::Appends::appending))]
fn put_some_v6(out: &mut Vec<u8>, address: &Option<[u8; 16]>) -> Result<(), AllocError>
    ensures ok { OnOk result (out.new.items ≡ out.old.items ++ v6_shown address.now) }
{
    let Some(address) = address else {
        return Ok(());
    };
    put(out, b" v6 ")?;
    put_hex(out, address)
}

impl Show for FTeid {
    #[tactic(auto, unfolding(crate::specs::Values::shown), using(crate::proofs::Appends::appending))]
    fn show(&self, out: &mut Vec<u8>) -> Result<(), AllocError> {
        put_number(out, u64::from(self.interface().number()))?;
        put(out, b" ")?;
        put_teid(out, self.teid())?;
        put_some_v4(out, &self.v4())?;
        put_some_v6(out, &self.v6())
    }
}

/// Appends the octets of a body.
#[tactic(auto, using(crate::proofs::Appends::appending))]
pub fn put_raw(out: &mut Vec<u8>, body: &[u8]) -> Result<(), AllocError>
    ensures ok { OnOk result (out.new.items ≡ out.old.items ++ raw_shown body.now) }
{
    put(out, b"octets ")?;
    put_octets(out, body)
}

/// Appends the name and the value of a body, or its octets where it has none.
#[tactic(auto, using(crate::proofs::Appends::appending))]
fn put_value<T: Show>(out: &mut Vec<u8>, name: &[u8], body: &[u8]) -> Result<(), AllocError>
    ensures ok { OnOk result
        (out.new.items ≡ out.old.items
        ++ named_shown name.now body.now (value_at T.KIND body.now)) }
{
    match T::parse(body) {
        Ok(value) => {
            put(out, name)?;
            put(out, b" ")?;
            value.show(out)
        }
        Err(_) => put_raw(out, body),
    }
}

/// Appends what a body of this form says.
#[tactic(auto, unfolding(gtp_ie::specs::Value::value_at))]
fn put_form(out: &mut Vec<u8>, form: Form, body: &[u8]) -> Result<(), AllocError>
    ensures ok { OnOk result (out.new.items
        ≡ out.old.items
        ++ named_shown (name_of form) body.now (value_at (number_of form) body.now)) }
{
    let name = form.name().as_bytes();
    match form {
        Form::Imsi => put_value::<Imsi>(out, name, body),
        Form::Cause => put_value::<Cause>(out, name, body),
        Form::Recovery => put_value::<Recovery>(out, name, body),
        Form::Apn => put_value::<Apn>(out, name, body),
        Form::Ambr => put_value::<Ambr>(out, name, body),
        Form::Ebi => put_value::<EbiValue>(out, name, body),
        Form::Paa => put_value::<Paa>(out, name, body),
        Form::Qos => put_value::<Qos>(out, name, body),
        Form::Rat => put_value::<Rat>(out, name, body),
        Form::Plmn => put_value::<Plmn>(out, name, body),
        Form::Tft => put_value::<Tft>(out, name, body),
        Form::FTeid => put_value::<FTeid>(out, name, body),
        Form::ChargingId => put_value::<ChargingId>(out, name, body),
        Form::PdnType => put_value::<PdnType>(out, name, body),
        Form::Pti => put_value::<Pti>(out, name, body),
        Form::Selection => put_value::<Selection>(out, name, body),
    }
}

/// Appends what a body of this type of element says.
#[tactic(auto, unfolding(crate::specs::Values::body_shown))]
pub fn put_body(out: &mut Vec<u8>, kind: u8, body: &[u8]) -> Result<(), AllocError>
    ensures ok { OnOk result (out.new.items ≡ out.old.items ++ body_shown kind body.now) }
{
    match Form::of(kind) {
        Some(form) => put_form(out, form, body),
        None => put_raw(out, body),
    }
}
