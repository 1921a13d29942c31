//! What elements say, as JSON.

ghost use Rattle.std.specs.Prelude.{◌≡◌, ◌++◌, OnOk, option_map};
ghost use Rattle.gtp_values.specs.Bit.{bit as bit_of};
ghost use Rattle.gtp_ie.specs.Value.{value_at};
ghost use Rattle.gtp_ie.specs.Form.{number_of as number_of_form, name_of};
ghost use Rattle.json.specs.Tree.{json_tokens};
ghost use Rattle.gtp_json.specs.Tree.{member, number_of as number_json};
ghost use Rattle.gtp_json.specs.reading.Tokens.{written};
ghost use Rattle.gtp_json.specs.Values.{value_json, word_members, beside, offending_members, both_ways, paa_members, rates_value, level_member, retention_members, rates_members, v4_members, v6_members, interface_members, octets_members, named_members, body_members};

use crate::object::Output;
use gtp_codes::{cause_word, interface_type_word, pdn_type_word};
use gtp_ie::{ChargingId, EbiValue, Form, IeValue, PdnType, Pti, Rat, Recovery, Selection};
use gtp_lines::form_word;
use gtp_values::{Ambr, Apn, Cause, FTeid, Imsi, Ip, Offending, Paa, Plmn, Qos, Rates, Tft};
use std::alloc::AllocError;

/// A value that is written as JSON.
pub trait Write: IeValue {
    /// Writes the value.
    fn write_json(&self, out: &mut Output) -> Result<(), AllocError>
        ensures ok { OnOk result (out.new ≡ out.old
            ++ json_tokens (value_json (Self.value self.now))) };
}

impl Write for Recovery {
    #[tactic(auto, unfolding(crate::specs::Values::value_json))]
    fn write_json(&self, out: &mut Output) -> Result<(), AllocError> {
        out.number(u64::from(self.0.0))
    }
}

impl Write for EbiValue {
    #[tactic(auto, unfolding(crate::specs::Values::value_json))]
    fn write_json(&self, out: &mut Output) -> Result<(), AllocError> {
        out.number(u64::from(self.0.number()))
    }
}

impl Write for Rat {
    #[tactic(auto, unfolding(crate::specs::Values::value_json))]
    fn write_json(&self, out: &mut Output) -> Result<(), AllocError> {
        out.number(u64::from(self.0))
    }
}

impl Write for ChargingId {
    #[tactic(auto, unfolding(crate::specs::Values::value_json))]
    fn write_json(&self, out: &mut Output) -> Result<(), AllocError> {
        out.number(u64::from(self.0))
    }
}

impl Write for PdnType {
    #[tactic(auto, unfolding(crate::specs::Values::value_json))]
    fn write_json(&self, out: &mut Output) -> Result<(), AllocError> {
        out.number(u64::from(self.0.number()))
    }
}

impl Write for Pti {
    #[tactic(auto, unfolding(crate::specs::Values::value_json))]
    fn write_json(&self, out: &mut Output) -> Result<(), AllocError> {
        out.number(u64::from(self.0))
    }
}

impl Write for Selection {
    #[tactic(auto, unfolding(crate::specs::Values::value_json))]
    fn write_json(&self, out: &mut Output) -> Result<(), AllocError> {
        out.number(u64::from(self.0.number()))
    }
}

impl Write for Imsi {
    #[tactic(auto, unfolding(crate::specs::Values::value_json))]
    fn write_json(&self, out: &mut Output) -> Result<(), AllocError> {
        out.display(self)
    }
}

impl Write for Apn {
    #[tactic(auto, unfolding(crate::specs::Values::value_json))]
    fn write_json(&self, out: &mut Output) -> Result<(), AllocError> {
        out.display(self)
    }
}

impl Write for Tft {
    #[tactic(auto, unfolding(crate::specs::Values::value_json))]
    fn write_json(&self, out: &mut Output) -> Result<(), AllocError> {
        out.hex(self.octets())
    }
}

/// Writes the word of a number, where it has one.
#[tactic(auto, using(crate::proofs::Tokens::appending))]
fn put_word(out: &mut Output, name: &str, word: Option<&'static str>) -> Result<(), AllocError>
    ensures ok { OnOk result (out.new ≡ out.old
        ++ written (word_members name.now (option_map (λ w. w.now) word.entry))) }
{
    match word {
        Some(word) => out.string_member(name, word),
        None => Ok(()),
    }
}

/// Writes the element at fault, where there is one.
#[tactic(auto, using(crate::proofs::Tokens::nesting))]
fn put_offending(out: &mut Output, offending: &Option<Offending>) -> Result<(), AllocError>
    ensures ok { OnOk result (out.new ≡ out.old ++ written (offending_members offending.now)) }
{
    let Some(offending) = offending else {
        return Ok(());
    };
    out.key("offending")?;
    out.begin_object()?;
    out.number_member("type", u64::from(offending.kind))?;
    out.number_member("instance", u64::from(offending.instance.number()))?;
    out.end_object()
}

impl Write for Cause {
    #[tactic(auto, unfolding(crate::specs::Values::value_json), using(crate::proofs::Tokens::nesting))]
    fn write_json(&self, out: &mut Output) -> Result<(), AllocError> {
        out.begin_object()?;
        out.number_member("cause", u64::from(self.value))?;
        put_word(out, "cause_name", cause_word(self.value))?;
        put_offending(out, &self.offending)?;
        out.end_object()
    }
}

/// Writes numbers of both directions.
#[tactic(auto, using(crate::proofs::Tokens::nesting))]
fn put_both_ways(out: &mut Output, up: u64, down: u64) -> Result<(), AllocError>
    ensures ok { OnOk result (out.new ≡ out.old ++ json_tokens (both_ways up down)) }
{
    out.begin_object()?;
    out.number_member("uplink", up)?;
    out.number_member("downlink", down)?;
    out.end_object()
}

impl Write for Ambr {
    #[tactic(auto, unfolding(crate::specs::Values::value_json))]
    fn write_json(&self, out: &mut Output) -> Result<(), AllocError> {
        put_both_ways(out, u64::from(self.up), u64::from(self.down))
    }
}

/// Writes the members of an allocation of addresses.
#[tactic(auto, using(crate::proofs::Tokens::appending))]
fn put_paa(out: &mut Output, paa: &Paa) -> Result<(), AllocError>
    ensures ok { OnOk result (out.new ≡ out.old ++ written (paa_members paa.now)) }
{
    match paa {
        Paa::V4(v4) => {
            out.string_member("kind", "ipv4")?;
            out.display_member("v4", &Ip::V4(*v4))
        }
        Paa::V6 { prefix, address } => {
            out.string_member("kind", "ipv6")?;
            out.number_member("prefix", u64::from(*prefix))?;
            out.hex_member("v6", address)
        }
        Paa::V4V6 { prefix, v6, v4 } => {
            out.string_member("kind", "ipv4v6")?;
            out.number_member("prefix", u64::from(*prefix))?;
            out.hex_member("v6", v6)?;
            out.display_member("v4", &Ip::V4(*v4))
        }
        Paa::Other(other) => {
            out.string_member("kind", "other")?;
            out.number_member("pdn_type", u64::from(other.number()))?;
            put_word(out, "pdn_type_name", pdn_type_word(other.number()))
        }
    }
}

impl Write for Paa {
    #[tactic(auto, unfolding(crate::specs::Values::value_json), using(crate::proofs::Tokens::nesting))]
    fn write_json(&self, out: &mut Output) -> Result<(), AllocError> {
        out.begin_object()?;
        put_paa(out, self)?;
        out.end_object()
    }
}

/// 1 for a bit that is set, and else 0.
fn number_of(bit: bool) -> u64
    ensures { result ≡ bit_of bit }
{
    if bit { 1 } else { 0 }
}

/// Writes the member of a bit.
fn put_bit(out: &mut Output, name: &str, bit: bool) -> Result<(), AllocError>
    ensures ok { OnOk result (out.new ≡ out.old
        ++ written (member name.now (number_json (bit_of bit)))) }
{
    out.number_member(name, number_of(bit))
}

/// Writes the priority level of a bearer.
fn put_level(out: &mut Output, qos: &Qos) -> Result<(), AllocError>
    ensures ok { OnOk result (out.new ≡ out.old ++ written (level_member qos.now)) }
{
    out.number_member("priority_level", u64::from(qos.pl.number()))
}

/// Writes the allocation and retention priority of a bearer.
fn put_retention(out: &mut Output, qos: &Qos) -> Result<(), AllocError>
    ensures ok { OnOk result (out.new ≡ out.old ++ written (retention_members qos.now)) }
{
    put_bit(out, "preemption_capability", qos.pci)?;
    put_level(out, qos)?;
    put_bit(out, "preemption_vulnerability", qos.pvi)?;
    Ok(())
}

/// Writes rates of both directions.
fn put_rates(out: &mut Output, rates: &Rates) -> Result<(), AllocError>
    ensures ok { OnOk result (out.new ≡ out.old ++ json_tokens (rates_value rates.now)) }
{
    put_both_ways(out, rates.up.number(), rates.down.number())
}

/// Writes the rates of a bearer's quality.
#[tactic(auto, using(crate::proofs::Tokens::nesting))]
fn put_all_rates(out: &mut Output, qos: &Qos) -> Result<(), AllocError>
    ensures ok { OnOk result (out.new ≡ out.old ++ written (rates_members qos.now)) }
{
    out.key("maximum")?;
    put_rates(out, &qos.mbr)?;
    out.key("guaranteed")?;
    put_rates(out, &qos.gbr)
}

impl Write for Qos {
    #[tactic(auto, unfolding(crate::specs::Values::value_json), using(crate::proofs::Tokens::nesting))]
    fn write_json(&self, out: &mut Output) -> Result<(), AllocError> {
        out.begin_object()?;
        put_retention(out, self)?;
        out.number_member("class", u64::from(self.qci))?;
        put_all_rates(out, self)?;
        out.end_object()
    }
}

impl Write for Plmn {
    #[tactic(auto, unfolding(crate::specs::Values::value_json), using(crate::proofs::Tokens::nesting))]
    fn write_json(&self, out: &mut Output) -> Result<(), AllocError> {
        out.begin_object()?;
        out.key("mcc")?;
        out.digits(self.mcc())?;
        out.key("mnc")?;
        out.digits(self.mnc())?;
        out.end_object()
    }
}

/// Writes an address of version 4, where there is one.
#[tactic(auto, using(crate::proofs::Tokens::appending))]
fn put_some_v4(out: &mut Output, address: &Option<[u8; 4]>) -> Result<(), AllocError>
    ensures ok { OnOk result (out.new ≡ out.old ++ written (v4_members address.now)) }
{
    let Some(address) = address else {
        return Ok(());
    };
    out.display_member("v4", &Ip::V4(*address))
}

/// Writes an address of version 6, where there is one.
#[tactic(auto, using(crate::proofs::Tokens::appending))]
fn put_some_v6(out: &mut Output, address: &Option<[u8; 16]>) -> Result<(), AllocError>
    ensures ok { OnOk result (out.new ≡ out.old ++ written (v6_members address.now)) }
{
    let Some(address) = address else {
        return Ok(());
    };
    out.hex_member("v6", address)
}

/// Writes an interface type, and its word where it has one.
#[tactic(auto, using(crate::proofs::Tokens::appending))]
fn put_interface(out: &mut Output, interface: u8) -> Result<(), AllocError>
    ensures ok { OnOk result (out.new ≡ out.old ++ written (interface_members interface)) }
{
    out.number_member("interface", u64::from(interface))?;
    put_word(out, "interface_name", interface_type_word(interface))
}

impl Write for FTeid {
    #[tactic(auto, unfolding(crate::specs::Values::value_json), using(crate::proofs::Tokens::nesting))]
    fn write_json(&self, out: &mut Output) -> Result<(), AllocError> {
        out.begin_object()?;
        put_interface(out, self.interface().number())?;
        out.display_member("teid", &self.teid())?;
        put_some_v4(out, &self.v4())?;
        put_some_v6(out, &self.v6())?;
        out.end_object()
    }
}

/// Writes the octets of a body.
pub fn put_octets(out: &mut Output, body: &[u8]) -> Result<(), AllocError>
    ensures ok { OnOk result (out.new ≡ out.old ++ written (octets_members body.now)) }
{
    out.hex_member("octets", body)
}

/// Writes the name and the value of a body, or its octets where it has none.
#[tactic(auto, using(crate::proofs::Tokens::nesting))]
fn put_value<T: Write>(out: &mut Output, name: &str, body: &[u8]) -> Result<(), AllocError>
    ensures ok { OnOk result (out.new ≡ out.old
        ++ written (named_members name.now body.now (value_at T.KIND body.now))) }
{
    match T::parse(body) {
        Ok(value) => {
            out.string_member("name", name)?;
            out.key("value")?;
            value.write_json(out)
        }
        Err(_) => put_octets(out, body),
    }
}

/// Writes the value that a body of this form says by name, or its octets where it says none.
#[tactic(auto, unfolding(gtp_ie::specs::Value::value_at))]
fn put_named(out: &mut Output, form: Form, body: &[u8]) -> Result<(), AllocError>
    ensures ok { OnOk result (out.new ≡ out.old
        ++ written (named_members (name_of form) body.now
        (value_at (number_of_form form) body.now))) }
{
    let name = form.name();
    match form {
        Form::Imsi => put_value::<Imsi>(out, name, body),
        Form::Cause => put_value::<Cause>(out, name, body),
        Form::Recovery => put_value::<Recovery>(out, name, body),
        Form::Apn => put_value::<Apn>(out, name, body),
        Form::Ambr => put_value::<Ambr>(out, name, body),
        Form::Ebi => put_value::<EbiValue>(out, name, body),
        Form::Paa => put_value::<Paa>(out, name, body),
        Form::Qos => put_value::<Qos>(out, name, body),
        Form::Rat => put_value::<Rat>(out, name, body),
        Form::Plmn => put_value::<Plmn>(out, name, body),
        Form::Tft => put_value::<Tft>(out, name, body),
        Form::FTeid => put_value::<FTeid>(out, name, body),
        Form::ChargingId => put_value::<ChargingId>(out, name, body),
        Form::PdnType => put_value::<PdnType>(out, name, body),
        Form::Pti => put_value::<Pti>(out, name, body),
        Form::Selection => put_value::<Selection>(out, name, body),
    }
}

/// Writes the word of a value that is a number, where it has one.
#[tactic(auto, using(crate::proofs::Tokens::none_written))]
fn put_beside(out: &mut Output, form: Form, body: &[u8]) -> Result<(), AllocError>
    ensures ok { OnOk result (out.new ≡ out.old
        ++ written (beside form (value_at (number_of_form form) body.now))) }
{
    match form {
        Form::Rat | Form::PdnType => put_word(out, "value_name", form_word(form, body)),
        _ => Ok(()),
    }
}

/// Writes what a body of this form says, and then its word, where it has one.
#[tactic(auto, using(crate::proofs::Tokens::appending))]
fn put_form(out: &mut Output, form: Form, body: &[u8]) -> Result<(), AllocError>
    ensures ok { OnOk result (out.new ≡ out.old
        ++ written (named_members (name_of form) body.now (value_at (number_of_form form) body.now)
        ++ beside form (value_at (number_of_form form) body.now))) }
{
    put_named(out, form, body)?;
    put_beside(out, form, body)
}

/// Writes what a body of this type of element says.
#[tactic(auto, unfolding(crate::specs::Values::body_members))]
pub fn put_body(out: &mut Output, kind: u8, body: &[u8]) -> Result<(), AllocError>
    ensures ok { OnOk result (out.new ≡ out.old ++ written (body_members kind body.now)) }
{
    match Form::of(kind) {
        Some(form) => put_form(out, form, body),
        None => put_octets(out, body),
    }
}
