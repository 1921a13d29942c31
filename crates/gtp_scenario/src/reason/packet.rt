//! What is wrong with a packet gateway.

ghost use Rattle.std.specs.Prelude.{◌≡◌, true, IfOk, IsSome, MatchOption};
ghost use Rattle.gtp_scenario.specs.Reasons.{IsPacketFlaw, IsTemplateOf};
ghost use Rattle.gtp_scenario.specs.reading.Faultless.{AreTemplatesOf, IsPacket};
ghost use Rattle.gtp_scenario.specs.Trees.{view};

use crate::fault::Fault;
use crate::head::{access_points_at, pool_at, prefixes_at};
use crate::members::{as_list, value_at};
use crate::reason::flaw::{ObjectFlaw, flaw_of};
use crate::reason::key::Key;
use crate::reason::template::{TemplateFlaw, first_template};
use crate::tree::Tree;
use gtp_values::Memory;
use std::alloc::Global;

/// Its keys in a scenario, in order.
pub(crate) const PACKET_KEYS: [Key; 10] = [
    Key::Control,
    Key::User,
    Key::Counter,
    Key::Apns,
    Key::Pool,
    Key::Count,
    Key::Pool6,
    Key::Count6,
    Key::Templates,
    Key::Switches,
];

/// What is wrong with a packet gateway: one of these.
#[derive(Debug, Drop)]
pub enum PacketFlaw {
    /// Something is wrong with its keys.
    Keys(ObjectFlaw),
    /// Its IPv4 addresses go past 255.255.255.255.
    PastLastAddress,
    /// Its IPv6 addresses go past the last prefix of 64 bits.
    PastLastPrefix,
    /// Something is wrong with the template at this place, counted from 0.
    Template(usize, TemplateFlaw),
}

/// What is wrong with the templates, where the keys are as they have to be.
fn templates_flaw(
    alloc: Global,
    value: &Tree<'_, '_>,
) -> Result<Option<(usize, TemplateFlaw)>, Memory>
    ensures { IfOk result (λ found. MatchOption found (AreTemplatesOf (view value.now))
        (λ f. IsTemplateOf (view value.now) f.0 f.1)) }
{
    let Some(templates) = value_at(value, "templates") else {
        return Ok(None);
    };
    let Some(values) = as_list(&templates) else {
        return Ok(None);
    };
    let names = match access_points_at(alloc, value) {
        Ok(names) => names,
        Err(Fault::Wrong) => return Ok(None),
        Err(Fault::Memory) => return Err(Memory),
    };
    first_template(alloc, names.as_slice(), values)
}

/// What is wrong with a packet gateway that is to have these keys.
pub(crate) fn packet_flaw(
    alloc: Global,
    keys: &[Key],
    value: &Tree<'_, '_>,
) -> Result<Option<PacketFlaw>, Memory>
    ensures { IfOk result (λ flaw. MatchOption flaw (IsPacket keys.now (view value.now))
        (IsPacketFlaw keys.now (view value.now))) }
{
    if let Some(flaw) = flaw_of(alloc, keys, value)? {
        return Ok(Some(PacketFlaw::Keys(flaw)));
    }
    if pool_at(value).is_none() {
        return Ok(Some(PacketFlaw::PastLastAddress));
    }
    if prefixes_at(value).is_none() {
        return Ok(Some(PacketFlaw::PastLastPrefix));
    }
    match templates_flaw(alloc, value)? {
        Some((place, flaw)) => Ok(Some(PacketFlaw::Template(place, flaw))),
        None => Ok(None),
    }
}
