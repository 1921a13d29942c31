//! What is wrong with the head of a scenario: all of it but its events.

ghost use Rattle.std.specs.Prelude.{◌≡◌, codes, IfOk, IsSome, MatchOption};
ghost use Rattle.gtp_scenario.specs.Heads.{setup_of, events_at};
ghost use Rattle.gtp_scenario.specs.Keys.{serving_keys, packet_keys};
ghost use Rattle.gtp_scenario.specs.Reasons.{IsFlaw, IsPacketFlaw, IsFlawAt, IsHeadFlaw};
ghost use Rattle.gtp_scenario.specs.reading.Faultless.{IsServingAt, IsPacketAt};
ghost use Rattle.gtp_scenario.specs.Trees.{view};

use crate::members::value_at;
use crate::reason::flaw::{ObjectFlaw, flaw_of};
use crate::reason::key::Key;
use crate::reason::packet::{PACKET_KEYS, PacketFlaw, packet_flaw};
use crate::tree::Tree;
use gtp_values::Memory;
use std::alloc::Global;

/// The keys of a scenario, in order.
const SCENARIO_KEYS: [Key; 6] = [
    Key::T3Response,
    Key::N3Requests,
    Key::Hold,
    Key::Serving,
    Key::Packet,
    Key::Events,
];

/// The keys of the serving gateway, in order.
const SERVING_KEYS: [Key; 4] = [Key::Control, Key::User, Key::Counter, Key::Switches];

/// What is wrong with a head: one of these.
#[derive(Debug, Drop)]
pub enum HeadFlaw {
    /// Something is wrong with the keys of the whole.
    Scenario(ObjectFlaw),
    /// Something is wrong with the keys of the serving gateway.
    Serving(ObjectFlaw),
    /// Something is wrong with the packet gateway.
    Packet(PacketFlaw),
}

fn serving_flaw(alloc: Global, value: &Tree<'_, '_>) -> Result<Option<ObjectFlaw>, Memory>
    ensures { IfOk result (λ flaw. MatchOption flaw (IsServingAt (view value.now))
        (IsFlawAt (IsFlaw serving_keys) (codes "serving") (view value.now))) }
{
    match value_at(value, "serving") {
        Some(serving) => flaw_of(alloc, &SERVING_KEYS, &serving),
        None => Ok(None),
    }
}

fn packet_flaw_at(alloc: Global, value: &Tree<'_, '_>) -> Result<Option<PacketFlaw>, Memory>
    ensures { IfOk result (λ flaw. MatchOption flaw (IsPacketAt (view value.now))
        (IsFlawAt (IsPacketFlaw packet_keys) (codes "packet") (view value.now))) }
{
    match value_at(value, "packet") {
        Some(packet) => packet_flaw(alloc, &PACKET_KEYS, &packet),
        None => Ok(None),
    }
}

/// What is wrong with the head of a scenario.
pub(crate) fn head_flaw(alloc: Global, value: &Tree<'_, '_>) -> Result<Option<HeadFlaw>, Memory>
    ensures { IfOk result (λ flaw. MatchOption flaw
        (IsSome (setup_of (view value.now)) × IsSome (events_at (view value.now)))
        (IsHeadFlaw (view value.now))) }
{
    if let Some(flaw) = flaw_of(alloc, &SCENARIO_KEYS, value)? {
        return Ok(Some(HeadFlaw::Scenario(flaw)));
    }
    if let Some(flaw) = serving_flaw(alloc, value)? {
        return Ok(Some(HeadFlaw::Serving(flaw)));
    }
    match packet_flaw_at(alloc, value)? {
        Some(flaw) => Ok(Some(HeadFlaw::Packet(flaw))),
        None => Ok(None),
    }
}
