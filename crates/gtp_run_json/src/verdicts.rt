//! Objects that say of each of a list whether something holds.

ghost use Rattle.std.specs.Prelude.{◌≡◌, ◌++◌, List, OnOk, codes};
ghost use Rattle.json.specs.Json.{Json};
ghost use Rattle.json.specs.Tree.{json_tokens};
ghost use Rattle.gtp_world.specs.Record.{entry_by};
ghost use Rattle.gtp_world.specs.Naming.{pair_of, mutual_pairs, DoAgree};
ghost use Rattle.gtp_outcomes.specs.Owed.{WasOwed};
ghost use Rattle.gtp_outcomes.specs.Each.{AddsEach};
ghost use Rattle.gtp_json.specs.Tree.{member, array_of};
ghost use Rattle.gtp_json.specs.reading.Tokens.{written};
ghost use Rattle.gtp_run_json.specs.Verdicts.{JudgesEach, pair_json, mutual_json, accepted_json};

use crate::members::put_teid;
use gtp_json::Output;
use gtp_scenario::name_of;
use gtp_values::Teid;
use gtp_world::{Entry, Mutual, World};
use std::alloc::AllocError;

/// Writes the kind and both TEIDs of contexts that name each other, and whether they agree.
#[tactic(auto, using(gtp_json::proofs::Tokens::nesting))]
fn put_pair(
    out: &mut Output,
    kind: &str,
    serving: Teid,
    packet: Teid,
    agree: bool,
) -> Result<(), AllocError>
    ensures ok { OnOk result
        (out.new ≡ out.old ++ json_tokens (pair_json kind.now serving packet agree)) }
{
    out.begin_object()?;
    out.string_member("kind", kind)?;
    put_teid(out, "serving", serving)?;
    put_teid(out, "packet", packet)?;
    out.bool_member("agree", agree)?;
    out.end_object()
}

/// Writes two contexts that name each other.
fn put_contexts(out: &mut Output, pair: Mutual, agree: bool) -> Result<(), AllocError>
    ensures ok { OnOk result (out.new ≡ out.old ++ json_tokens (mutual_json (pair_of pair) agree)) }
{
    match pair {
        Mutual::Session { serving, packet } => put_pair(out, "session", serving, packet, agree),
        Mutual::Bearer { serving, packet } => put_pair(out, "bearer", serving, packet, agree),
    }
}

/// Writes all contexts that name each other.
fn put_all_mutual(out: &mut Output, world: &World) -> Result<(), AllocError>
    ensures ok { OnOk result (AddsEach (DoAgree world.now)
        (λ pair agree. json_tokens (mutual_json pair agree))
        (mutual_pairs world.now) out.old out.new) }
{
    for pair in world.mutual() {
        let agree = world.agrees(&pair);
        put_contexts(out, pair, agree)?;
    }
    Ok(())
}

/// Writes the member of the contexts that name each other.
pub fn put_mutual(out: &mut Output, world: &World) -> Result<(), AllocError>
    ensures ok { OnOk result ((pairs : List Json)
        × JudgesEach (DoAgree world.now) mutual_json (mutual_pairs world.now) pairs
        × (out.new ≡ out.old ++ written (member (codes "mutual") (array_of pairs)))) }
{
    out.key("mutual")?;
    out.begin_array()?;
    put_all_mutual(out, world)?;
    out.end_array()
}

/// Writes a packet that was accepted.
#[tactic(auto, using(gtp_json::proofs::Tokens::nesting))]
fn put_packet(out: &mut Output, packet: &Entry, owed: bool) -> Result<(), AllocError>
    ensures ok { OnOk result
        (out.new ≡ out.old ++ json_tokens (accepted_json (entry_by packet.now) owed)) }
{
    out.begin_object()?;
    out.string_member("node", name_of(packet.node))?;
    put_teid(out, "teid", packet.teid)?;
    out.hex_member("payload", packet.payload.as_slice())?;
    out.bool_member("owed", owed)?;
    out.end_object()
}

/// Writes all packets that were accepted.
fn put_all_accepted(out: &mut Output, world: &World) -> Result<(), AllocError>
    ensures ok { OnOk result (AddsEach (WasOwed world.now.log)
        (λ entry owed. json_tokens (accepted_json entry owed))
        world.now.log.accepted out.old out.new) }
{
    for (index, packet) in world.accepted().iter().enumerate() {
        let Some(owed) = world.owed(index) else {
            unreachable!()
        };
        put_packet(out, packet, owed)?;
    }
    Ok(())
}

/// Writes the member of the packets that were accepted.
pub fn put_accepted(out: &mut Output, world: &World) -> Result<(), AllocError>
    ensures ok { OnOk result ((packets : List Json)
        × JudgesEach (WasOwed world.now.log) accepted_json world.now.log.accepted packets
        × (out.new ≡ out.old ++ written (member (codes "accepted") (array_of packets)))) }
{
    out.key("accepted")?;
    out.begin_array()?;
    put_all_accepted(out, world)?;
    out.end_array()
}
