//! Lines that say of each of a list whether something holds.

ghost use Rattle.std.specs.Prelude.{◌≡◌, ◌++◌, OnOk};
ghost use Rattle.gtp_world.specs.Record.{entry_by};
ghost use Rattle.gtp_world.specs.Naming.{pair_of, mutual_pairs, DoAgree};
ghost use Rattle.gtp_outcomes.specs.Owed.{WasOwed};
ghost use Rattle.gtp_outcomes.specs.Each.{AddsEach};
ghost use Rattle.gtp_replay.specs.Verdicts.{agree_word, owed_word, pair_text, mutual_line, taken_line};

use gtp_lines::text::{put, put_octets, put_teid};
use gtp_scenario::name_of;
use gtp_values::Teid;
use gtp_world::{Entry, Mutual, World};
use std::alloc::AllocError;

/// The word for whether two contexts agree.
fn agree_word(agree: bool) -> &'static str
    ensures { result.now ≡ agree_word agree }
{
    if agree { "agree" } else { "differ" }
}

/// The word for whether a packet is owed.
fn owed_word(owed: bool) -> &'static str
    ensures { result.now ≡ owed_word owed }
{
    if owed { "owed" } else { "unowed" }
}

/// Appends these words, both TEIDs of contexts that name each other, and whether they agree.
#[tactic(auto, using(crate::proofs::Appends::appending))]
fn put_pair(
    out: &mut Vec<u8>,
    words: &[u8],
    serving: Teid,
    packet: Teid,
    agree: bool,
) -> Result<(), AllocError>
    ensures ok { OnOk result (out.new.items
        ≡ out.old.items ++ (words.now ++ pair_text serving packet agree)) }
{
    put(out, words)?;
    put_teid(out, serving)?;
    put(out, b" ")?;
    put_teid(out, packet)?;
    put(out, b" ")?;
    put(out, agree_word(agree).as_bytes())?;
    put(out, b"\n")
}

/// Appends the line of two contexts that name each other.
fn put_mutual(out: &mut Vec<u8>, pair: Mutual, agree: bool) -> Result<(), AllocError>
    ensures ok { OnOk result (out.new.items ≡ out.old.items ++ mutual_line (pair_of pair) agree) }
{
    match pair {
        Mutual::Session { serving, packet } => {
            put_pair(out, b"mutual session ", serving, packet, agree)
        }
        Mutual::Bearer { serving, packet } => {
            put_pair(out, b"mutual bearer ", serving, packet, agree)
        }
    }
}

/// Appends a line for each two contexts that name each other.
pub(crate) fn put_all_mutual(out: &mut Vec<u8>, world: &World) -> Result<(), AllocError>
    ensures ok { OnOk result (AddsEach (DoAgree world.now) mutual_line
        (mutual_pairs world.now) out.old.items out.new.items) }
{
    for pair in world.mutual() {
        let agree = world.agrees(&pair);
        put_mutual(out, pair, agree)?;
    }
    Ok(())
}

/// Appends the line of a packet that was accepted.
#[tactic(auto, using(crate::proofs::Appends::appending))]
fn put_taken(out: &mut Vec<u8>, taken: &Entry, owed: bool) -> Result<(), AllocError>
    ensures ok { OnOk result (out.new.items
        ≡ out.old.items ++ taken_line (entry_by taken.now) owed) }
{
    put(out, b"taken ")?;
    put(out, name_of(taken.node).as_bytes())?;
    put(out, b" ")?;
    put_teid(out, taken.teid)?;
    put(out, b" ")?;
    put_octets(out, taken.payload.as_slice())?;
    put(out, b" ")?;
    put(out, owed_word(owed).as_bytes())?;
    put(out, b"\n")
}

/// Appends a line for each packet that was accepted.
pub(crate) fn put_all_taken(out: &mut Vec<u8>, world: &World) -> Result<(), AllocError>
    ensures ok { OnOk result (AddsEach (WasOwed world.now.log) taken_line
        world.now.log.accepted out.old.items out.new.items) }
{
    for (index, taken) in world.accepted().iter().enumerate() {
        let Some(owed) = world.owed(index) else {
            unreachable!()
        };
        put_taken(out, taken, owed)?;
    }
    Ok(())
}
