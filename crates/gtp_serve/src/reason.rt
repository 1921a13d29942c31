//! Why the first line says no gateway: a second reading, which says what is wrong and where.

ghost use Rattle.std.specs.Prelude.{◌≡◌, None, IfOk, MatchOption};
ghost use Rattle.gtp_scenario.specs.Reasons.{IsJsonFlaw, IsGatewayFlaw};
ghost use Rattle.gtp_scenario.specs.Trees.{view};
ghost use Rattle.gtp_serve.specs.Heads.{head_in, head_of};
ghost use Rattle.gtp_serve.specs.Reasons.{IsWhy, SaysGateway};

use crate::head::head_in;
use crate::serving::MOST_OCTETS;
use gtp_scenario::{Fault, GatewayFlaw, JsonFlaw, Memory, Tree, gateway_flaw, json_flaw, json_of};
use json::Scratch;
use std::alloc::Global;
use std::fmt;

/// Why a line says no gateway. `Display` gives a line of English, without characters that a terminal acts on: a key of the line
/// is cut to 64 octets.
#[derive(Debug, Drop)]
pub enum HeadReason {
    /// It has more than 1,048,576 octets.
    TooLong,
    /// It is no JSON.
    Json(JsonFlaw),
    /// Something is wrong with the gateway.
    Gateway(GatewayFlaw),
}

impl fmt::Display for HeadReason {
    fn fmt<W: fmt::Write>(&self, f: &mut fmt::Formatter<W>) -> fmt::Result {
        match self {
            HeadReason::TooLong => write!(f, "more than {MOST_OCTETS} octets"),
            HeadReason::Json(flaw) => write!(f, "{flaw}"),
            HeadReason::Gateway(flaw) => write!(f, "{flaw}"),
        }
    }
}

/// What is wrong with data that are no head.
fn head_flaw(alloc: Global, value: &Tree<'_, '_>) -> Result<GatewayFlaw, Memory>
    requires { head_of (view value.now) ≡ None }
    ensures { IfOk result (IsGatewayFlaw (view value.now)) }
{
    match gateway_flaw(alloc, value)? {
        Some(flaw) => Ok(flaw),
        None => unreachable!(),
    }
}

/// Why a line of that length at most is no head.
fn reason_for(alloc: Global, line: &[u8]) -> Result<HeadReason, Memory>
    requires { head_in line.now ≡ None }
    ensures { IfOk result (IsWhy line.now) }
{
    let mut scratch = Scratch::new(alloc);
    match json_of(alloc, line, &mut scratch) {
        Ok(tape) => Ok(HeadReason::Gateway(head_flaw(alloc, &Tree::root(&tape))?)),
        Err(Fault::Wrong) => Ok(HeadReason::Json(json_flaw(alloc, line)?)),
        Err(Fault::Memory) => Err(Memory),
    }
}

/// Why a line says no gateway, and `None` where it says one. It reads the line again, so call it only after `serve` has refused
/// it. `Memory` if an allocation was refused.
///
/// Of several flaws it tells one; of the keys of an object that are missing or bad the first, in the order of `docs/FORMATS.md`.
/// Which of two kinds of flaw it tells, no clause says.
pub fn head_reason(alloc: Global, line: &[u8]) -> Result<Option<HeadReason>, Memory>
    // There is a reason exactly where the line says no gateway, and what it says of the line is so.
    ensures { IfOk result (λ reason. MatchOption reason (SaysGateway line.now) (IsWhy line.now)) }
{
    if line.len() > MOST_OCTETS {
        return Ok(Some(HeadReason::TooLong));
    }
    match head_in(alloc, line) {
        Ok(_) => Ok(None),
        Err(Fault::Wrong) => Ok(Some(reason_for(alloc, line)?)),
        Err(Fault::Memory) => Err(Memory),
    }
}
