//! What the clauses of a gateway's calls leave open. The function does nothing: its contract is a
//! law.

ghost use Rattle.gtp_gateway.specs.Determined.{BeginsOne, ReceivesOne, TicksOne};

use crate::gateway::Gateway;

/// What a gateway answers and keeps is determined by the clauses of its calls, where these succeed:
/// two answers that meet them send and tell the same, and leave the same.
pub fn answers_are_determined(gateway: &Gateway)
    // Whatever datagram comes, from wherever.
    ensures receive { ReceivesOne gateway.now }

    // Whatever is commanded.
    ensures command { BeginsOne gateway.now }

    // And when a tick passes.
    ensures tick { TicksOne gateway.now }
{
    gateway.stands();
}
