//! Messages of a gateway's own, as octets.

ghost use Rattle.std.specs.Prelude.{◌≡◌, [], ◌∷◌, IfOk};
ghost use Rattle.gtp_machine.specs.Reading.{control_message};
ghost use Rattle.gtp_machine.specs.Spelling.{spelled};
ghost use Rattle.gtp_gateway.specs.messages.Own.{IsOwn};
ghost use Rattle.gtp_gateway.specs.messages.Sent.{ReadsBack};
ghost use Rattle.gtp_v2.specs.Body.{message_value};
ghost use Rattle.gtp_v2.specs.Datagram.{IsMessage};
ghost use Rattle.gtp_machine.specs.Spelling.{spelled_all};
ghost use Rattle.gtp_gateway.specs.messages.Spelled.{message_in, messages_in, AreSpelled, AreSpelledAll};

use gtp_v2::{Message, V2Fault, encode, pair};
use gtp_values::Memory;
use std::alloc::Global;

/// The octets that a gateway sends for a message of its own.
#[tactic(auto, using(crate::proofs::Own::own_spelled, crate::proofs::Own::own_read))]
pub fn encode_own(alloc: Global, message: &Message) -> Result<Vec<u8>, Memory>
    requires { IsOwn message.now }
    ensures spelled { IfOk result (λ octets.
        octets.items ≡ spelled (control_message message.now)) }
    ensures read { IfOk result (λ octets.
        message_in octets.items ≡ control_message message.now) }
    ensures back { IfOk result (λ _. ReadsBack (control_message message.now ∷ [])) }
    ensures kept { IfOk result (λ octets. AreSpelled octets.items) }
    ensures message { IfOk result (λ octets. IsMessage octets.items (message_value message.now)) }
{
    match encode(alloc, message) {
        Ok(octets) => Ok(octets),
        Err(V2Fault::TooLong) => unreachable!(),
        Err(_) => Err(Memory),
    }
}

/// Two messages of a gateway's own in one datagram, and the second by itself, as octets.
#[derive(Drop)]
pub struct EncodedPair {
    pub both: Vec<u8>,
    pub second: Vec<u8>,
}

/// The octets that a gateway sends for two messages of its own in one datagram, and those of the second
/// by itself.
pub fn encode_both(alloc: Global, first: &Message, second: &Message) -> Result<EncodedPair, Memory>
    requires first { IsOwn first.now }
    requires second { IsOwn second.now }
    ensures spelled { IfOk result (λ p. p.both.items
        ≡ spelled_all (control_message first.now ∷ control_message second.now ∷ [])) }
    ensures read { IfOk result (λ p. messages_in p.both.items
        ≡ control_message first.now ∷ control_message second.now ∷ []) }
    ensures back { IfOk result (λ _.
        ReadsBack (control_message first.now ∷ control_message second.now ∷ [])) }
    ensures kept { IfOk result (λ p. AreSpelledAll p.both.items) }
    ensures alone { IfOk result (λ p. message_in p.second.items ≡ control_message second.now) }
    ensures alone_kept { IfOk result (λ p. AreSpelled p.second.items) }
{
    let front = encode_own(alloc, first)?;
    let back = encode_own(alloc, second)?;
    match pair(alloc, front.as_slice(), back.as_slice()) {
        Ok(both) => Ok(EncodedPair { both, second: back }),
        Err(_) => Err(Memory),
    }
}
