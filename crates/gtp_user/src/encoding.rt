//! Encoding messages.

ghost use Rattle.std.specs.Prelude.{◌≡◌, length, IfOk, IfErr, Err, ◌+◌, ◌<◌, ◌↔◌, ◌⊎◌};
ghost use Rattle.gtp_user.specs.Message.{message_value};
ghost use Rattle.gtp_user.specs.Datagram.{IsUserMessage};
ghost use Rattle.gtp_user.specs.Encoding.{encoding, IsEncodable};

use crate::body::write_body;
use crate::fault::UserFault;
use crate::header::{write_opening, write_options};
use crate::message::UserMessage;
use std::alloc::Global;

/// The most octets that a header can state after its first eight (TS 29.281 5.1).
const LONGEST: usize = 65535;

/// The canonical encoding of a message that `is_encodable`. `TooLong` where its length passes what
/// two octets can state, whether or not there is memory; `Memory` where an allocation was refused.
#[tactic(auto, using(crate::proofs::Appends::appending))]
pub fn encode(alloc: Global, message: &UserMessage) -> Result<Vec<u8>, UserFault>
    requires { IsEncodable (message_value message.now) }
    ensures written { IfOk result (λ octets. octets.items ≡ encoding (message_value message.now)) }
    // What was written is read again.
    ensures read_again { IfOk result
        (λ octets. IsUserMessage octets.items (message_value message.now)) }
    ensures too_long { (result ≡ Err UserFault.TooLong)
        ↔ (65535 + 8 < length (encoding (message_value message.now))) }
    ensures fault { IfErr result (λ f. (f ≡ UserFault.Memory) ⊎ (f ≡ UserFault.TooLong)) }
{
    let Some(left) = message.room_after(LONGEST) else {
        return Err(UserFault::TooLong);
    };
    let size = LONGEST - left;
    let mut out = Vec::with_capacity(alloc, 8 + size)?;
    write_opening(&mut out, message, size as u16)?;
    write_options(&mut out, message)?;
    out.extend_from_slice(message.ext.octets())?;
    write_body(&mut out, &message.body)?;
    Ok(out)
}
