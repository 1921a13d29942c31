//! The octets before a chain of extension headers or a payload (TS 29.281 5.1).

ghost use Rattle.std.specs.Prelude.{◌≡◌, ◌≤◌, ◌%◌, length, IfOk, ◌+◌, ◌^◌, ◌<◌, ◌++◌, IfSome, OnOk};
ghost use Rattle.gtp_values.specs.Steps.{Gives};
ghost use Rattle.gtp_user.specs.reading.Headed.{headed_of, header_at, after_flags};
ghost use Rattle.gtp_user.specs.Message.{content_of, message_value};
ghost use Rattle.gtp_user.specs.Encoding.{options_encoding, opening_encoding, teid_of};

use crate::fault::UserFault;
use crate::flags::{
    EXTENSION_HEADER, GTP, N_PDU_NUMBER, PROTOCOL_TYPE, SEQUENCE_NUMBER, field_flags,
};
use crate::message::UserMessage;
use gtp_values::{Teid, has_bit};
use std::alloc::AllocError;

/// What the octets before the chain say, and the octets from the chain on.
#[derive(Clone, Copy)]
pub struct Header<'a> {
    pub kind: u8,
    pub teid: Teid,
    pub seq: Option<u16>,
    pub npdu: Option<u8>,
    /// The type of the first extension header, 0 where there is none.
    pub first: u8,
    pub rest: &'a [u8],
}

/// The header after its first eight octets, where a flag is set.
#[inline(always)]
fn with_flags(flags: u8, kind: u8, teid: Teid, octets: &[u8]) -> Result<Header<'_>, UserFault>
    ensures header { Gives headed_of result (after_flags flags kind teid octets.now) }
    ensures within { IfOk result (λ h. length h.rest.now ≤ length octets.now) }
{
    let [a, b, npdu, first, rest @ ..] = octets else {
        return Err(UserFault::Short {
            held: 8 + octets.len(),
        });
    };
    let seq = u16::from_be_bytes([*a, *b]);
    Ok(Header {
        kind,
        teid,
        seq: has_bit(flags, SEQUENCE_NUMBER).then_some(seq),
        npdu: has_bit(flags, N_PDU_NUMBER).then_some(*npdu),
        first: if has_bit(flags, EXTENSION_HEADER) {
            *first
        } else {
            0
        },
        rest,
    })
}

/// The header of a datagram, which it fills exactly.
#[inline(always)]
pub fn read_header(octets: &[u8]) -> Result<Header<'_>, UserFault>
    ensures header { Gives headed_of result (header_at octets.now) }
    ensures within { IfOk result (λ h. length h.rest.now ≤ length octets.now) }
{
    let [flags, kind, high, low, a, b, c, d, rest @ ..] = octets else {
        return Err(UserFault::Short { held: octets.len() });
    };
    let version = *flags >> 5;
    if version != 1 {
        return Err(UserFault::Version { version });
    }
    if !has_bit(*flags, PROTOCOL_TYPE) {
        return Err(UserFault::Protocol);
    }
    let stated = usize::from(u16::from_be_bytes([*high, *low]));
    if stated != rest.len() {
        return Err(UserFault::Length {
            stated,
            held: rest.len(),
        });
    }
    let teid = Teid(u32::from_be_bytes([*a, *b, *c, *d]));
    if field_flags(*flags) != 0 {
        return with_flags(*flags, *kind, teid, rest);
    }
    Ok(Header {
        kind: *kind,
        teid,
        seq: None,
        npdu: None,
        first: 0,
        rest,
    })
}

/// Appends the first eight octets; so many follow them.
pub fn write_opening(out: &mut Vec<u8>, message: &UserMessage, size: u16) -> Result<(), AllocError>
    ensures ok { OnOk result
        (out.new.items ≡ out.old.items ++ opening_encoding size (message_value message.now)) }
    ensures teid { OnOk result (teid_of (content_of message.now.body) < 2 ^ 32) }
{
    let size = size.to_be_bytes();
    let teid = message.body.header_teid().to_be_bytes();
    out.extend_from_slice(&[
        GTP | message.flags(),
        message.body.kind(),
        size[0],
        size[1],
        teid[0],
        teid[1],
        teid[2],
        teid[3],
    ])
}

/// Appends sequence number, N-PDU number and the type of the first extension header, where there is
/// one of them.
#[tactic(auto, unfolding(crate::specs::Encoding::options_encoding))]
pub fn write_options(out: &mut Vec<u8>, message: &UserMessage) -> Result<(), AllocError>
    ensures ok { OnOk result
        (out.new.items ≡ out.old.items ++ options_encoding (message_value message.now)) }
    ensures seq { OnOk result (IfSome message.now.seq (λ n. n < 2 ^ 16)) }
{
    if message.flags() == 0 {
        return Ok(());
    }
    let seq = message.seq.unwrap_or(0).to_be_bytes();
    let npdu = message.npdu.unwrap_or(0);
    out.extend_from_slice(&[seq[0], seq[1], npdu, message.ext.first_kind()])
}
