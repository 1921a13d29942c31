//! Writing a header, its length still 0 (TS 29.274 5.1).

ghost use Rattle.std.specs.Prelude.{◌≡◌, ◌<◌, ◌^◌, [], ◌∷◌, ◌++◌, OnOk};
ghost use Rattle.gtp_v2.specs.Priority.{PriorityNeedsTeid};
ghost use Rattle.gtp_v2.specs.Body.{kind_of, message_value};
ghost use Rattle.gtp_v2.specs.Encoding.{open_header, HeaderMeets};
ghost use Rattle.gtp_v2.specs.Flags.{version_2};
ghost use Rattle.gtp_values.specs.Numbers.{three, four};

use crate::flags::{MESSAGE_PRIORITY, VERSION_2, WITH_TEID};
use crate::message::Message;
use byteorder::{BigEndian, ByteOrder};
use gtp_values::{Seq, Teid};
use std::alloc::AllocError;

/// Appends a header with a TEID, its length still 0.
fn write_long_header(
    out: &mut Vec<u8>,
    first: u8,
    kind: u8,
    teid: Teid,
    seq: Seq,
    last: u8,
) -> Result<(), AllocError>
    ensures ok { OnOk result
        (out.new.items
        ≡ out.old.items ++ first ∷ kind ∷ 0 ∷ 0 ∷ four teid (three seq (last ∷ []))) }
    ensures teid { teid < 2 ^ 32 }
    ensures seq { seq < 2 ^ 24 }
{
    let mut header = [first, kind, 0, 0, 0, 0, 0, 0, 0, 0, 0, last];
    BigEndian::write_u32(&mut header[4..], teid.0);
    BigEndian::write_u24(&mut header[8..], seq.number());
    out.extend_from_slice(&header)?;
    Ok(())
}

/// Appends a header without a TEID, its length still 0.
fn write_short_header(out: &mut Vec<u8>, kind: u8, seq: Seq) -> Result<(), AllocError>
    ensures ok { OnOk result (out.new.items
        ≡ out.old.items ++ version_2 ∷ kind ∷ 0 ∷ 0 ∷ three seq (0 ∷ [])) }
    ensures seq { seq < 2 ^ 24 }
{
    let mut header = [VERSION_2, kind, 0, 0, 0, 0, 0, 0];
    BigEndian::write_u24(&mut header[4..], seq.number());
    out.extend_from_slice(&header)?;
    Ok(())
}

/// Appends the octets before what a message carries, its length still 0.
pub fn write_header(out: &mut Vec<u8>, message: &Message) -> Result<(), AllocError>
    requires { PriorityNeedsTeid message.now.teid message.now.priority }
    ensures ok { OnOk result
        (out.new.items
        ≡ out.old.items
        ++ open_header (kind_of message.now.body) (message_value message.now).teid
        message.now.seq
        message.now.priority) }
    ensures range { HeaderMeets
        (message_value message.now).teid message.now.seq message.now.priority }
{
    let kind = message.body.kind();
    let seq = message.seq;
    match (message.teid, message.priority) {
        (None, _) => write_short_header(out, kind, seq),
        (Some(teid), None) => write_long_header(out, WITH_TEID, kind, teid, seq, 0),
        (Some(teid), Some(priority)) => {
            let first = WITH_TEID | 1 << MESSAGE_PRIORITY;
            write_long_header(out, first, kind, teid, seq, 16 * priority.number())
        }
    }
}
