//! Encoding messages.

ghost use Rattle.std.specs.Prelude.{◌≡◌, ◌+◌, ◌<◌, ◌≤◌, None, length, IfOk, IfSome, IsErrOf, ◌⊎◌, ◌↔◌, OnOk, IfErr};
ghost use Rattle.gtp_v2.specs.Priority.{PriorityNeedsTeid};
ghost use Rattle.gtp_v2.specs.Tables.{table_of};
ghost use Rattle.gtp_v2.specs.Body.{content_of, kind_of, message_value, OctetsOnlyWithoutTable};
ghost use Rattle.gtp_v2.specs.Encoding.{canonical_encoding, HeaderMeets};
ghost use Rattle.gtp_v2.specs.Room.{most_carried, members};
ghost use Rattle.gtp_v2.specs.Kinds.{ContentHasKinds};
ghost use Rattle.gtp_v2.specs.Marks.{MeetsMarks};
ghost use Rattle.gtp_v2.specs.Datagram.{IsMessage};
ghost use Rattle.gtp_v2.specs.Pair.{IsDatagram, both, paired};

use crate::body::{room_after, write_body};
use crate::fault::V2Fault;
use crate::flags::PIGGYBACKING;
use crate::header::write_header;
use crate::message::Message;
use std::alloc::{AllocError, Global};

/// The most octets that a header can state after its first four (TS 29.274 5.5).
const LONGEST: usize = 65535;

/// How many octets the canonical encoding of a message has after its first four, where two octets state it.
fn measured(message: &Message) -> Option<usize>
    requires { OctetsOnlyWithoutTable message.now.body }
    ensures some { IfSome result (λ size.
        (size ≤ 65535) × (length (canonical_encoding (message_value message.now)) ≡ 4 + size)) }
    ensures none { result ≡ None
        ↔ (65535 + 4 < length (canonical_encoding (message_value message.now))) }
    ensures rows { result ≡ None → 65527 < most_carried (message_value message.now) }
{
    let room = if message.teid.is_some() {
        LONGEST - 8
    } else {
        LONGEST - 4
    };
    let left = room_after(&message.body, room)?;
    Some(LONGEST - left)
}

/// The canonical encoding of a message. Its numbers fit its header, and its values are of the types in its
/// table's rows.
fn write_message(alloc: Global, message: &Message) -> Result<Vec<u8>, V2Fault>
    requires header { PriorityNeedsTeid message.now.teid message.now.priority }
    requires kind { OctetsOnlyWithoutTable message.now.body }
    ensures written { IfOk result (λ octets. octets.items
        ≡ canonical_encoding (message_value message.now)) }
    ensures too_long { IsErrOf result V2Fault.TooLong
        ↔ (65535 + 4 < length (canonical_encoding (message_value message.now))) }
    ensures rows { IsErrOf result V2Fault.TooLong →
        65527 < most_carried (message_value message.now) }
    ensures fault { IfErr result (λ f. (f ≡ V2Fault.Memory) ⊎ (f ≡ V2Fault.TooLong)) }
    ensures range { OnOk result
        (HeaderMeets (message_value message.now).teid message.now.seq message.now.priority) }
    ensures kinds { OnOk result
        (ContentHasKinds (table_of (kind_of message.now.body)) (content_of message.now.body)) }
{
    let Some(size) = measured(message) else {
        return Err(V2Fault::TooLong);
    };
    let mut out = Vec::with_capacity(alloc, 4 + size)?;
    write_header(&mut out, message)?;
    write_body(&mut out, &message.body)?;
    let [high, low] = (size as u16).to_be_bytes();
    out[2] = high;
    out[3] = low;
    Ok(out)
}

/// The canonical encoding of a message: its elements in the order of its table, all spare bits 0. `TooLong`
/// where its length passes the 65,535 octets that its header can state, and nowhere else; `Memory`
/// where the one allocation was refused.
pub fn encode(alloc: Global, message: &Message) -> Result<Vec<u8>, V2Fault>
    // A priority stands in a header with a TEID alone.
    requires header { PriorityNeedsTeid message.now.teid message.now.priority }
    // A message of a type that has a table is not kept as octets.
    requires kind { OctetsOnlyWithoutTable message.now.body }
    ensures written { IfOk result (λ octets. octets.items
        ≡ canonical_encoding (message_value message.now)) }
    // Two octets state the length of all but the first four.
    ensures too_long { IsErrOf result V2Fault.TooLong
        ↔ (65535 + 4 < length (canonical_encoding (message_value message.now))) }
    // None is too long whose rows fit: 259 octets for each value and 4 for each bearer context will do.
    ensures rows { IsErrOf result V2Fault.TooLong →
        65527 < most_carried (message_value message.now) }
    // So none is too long whose lists have at most 48 members, all together.
    ensures few { IsErrOf result V2Fault.TooLong → 48 < members (message_value message.now) }
    ensures fault { IfErr result (λ f. (f ≡ V2Fault.Memory) ⊎ (f ≡ V2Fault.TooLong)) }
    // It is read again where the message meets the marks of its table, and nowhere else.
    ensures read_again { IfOk result
        (λ octets. MeetsMarks (message_value message.now)
        ↔ IsMessage octets.items (message_value message.now)) }
{
    write_message(alloc, message)
}

/// The canonical encodings of two messages as one datagram, where the second is not too long.
fn write_pair(alloc: Global, first: &Message, second: &Message) -> Result<Vec<u8>, V2Fault>
    requires first_header { PriorityNeedsTeid first.now.teid first.now.priority }
    requires first_kind { OctetsOnlyWithoutTable first.now.body }
    requires second_header { PriorityNeedsTeid second.now.teid second.now.priority }
    requires second_kind { OctetsOnlyWithoutTable second.now.body }
    requires second_fits { length (canonical_encoding (message_value second.now)) ≤ 65535 + 4 }
    ensures written { IfOk result (λ octets. octets.items
        ≡ paired (canonical_encoding (message_value first.now))
        (canonical_encoding (message_value second.now))) }
    ensures too_long { IsErrOf result V2Fault.TooLong
        ↔ (65535 + 4 < length (canonical_encoding (message_value first.now))) }
    ensures few { IsErrOf result V2Fault.TooLong → 48 < members (message_value first.now) }
    ensures fault { IfErr result (λ f. (f ≡ V2Fault.Memory) ⊎ (f ≡ V2Fault.TooLong)) }
    ensures read_again { IfOk result (λ octets. MeetsMarks (message_value first.now)
        → MeetsMarks (message_value second.now)
        → IsDatagram octets.items (both (message_value first.now) (message_value second.now))) }
{
    let front = encode(alloc, first)?;
    let back = encode(alloc, second)?;
    let octets = pair(alloc, &front, &back)?;
    Ok(octets)
}

/// The canonical encodings of two messages as one datagram: the first announces the second (TS 29.274 5.5.1).
/// `TooLong` where one of them is too long, and nowhere else; `Memory` where an allocation was refused.
pub fn encode_pair(alloc: Global, first: &Message, second: &Message) -> Result<Vec<u8>, V2Fault>
    requires first_header { PriorityNeedsTeid first.now.teid first.now.priority }
    requires first_kind { OctetsOnlyWithoutTable first.now.body }
    requires second_header { PriorityNeedsTeid second.now.teid second.now.priority }
    requires second_kind { OctetsOnlyWithoutTable second.now.body }
    ensures written { IfOk result (λ octets. octets.items
        ≡ paired (canonical_encoding (message_value first.now))
        (canonical_encoding (message_value second.now))) }
    ensures too_long { IsErrOf result V2Fault.TooLong
        ↔ ((65535 + 4 < length (canonical_encoding (message_value first.now)))
        ⊎ (65535 + 4 < length (canonical_encoding (message_value second.now)))) }
    // So none is too long where the lists of each have at most 48 members.
    ensures few { IsErrOf result V2Fault.TooLong →
        (48 < members (message_value first.now)) ⊎ (48 < members (message_value second.now)) }
    ensures fault { IfErr result (λ f. (f ≡ V2Fault.Memory) ⊎ (f ≡ V2Fault.TooLong)) }
    // They are read again where they meet the marks of their tables, and nowhere else.
    ensures read_again { IfOk result (λ octets. (MeetsMarks (message_value first.now)
        × MeetsMarks (message_value second.now))
        ↔ IsDatagram octets.items (both (message_value first.now) (message_value second.now))) }
{
    if measured(second).is_none() {
        return Err(V2Fault::TooLong);
    }
    write_pair(alloc, first, second)
}

/// Two messages as one datagram, from the octets of each: the first announces the second (TS 29.274 5.5.1).
pub fn pair(alloc: Global, front: &[u8], back: &[u8]) -> Result<Vec<u8>, AllocError>
    ensures { IfOk result (λ octets. octets.items ≡ paired front.now back.now) }
{
    let mut out = Vec::with_capacity(alloc, front.len() + back.len())?;
    if let [first, rest @ ..] = front {
        out.push(first.wrapping_add(1 << PIGGYBACKING))?;
        out.extend_from_slice(rest)?;
    }
    out.extend_from_slice(back)?;
    Ok(out)
}
