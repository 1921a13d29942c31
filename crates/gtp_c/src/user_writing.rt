//! Messages of the user plane, written to a caller's buffer.

ghost use Rattle.std.specs.Prelude.{◌≡◌, option_map};
ghost use Rattle.gtp_user.specs.Message.{content_of, message_value};
ghost use Rattle.gtp_c.specs.UserWriting.{IsUserWritten, content_asked, where_told};

use crate::from_c::teid_of;
use crate::status::{BAD_VALUE, NO_MEMORY};
use crate::user::UserHead;
use crate::writing::write_parts;
use gtp_user::kinds::{
    ECHO_REQUEST, ECHO_RESPONSE, END_MARKER, ERROR_INDICATION, G_PDU,
    SUPPORTED_EXTENSION_HEADERS_NOTIFICATION,
};
use gtp_user::{Extensions, UserBody, UserFault, UserMessage, encode};
use std::alloc::Global;

/// A value where C says that there is one.
fn sequence_in(has: u8, value: u16) -> Option<u16>
    ensures { result ≡ where_told has value }
{
    if has == 0 { None } else { Some(value) }
}

/// A value where C says that there is one.
fn number_in(has: u8, value: u8) -> Option<u8>
    ensures { result ≡ where_told has value }
{
    if has == 0 { None } else { Some(value) }
}

impl UserHead {
    /// What a message of this type carries, with these octets; none of an Error Indication without an address.
    fn body<'a>(&self, octets: &'a [u8]) -> Option<UserBody<'a>>
        ensures { option_map content_of result ≡ content_asked self.now octets.now }
    {
        let teid = teid_of(self.teid);
        match self.kind {
            ECHO_REQUEST => Some(UserBody::EchoRequest),
            ECHO_RESPONSE => Some(UserBody::EchoResponse),
            ERROR_INDICATION => {
                self.peer
                    .ip()
                    .map(|peer| UserBody::ErrorIndication { peer, teid })
            }
            SUPPORTED_EXTENSION_HEADERS_NOTIFICATION => Some(UserBody::Notification {
                types: octets,
            }),
            END_MARKER => Some(UserBody::EndMarker { teid }),
            G_PDU => Some(UserBody::Packet {
                teid,
                payload: octets,
            }),
            kind => Some(UserBody::Other { kind, teid, octets }),
        }
    }
}

/// Writes a message of the user plane (TS 29.281 5.1) without extension headers, of the type, TEID, sequence number, N-PDU number and
/// address of `head`, with these octets as its packet, its types or what it carries: 0, and `size` says how many octets it has; 5
/// where they do not fit, and `size` says how many they are; 1 where there is no such message; 2 where an allocation was refused.
#[unsafe(no_mangle)]
pub extern "C" fn gtp_user_write(
    alloc: Global,
    buffer: &mut [u8],
    head: &UserHead,
    octets: &[u8],
    size: &mut u64,
) -> u8
    ensures { IsUserWritten head.now octets.now buffer.old buffer.new size.old size.new result }
{
    let Some(body) = head.body(octets) else {
        return BAD_VALUE;
    };
    let message = UserMessage {
        seq: sequence_in(head.has_seq, head.seq),
        npdu: number_in(head.has_npdu, head.npdu),
        ext: Extensions::none(),
        body,
    };
    if !message.is_encodable() {
        return BAD_VALUE;
    }
    match encode(alloc, &message) {
        Ok(text) => write_parts(buffer, 0, &[], text.as_slice(), size),
        Err(UserFault::TooLong) => BAD_VALUE,
        Err(_) => NO_MEMORY,
    }
}
