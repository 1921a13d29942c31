//! What a message carries after its chain of extension headers.

ghost use Rattle.std.specs.Prelude.{◌≡◌, ◌≤◌, length, ◌^◌, ◌<◌, ◌++◌, OnOk};
ghost use Rattle.gtp_values.specs.Steps.{Gives};
ghost use Rattle.gtp_values.specs.Room.{Leaves};
ghost use Rattle.gtp_user.specs.Message.{content_of};
ghost use Rattle.gtp_user.specs.reading.Gathered.{found_of};
ghost use Rattle.gtp_user.specs.reading.Message.{body_at, echo_response, error_indication, notification};
ghost use Rattle.gtp_user.specs.Encoding.{content_encoding, octets_of, HasAddressSize, kind_of, teid_of, HasShortList, IsInRange};

use crate::element::{Found, read_elements};
use crate::fault::UserFault;
use crate::kinds::{
    ECHO_REQUEST, ECHO_RESPONSE, END_MARKER, ERROR_INDICATION, G_PDU,
    SUPPORTED_EXTENSION_HEADERS_NOTIFICATION,
};
use crate::message::UserBody;
use crate::numbers::{EXTENSION_TYPES, PEER_ADDRESS, RECOVERY, TEID_DATA};
use gtp_values::{Ip, Teid};
use std::alloc::AllocError;

/// An Echo Response has a Recovery (TS 29.281 7.2.2).
fn as_echo_response<'a>(found: &Found<'a>) -> Result<UserBody<'a>, UserFault>
    ensures { Gives content_of result (echo_response (found_of found.now)) }
{
    if !found.recovery {
        return Err(UserFault::Missing { kind: RECOVERY });
    }
    Ok(UserBody::EchoResponse)
}

/// An Error Indication has a TEID and an address (7.3.1).
fn as_error_indication<'a>(found: &Found<'a>) -> Result<UserBody<'a>, UserFault>
    ensures { Gives content_of result (error_indication (found_of found.now)) }
{
    let teid = found.teid.ok_or(UserFault::Missing { kind: TEID_DATA })?;
    let peer = found.peer.ok_or(UserFault::Missing { kind: PEER_ADDRESS })?;
    Ok(UserBody::ErrorIndication { teid, peer })
}

/// A Supported Extension Headers Notification has a list of types (7.2.3).
fn as_notification<'a>(found: &Found<'a>) -> Result<UserBody<'a>, UserFault>
    ensures { Gives content_of result (notification (found_of found.now)) }
{
    let types = found.types.ok_or(UserFault::Missing {
        kind: EXTENSION_TYPES,
    })?;
    Ok(UserBody::Notification { types })
}

/// What a message of this type carries in the octets after its chain, the last ones of a datagram of
/// `end` octets.
#[tactic(auto, unfolding(crate::specs::reading::Message::body_at))]
pub fn read_body(kind: u8, teid: Teid, octets: &[u8], end: usize) -> Result<UserBody<'_>, UserFault>
    requires { length octets.now ≤ end }
    ensures { Gives content_of result (body_at end kind teid octets.now) }
{
    match kind {
        ECHO_REQUEST => Ok(UserBody::EchoRequest),
        ECHO_RESPONSE => match read_elements(octets, end) {
            Ok(found) => as_echo_response(&found),
            Err(fault) => Err(fault),
        },
        ERROR_INDICATION => match read_elements(octets, end) {
            Ok(found) => as_error_indication(&found),
            Err(fault) => Err(fault),
        },
        SUPPORTED_EXTENSION_HEADERS_NOTIFICATION => match read_elements(octets, end) {
            Ok(found) => as_notification(&found),
            Err(fault) => Err(fault),
        },
        END_MARKER => Ok(UserBody::EndMarker { teid }),
        G_PDU => Ok(UserBody::Packet {
            teid,
            payload: octets,
        }),
        _ => Ok(UserBody::Other { kind, teid, octets }),
    }
}

/// The octets of an address, four or sixteen.
fn address_octets(address: &Ip) -> &[u8]
    ensures octets { result.now ≡ octets_of address.now }
    ensures size { HasAddressSize address.now }
{
    match address {
        Ip::V4(octets) => octets,
        Ip::V6(octets) => octets,
    }
}

impl UserBody<'_> {
    /// The type of the message.
    pub fn kind(&self) -> u8
        ensures { result ≡ kind_of (content_of self.now) }
    {
        match self {
            UserBody::EchoRequest => ECHO_REQUEST,
            UserBody::EchoResponse => ECHO_RESPONSE,
            UserBody::ErrorIndication { .. } => ERROR_INDICATION,
            UserBody::Notification { .. } => SUPPORTED_EXTENSION_HEADERS_NOTIFICATION,
            UserBody::EndMarker { .. } => END_MARKER,
            UserBody::Packet { .. } => G_PDU,
            UserBody::Other { kind, .. } => *kind,
        }
    }

    /// The TEID in the header: 0 in the messages that always have a sequence number (TS 29.281 5.1).
    pub(crate) fn header_teid(&self) -> u32
        ensures teid { result ≡ teid_of (content_of self.now) }
        ensures small { result < 2 ^ 32 }
    {
        match self {
            UserBody::EchoRequest
            | UserBody::EchoResponse
            | UserBody::ErrorIndication { .. }
            | UserBody::Notification { .. } => 0,
            UserBody::EndMarker { teid } => teid.0,
            UserBody::Packet { teid, .. } => teid.0,
            UserBody::Other { teid, .. } => teid.0,
        }
    }

    /// What is left of a room after what it carries, `None` where that doesn't fit.
    #[tactic(auto, unfolding(crate::specs::Encoding::content_encoding))]
    pub(crate) fn room_after(&self, room: usize) -> Option<usize>
        ensures { Leaves room (length (content_encoding (content_of self.now))) result }
    {
        match self {
            UserBody::EchoRequest | UserBody::EndMarker { .. } => Some(room),
            UserBody::EchoResponse => room.checked_sub(2),
            UserBody::ErrorIndication { peer, .. } => {
                room.checked_sub(8)?.checked_sub(address_octets(peer).len())
            }
            UserBody::Notification { types } => room.checked_sub(2)?.checked_sub(types.len()),
            UserBody::Packet { payload, .. } => room.checked_sub(payload.len()),
            UserBody::Other { octets, .. } => room.checked_sub(octets.len()),
        }
    }
}

/// Appends what the message carries after its chain.
#[tactic(auto, using(crate::proofs::Appends::appending), unfolding(crate::specs::Encoding::content_encoding))]
pub fn write_body(out: &mut Vec<u8>, body: &UserBody) -> Result<(), AllocError>
    requires { HasShortList (content_of body.now) }
    ensures ok { OnOk result
        (out.new.items ≡ out.old.items ++ content_encoding (content_of body.now)) }
    ensures range { OnOk result (IsInRange (content_of body.now)) }
{
    match body {
        UserBody::EchoRequest | UserBody::EndMarker { .. } => Ok(()),
        UserBody::EchoResponse => out.extend_from_slice(&[RECOVERY, 0]),
        UserBody::ErrorIndication { teid, peer } => {
            let teid = teid.0.to_be_bytes();
            let address = address_octets(peer);
            out.extend_from_slice(&[TEID_DATA, teid[0], teid[1], teid[2], teid[3]])?;
            out.extend_from_slice(&[PEER_ADDRESS, 0, address.len() as u8])?;
            out.extend_from_slice(address)
        }
        UserBody::Notification { types } => {
            out.extend_from_slice(&[EXTENSION_TYPES, types.len() as u8])?;
            out.extend_from_slice(types)
        }
        UserBody::Packet { payload, .. } => out.extend_from_slice(payload),
        UserBody::Other { octets, .. } => out.extend_from_slice(octets),
    }
}
