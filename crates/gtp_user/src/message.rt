//! Messages of the user plane.

ghost use Rattle.gtp_values.specs.Room.{Leaves};
ghost use Rattle.std.specs.Prelude.{◌≡◌, length, ◌↔◌, IsTrue};
ghost use Rattle.gtp_user.specs.Message.{message_value};
ghost use Rattle.gtp_user.specs.Encoding.{rest_encoding, flags_of, IsEncodable};
ghost use Rattle.gtp_user.specs.Flags.{bits};

use crate::extension::Extensions;
use crate::flags::{EXTENSION_HEADER, N_PDU_NUMBER, SEQUENCE_NUMBER};
use crate::kinds::{
    ECHO_REQUEST, ECHO_RESPONSE, END_MARKER, ERROR_INDICATION, G_PDU,
    SUPPORTED_EXTENSION_HEADERS_NOTIFICATION,
};
use gtp_values::{Ip, Teid};

/// What a message of the user plane carries. Slices lie in the datagram that was decoded.
#[derive(Clone, Copy, Debug, PartialEq, Eq)]
pub enum UserBody<'a> {
    /// Echo Request (TS 29.281 7.2.1).
    EchoRequest,
    /// Echo Response (7.2.2).
    EchoResponse,
    /// Error Indication: the TEID and the address of a packet that found no context (7.3.1). The address,
    /// 17 octets in memory, comes first here, so that a body ends without padding.
    ErrorIndication {
        peer: Ip,
        teid: Teid,
    },
    /// Supported Extension Headers Notification: the types that the sender understands, at most 255
    /// (7.2.3).
    Notification {
        types: &'a [u8],
    },
    /// End Marker (7.3.2).
    EndMarker {
        teid: Teid,
    },
    /// G-PDU: a user's packet (5.1).
    Packet {
        teid: Teid,
        payload: &'a [u8],
    },
    /// A message of another type, and the octets after its header.
    Other {
        kind: u8,
        teid: Teid,
        octets: &'a [u8],
    },
}

/// A message of the user plane (TS 29.281 5.1).
#[derive(Clone, Debug, PartialEq, Eq, Drop)]
pub struct UserMessage<'a> {
    /// The sequence number. Echo messages, Error Indication and Notification always have one.
    pub seq: Option<u16>,
    /// The N-PDU number.
    pub npdu: Option<u8>,
    /// The extension headers, in order.
    pub ext: Extensions<'a>,
    pub body: UserBody<'a>,
}

impl UserMessage<'_> {
    /// Whether `encode` takes it: an echo, an Error Indication and a notification have a sequence
    /// number (TS 29.281 5.1), a notification has at most 255 types, and `Other` has a type without a
    /// form of its own.
    pub fn is_encodable(&self) -> bool
        ensures { IsTrue result ↔ IsEncodable (message_value self.now) }
    {
        match self.body {
            UserBody::EchoRequest | UserBody::EchoResponse | UserBody::ErrorIndication { .. } =>
                self.seq.is_some(),
            UserBody::Notification { types } => self.seq.is_some() && types.len() < 256,
            UserBody::EndMarker { .. } | UserBody::Packet { .. } => true,
            UserBody::Other { kind, .. } => !matches!(
                kind,
                ECHO_REQUEST
                    | ECHO_RESPONSE
                    | ERROR_INDICATION
                    | SUPPORTED_EXTENSION_HEADERS_NOTIFICATION
                    | END_MARKER
                    | G_PDU
            ),
        }
    }

    /// The flags E, S and PN: one for each part that the message has.
    pub(crate) fn flags(&self) -> u8
        ensures { result ≡ bits (flags_of (message_value self.now)) }
    {
        u8::from(self.ext.first_kind() != 0) << EXTENSION_HEADER
            | u8::from(self.seq.is_some()) << SEQUENCE_NUMBER
            | u8::from(self.npdu.is_some()) << N_PDU_NUMBER
    }

    /// What is left of a room after the octets that follow the first eight, `None` where they don't fit.
    #[tactic(auto, unfolding(crate::specs::Encoding::options_encoding))]
    pub(crate) fn room_after(&self, room: usize) -> Option<usize>
        ensures { Leaves room (length (rest_encoding (message_value self.now))) result }
    {
        let options = if self.flags() == 0 { 0 } else { 4 };
        let room = room.checked_sub(options)?;
        let room = room.checked_sub(self.ext.octets().len())?;
        self.body.room_after(room)
    }
}
