//! The types of messages of the control plane that gateways take.

ghost use Rattle.std.specs.Prelude.{◌≡◌};
ghost use Rattle.gtp_machine.specs.MessageType.{type_at};

use crate::role::Role;
use gtp_v2::kinds::{
    CREATE_BEARER_REQUEST, CREATE_BEARER_RESPONSE, CREATE_SESSION_REQUEST, CREATE_SESSION_RESPONSE,
    DELETE_BEARER_REQUEST, DELETE_BEARER_RESPONSE, DELETE_SESSION_REQUEST, DELETE_SESSION_RESPONSE,
    ECHO_REQUEST, ECHO_RESPONSE,
};

/// A type of message that gateways take (TS 29.274 6.1).
#[derive(Clone, Copy, Debug, PartialEq, Eq)]
pub enum MessageType {
    EchoRequest,
    EchoResponse,
    CreateSessionRequest,
    CreateSessionResponse,
    DeleteSessionRequest,
    DeleteSessionResponse,
    CreateBearerRequest,
    CreateBearerResponse,
    DeleteBearerRequest,
    DeleteBearerResponse,
}

impl MessageType {
    ghost use Rattle.gtp_machine.specs.MessageType.{answers_type, takes_type, type_row};

    /// The type with this number; no gateway takes messages of others.
    pub fn of(kind: u8) -> Option<MessageType>
        ensures { result ≡ type_at kind }
    {
        match kind {
            ECHO_REQUEST => Some(MessageType::EchoRequest),
            ECHO_RESPONSE => Some(MessageType::EchoResponse),
            CREATE_SESSION_REQUEST => Some(MessageType::CreateSessionRequest),
            CREATE_SESSION_RESPONSE => Some(MessageType::CreateSessionResponse),
            DELETE_SESSION_REQUEST => Some(MessageType::DeleteSessionRequest),
            DELETE_SESSION_RESPONSE => Some(MessageType::DeleteSessionResponse),
            CREATE_BEARER_REQUEST => Some(MessageType::CreateBearerRequest),
            CREATE_BEARER_RESPONSE => Some(MessageType::CreateBearerResponse),
            DELETE_BEARER_REQUEST => Some(MessageType::DeleteBearerRequest),
            DELETE_BEARER_RESPONSE => Some(MessageType::DeleteBearerResponse),
            _ => None,
        }
    }

    /// Whether a gateway takes messages of this type.
    pub fn is_taken_by(self, role: Role) -> bool
        ensures { result ≡ takes_type role self }
    {
        match self {
            MessageType::EchoRequest | MessageType::EchoResponse => true,
            MessageType::CreateSessionResponse
            | MessageType::DeleteSessionResponse
            | MessageType::CreateBearerRequest
            | MessageType::DeleteBearerRequest => role == Role::Serving,
            MessageType::CreateSessionRequest
            | MessageType::DeleteSessionRequest
            | MessageType::CreateBearerResponse
            | MessageType::DeleteBearerResponse => role == Role::Packet,
        }
    }

    /// Whether messages of this type are requests whose answers are held.
    pub fn is_request(self) -> bool
        ensures { result ≡ (type_row self).is_request }
    {
        matches!(
            self,
            MessageType::CreateSessionRequest
                | MessageType::DeleteSessionRequest
                | MessageType::CreateBearerRequest
                | MessageType::DeleteBearerRequest
        )
    }

    /// Whether the sender's restart counter may be in messages of this type.
    pub fn has_counter(self) -> bool
        ensures { result ≡ (type_row self).has_counter }
    {
        !matches!(
            self,
            MessageType::DeleteSessionRequest
                | MessageType::CreateBearerRequest
                | MessageType::DeleteBearerRequest
        )
    }

    /// Whether a gateway answers requests of this type.
    pub fn is_answered_by(self, role: Role) -> bool
        ensures { result ≡ answers_type role self }
    {
        self.is_taken_by(role) && self.is_request()
    }
}
