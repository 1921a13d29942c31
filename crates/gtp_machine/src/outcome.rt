//! The outcomes of commands and datagrams.

use gtp_values::Plane;
use std::fmt;
use thiserror::Error;

/// Why a command is refused. Each begins with its printed code. G6, out of memory, is no rule of a gateway:
/// `CommandFault` has it.
#[derive(Clone, Copy, Debug, PartialEq, Eq, Error)]
pub enum Refusal {
    /// G1: no session or bearer has this TEID, or no dedicated bearer of the session has this identity.
    #[error("G1: no such session or bearer")]
    NoSuchContext,
    /// G2: the session or bearer is pending or closing.
    #[error("G2: the session or bearer is not active")]
    NotActive,
    /// G3: this is a command of the other gateway.
    #[error("G3: this is a command of the other gateway")]
    WrongRole,
    /// G4 S1: the gateway has 1,000 sessions.
    #[error("G4 S1: there are 1000 sessions")]
    SessionsFull,
    /// G4 S4: fewer TEIDs are left than the command needs.
    #[error("G4 S4: too few TEIDs are left")]
    TeidsUsed,
    /// G4 B1: 256 requests are pending.
    #[error("G4 B1: 256 requests are pending")]
    PendingFull,
    /// G5: an End Marker was sent on this bearer before (TS 29.281 7.3.2).
    #[error("G5: an End Marker was sent on this bearer before")]
    BearerEnded,
    /// G7: the payload has more than 65,000 octets.
    #[error("G7: the payload has more than 65000 octets")]
    PacketTooLong,
}

/// The printed name of a fault of a datagram: H and a number on the control plane, U and a number on the
/// user plane.
#[derive(Clone, Copy, Debug, PartialEq, Eq)]
pub struct FaultName {
    pub plane: Plane,
    pub number: u8,
}

impl fmt::Display for FaultName {
    fn fmt<W: fmt::Write>(&self, f: &mut fmt::Formatter<W>) -> fmt::Result {
        let letter = match self.plane {
            Plane::Control => 'H',
            Plane::User => 'U',
        };
        write!(f, "{letter}{}", self.number)
    }
}

/// Why a datagram is dropped (TS 29.274 7.7, TS 29.281 7.3). Each begins with its printed code.
#[derive(Clone, Copy, Debug, PartialEq, Eq, Error)]
pub enum DropReason {
    /// X1: its octets are no message, and it is not answered.
    #[error("X1: the octets are no message, by fault {0}")]
    Undecodable(FaultName),
    /// X2: its restart counter is earlier than the latest one received (TS 23.007 18).
    #[error("X2: the restart counter is an earlier one")]
    OldCounter,
    /// X3: no request with its sequence number is pending.
    #[error("X3: no request with this sequence number is pending")]
    NoPending,
    /// X4: it is no answer to the request with its sequence number, or describes another context than
    /// the one requested.
    #[error("X4: it is no answer to the request with this sequence number")]
    Mismatch,
    /// X5: the session or bearer is not in a state to take it.
    #[error("X5: the session or bearer is not in a state to take it")]
    ContextNotActive,
    /// X6: no bearer has its TEID.
    #[error("X6: no bearer has this TEID")]
    UnknownContext,
    /// X7: an End Marker was received on its bearer before.
    #[error("X7: an End Marker was received on this bearer before")]
    AfterEnd,
    /// X8: 4,096 answers are held.
    #[error("X8: 4096 answers are held")]
    HeldFull,
    /// X9: this gateway does not take messages of its type, or it concerns nothing here.
    #[error("X9: this gateway does not take it")]
    Unexpected,
    /// X10: it has an extension header that must be understood and is not.
    #[error("X10: an extension header that must be understood is not known")]
    UnknownExtension,
    /// X11: its source address is not the peer's.
    #[error("X11: the source address is not the peer's")]
    NotPeer,
    /// X12: it is of another version than 2, and is answered with a Version Not Supported Indication (TS 29.274 7.7.2).
    #[error("X12: it is of another version, and the sender is told which one is supported")]
    OtherVersion,
}

/// The outcome of a step of a gateway. Each command and each datagram has exactly one.
#[derive(Clone, Copy, Debug, PartialEq, Eq)]
pub enum Outcome {
    /// A request was sent for a command; the TEID is the gateway's own for the context that it is about, none
    /// for an Echo Request.
    Begun(Option<u32>),
    /// A user packet or an End Marker was sent.
    GoneOut,
    /// The command was refused.
    Refused(Refusal),
    /// A request was answered with this cause value (TS 29.274 8.4).
    Answered(u8),
    /// An Echo Request was answered.
    Echoed,
    /// A request that was answered before was answered with the same octets.
    Repeated,
    /// An accepting response made its context active.
    Opened,
    /// A response removed its context.
    Closed,
    /// A Create Bearer Response gave an EPS bearer identity that cannot be used, or its session is closing: the
    /// bearer is removed.
    Clash,
    /// The peer refused the request with this cause value (TS 29.274 8.4).
    Rejected(u8),
    /// An Echo Response was received.
    Alive,
    /// A user packet was accepted.
    Accepted,
    /// An End Marker was received (TS 29.281 7.3.2).
    Ended,
    /// An Error Indication was received (TS 29.281 7.3.1): the dedicated bearer, or the session of the default
    /// bearer, is removed.
    Broken,
    /// The datagram was dropped.
    Dropped(DropReason),
}
