//! The log of a world.

use crate::event::EventOutcome;
use gtp_gateway::{Apn, Counter, Ebi, Outcome, Request, Role, Sent, Seq, Teid};
use gtp_values::Imsi;

/// A datagram that was sent, and which gateway sent it.
#[derive(Debug, Drop)]
pub struct Datagram {
    pub node: Role,
    pub sent: Sent,
}

/// A user packet that was handed in or accepted, at which gateway, and the context that it is for.
#[derive(Debug, Drop, PartialEq, Eq)]
#[derive_where(Hash)]
pub struct Entry {
    #[derive_where(skip(Hash))]
    pub node: Role,
    /// The TEID that the packet names.
    pub teid: Teid,
    pub payload: Vec<u8>,
    /// The subscriber of the bearer's session.
    #[derive_where(skip(Hash))]
    pub imsi: Imsi,
    /// The access point of the bearer's session.
    #[derive_where(skip(Hash))]
    pub apn: Apn,
    /// The identity of the bearer, if it has one.
    #[derive_where(skip(Hash))]
    pub ebi: Option<Ebi>,
}

/// The record of one event.
#[derive(Debug, Drop)]
pub struct Note {
    pub outcome: EventOutcome,
    /// The outcome of the second message, where a gateway took two messages of one datagram, one after the
    /// other (TS 29.274 5.5.1); `outcome` is then that of the first.
    pub second: Option<Outcome>,
    /// The restart counter of the peer, if a later one was received.
    pub restart: Option<Counter>,
    /// The number of datagrams that were sent.
    pub sent: usize,
    /// The sequence numbers of the requests that were given up.
    pub gave_up: Vec<Seq>,
    /// The requests whose answers are no longer held.
    pub forgotten: Vec<Request>,
    /// Whether a request was delivered whose answer its receiver had forgotten.
    pub(crate) late: bool,
}
