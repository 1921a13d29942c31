//! The request that a command sends.

use crate::command::purpose::Purpose;
use crate::tables::change::Change;
use gtp_v2::Message;
use gtp_values::Teid;

/// A request to be sent to the peer.
#[derive(Drop)]
pub struct RequestToSend {
    /// What it is about, while it waits.
    pub purpose: Purpose,
    /// What changes when it is sent.
    pub change: Change,
    /// The session or bearer that the caller is told.
    pub teid: Option<Teid>,
    pub message: Message,
}
