//! Delete Session Response (TS 29.274 7.2.10.1).
//!
//! Written by scripts/messages from specs/DeleteSessionResponse.antt.

ghost use Rattle.std.specs.Prelude.{true};
ghost use Rattle.gtp_v2.specs.DeleteSessionResponse.{delete_session_response, delete_session_response_fields};

use crate::body::Body;
use crate::encoded_length::{after_option, after_row};
use crate::fault::V2Fault;
use crate::header::Header;
use crate::kinds::DELETE_SESSION_RESPONSE;
use crate::message::Datagram;
use crate::message_table::HasTable;
use crate::single_rows::{mandatory, optional, read};
use crate::writing::{put_option, put_row};
use gtp_ie::{Indexed, Recovery};
use gtp_values::Cause;
use std::alloc::{AllocError, Global};

/// The answer to a Delete Session Request (TS 29.274 7.2.10.1).
#[derive(Clone, Copy, Debug, PartialEq, Eq)]
pub struct DeleteSessionResponse {
    /// Whether the session ended, and why not.
    pub cause: Cause,
    /// The sender's restart counter.
    pub recovery: Option<Recovery>,
}

impl HasTable for DeleteSessionResponse {
    const KIND: u8 = DELETE_SESSION_RESPONSE;

    ghost KIND = { delete_session_response.kind };

    const HAS_TEID: bool = true;

    ghost HAS_TEID = { true };

    ghost named = { delete_session_response.name };

    ghost lines = { delete_session_response.lines };

    ghost fields = { delete_session_response_fields };

    fn name() -> &'static str {
        "delete-session-response"
    }

    #[inline(never)]
    #[tactic(auto, unfolding(crate::specs::reading::Rows::lines_at))]
    fn build(_alloc: Global, header: &Header, elements: &Indexed) -> Result<Datagram, V2Fault> {
        let cause = mandatory::<Cause>(elements, 0);
        let recovery = optional::<Recovery>(elements, 0);
        let body = Body::DeleteSessionResponse(DeleteSessionResponse { cause, recovery });
        Ok(Datagram::of(header, body))
    }

    #[inline(never)]
    #[tactic(auto, unfolding(crate::specs::reading::Rows::lines_at))]
    fn passes(elements: &Indexed) -> bool {
        let Some(_) = read::<Cause>(elements, 0) else {
            return false;
        };
        true
    }

    #[inline(never)]
    #[tactic(auto, unfolding(crate::specs::reading::Rows::lines_at))]
    fn read(_alloc: Global, elements: &Indexed) -> Option<Body> {
        let cause = read::<Cause>(elements, 0)?;
        let recovery = optional::<Recovery>(elements, 0);
        Some(Body::DeleteSessionResponse(DeleteSessionResponse { cause, recovery }))
    }

    #[tactic(auto, using(crate::proofs::Appends::appending))]
    fn write(&self, out: &mut Vec<u8>) -> Result<(), AllocError> {
        put_row(out, 0, &self.cause)?;
        put_option(out, 0, &self.recovery)?;
        Ok(())
    }

    #[tactic(auto, using(crate::proofs::Measured::measuring))]
    fn room_after(&self, room: usize) -> Option<usize> {
        let room = after_row(room, &self.cause)?;
        after_option(room, &self.recovery)
    }

    fn meets_marks(&self) -> bool {
        true
    }
}
