//! Delete Session Request (TS 29.274 7.2.9.1).
//!
//! Written by scripts/messages from specs/DeleteSessionRequest.antt.

ghost use Rattle.std.specs.Prelude.{true};
ghost use Rattle.gtp_v2.specs.DeleteSessionRequest.{delete_session_request, delete_session_request_fields};

use crate::body::Body;
use crate::encoded_length::after_option;
use crate::fault::V2Fault;
use crate::header::Header;
use crate::kinds::DELETE_SESSION_REQUEST;
use crate::message::Datagram;
use crate::message_table::HasTable;
use crate::single_rows::optional;
use crate::writing::put_option;
use gtp_ie::{EbiValue, Indexed};
use std::alloc::{AllocError, Global};

/// A request to end a session (TS 29.274 7.2.9.1).
#[derive(Clone, Copy, Debug, PartialEq, Eq)]
pub struct DeleteSessionRequest {
    /// The identity of the session's default bearer.
    pub linked_ebi: Option<EbiValue>,
}

impl HasTable for DeleteSessionRequest {
    const KIND: u8 = DELETE_SESSION_REQUEST;

    ghost KIND = { delete_session_request.kind };

    const HAS_TEID: bool = true;

    ghost HAS_TEID = { true };

    ghost named = { delete_session_request.name };

    ghost lines = { delete_session_request.lines };

    ghost fields = { delete_session_request_fields };

    fn name() -> &'static str {
        "delete-session-request"
    }

    #[inline(never)]
    #[tactic(auto, unfolding(crate::specs::reading::Rows::lines_at))]
    fn build(_alloc: Global, header: &Header, elements: &Indexed) -> Result<Datagram, V2Fault> {
        let linked_ebi = optional::<EbiValue>(elements, 0);
        let body = Body::DeleteSessionRequest(DeleteSessionRequest { linked_ebi });
        Ok(Datagram::of(header, body))
    }

    #[inline(never)]
    #[tactic(auto, unfolding(crate::specs::reading::Rows::lines_at))]
    fn passes(_elements: &Indexed) -> bool {
        true
    }

    #[inline(never)]
    #[tactic(auto, unfolding(crate::specs::reading::Rows::lines_at))]
    fn read(_alloc: Global, elements: &Indexed) -> Option<Body> {
        let linked_ebi = optional::<EbiValue>(elements, 0);
        Some(Body::DeleteSessionRequest(DeleteSessionRequest { linked_ebi }))
    }

    #[tactic(auto, using(crate::proofs::Appends::appending))]
    fn write(&self, out: &mut Vec<u8>) -> Result<(), AllocError> {
        put_option(out, 0, &self.linked_ebi)?;
        Ok(())
    }

    #[tactic(auto, using(crate::proofs::Measured::measuring))]
    fn room_after(&self, room: usize) -> Option<usize> {
        after_option(room, &self.linked_ebi)
    }

    fn meets_marks(&self) -> bool {
        true
    }
}
