//! Echo Response (TS 29.274 7.1.2).
//!
//! Written by scripts/messages from specs/EchoResponse.antt.

ghost use Rattle.std.specs.Prelude.{false};
ghost use Rattle.gtp_v2.specs.EchoResponse.{echo_response, echo_response_fields};

use crate::body::Body;
use crate::encoded_length::after_row;
use crate::fault::V2Fault;
use crate::header::Header;
use crate::kinds::ECHO_RESPONSE;
use crate::message::Datagram;
use crate::message_table::HasTable;
use crate::single_rows::{mandatory, read};
use crate::writing::put_row;
use gtp_ie::{Indexed, Recovery};
use std::alloc::{AllocError, Global};

/// The answer that the peer is alive (TS 29.274 7.1.2).
#[derive(Clone, Copy, Debug, PartialEq, Eq)]
pub struct EchoResponse {
    /// The sender's restart counter.
    pub recovery: Recovery,
}

impl HasTable for EchoResponse {
    const KIND: u8 = ECHO_RESPONSE;

    ghost KIND = { echo_response.kind };

    const HAS_TEID: bool = false;

    ghost HAS_TEID = { false };

    ghost named = { echo_response.name };

    ghost lines = { echo_response.lines };

    ghost fields = { echo_response_fields };

    fn name() -> &'static str {
        "echo-response"
    }

    #[inline(never)]
    #[tactic(auto, unfolding(crate::specs::reading::Rows::lines_at))]
    fn build(_alloc: Global, header: &Header, elements: &Indexed) -> Result<Datagram, V2Fault> {
        let recovery = mandatory::<Recovery>(elements, 0);
        let body = Body::EchoResponse(EchoResponse { recovery });
        Ok(Datagram::of(header, body))
    }

    #[inline(never)]
    #[tactic(auto, unfolding(crate::specs::reading::Rows::lines_at))]
    fn passes(elements: &Indexed) -> bool {
        let Some(_) = read::<Recovery>(elements, 0) else {
            return false;
        };
        true
    }

    #[inline(never)]
    #[tactic(auto, unfolding(crate::specs::reading::Rows::lines_at))]
    fn read(_alloc: Global, elements: &Indexed) -> Option<Body> {
        let recovery = read::<Recovery>(elements, 0)?;
        Some(Body::EchoResponse(EchoResponse { recovery }))
    }

    #[tactic(auto, using(crate::proofs::Appends::appending))]
    fn write(&self, out: &mut Vec<u8>) -> Result<(), AllocError> {
        put_row(out, 0, &self.recovery)?;
        Ok(())
    }

    #[tactic(auto, using(crate::proofs::Measured::measuring))]
    fn room_after(&self, room: usize) -> Option<usize> {
        after_row(room, &self.recovery)
    }

    fn meets_marks(&self) -> bool {
        true
    }
}
