//! Delete Bearer Response (TS 29.274 7.2.10.2).
//!
//! Written by scripts/messages from specs/DeleteBearerResponse.antt.

ghost use Rattle.std.specs.Prelude.{true};
ghost use Rattle.gtp_v2.specs.DeleteBearerResponse.{delete_bearer_response, delete_bearer_response_fields, removal_response_context_rows, removal_response_context_values};

use crate::body::Body;
use crate::encoded_length::{after_contexts, after_option, after_row};
use crate::fault::{Need, V2Fault};
use crate::grouped_rows::{Context, contexts, contexts_pass, read_contexts};
use crate::header::Header;
use crate::kinds::DELETE_BEARER_RESPONSE;
use crate::list::Listed;
use crate::message::Datagram;
use crate::message_table::HasTable;
use crate::presence::contexts_meet;
use crate::single_rows::{mandatory, optional, read};
use crate::writing::{put_contexts, put_option, put_row};
use gtp_ie::{EbiValue, Indexed, Recovery};
use gtp_values::Cause;
use std::alloc::{AllocError, Global};

/// The answer to a Delete Bearer Request (TS 29.274 7.2.10.2).
#[derive(Debug, Drop, PartialEq, Eq)]
pub struct DeleteBearerResponse {
    /// Whether the request was accepted, and why not.
    pub cause: Cause,
    /// The identity of the session's default bearer, where the session ended.
    pub linked_ebi: Option<EbiValue>,
    /// The bearers that were to end.
    pub contexts: Listed<RemovalResponseContext>,
    /// The sender's restart counter.
    pub recovery: Option<Recovery>,
}

impl HasTable for DeleteBearerResponse {
    const KIND: u8 = DELETE_BEARER_RESPONSE;

    ghost KIND = { delete_bearer_response.kind };

    const HAS_TEID: bool = true;

    ghost HAS_TEID = { true };

    ghost named = { delete_bearer_response.name };

    ghost lines = { delete_bearer_response.lines };

    ghost fields = { delete_bearer_response_fields };

    fn name() -> &'static str {
        "delete-bearer-response"
    }

    #[inline(never)]
    #[tactic(auto, unfolding(crate::specs::reading::Rows::lines_at, crate::specs::reading::Rows::some_groups))]
    fn build(alloc: Global, header: &Header, elements: &Indexed) -> Result<Datagram, V2Fault> {
        let cause = mandatory::<Cause>(elements, 0);
        let accepting = cause.is_accepting();
        let linked_ebi = optional::<EbiValue>(elements, 0);
        let contexts = contexts::<RemovalResponseContext>(alloc, accepting, elements)?;
        let recovery = optional::<Recovery>(elements, 0);
        let body = Body::DeleteBearerResponse(DeleteBearerResponse {
            cause,
            linked_ebi,
            contexts,
            recovery,
        });
        Ok(Datagram::of(header, body))
    }

    #[inline(never)]
    #[tactic(auto, unfolding(crate::specs::reading::Rows::lines_at))]
    fn passes(elements: &Indexed) -> bool {
        let Some(cause) = read::<Cause>(elements, 0) else {
            return false;
        };
        let accepting = cause.is_accepting();
        let _linked_ebi = optional::<EbiValue>(elements, 0);
        contexts_pass::<RemovalResponseContext>(Need::Optional, accepting, elements)
    }

    #[inline(never)]
    #[tactic(auto, unfolding(crate::specs::reading::Rows::lines_at))]
    fn read(alloc: Global, elements: &Indexed) -> Option<Body> {
        let cause = read::<Cause>(elements, 0)?;
        let accepting = cause.is_accepting();
        let linked_ebi = optional::<EbiValue>(elements, 0);
        let contexts = read_contexts::<RemovalResponseContext>(
            alloc,
            Need::Optional,
            accepting,
            elements,
        )?;
        let recovery = optional::<Recovery>(elements, 0);
        Some(Body::DeleteBearerResponse(DeleteBearerResponse {
            cause,
            linked_ebi,
            contexts,
            recovery,
        }))
    }

    #[tactic(auto, using(crate::proofs::Appends::appending))]
    fn write(&self, out: &mut Vec<u8>) -> Result<(), AllocError> {
        put_row(out, 0, &self.cause)?;
        put_option(out, 0, &self.linked_ebi)?;
        put_contexts(out, self.contexts.as_slice())?;
        put_option(out, 0, &self.recovery)?;
        Ok(())
    }

    #[tactic(auto, using(crate::proofs::Measured::measuring))]
    fn room_after(&self, room: usize) -> Option<usize> {
        let room = after_row(room, &self.cause)?;
        let room = after_option(room, &self.linked_ebi)?;
        let room = after_contexts(room, self.contexts.as_slice())?;
        after_option(room, &self.recovery)
    }

    fn meets_marks(&self) -> bool {
        let accepting = self.cause.is_accepting();
        contexts_meet(Need::Optional, accepting, self.contexts.as_slice())
    }
}

/// A bearer in a Delete Bearer Response (TS 29.274 table 7.2.10.2-2).
#[derive(Clone, Copy, Debug, PartialEq, Eq)]
pub struct RemovalResponseContext {
    /// The identity of the bearer.
    pub ebi: EbiValue,
    /// Whether the bearer ended, and why not.
    pub cause: Cause,
}

impl Context for RemovalResponseContext {
    ghost rows = { removal_response_context_rows };

    ghost values = { removal_response_context_values };

    #[inline(always)]
    #[tactic(auto, unfolding(crate::specs::reading::Rows::rows_at))]
    fn build(_accepting: bool, elements: &Indexed) -> RemovalResponseContext {
        let ebi = mandatory::<EbiValue>(elements, 0);
        let cause = mandatory::<Cause>(elements, 0);
        RemovalResponseContext { ebi, cause }
    }

    #[inline(always)]
    #[tactic(auto, unfolding(crate::specs::reading::Rows::rows_at))]
    fn read(_accepting: bool, elements: &Indexed) -> Option<RemovalResponseContext> {
        let ebi = read::<EbiValue>(elements, 0)?;
        let cause = read::<Cause>(elements, 0)?;
        Some(RemovalResponseContext { ebi, cause })
    }

    #[tactic(auto, using(crate::proofs::Appends::appending))]
    fn write(&self, out: &mut Vec<u8>) -> Result<(), AllocError> {
        put_row(out, 0, &self.ebi)?;
        put_row(out, 0, &self.cause)?;
        Ok(())
    }

    #[tactic(auto, using(crate::proofs::Measured::measuring))]
    fn room_after(&self, room: usize) -> Option<usize> {
        let room = after_row(room, &self.ebi)?;
        after_row(room, &self.cause)
    }

    fn meets_marks(&self, _accepting: bool) -> bool {
        true
    }
}
