//! Create Bearer Response (TS 29.274 7.2.4).
//!
//! Written by scripts/messages from specs/CreateBearerResponse.antt.

ghost use Rattle.std.specs.Prelude.{true};
ghost use Rattle.gtp_v2.specs.CreateBearerResponse.{create_bearer_response, create_bearer_response_fields, bearer_response_context_rows, bearer_response_context_values};

use crate::body::Body;
use crate::encoded_length::{after_contexts, after_option, after_row};
use crate::fault::{Need, V2Fault};
use crate::grouped_rows::{Context, contexts, contexts_pass, read_contexts};
use crate::header::Header;
use crate::kinds::CREATE_BEARER_RESPONSE;
use crate::list::Listed;
use crate::message::Datagram;
use crate::message_table::HasTable;
use crate::presence::contexts_meet;
use crate::single_rows::{mandatory, needed_if, optional, read, read_if};
use crate::writing::{put_contexts, put_option, put_row};
use gtp_ie::{EbiValue, Indexed, Recovery};
use gtp_values::{Cause, FTeid};
use std::alloc::{AllocError, Global};

/// The answer to a Create Bearer Request (TS 29.274 7.2.4).
#[derive(Debug, Drop, PartialEq, Eq)]
pub struct CreateBearerResponse {
    /// Whether the request was accepted, and why not.
    pub cause: Cause,
    /// The bearers that were asked for.
    pub contexts: Listed<BearerResponseContext>,
    /// The sender's restart counter.
    pub recovery: Option<Recovery>,
}

impl HasTable for CreateBearerResponse {
    const KIND: u8 = CREATE_BEARER_RESPONSE;

    ghost KIND = { create_bearer_response.kind };

    const HAS_TEID: bool = true;

    ghost HAS_TEID = { true };

    ghost named = { create_bearer_response.name };

    ghost lines = { create_bearer_response.lines };

    ghost fields = { create_bearer_response_fields };

    fn name() -> &'static str {
        "create-bearer-response"
    }

    #[inline(never)]
    #[tactic(auto, unfolding(crate::specs::reading::Rows::lines_at, crate::specs::reading::Rows::some_groups))]
    fn build(alloc: Global, header: &Header, elements: &Indexed) -> Result<Datagram, V2Fault> {
        let cause = mandatory::<Cause>(elements, 0);
        let accepting = cause.is_accepting();
        let contexts = contexts::<BearerResponseContext>(alloc, accepting, elements)?;
        let recovery = optional::<Recovery>(elements, 0);
        let body = Body::CreateBearerResponse(CreateBearerResponse {
            cause,
            contexts,
            recovery,
        });
        Ok(Datagram::of(header, body))
    }

    #[inline(never)]
    #[tactic(auto, unfolding(crate::specs::reading::Rows::lines_at))]
    fn passes(elements: &Indexed) -> bool {
        let Some(cause) = read::<Cause>(elements, 0) else {
            return false;
        };
        let accepting = cause.is_accepting();
        let need = Need::where_accepting(accepting);
        contexts_pass::<BearerResponseContext>(need, accepting, elements)
    }

    #[inline(never)]
    #[tactic(auto, unfolding(crate::specs::reading::Rows::lines_at))]
    fn read(alloc: Global, elements: &Indexed) -> Option<Body> {
        let cause = read::<Cause>(elements, 0)?;
        let accepting = cause.is_accepting();
        let need = Need::where_accepting(accepting);
        let contexts = read_contexts::<BearerResponseContext>(alloc, need, accepting, elements)?;
        let recovery = optional::<Recovery>(elements, 0);
        Some(Body::CreateBearerResponse(CreateBearerResponse {
            cause,
            contexts,
            recovery,
        }))
    }

    #[tactic(auto, using(crate::proofs::Appends::appending))]
    fn write(&self, out: &mut Vec<u8>) -> Result<(), AllocError> {
        put_row(out, 0, &self.cause)?;
        put_contexts(out, self.contexts.as_slice())?;
        put_option(out, 0, &self.recovery)?;
        Ok(())
    }

    #[tactic(auto, using(crate::proofs::Measured::measuring))]
    fn room_after(&self, room: usize) -> Option<usize> {
        let room = after_row(room, &self.cause)?;
        let room = after_contexts(room, self.contexts.as_slice())?;
        after_option(room, &self.recovery)
    }

    fn meets_marks(&self) -> bool {
        let accepting = self.cause.is_accepting();
        let need = Need::where_accepting(accepting);
        contexts_meet(need, accepting, self.contexts.as_slice())
    }
}

/// A bearer in a Create Bearer Response (TS 29.274 table 7.2.4-2). Its ends are there where both
/// causes accept.
#[derive(Clone, Copy, Debug, PartialEq, Eq)]
pub struct BearerResponseContext {
    /// The identity that the bearer was given.
    pub ebi: EbiValue,
    /// Whether the bearer was accepted, and why not.
    pub cause: Cause,
    /// The serving gateway's end for user packets.
    pub serving_user: Option<FTeid>,
    /// The end that the request gave, as it came.
    pub packet_user: Option<FTeid>,
}

impl Context for BearerResponseContext {
    ghost rows = { bearer_response_context_rows };

    ghost values = { bearer_response_context_values };

    #[inline(always)]
    #[tactic(auto, unfolding(crate::specs::reading::Rows::rows_at))]
    fn build(accepting: bool, elements: &Indexed) -> BearerResponseContext {
        let ebi = mandatory::<EbiValue>(elements, 0);
        let cause = mandatory::<Cause>(elements, 0);
        let accepting = accepting && cause.is_accepting();
        let serving_user = needed_if::<FTeid>(accepting, elements, 2);
        let packet_user = needed_if::<FTeid>(accepting, elements, 3);
        BearerResponseContext {
            ebi,
            cause,
            serving_user,
            packet_user,
        }
    }

    #[inline(always)]
    #[tactic(auto, unfolding(crate::specs::reading::Rows::rows_at))]
    fn read(accepting: bool, elements: &Indexed) -> Option<BearerResponseContext> {
        let ebi = read::<EbiValue>(elements, 0)?;
        let cause = read::<Cause>(elements, 0)?;
        let accepting = accepting && cause.is_accepting();
        let serving_user = read_if::<FTeid>(accepting, elements, 2)?;
        let packet_user = read_if::<FTeid>(accepting, elements, 3)?;
        Some(BearerResponseContext {
            ebi,
            cause,
            serving_user,
            packet_user,
        })
    }

    #[tactic(auto, using(crate::proofs::Appends::appending))]
    fn write(&self, out: &mut Vec<u8>) -> Result<(), AllocError> {
        put_row(out, 0, &self.ebi)?;
        put_row(out, 0, &self.cause)?;
        put_option(out, 2, &self.serving_user)?;
        put_option(out, 3, &self.packet_user)?;
        Ok(())
    }

    #[tactic(auto, using(crate::proofs::Measured::measuring))]
    fn room_after(&self, room: usize) -> Option<usize> {
        let room = after_row(room, &self.ebi)?;
        let room = after_row(room, &self.cause)?;
        let room = after_option(room, &self.serving_user)?;
        after_option(room, &self.packet_user)
    }

    fn meets_marks(&self, accepting: bool) -> bool {
        !(accepting && self.cause.is_accepting())
            || (self.serving_user.is_some() && self.packet_user.is_some())
    }
}
