//! Create Session Response (TS 29.274 7.2.2).
//!
//! Written by scripts/messages from specs/CreateSessionResponse.antt.

ghost use Rattle.std.specs.Prelude.{true};
ghost use Rattle.gtp_v2.specs.CreateSessionResponse.{create_session_response, create_session_response_fields, session_response_context_rows, session_response_context_values};

use crate::body::Body;
use crate::boxed::Boxed;
use crate::encoded_length::{after_contexts, after_option, after_row};
use crate::fault::{Need, V2Fault};
use crate::grouped_rows::{Context, contexts, contexts_pass, read_contexts};
use crate::header::Header;
use crate::kinds::CREATE_SESSION_RESPONSE;
use crate::list::Listed;
use crate::message::Datagram;
use crate::message_table::HasTable;
use crate::presence::contexts_meet;
use crate::single_rows::{mandatory, needed_if, optional, read, read_if};
use crate::writing::{put_contexts, put_option, put_row};
use gtp_ie::{ChargingId, EbiValue, Indexed, Recovery};
use gtp_values::{Ambr, Cause, FTeid, Paa, Qos};
use std::alloc::{AllocError, Global};

/// The answer to a Create Session Request (TS 29.274 7.2.2).
#[derive(Debug, Drop, PartialEq, Eq)]
pub struct CreateSessionResponse {
    /// Whether the request was accepted, and why not.
    pub cause: Cause,
    /// The packet gateway's end for control messages: there where the cause accepts.
    pub control: Option<FTeid>,
    /// The subscriber's address: there where the cause accepts.
    pub paa: Option<Paa>,
    /// The most that the bearers of this access point without guaranteed rates may carry together, in
    /// kilobits a second.
    pub ambr: Option<Ambr>,
    /// The bearers that were asked for.
    pub contexts: Listed<SessionResponseContext>,
    /// The sender's restart counter.
    pub recovery: Option<Recovery>,
}

impl HasTable for CreateSessionResponse {
    const KIND: u8 = CREATE_SESSION_RESPONSE;

    ghost KIND = { create_session_response.kind };

    const HAS_TEID: bool = true;

    ghost HAS_TEID = { true };

    ghost named = { create_session_response.name };

    ghost lines = { create_session_response.lines };

    ghost fields = { create_session_response_fields };

    fn name() -> &'static str {
        "create-session-response"
    }

    #[inline(never)]
    #[tactic(auto, unfolding(crate::specs::reading::Rows::lines_at, crate::specs::reading::Rows::some_groups))]
    fn build(alloc: Global, header: &Header, elements: &Indexed) -> Result<Datagram, V2Fault> {
        let cause = mandatory::<Cause>(elements, 0);
        let accepting = cause.is_accepting();
        let control = needed_if::<FTeid>(accepting, elements, 1);
        let paa = needed_if::<Paa>(accepting, elements, 0);
        let ambr = optional::<Ambr>(elements, 0);
        let contexts = contexts::<SessionResponseContext>(alloc, accepting, elements)?;
        let recovery = optional::<Recovery>(elements, 0);
        let body = Body::CreateSessionResponse(Boxed::new(
            alloc,
            CreateSessionResponse {
                cause,
                control,
                paa,
                ambr,
                contexts,
                recovery,
            },
        )?);
        Ok(Datagram::of(header, body))
    }

    #[inline(never)]
    #[tactic(auto, unfolding(crate::specs::reading::Rows::lines_at))]
    fn passes(elements: &Indexed) -> bool {
        let Some(cause) = read::<Cause>(elements, 0) else {
            return false;
        };
        let accepting = cause.is_accepting();
        let Some(_) = read_if::<FTeid>(accepting, elements, 1) else {
            return false;
        };
        let Some(_) = read_if::<Paa>(accepting, elements, 0) else {
            return false;
        };
        let _ambr = optional::<Ambr>(elements, 0);
        let need = Need::where_accepting(accepting);
        contexts_pass::<SessionResponseContext>(need, accepting, elements)
    }

    #[inline(never)]
    #[tactic(auto, unfolding(crate::specs::reading::Rows::lines_at))]
    fn read(alloc: Global, elements: &Indexed) -> Option<Body> {
        let cause = read::<Cause>(elements, 0)?;
        let accepting = cause.is_accepting();
        let Some(_) = read_if::<FTeid>(accepting, elements, 1) else {
            return None;
        };
        let control = needed_if::<FTeid>(accepting, elements, 1);
        let Some(_) = read_if::<Paa>(accepting, elements, 0) else {
            return None;
        };
        let paa = needed_if::<Paa>(accepting, elements, 0);
        let ambr = optional::<Ambr>(elements, 0);
        let need = Need::where_accepting(accepting);
        let contexts = read_contexts::<SessionResponseContext>(alloc, need, accepting, elements)?;
        let recovery = optional::<Recovery>(elements, 0);
        Some(Body::CreateSessionResponse(Boxed::new(
            alloc,
            CreateSessionResponse {
                cause,
                control,
                paa,
                ambr,
                contexts,
                recovery,
            },
        )
        .ok()?))
    }

    #[tactic(auto, using(crate::proofs::Appends::appending))]
    fn write(&self, out: &mut Vec<u8>) -> Result<(), AllocError> {
        put_row(out, 0, &self.cause)?;
        put_option(out, 1, &self.control)?;
        put_option(out, 0, &self.paa)?;
        put_option(out, 0, &self.ambr)?;
        put_contexts(out, self.contexts.as_slice())?;
        put_option(out, 0, &self.recovery)?;
        Ok(())
    }

    #[tactic(auto, using(crate::proofs::Measured::measuring))]
    fn room_after(&self, room: usize) -> Option<usize> {
        let room = after_row(room, &self.cause)?;
        let room = after_option(room, &self.control)?;
        let room = after_option(room, &self.paa)?;
        let room = after_option(room, &self.ambr)?;
        let room = after_contexts(room, self.contexts.as_slice())?;
        after_option(room, &self.recovery)
    }

    fn meets_marks(&self) -> bool {
        let accepting = self.cause.is_accepting();
        let need = Need::where_accepting(accepting);
        (!accepting || (self.control.is_some() && self.paa.is_some()))
            && contexts_meet(need, accepting, self.contexts.as_slice())
    }
}

/// A bearer in a Create Session Response (TS 29.274 table 7.2.2-2).
#[derive(Clone, Copy, Debug, PartialEq, Eq)]
pub struct SessionResponseContext {
    /// The identity of the bearer.
    pub ebi: EbiValue,
    /// Whether the bearer was accepted, and why not.
    pub cause: Cause,
    /// The packet gateway's end for user packets: there where both causes accept.
    pub user: Option<FTeid>,
    /// What the bearer is to carry, and how: there where it was changed.
    pub qos: Option<Qos>,
    /// The number under which the bearer is charged.
    pub charging_id: Option<ChargingId>,
}

impl Context for SessionResponseContext {
    ghost rows = { session_response_context_rows };

    ghost values = { session_response_context_values };

    #[inline(always)]
    #[tactic(auto, unfolding(crate::specs::reading::Rows::rows_at))]
    fn build(accepting: bool, elements: &Indexed) -> SessionResponseContext {
        let ebi = mandatory::<EbiValue>(elements, 0);
        let cause = mandatory::<Cause>(elements, 0);
        let accepting = accepting && cause.is_accepting();
        let user = needed_if::<FTeid>(accepting, elements, 2);
        let qos = optional::<Qos>(elements, 0);
        let charging_id = optional::<ChargingId>(elements, 0);
        SessionResponseContext {
            ebi,
            cause,
            user,
            qos,
            charging_id,
        }
    }

    #[inline(always)]
    #[tactic(auto, unfolding(crate::specs::reading::Rows::rows_at))]
    fn read(accepting: bool, elements: &Indexed) -> Option<SessionResponseContext> {
        let ebi = read::<EbiValue>(elements, 0)?;
        let cause = read::<Cause>(elements, 0)?;
        let accepting = accepting && cause.is_accepting();
        let user = read_if::<FTeid>(accepting, elements, 2)?;
        let qos = optional::<Qos>(elements, 0);
        let charging_id = optional::<ChargingId>(elements, 0);
        Some(SessionResponseContext {
            ebi,
            cause,
            user,
            qos,
            charging_id,
        })
    }

    #[tactic(auto, using(crate::proofs::Appends::appending))]
    fn write(&self, out: &mut Vec<u8>) -> Result<(), AllocError> {
        put_row(out, 0, &self.ebi)?;
        put_row(out, 0, &self.cause)?;
        put_option(out, 2, &self.user)?;
        put_option(out, 0, &self.qos)?;
        put_option(out, 0, &self.charging_id)?;
        Ok(())
    }

    #[tactic(auto, using(crate::proofs::Measured::measuring))]
    fn room_after(&self, room: usize) -> Option<usize> {
        let room = after_row(room, &self.ebi)?;
        let room = after_row(room, &self.cause)?;
        let room = after_option(room, &self.user)?;
        let room = after_option(room, &self.qos)?;
        after_option(room, &self.charging_id)
    }

    fn meets_marks(&self, accepting: bool) -> bool {
        !(accepting && self.cause.is_accepting()) || self.user.is_some()
    }
}
