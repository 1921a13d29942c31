//! Create Bearer Request (TS 29.274 7.2.3).
//!
//! Written by scripts/messages from specs/CreateBearerRequest.antt.

ghost use Rattle.std.specs.Prelude.{true};
ghost use Rattle.gtp_v2.specs.CreateBearerRequest.{create_bearer_request, create_bearer_request_fields, bearer_request_context_rows, bearer_request_context_values};

use crate::body::Body;
use crate::encoded_length::{after_contexts, after_option, after_row};
use crate::fault::{Need, V2Fault};
use crate::grouped_rows::{Context, contexts, contexts_pass, read_contexts};
use crate::header::Header;
use crate::kinds::CREATE_BEARER_REQUEST;
use crate::list::Listed;
use crate::message::Datagram;
use crate::message_table::HasTable;
use crate::presence::contexts_meet;
use crate::single_rows::{conditional, mandatory, optional, read, read_conditional};
use crate::writing::{put_contexts, put_option, put_row};
use gtp_ie::{ChargingId, EbiValue, Indexed, Pti};
use gtp_values::{FTeid, Qos, Tft};
use std::alloc::{AllocError, Global};

/// A request for dedicated bearers (TS 29.274 7.2.3).
#[derive(Debug, Drop, PartialEq, Eq)]
pub struct CreateBearerRequest {
    /// The procedure that the subscriber began, where one did.
    pub pti: Option<Pti>,
    /// The identity of the session's default bearer.
    pub linked_ebi: EbiValue,
    /// The bearers that are asked for.
    pub contexts: Listed<BearerRequestContext>,
}

impl HasTable for CreateBearerRequest {
    const KIND: u8 = CREATE_BEARER_REQUEST;

    ghost KIND = { create_bearer_request.kind };

    const HAS_TEID: bool = true;

    ghost HAS_TEID = { true };

    ghost named = { create_bearer_request.name };

    ghost lines = { create_bearer_request.lines };

    ghost fields = { create_bearer_request_fields };

    fn name() -> &'static str {
        "create-bearer-request"
    }

    #[inline(never)]
    #[tactic(auto, unfolding(crate::specs::reading::Rows::lines_at, crate::specs::reading::Rows::some_groups))]
    fn build(alloc: Global, header: &Header, elements: &Indexed) -> Result<Datagram, V2Fault> {
        let pti = optional::<Pti>(elements, 0);
        let linked_ebi = mandatory::<EbiValue>(elements, 0);
        let contexts = contexts::<BearerRequestContext>(alloc, true, elements)?;
        let body = Body::CreateBearerRequest(CreateBearerRequest {
            pti,
            linked_ebi,
            contexts,
        });
        Ok(Datagram::of(header, body))
    }

    #[inline(never)]
    #[tactic(auto, unfolding(crate::specs::reading::Rows::lines_at))]
    fn passes(elements: &Indexed) -> bool {
        let _pti = optional::<Pti>(elements, 0);
        let Some(_) = read::<EbiValue>(elements, 0) else {
            return false;
        };
        contexts_pass::<BearerRequestContext>(Need::Mandatory, true, elements)
    }

    #[inline(never)]
    #[tactic(auto, unfolding(crate::specs::reading::Rows::lines_at))]
    fn read(alloc: Global, elements: &Indexed) -> Option<Body> {
        let pti = optional::<Pti>(elements, 0);
        let linked_ebi = read::<EbiValue>(elements, 0)?;
        let contexts = read_contexts::<BearerRequestContext>(
            alloc,
            Need::Mandatory,
            true,
            elements,
        )?;
        Some(Body::CreateBearerRequest(CreateBearerRequest {
            pti,
            linked_ebi,
            contexts,
        }))
    }

    #[tactic(auto, using(crate::proofs::Appends::appending))]
    fn write(&self, out: &mut Vec<u8>) -> Result<(), AllocError> {
        put_option(out, 0, &self.pti)?;
        put_row(out, 0, &self.linked_ebi)?;
        put_contexts(out, self.contexts.as_slice())?;
        Ok(())
    }

    #[tactic(auto, using(crate::proofs::Measured::measuring))]
    fn room_after(&self, room: usize) -> Option<usize> {
        let room = after_option(room, &self.pti)?;
        let room = after_row(room, &self.linked_ebi)?;
        after_contexts(room, self.contexts.as_slice())
    }

    fn meets_marks(&self) -> bool {
        contexts_meet(Need::Mandatory, true, self.contexts.as_slice())
    }
}

/// A bearer that a Create Bearer Request asks for (TS 29.274 table 7.2.3-2).
#[derive(Clone, Copy, Debug, PartialEq, Eq)]
pub struct BearerRequestContext {
    /// 0: the answer gives the identity.
    pub ebi: EbiValue,
    /// Which packets go on the bearer.
    pub tft: Tft,
    /// The packet gateway's end for user packets.
    pub user: FTeid,
    /// What the bearer is to carry, and how.
    pub qos: Qos,
    /// The number under which the bearer is charged.
    pub charging_id: Option<ChargingId>,
}

impl Context for BearerRequestContext {
    ghost rows = { bearer_request_context_rows };

    ghost values = { bearer_request_context_values };

    #[inline(always)]
    #[tactic(auto, unfolding(crate::specs::reading::Rows::rows_at))]
    fn build(_accepting: bool, elements: &Indexed) -> BearerRequestContext {
        let ebi = mandatory::<EbiValue>(elements, 0);
        let tft = mandatory::<Tft>(elements, 0);
        let user = conditional::<FTeid>(elements, 1);
        let qos = mandatory::<Qos>(elements, 0);
        let charging_id = optional::<ChargingId>(elements, 0);
        BearerRequestContext {
            ebi,
            tft,
            user,
            qos,
            charging_id,
        }
    }

    #[inline(always)]
    #[tactic(auto, unfolding(crate::specs::reading::Rows::rows_at))]
    fn read(_accepting: bool, elements: &Indexed) -> Option<BearerRequestContext> {
        let ebi = read::<EbiValue>(elements, 0)?;
        let tft = read::<Tft>(elements, 0)?;
        let user = read_conditional::<FTeid>(elements, 1)?;
        let qos = read::<Qos>(elements, 0)?;
        let charging_id = optional::<ChargingId>(elements, 0);
        Some(BearerRequestContext {
            ebi,
            tft,
            user,
            qos,
            charging_id,
        })
    }

    #[tactic(auto, using(crate::proofs::Appends::appending))]
    fn write(&self, out: &mut Vec<u8>) -> Result<(), AllocError> {
        put_row(out, 0, &self.ebi)?;
        put_row(out, 0, &self.tft)?;
        put_row(out, 1, &self.user)?;
        put_row(out, 0, &self.qos)?;
        put_option(out, 0, &self.charging_id)?;
        Ok(())
    }

    #[tactic(auto, using(crate::proofs::Measured::measuring))]
    fn room_after(&self, room: usize) -> Option<usize> {
        let room = after_row(room, &self.ebi)?;
        let room = after_row(room, &self.tft)?;
        let room = after_row(room, &self.user)?;
        let room = after_row(room, &self.qos)?;
        after_option(room, &self.charging_id)
    }

    fn meets_marks(&self, _accepting: bool) -> bool {
        true
    }
}
