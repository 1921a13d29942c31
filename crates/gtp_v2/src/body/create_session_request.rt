//! Create Session Request (TS 29.274 7.2.1).
//!
//! Written by scripts/messages from specs/CreateSessionRequest.antt.

ghost use Rattle.std.specs.Prelude.{true};
ghost use Rattle.gtp_v2.specs.CreateSessionRequest.{create_session_request, create_session_request_fields, session_request_context_rows, session_request_context_values};

use crate::body::Body;
use crate::boxed::Boxed;
use crate::encoded_length::{after_contexts, after_option, after_row};
use crate::fault::{Need, V2Fault};
use crate::grouped_rows::{Context, contexts, contexts_pass, read_contexts};
use crate::header::Header;
use crate::kinds::CREATE_SESSION_REQUEST;
use crate::list::Listed;
use crate::message::Datagram;
use crate::message_table::HasTable;
use crate::presence::contexts_meet;
use crate::single_rows::{conditional, mandatory, optional, read, read_conditional};
use crate::writing::{put_contexts, put_option, put_row};
use gtp_ie::{EbiValue, Indexed, PdnType, Rat, Recovery, Selection};
use gtp_values::{Ambr, Apn, FTeid, Imsi, Paa, Plmn, Qos};
use std::alloc::{AllocError, Global};

/// A request for a session with its default bearer (TS 29.274 7.2.1).
#[derive(Debug, Drop, PartialEq, Eq)]
pub struct CreateSessionRequest {
    /// The subscriber.
    pub imsi: Imsi,
    /// The radio access technology.
    pub rat: Rat,
    /// The network in which the subscriber is.
    pub serving_network: Option<Plmn>,
    /// The serving gateway's end for control messages.
    pub control: FTeid,
    /// The access point that is asked for.
    pub apn: Apn,
    /// How the access point was selected.
    pub selection: Option<Selection>,
    /// The kind of address that is asked for.
    pub pdn_type: PdnType,
    /// An address that is asked for.
    pub paa: Option<Paa>,
    /// The most that the bearers of this access point without guaranteed rates may carry together, in
    /// kilobits a second.
    pub ambr: Option<Ambr>,
    /// The bearers that are asked for: the default one, and at this interface no other.
    pub contexts: Listed<SessionRequestContext>,
    /// The sender's restart counter.
    pub recovery: Option<Recovery>,
}

impl HasTable for CreateSessionRequest {
    const KIND: u8 = CREATE_SESSION_REQUEST;

    ghost KIND = { create_session_request.kind };

    const HAS_TEID: bool = true;

    ghost HAS_TEID = { true };

    ghost named = { create_session_request.name };

    ghost lines = { create_session_request.lines };

    ghost fields = { create_session_request_fields };

    fn name() -> &'static str {
        "create-session-request"
    }

    #[inline(never)]
    #[tactic(auto, unfolding(crate::specs::reading::Rows::lines_at, crate::specs::reading::Rows::some_groups))]
    fn build(alloc: Global, header: &Header, elements: &Indexed) -> Result<Datagram, V2Fault> {
        let imsi = conditional::<Imsi>(elements, 0);
        let rat = mandatory::<Rat>(elements, 0);
        let serving_network = optional::<Plmn>(elements, 0);
        let control = mandatory::<FTeid>(elements, 0);
        let apn = mandatory::<Apn>(elements, 0);
        let selection = optional::<Selection>(elements, 0);
        let pdn_type = conditional::<PdnType>(elements, 0);
        let paa = optional::<Paa>(elements, 0);
        let ambr = optional::<Ambr>(elements, 0);
        let contexts = contexts::<SessionRequestContext>(alloc, true, elements)?;
        let recovery = optional::<Recovery>(elements, 0);
        let body = Body::CreateSessionRequest(Boxed::new(
            alloc,
            CreateSessionRequest {
                imsi,
                rat,
                serving_network,
                control,
                apn,
                selection,
                pdn_type,
                paa,
                ambr,
                contexts,
                recovery,
            },
        )?);
        Ok(Datagram::of(header, body))
    }

    #[inline(never)]
    #[tactic(auto, unfolding(crate::specs::reading::Rows::lines_at))]
    fn passes(elements: &Indexed) -> bool {
        let Some(_) = read_conditional::<Imsi>(elements, 0) else {
            return false;
        };
        let Some(_) = read::<Rat>(elements, 0) else {
            return false;
        };
        let _serving_network = optional::<Plmn>(elements, 0);
        let Some(_) = read::<FTeid>(elements, 0) else {
            return false;
        };
        let Some(_) = read::<Apn>(elements, 0) else {
            return false;
        };
        let _selection = optional::<Selection>(elements, 0);
        let Some(_) = read_conditional::<PdnType>(elements, 0) else {
            return false;
        };
        let _paa = optional::<Paa>(elements, 0);
        let _ambr = optional::<Ambr>(elements, 0);
        contexts_pass::<SessionRequestContext>(Need::Mandatory, true, elements)
    }

    #[inline(never)]
    #[tactic(auto, unfolding(crate::specs::reading::Rows::lines_at))]
    fn read(alloc: Global, elements: &Indexed) -> Option<Body> {
        let imsi = read_conditional::<Imsi>(elements, 0)?;
        let rat = read::<Rat>(elements, 0)?;
        let serving_network = optional::<Plmn>(elements, 0);
        let Some(_) = read::<FTeid>(elements, 0) else {
            return None;
        };
        let control = mandatory::<FTeid>(elements, 0);
        let Some(_) = read::<Apn>(elements, 0) else {
            return None;
        };
        let apn = mandatory::<Apn>(elements, 0);
        let selection = optional::<Selection>(elements, 0);
        let pdn_type = read_conditional::<PdnType>(elements, 0)?;
        let paa = optional::<Paa>(elements, 0);
        let ambr = optional::<Ambr>(elements, 0);
        let contexts = read_contexts::<SessionRequestContext>(
            alloc,
            Need::Mandatory,
            true,
            elements,
        )?;
        let recovery = optional::<Recovery>(elements, 0);
        Some(Body::CreateSessionRequest(Boxed::new(
            alloc,
            CreateSessionRequest {
                imsi,
                rat,
                serving_network,
                control,
                apn,
                selection,
                pdn_type,
                paa,
                ambr,
                contexts,
                recovery,
            },
        )
        .ok()?))
    }

    #[tactic(auto, using(crate::proofs::Appends::appending))]
    fn write(&self, out: &mut Vec<u8>) -> Result<(), AllocError> {
        put_row(out, 0, &self.imsi)?;
        put_row(out, 0, &self.rat)?;
        put_option(out, 0, &self.serving_network)?;
        put_row(out, 0, &self.control)?;
        put_row(out, 0, &self.apn)?;
        put_option(out, 0, &self.selection)?;
        put_row(out, 0, &self.pdn_type)?;
        put_option(out, 0, &self.paa)?;
        put_option(out, 0, &self.ambr)?;
        put_contexts(out, self.contexts.as_slice())?;
        put_option(out, 0, &self.recovery)?;
        Ok(())
    }

    #[tactic(auto, using(crate::proofs::Measured::measuring))]
    fn room_after(&self, room: usize) -> Option<usize> {
        let room = after_row(room, &self.imsi)?;
        let room = after_row(room, &self.rat)?;
        let room = after_option(room, &self.serving_network)?;
        let room = after_row(room, &self.control)?;
        let room = after_row(room, &self.apn)?;
        let room = after_option(room, &self.selection)?;
        let room = after_row(room, &self.pdn_type)?;
        let room = after_option(room, &self.paa)?;
        let room = after_option(room, &self.ambr)?;
        let room = after_contexts(room, self.contexts.as_slice())?;
        after_option(room, &self.recovery)
    }

    fn meets_marks(&self) -> bool {
        contexts_meet(Need::Mandatory, true, self.contexts.as_slice())
    }
}

/// A bearer that a Create Session Request asks for (TS 29.274 table 7.2.1-2).
#[derive(Clone, Copy, Debug, PartialEq, Eq)]
pub struct SessionRequestContext {
    /// The identity of the bearer.
    pub ebi: EbiValue,
    /// What the bearer is to carry, and how.
    pub qos: Qos,
    /// The serving gateway's end for user packets.
    pub user: FTeid,
}

impl Context for SessionRequestContext {
    ghost rows = { session_request_context_rows };

    ghost values = { session_request_context_values };

    #[inline(always)]
    #[tactic(auto, unfolding(crate::specs::reading::Rows::rows_at))]
    fn build(_accepting: bool, elements: &Indexed) -> SessionRequestContext {
        let ebi = mandatory::<EbiValue>(elements, 0);
        let qos = mandatory::<Qos>(elements, 0);
        let user = conditional::<FTeid>(elements, 2);
        SessionRequestContext { ebi, qos, user }
    }

    #[inline(always)]
    #[tactic(auto, unfolding(crate::specs::reading::Rows::rows_at))]
    fn read(_accepting: bool, elements: &Indexed) -> Option<SessionRequestContext> {
        let ebi = read::<EbiValue>(elements, 0)?;
        let qos = read::<Qos>(elements, 0)?;
        let user = read_conditional::<FTeid>(elements, 2)?;
        Some(SessionRequestContext { ebi, qos, user })
    }

    #[tactic(auto, using(crate::proofs::Appends::appending))]
    fn write(&self, out: &mut Vec<u8>) -> Result<(), AllocError> {
        put_row(out, 0, &self.ebi)?;
        put_row(out, 0, &self.qos)?;
        put_row(out, 2, &self.user)?;
        Ok(())
    }

    #[tactic(auto, using(crate::proofs::Measured::measuring))]
    fn room_after(&self, room: usize) -> Option<usize> {
        let room = after_row(room, &self.ebi)?;
        let room = after_row(room, &self.qos)?;
        after_row(room, &self.user)
    }

    fn meets_marks(&self, _accepting: bool) -> bool {
        true
    }
}
