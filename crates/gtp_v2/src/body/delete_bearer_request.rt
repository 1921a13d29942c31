//! Delete Bearer Request (TS 29.274 7.2.9.2).
//!
//! Written by scripts/messages from specs/DeleteBearerRequest.antt.

ghost use Rattle.std.specs.Prelude.{true};
ghost use Rattle.gtp_v2.specs.DeleteBearerRequest.{delete_bearer_request, delete_bearer_request_fields};

use crate::body::Body;
use crate::encoded_length::{after_option, after_several};
use crate::fault::V2Fault;
use crate::header::Header;
use crate::kinds::DELETE_BEARER_REQUEST;
use crate::list::Listed;
use crate::list_rows::{read_several, several, several_pass};
use crate::message::Datagram;
use crate::message_table::HasTable;
use crate::single_rows::optional;
use crate::writing::{put_option, put_several};
use gtp_ie::{EbiValue, Indexed};
use std::alloc::{AllocError, Global};

/// A request to end a session or some of its dedicated bearers (TS 29.274 7.2.9.2).
#[derive(Debug, Drop, PartialEq, Eq)]
pub struct DeleteBearerRequest {
    /// The identity of the session's default bearer, where the session is to end.
    pub linked_ebi: Option<EbiValue>,
    /// The identities of the bearers that are to end.
    pub ebis: Listed<EbiValue>,
}

impl HasTable for DeleteBearerRequest {
    const KIND: u8 = DELETE_BEARER_REQUEST;

    ghost KIND = { delete_bearer_request.kind };

    const HAS_TEID: bool = true;

    ghost HAS_TEID = { true };

    ghost named = { delete_bearer_request.name };

    ghost lines = { delete_bearer_request.lines };

    ghost fields = { delete_bearer_request_fields };

    fn name() -> &'static str {
        "delete-bearer-request"
    }

    #[inline(never)]
    #[tactic(auto, unfolding(crate::specs::reading::Rows::lines_at, crate::specs::reading::Rows::several_at))]
    fn build(alloc: Global, header: &Header, elements: &Indexed) -> Result<Datagram, V2Fault> {
        let linked_ebi = optional::<EbiValue>(elements, 0);
        let ebis = several::<EbiValue>(alloc, elements, 1)?;
        let body = Body::DeleteBearerRequest(DeleteBearerRequest { linked_ebi, ebis });
        Ok(Datagram::of(header, body))
    }

    #[inline(never)]
    #[tactic(auto, unfolding(crate::specs::reading::Rows::lines_at, crate::specs::reading::Rows::several_at))]
    fn passes(elements: &Indexed) -> bool {
        let linked_ebi = optional::<EbiValue>(elements, 0);
        several_pass::<EbiValue>(linked_ebi.is_none(), elements, 1)
    }

    #[inline(never)]
    #[tactic(auto, unfolding(crate::specs::reading::Rows::lines_at, crate::specs::reading::Rows::several_at))]
    fn read(alloc: Global, elements: &Indexed) -> Option<Body> {
        let linked_ebi = optional::<EbiValue>(elements, 0);
        let ebis = read_several::<EbiValue>(alloc, linked_ebi.is_none(), elements, 1)?;
        Some(Body::DeleteBearerRequest(DeleteBearerRequest { linked_ebi, ebis }))
    }

    #[tactic(auto, using(crate::proofs::Appends::appending))]
    fn write(&self, out: &mut Vec<u8>) -> Result<(), AllocError> {
        put_option(out, 0, &self.linked_ebi)?;
        put_several(out, 1, self.ebis.as_slice())?;
        Ok(())
    }

    #[tactic(auto, using(crate::proofs::Measured::measuring))]
    fn room_after(&self, room: usize) -> Option<usize> {
        let room = after_option(room, &self.linked_ebi)?;
        after_several(room, self.ebis.as_slice())
    }

    fn meets_marks(&self) -> bool {
        self.linked_ebi.is_some() || !self.ebis.as_slice().is_empty()
    }
}
