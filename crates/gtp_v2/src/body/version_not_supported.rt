//! Version Not Supported Indication (TS 29.274 7.1.3).
//!
//! Written by scripts/messages from specs/VersionNotSupported.antt.

ghost use Rattle.std.specs.Prelude.{false};
ghost use Rattle.gtp_v2.specs.VersionNotSupported.{version_not_supported, version_not_supported_fields};

use crate::body::Body;
use crate::fault::V2Fault;
use crate::header::Header;
use crate::kinds::VERSION_NOT_SUPPORTED;
use crate::message::Datagram;
use crate::message_table::HasTable;
use gtp_ie::Indexed;
use std::alloc::{AllocError, Global};

/// That the sender supports no version above 2 (TS 29.274 7.1.3).
#[derive(Clone, Copy, Debug, PartialEq, Eq)]
pub struct VersionNotSupported {}

impl HasTable for VersionNotSupported {
    const KIND: u8 = VERSION_NOT_SUPPORTED;

    ghost KIND = { version_not_supported.kind };

    const HAS_TEID: bool = false;

    ghost HAS_TEID = { false };

    ghost named = { version_not_supported.name };

    ghost lines = { version_not_supported.lines };

    ghost fields = { version_not_supported_fields };

    fn name() -> &'static str {
        "version-not-supported"
    }

    #[inline(never)]
    #[tactic(auto, unfolding(crate::specs::reading::Rows::lines_at))]
    fn build(_alloc: Global, header: &Header, _elements: &Indexed) -> Result<Datagram, V2Fault> {
        let body = Body::VersionNotSupported(VersionNotSupported {});
        Ok(Datagram::of(header, body))
    }

    #[inline(never)]
    #[tactic(auto, unfolding(crate::specs::reading::Rows::lines_at))]
    fn passes(_elements: &Indexed) -> bool {
        true
    }

    #[inline(never)]
    #[tactic(auto, unfolding(crate::specs::reading::Rows::lines_at))]
    fn read(_alloc: Global, _elements: &Indexed) -> Option<Body> {
        Some(Body::VersionNotSupported(VersionNotSupported {}))
    }

    #[tactic(auto, using(crate::proofs::Appends::appending))]
    fn write(&self, _out: &mut Vec<u8>) -> Result<(), AllocError> {
        Ok(())
    }

    #[tactic(auto, using(crate::proofs::Measured::measuring))]
    fn room_after(&self, room: usize) -> Option<usize> {
        Some(room)
    }

    fn meets_marks(&self) -> bool {
        true
    }
}
