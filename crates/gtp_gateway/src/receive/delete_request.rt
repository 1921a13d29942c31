//! What is read of a request to delete a session or bearers (TS 29.274 7.2.9).

ghost use Rattle.std.specs.Prelude.{◌≡◌, option_map};
ghost use Rattle.gtp_gateway.specs.receive.DeleteRequest.{ReadsDelete};

use gtp_v2::{EbiValue, MessageView};
use gtp_values::{Below, Seq, Teid};

/// What a Delete Session Request says, and a Delete Bearer Request before its list of identities.
#[derive(Clone, Copy)]
pub struct DeleteRequest {
    pub seq: Seq,
    /// The TEID of its header.
    pub header: Teid,
    /// The linked EPS bearer identity.
    pub linked: Option<Below<16>>,
}

/// What such a request says.
pub fn delete_request_in(view: &MessageView<'_>) -> DeleteRequest
    ensures { ReadsDelete view.now.message result }
{
    DeleteRequest {
        seq: view.seq(),
        header: view.teid().unwrap_or(Teid(0)),
        linked: identity_of(view.value(0)),
    }
}

/// The identity in an element.
fn identity_of(value: Option<EbiValue>) -> Option<Below<16>>
    ensures { option_map (λ e. e) result ≡ option_map (λ v. v.0) value }
{
    Some(value?.0)
}
