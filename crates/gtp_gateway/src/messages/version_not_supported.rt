//! Version Not Supported Indication (TS 29.274 7.1.3).

ghost use Rattle.std.specs.Prelude.{◌≡◌};
ghost use Rattle.gtp_v2.specs.VersionNotSupported.{version_not_supported as table};
ghost use Rattle.gtp_machine.specs.Message.{Other_control};
ghost use Rattle.gtp_machine.specs.Reading.{control_message};
ghost use Rattle.gtp_gateway.specs.messages.Own.{IsOwn};

use gtp_v2::{Body, Message, VersionNotSupported};
use gtp_values::Seq;

/// A Version Not Supported Indication, with the sequence number 0.
#[tactic(auto, unfolding(gtp_machine::specs::Decoded::row_in, gtp_machine::specs::Decoded::list_in, gtp_machine::specs::Decoded::contexts_in))]
pub fn version_not_supported() -> Message
    ensures says { control_message result ≡ Other_control table.kind }
    ensures own { IsOwn result }
{
    Message {
        teid: None,
        seq: Seq::new(0),
        priority: None,
        body: Body::VersionNotSupported(VersionNotSupported {}),
    }
}
