//! What is read of a message where it lies.

ghost use Rattle.std.specs.Prelude.{◌≡◌, ℕ, List, Some, option_map};
ghost use Rattle.gtp_v2.specs.Datagram.{IsMessage};
ghost use Rattle.gtp_machine.specs.Message.{recovery_of};
ghost use Rattle.gtp_machine.specs.Decoded.{message_of};
ghost use Rattle.gtp_machine.specs.MessageType.{type_at};

use gtp_machine::MessageType;
use gtp_v2::{MessageView, Recovery};
use gtp_values::Counter;

/// The sender's restart counter, where a message of this type tells one.
pub fn counter_in(view: &MessageView<'_>, message_type: MessageType) -> Option<Counter>
    requires spelled { (octets : List ℕ) × IsMessage octets view.now.message }
    requires taken { type_at view.now.message.kind ≡ Some message_type }
    ensures { option_map (λ c. c.0) result ≡ recovery_of (message_of view.now.message) }
{
    if message_type.has_counter() {
        counter_of(view.value(0))
    } else {
        None
    }
}

/// The counter of a Recovery.
fn counter_of(recovery: Option<Recovery>) -> Option<Counter>
    ensures { option_map (λ c. c.0) result ≡ option_map (λ r. r.0.0) recovery }
{
    Some(recovery?.0)
}
