//! Laws of the grammar and of `==`, each the contract of a function that does nothing or only
//! compares.

ghost use Rattle.std.specs.Prelude.{◌≡◌, ◌↔◌, ℕ, ◌-◌, ◌<◌, ◌≤◌, IsTrue, List, length, take};
ghost use Rattle.gtp_user.specs.declared.fault.UserFault.TheVariants as faults;
ghost use Rattle.gtp_user.specs.Message.{MessageValue, message_value, of_parts};
ghost use Rattle.gtp_user.specs.Datagram.{IsUserMessage, IsUserFault};
ghost use Rattle.gtp_user.specs.Encoding.{Meets, encoding};

use crate::extension::Extensions;
use crate::message::UserMessage;

/// The canonical encoding of a message spells it, so what was encoded is decoded.
pub fn encodings_are_read_again()
    ensures { (m : MessageValue) → Meets m → IsUserMessage (encoding m) m }
{}

/// Each proper prefix of a datagram is at fault: it has fewer than eight octets, or fewer after these
/// than its length states.
pub fn proper_prefixes_are_faults()
    ensures short { (octets : List ℕ) (m : MessageValue) (n : ℕ) →
        IsUserMessage octets m → n < 8 → IsUserFault (take n octets) (faults.Short n) }
    ensures fewer { (octets : List ℕ) (m : MessageValue) (n : ℕ) →
        IsUserMessage octets m → 8 ≤ n → n < length octets →
        IsUserFault (take n octets) (faults.Length (length octets - 8) (n - 8)) }
{}

/// A message has these parts and no others, so none is hidden from contracts.
pub fn messages_have_these_parts_alone()
    ensures { (m : UserMessage) → m ≡ of_parts m.seq m.npdu m.ext m.body }
{}

/// Two messages are equal exactly where contracts see the same message.
pub fn equal_messages_are_the_same(a: &UserMessage, b: &UserMessage) -> bool
    ensures { IsTrue result ↔ (message_value a.now ≡ message_value b.now) }
{
    a == b
}

/// Two chains are equal exactly where they have the same headers.
pub fn equal_chains_have_the_same_headers(a: &Extensions, b: &Extensions) -> bool
    ensures { IsTrue result ↔ (a.now ≡ b.now) }
{
    a == b
}
