//! Laws of the grammar, of `==` and of `judge`, each the contract of a function that does nothing, or only
//! compares or judges.

ghost use Rattle.std.specs.Prelude.{◌≡◌, ◌↔◌, ◌<◌, ℕ, IsTrue, IfOk, IfErr, Ok, Err, List, length, map, take};
ghost use Rattle.gtp_v2.specs.Table.{Line, Field, start};
ghost use Rattle.gtp_ie.specs.Element.{Element};
ghost use Rattle.gtp_ie.specs.Octets.{AreElements};
ghost use Rattle.gtp_v2.specs.Grammar.{LinesAre};
ghost use Rattle.gtp_v2.specs.Message.{MessageValue};
ghost use Rattle.gtp_v2.specs.Body.{message_value};
ghost use Rattle.gtp_v2.specs.Datagram.{IsMessage, IsFault};
ghost use Rattle.gtp_v2.specs.Encoding.{FieldsMeet, Meets, canonical_encoding};
ghost use Rattle.gtp_v2.specs.Pair.{Announces, DatagramValue, IsDatagram, IsDatagramFault, both, paired};
ghost use Rattle.gtp_v2.specs.Tables.{tables};
ghost use Rattle.gtp_v2.specs.reading.Lines.{asked_in, asked_kept};
ghost use Rattle.gtp_v2.specs.Prefixes.{prefix_fault, pair_prefix_fault};
ghost use Rattle.gtp_v2.specs.Text.{lines_encoding};
ghost use Rattle.gtp_v2.specs.declared.fault.V2Fault.{V2Fault as AnyFault};

use crate::asked::{Others, Tables};
use crate::fault::V2Fault;
use crate::judging::judge;
use crate::message::Message;
use crate::required_rows::S5S8;

/// What was written by any table is read by it: fields whose values are of the rows' types, that have
/// what the marks ask, and whose encoding is not too long.
pub fn fields_are_read_again()
    ensures { (at : ℕ) (lines : List Line) (fields : List Field) → FieldsMeet lines fields
        → (es : List Element) × AreElements at (lines_encoding lines fields) es
        × LinesAre start lines es fields }
{}

/// Each proper prefix of a message is at fault: it has fewer than four octets, or fewer than its header
/// states. So it is as a datagram.
pub fn proper_prefixes_are_faults()
    ensures message { (octets : List ℕ) (m : MessageValue) (n : ℕ) → IsMessage octets m
        → n < length octets → IsFault (take n octets) (prefix_fault n (length octets)) }
    ensures datagram { (octets : List ℕ) (m : MessageValue) (n : ℕ) → IsMessage octets m
        → n < length octets → IsDatagramFault (take n octets) (prefix_fault n (length octets)) }
{}

/// The same of a datagram of two messages. It ends in the first, or in the second; or between them, and then
/// nothing is where the second is announced.
pub fn proper_prefixes_of_pairs_are_faults()
    ensures { (octets front back : List ℕ) (a b : MessageValue) (n : ℕ) → Announces octets front back
        → IsMessage front a → IsMessage back b → n < length octets
        → IsDatagramFault (take n octets) (pair_prefix_fault n (length front) (length back)) }
{}

/// The octets of two messages, as one datagram, spell the two.
pub fn pairs_are_read_again()
    ensures { (front back : List ℕ) (a b : MessageValue) → IsMessage front a → IsMessage back b
        → IsDatagram (paired front back) (both a b) }
{}

/// The canonical encoding of a message spells it, so what was encoded is decoded.
pub fn encodings_are_read_again()
    ensures { (m : MessageValue) → Meets m → IsMessage (canonical_encoding m) m }
{}

/// Nothing of a message is hidden from contracts: two of which they see the same are one.
pub fn messages_are_what_contracts_see()
    ensures { (a b : Message) → message_value a ≡ message_value b → a ≡ b }
{}

/// Two messages are equal exactly where contracts see the same message.
pub fn equal_messages_are_the_same(a: &Message, b: &Message) -> bool
    ensures { IsTrue result ↔ (message_value a.now ≡ message_value b.now) }
{
    a == b
}

/// The tables of S5/S8: each is what is checked of the table of its type.
fn tables_of_s5s8() -> Tables
    ensures tables { map asked_kept result.tables.now ≡ map asked_in tables }
    ensures others { result.others ≡ Others.Octets }
{
    S5S8
}

/// The tables of S5/S8 judge a datagram as `view` reads it.
pub fn s5s8_is_judged_as_viewed(octets: &[u8]) -> Result<(), V2Fault>
    ensures found { IfOk result (λ _. (d : DatagramValue) × IsDatagram octets.now d) }
    ensures only { (d : DatagramValue) → IsDatagram octets.now d → result ≡ Ok tt }
    ensures first { (f : AnyFault) → IsDatagramFault octets.now f → result ≡ Err f }
    ensures fault { IfErr result (λ f. IsDatagramFault octets.now f) }
{
    judge(&tables_of_s5s8(), octets)
}
