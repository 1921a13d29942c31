//! The table of the codes, in parts.

ghost use Rattle.std.specs.Prelude.{◌≡◌, map};
ghost use Rattle.gtp_codes.specs.Words.{told_by};
ghost use Rattle.gtp_codes.specs.Meanings as told;

use crate::explaining::Meaning;
use crate::words::causes;

/// Rows of a code, what follows it, and what it means.
macro_rules! rows {
    ($($code:literal $detail:literal $text:literal,)*) => {
        &[$(Meaning { code: $code, detail: $detail, text: $text }),*]
    };
}

/// Faults of control datagrams: H, and I of elements.
#[tactic(auto, unfolding(crate::specs::Meanings::control_faults))]
fn control_faults() -> &'static [Meaning]
    ensures { map told_by result.now ≡ told.control_faults }
{
    const ROWS: &[Meaning] = rows![
        "H1" "" "the datagram ends within the header of a message (TS 29.274 7.7.3); held: the octets of the message",
        "H2" "" "the version of GTPv2-C is not 2 (TS 29.274 7.7.2)",
        "H3" "" "the stated length is not the number of octets after the first four (TS 29.274 7.7.3)",
        "H4" "" "the header has a TEID where its type has none, or none where it has one (TS 29.274 5.5.1)",
        "H5" "" "a second message is announced and missing, or announces a third (TS 29.274 5.5.1); at: its place in the datagram",
        "H6" "" "an element is missing that must be there (TS 29.274 7.7.6)",
        "H7" "I1" "the elements of a message or of a bearer context end within an element (TS 29.274 7.7.7); at: the place of its header",
        "H7" "I2" "an element is shorter than its form (TS 29.274 7.7.7); at: the place of its header",
        "H7" "I3" "the value of an element is not allowed (TS 29.274 7.7.8); at: the place of its header",
    ];
    ROWS
}

/// Faults of user datagrams.
#[tactic(auto, unfolding(crate::specs::Meanings::user_faults))]
fn user_faults() -> &'static [Meaning]
    ensures { map told_by result.now ≡ told.user_faults }
{
    const ROWS: &[Meaning] = rows![
        "U1" "" "the datagram ends within the header (TS 29.281 5.1); held: its octets",
        "U2" "" "the version of GTP-U is not 1 (TS 29.281 5.1)",
        "U3" "" "the protocol type is not 1: this is GTP' (TS 29.281 5.1)",
        "U4" "" "the stated length is not the number of octets after the first eight (TS 29.281 5.1)",
        "U5" "" "an extension header states the length 0 (TS 29.281 5.2.1); at: the place of that length",
        "U6" "" "the datagram ends within an extension header (TS 29.281 5.2.1); at: the place of its length",
        "U7" "" "an extension header must be understood, and is not (TS 29.281 5.2.1); type: that header",
        "U8" "" "an element is missing that must be there (TS 29.281 7); type: that element",
        "U9" "" "an element is not complete, or of no known form (TS 29.281 8); at: its place",
    ];
    ROWS
}

/// Refused commands; S and B are limits.
#[tactic(auto, unfolding(crate::specs::Meanings::refused_commands))]
fn refused_commands() -> &'static [Meaning]
    ensures { map told_by result.now ≡ told.refused_commands }
{
    const ROWS: &[Meaning] = rows![
        "G1" "" "a command is refused: there is no such context",
        "G2" "" "a command is refused: the context is not active",
        "G3" "" "a command is refused: it is one of the other gateway",
        "G4" "S1" "a command is refused: the gateway has 1000 sessions",
        "G4" "S4" "a command is refused: no TEID is left",
        "G4" "B1" "a command is refused: 256 requests are pending",
        "G5" "" "a command is refused: the bearer has ended (TS 29.281 7.3.2)",
        "G6" "" "a command is refused: an allocation was refused",
        "G7" "" "a command is refused: the packet has more than 65000 octets",
    ];
    ROWS
}

/// Dropped datagrams.
#[tactic(auto, unfolding(crate::specs::Meanings::drops))]
fn drops() -> &'static [Meaning]
    ensures { map told_by result.now ≡ told.drops }
{
    const ROWS: &[Meaning] = rows![
        "X1" "" "a datagram is dropped: it cannot be decoded; the code of its fault follows (TS 29.274 7.7)",
        "X2" "" "a datagram is dropped: its restart counter is earlier than one that was received (TS 23.007 18)",
        "X3" "" "a datagram is dropped: no request waits for this response (TS 29.274 7.6)",
        "X4" "" "a datagram is dropped: the response does not fit its request",
        "X5" "" "a datagram is dropped: its context is not active",
        "X6" "" "a datagram is dropped: its context is unknown; of a packet an Error Indication is sent (TS 29.281 7.3.1)",
        "X7" "" "a datagram is dropped: its bearer has ended by an End Marker (TS 29.281 7.3.2)",
        "X8" "" "a datagram is dropped: 4096 answers are held",
        "X9" "" "a datagram is dropped: its type is not taken, or it concerns nothing here (TS 29.274 7.7.4, 7.7.5)",
        "X10" "" "a datagram is dropped: it requires an extension header that is not understood (TS 29.281 5.2.1)",
        "X11" "" "a datagram is dropped: its source is not the peer",
        "X12" "" "a datagram is dropped: it is of another version, and the sender is told which one is supported (TS 29.274 7.7.2)",
    ];
    ROWS
}

/// Events of a scenario that cannot happen.
#[tactic(auto, unfolding(crate::specs::Meanings::impossible_events))]
fn impossible_events() -> &'static [Meaning]
    ensures { map told_by result.now ≡ told.impossible_events }
{
    const ROWS: &[Meaning] = rows![
        "N1" "" "an event cannot happen: there is no such datagram",
        "N2" "" "an event cannot happen: a gateway restarts at most 127 times",
        "N3" "" "an event cannot happen: the cut is not shorter than the datagram",
    ];
    ROWS
}

/// The parts: faults, refused commands, dropped datagrams, impossible events, and causes.
pub fn parts() -> [&'static [Meaning]; 6]
    ensures { map (λ part. map told_by part.now) result ≡ told.all_parts }
{
    [
        control_faults(),
        user_faults(),
        refused_commands(),
        drops(),
        impossible_events(),
        causes(),
    ]
}
