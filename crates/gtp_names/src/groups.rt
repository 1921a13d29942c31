//! Elements that hold elements, and elements whose form the message decides.

ghost use Rattle.std.specs.Prelude.{◌≡◌};
ghost use Rattle.gtp_names.specs.Groups.{is_group as spec_is_group, is_connection as spec_is_connection, is_from_network, form_of};

use crate::forms::options::NETWORK_EPCO;
use gtp_forms::Row;

macro_rules! rows {
    ($($kind:literal $name:literal,)*) => {
        &[$(Row { kind: $kind, name: $name, form: None }),*]
    };
}

/// Types of grouped elements (TS 29.274 8.1).
const GROUPS: &[Row] = rows![
    93 "bearer-context",
    109 "pdn-connection",
    180 "overload-control",
    181 "load-control",
    191 "remote-ue-context",
    195 "scef-pdn-connection",
];

/// All rows.
pub fn group_rows() -> &'static [Row] {
    GROUPS
}

/// Whether elements of a type hold elements, none of which is a group (TS 29.274 8.1): Bearer Context, Overload Control Information,
/// Load Control Information, Remote UE Context and SCEF PDN Connection.
pub fn is_group(kind: u8) -> bool
    ensures { result ≡ spec_is_group kind }
{
    match kind {
        93 | 180 | 181 | 191 | 195 => true,
        _ => false,
    }
}

/// Whether elements of a type hold elements, of which some are groups (TS 29.274 8.1): PDN Connection.
pub fn is_connection(kind: u8) -> bool
    ensures { result ≡ spec_is_connection kind }
{
    kind == 109
}

/// Whether the network sends messages of a type to the UE: responses to create, modify and delete a session, requests to create, update
/// and delete a bearer.
fn is_from_network(message: u8) -> bool
    ensures { result ≡ is_from_network message }
{
    match message {
        33 | 35 | 37 | 95 | 97 | 99 => true,
        _ => false,
    }
}

/// The number of the form that an element has in a message of a type: that of its row, but in extended protocol configuration options
/// (197) from the network some containers have a length of two octets (TS 24.301 9.9.4.26).
pub fn form_in_message(row: Row, message: u8) -> Option<u8>
    ensures { result ≡ form_of row message }
{
    if row.kind == 197 && is_from_network(message) {
        return Some(NETWORK_EPCO);
    }
    row.form
}
