//! The header of a datagram of the user plane, as far as its octets are there (TS 29.281 5.1).

ghost use Rattle.std.specs.Prelude.{◌≡◌, option_map};
ghost use Rattle.gtp_lines.specs.All.{numbered_head, user_head_at as spec_user_head_at};
ghost use Rattle.gtp_lines.specs.reading.Header.{user_head_of};

use gtp_user::flags::{GTP, PROTOCOL_TYPE, SEQUENCE_NUMBER};
use gtp_values::{Teid, has_bit};

/// What the first octets of a datagram of the user plane say, and those after them.
#[derive(Clone, Copy)]
pub struct UserHeader<'a> {
    pub kind: u8,
    pub teid: Teid,
    pub seq: Option<u16>,
    pub rest: &'a [u8],
}

/// The header after its first eight octets, with a sequence number where it is flagged and there.
fn numbered(flagged: bool, kind: u8, teid: Teid, octets: &[u8]) -> UserHeader<'_>
    ensures { user_head_of result ≡ numbered_head flagged kind teid octets.now }
{
    match octets {
        [high, low, _, _, rest @ ..] if flagged => UserHeader {
            kind,
            teid,
            seq: Some(u16::from_be_bytes([*high, *low])),
            rest,
        },
        _ => UserHeader {
            kind,
            teid,
            seq: None,
            rest: octets,
        },
    }
}

/// The header at the front of octets, whatever length it states.
pub fn user_head_at(octets: &[u8]) -> Option<UserHeader<'_>>
    ensures { option_map user_head_of result ≡ spec_user_head_at octets.now }
{
    let [first, kind, _, _, a, b, c, d, rest @ ..] = octets else {
        return None;
    };
    if first >> PROTOCOL_TYPE != GTP >> PROTOCOL_TYPE {
        return None;
    }
    let teid = Teid(u32::from_be_bytes([*a, *b, *c, *d]));
    Some(numbered(has_bit(*first, SEQUENCE_NUMBER), *kind, teid, rest))
}
