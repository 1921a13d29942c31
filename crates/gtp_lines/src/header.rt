//! The header of a message, as far as its octets are there (TS 29.274 5.1).

ghost use Rattle.std.specs.Prelude.{◌≡◌, ◌≤◌, ◌+◌, ◌*◌, ◌/◌, if◌then◌else◌, Some, None, option_map};
ghost use Rattle.gtp_v2.specs.Viewed.{place_of};
ghost use Rattle.gtp_lines.specs.All.{after_no_teid, after_teid, head_of as spec_head_of, head_at as spec_head_at, first_of as spec_first_of, pair_at as spec_pair_at};
ghost use Rattle.gtp_lines.specs.reading.Header.{headed_of, pair_of};

use byteorder::{BigEndian, ByteOrder};
use gtp_v2::flags::{MESSAGE_PRIORITY, PIGGYBACKING, TEID, VERSION_2};
use gtp_values::{Below, Seq, Teid, has_bit};

/// What the octets before the elements say, and the octets after them.
#[derive(Clone, Copy)]
pub struct Header<'a> {
    pub kind: u8,
    pub teid: Option<Teid>,
    pub seq: Seq,
    pub priority: Option<Below<16>>,
    pub rest: &'a [u8],
}

impl Header<'_> {
    /// The place of the rest in the message.
    pub fn place(&self) -> usize
        ensures place { result ≡ place_of self.now.teid }
        ensures few { result ≤ 12 }
    {
        match self.teid {
            Some(_) => 12,
            None => 8,
        }
    }
}

/// The header without a TEID, after its first four octets.
fn without_teid(kind: u8, octets: &[u8]) -> Option<Header<'_>>
    ensures { option_map headed_of result ≡ after_no_teid kind octets.now }
{
    let [a, b, c, _, rest @ ..] = octets else {
        return None;
    };
    Some(Header {
        kind,
        teid: None,
        seq: Seq::new(BigEndian::read_u24(&[*a, *b, *c])),
        priority: None,
        rest,
    })
}

/// The same with a TEID, and with a priority where there is one.
fn with_teid(ranked: bool, kind: u8, octets: &[u8]) -> Option<Header<'_>>
    ensures { option_map headed_of result ≡ after_teid ranked kind octets.now }
{
    let [a, b, c, d, numbered @ ..] = octets else {
        return None;
    };
    let [e, f, g, last, rest @ ..] = numbered else {
        return None;
    };
    Some(Header {
        kind,
        teid: Some(Teid(BigEndian::read_u32(&[*a, *b, *c, *d]))),
        seq: Seq::new(BigEndian::read_u24(&[*e, *f, *g])),
        priority: priority_in(ranked, *last),
        rest,
    })
}

/// The priority in the last octet of a header, where there is one.
fn priority_in(ranked: bool, last: u8) -> Option<Below<16>>
    ensures { result ≡ (if ranked then Some (last / 16) else None) }
{
    ranked.then_some(Below::new(last >> 4))
}

/// The header of a message with this first octet and this type, and these octets after the first four.
fn head_of(first: u8, kind: u8, following: &[u8]) -> Option<Header<'_>>
    ensures { option_map headed_of result ≡ spec_head_of first kind following.now }
{
    if first >> 5 != VERSION_2 >> 5 {
        return None;
    }
    if has_bit(first, TEID) {
        with_teid(has_bit(first, MESSAGE_PRIORITY), kind, following)
    } else {
        without_teid(kind, following)
    }
}

/// The header at the front of octets, whatever length it states.
pub fn head_at(octets: &[u8]) -> Option<Header<'_>>
    ensures { option_map headed_of result ≡ spec_head_at octets.now }
{
    let [first, kind, _, _, following @ ..] = octets else {
        return None;
    };
    head_of(*first, *kind, following)
}

/// The header of a first message of this size that announces a second one, and the octets of that.
fn first_of(first: u8, kind: u8, size: usize, held: &[u8]) -> Option<(Header<'_>, &[u8])>
    ensures { option_map pair_of result ≡ spec_first_of first kind size held.now }
{
    if !has_bit(first, PIGGYBACKING) {
        return None;
    }
    if held.len() < size {
        return None;
    }
    let (front, back) = held.split_at(size);
    match head_of(first, kind, front) {
        Some(header) => Some((header, back)),
        None => None,
    }
}

/// The size in two octets, the high one first.
fn size_of(high: u8, low: u8) -> usize
    ensures { result ≡ 256 * high + low }
{
    usize::from(BigEndian::read_u16(&[high, low]))
}

/// The header of a first message that announces a second one, and the octets of that; `None` where it states
/// more octets than are held.
pub fn pair_at(octets: &[u8]) -> Option<(Header<'_>, &[u8])>
    ensures { option_map pair_of result ≡ spec_pair_at octets.now }
{
    let [first, kind, high, low, held @ ..] = octets else {
        return None;
    };
    first_of(*first, *kind, size_of(*high, *low), held)
}
