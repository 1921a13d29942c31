//! Reading a header (TS 29.274 5.1).

ghost use Rattle.std.specs.Prelude.{◌<◌, ◌^◌, ◌∷◌, length};
ghost use Rattle.gtp_values.specs.Steps.{Gives};
ghost use Rattle.gtp_v2.specs.reading.Headed.{headed_of, header_at, after_teid, after_no_teid};

use crate::fault::V2Fault;
use crate::flags::{MESSAGE_PRIORITY, PIGGYBACKING, TEID};
use crate::header::Header;
use byteorder::{BigEndian, ByteOrder};
use gtp_values::{Below, Seq, Teid, has_bit};

/// The header of a message with a TEID, after its first four octets.
#[inline(always)]
fn with_teid(first: u8, kind: u8, octets: &[u8]) -> Result<Header<'_>, V2Fault>
    requires { length octets.now < 2 ^ 16 }
    ensures { Gives headed_of result (after_teid first kind octets.now) }
{
    let [a, b, c, d, e, f, g, last, rest @ ..] = octets else {
        return Err(V2Fault::Short {
            held: 4 + octets.len(),
        });
    };
    let priority = has_bit(first, MESSAGE_PRIORITY).then_some(Below::new(*last >> 4));
    Ok(Header {
        kind,
        teid: Some(Teid(BigEndian::read_u32(&[*a, *b, *c, *d]))),
        seq: Seq::new(BigEndian::read_u24(&[*e, *f, *g])),
        priority,
        rest,
        at: 12,
    })
}

/// The same without a TEID.
#[inline(always)]
fn without_teid(kind: u8, octets: &[u8]) -> Result<Header<'_>, V2Fault>
    requires { length octets.now < 2 ^ 16 }
    ensures { Gives headed_of result (after_no_teid kind octets.now) }
{
    let [a, b, c, _, rest @ ..] = octets else {
        return Err(V2Fault::Short {
            held: 4 + octets.len(),
        });
    };
    Ok(Header {
        kind,
        teid: None,
        seq: Seq::new(BigEndian::read_u24(&[*a, *b, *c])),
        priority: None,
        rest,
        at: 8,
    })
}

/// The header of a message that begins with these four octets and has the rest after them, which it fills
/// exactly. In line, with the two forms above: else each header would be moved twice more.
#[inline(always)]
pub fn read_header(
    first: u8,
    kind: u8,
    high: u8,
    low: u8,
    rest: &[u8],
) -> Result<Header<'_>, V2Fault>
    ensures { Gives headed_of result (header_at (first ∷ kind ∷ high ∷ low ∷ rest.now)) }
{
    let version = first >> 5;
    if version != 2 {
        return Err(V2Fault::Version { version });
    }
    if has_bit(first, PIGGYBACKING) {
        return Err(V2Fault::BadPiggyback { at: 0 });
    }
    let stated = usize::from(BigEndian::read_u16(&[high, low]));
    if stated != rest.len() {
        return Err(V2Fault::Length {
            stated,
            held: rest.len(),
        });
    }
    if has_bit(first, TEID) {
        with_teid(first, kind, rest)
    } else {
        without_teid(kind, rest)
    }
}
