//! The records of a capture (pcap).

ghost use Rattle.std.specs.Prelude.{◌≡◌, ◌⊎◌, IfOk, IfErr, ◌≢◌, ◌+◌, ◌-◌, ◌^◌, ◌<◌, Err};
ghost use Rattle.gtp_counted.specs.Counts.{inner_of, failures_of};
ghost use Rattle.gtp_capture.specs.Capture.{Records};
ghost use Rattle.gtp_capture.specs.Outcome.{Steps};

use crate::captured::Time;
use crate::fault::Stop;
use crate::head::Kind;
use crate::octets::four;
use crate::read_exact::{next_octets, refill};
use crate::step::{Found, Head, Item, Step};
use gtp_counted::Counted;
use std::io::Read;

/// The most octets that are held of a frame.
pub const LIMIT: usize = 262_144;

/// What stands next, and the octets that it holds.
pub fn next_record<R: Read>(
    reader: &mut Counted<R>,
    kind: Kind,
    room: &mut Vec<u8>,
) -> Result<Step, Stop>
    requires { failures_of reader.old < 2 ^ 64 - 1 }
    ensures ok { IfOk result (λ step. Steps (Records kind)
        (R.remaining (inner_of reader.old)) (R.remaining (inner_of reader.new)) step room.new.items) }
    ensures err { IfErr result (λ stop. (stop ≡ Stop.Read) ⊎ (stop ≡ Stop.Memory)) }
    ensures failed { result ≡ Err Stop.Read
        → failures_of reader.new ≡ failures_of reader.old + 1 }
    ensures unfailed { result ≢ Err Stop.Read
        → failures_of reader.new ≡ failures_of reader.old }
{
    let (head, found) = next_octets::<R, 16>(reader)?;
    if found == 0 {
        return Ok(Step::End);
    }
    if found < 16 {
        return Ok(Step::Broken);
    }
    let held = four(kind.order, &head, 8) as usize;
    if held > LIMIT {
        return Ok(Step::Broken);
    }
    refill(reader, room, held)?;
    if room.len() < held {
        return Ok(Step::Broken);
    }
    let time = Time {
        seconds: four(kind.order, &head, 0),
        fraction: four(kind.order, &head, 4),
        unit: kind.unit,
    };
    let frame = Head {
        time,
        link: kind.link,
        had: four(kind.order, &head, 12),
        at: 0,
        held,
    };
    Ok(Step::Found(Found {
        item: Item::Frame(frame),
        size: 16 + held as u32,
    }))
}
