//! Reading octets until there is no more room, or no more octets.

ghost use Rattle.std.specs.Prelude.{◌≡◌, ◌⊎◌, ◌≤◌, ◌<◌, length, take, IfOk, OnOk, IfErr, ◌≢◌, ◌+◌, ◌-◌, ◌^◌, Err};
ghost use Rattle.gtp_counted.specs.Counts.{inner_of, failures_of};
ghost use Rattle.std.specs.Io.KnownBytes.{Consumes, IsAtEnd};

use crate::fault::Stop;
use gtp_counted::Counted;
use std::io::Read;

/// Fills the room, or as much of it as there are octets left.
pub fn fill<R: Read>(reader: &mut Counted<R>, room: &mut [u8]) -> Result<usize, Stop>
    requires { failures_of reader.old < 2 ^ 64 - 1 }
    ensures bound { IfOk result (λ n. n ≤ length room.new) }
    ensures octets { IfOk result (λ n. Consumes (R.remaining (inner_of reader.old)) (R.remaining (inner_of reader.new)) (take n room.new)) }
    ensures end { IfOk result (λ n. n < length room.new → IsAtEnd (R.remaining (inner_of reader.new))) }
    ensures err { IfErr result (λ stop. stop ≡ Stop.Read) }
    ensures failed { result ≡ Err Stop.Read
        → failures_of reader.new ≡ failures_of reader.old + 1 }
    ensures unfailed { result ≢ Err Stop.Read
        → failures_of reader.new ≡ failures_of reader.old }
{
    let mut at = 0;
    while at < room.len() {
        match reader.read(&mut room[at..]) {
            Ok(0) => return Ok(at),
            Ok(n) => at += n,
            Err(_) => return Err(Stop::Read),
        }
    }
    Ok(at)
}

/// The next octets, as many as an array has, or as many as are left: how many of the array's these are.
pub fn next_octets<R: Read, const N: usize>(
    reader: &mut Counted<R>,
) -> Result<([u8; N], usize), Stop>
    requires { failures_of reader.old < 2 ^ 64 - 1 }
    ensures size { IfOk result (λ found. length found.0 ≡ N) }
    ensures bound { IfOk result (λ found. found.1 ≤ N) }
    ensures octets { IfOk result (λ found. Consumes (R.remaining (inner_of reader.old))
        (R.remaining (inner_of reader.new)) (take found.1 found.0)) }
    ensures whole { IfOk result (λ found. N ≤ found.1
        → Consumes (R.remaining (inner_of reader.old))
        (R.remaining (inner_of reader.new)) found.0) }
    ensures end { IfOk result (λ found. found.1 < N → IsAtEnd (R.remaining (inner_of reader.new))) }
    ensures err { IfErr result (λ stop. stop ≡ Stop.Read) }
    ensures failed { result ≡ Err Stop.Read
        → failures_of reader.new ≡ failures_of reader.old + 1 }
    ensures unfailed { result ≢ Err Stop.Read
        → failures_of reader.new ≡ failures_of reader.old }
{
    let mut octets = [0u8; N];
    let found = fill(reader, &mut octets)?;
    Ok((octets, found))
}

/// Fills the room with so many octets, or with as many as are left.
pub fn refill<R: Read>(reader: &mut Counted<R>, room: &mut Vec<u8>, size: usize) -> Result<(), Stop>
    requires { failures_of reader.old < 2 ^ 64 - 1 }
    ensures bound { OnOk result (length room.new.items ≤ size) }
    ensures octets { OnOk result (Consumes (R.remaining (inner_of reader.old)) (R.remaining (inner_of reader.new)) room.new.items) }
    ensures end { OnOk result (length room.new.items < size → IsAtEnd (R.remaining (inner_of reader.new))) }
    ensures err { IfErr result (λ stop. (stop ≡ Stop.Read) ⊎ (stop ≡ Stop.Memory)) }
    ensures failed { result ≡ Err Stop.Read
        → failures_of reader.new ≡ failures_of reader.old + 1 }
    ensures unfailed { result ≢ Err Stop.Read
        → failures_of reader.new ≡ failures_of reader.old }
{
    match room.resize(size, 0) {
        Ok(()) => {}
        Err(_) => return Err(Stop::Memory),
    }
    let filled = fill(reader, room)?;
    room.truncate(filled);
    Ok(())
}
