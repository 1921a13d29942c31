//! How many datagrams at fault name an interface other than S5/S8.

ghost use Rattle.gtp_dump.specs.Elsewhere.{CountsElsewhere};

use gtp_lines::is_elsewhere;
use gtp_values::Plane;

/// How many datagrams at fault name an interface other than S5/S8, as `is_elsewhere` says: this one, or none.
pub fn count_elsewhere(faulty: bool, plane: Plane, octets: &[u8]) -> u64
    ensures { CountsElsewhere faulty plane octets.now result }
{
    if faulty && is_elsewhere(plane, octets) {
        1
    } else {
        0
    }
}
