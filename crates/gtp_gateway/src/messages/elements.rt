//! The Cause, F-TEIDs and TEIDs of headers that a gateway sends.

ghost use Rattle.std.specs.Prelude.{◌≡◌, ◌<◌, ◌==◌, not};
ghost use Rattle.gtp_machine.specs.Element.{cause_of, cause_at, tunnel_end};
ghost use Rattle.gtp_machine.specs.Node.{written};

use gtp_values::{Below, Cause, FTeid, Ip, Offending, Teid};

/// A cause that names no element.
pub fn plain_cause(value: u8) -> Cause
    ensures { result ≡ cause_of value }
{
    Cause {
        value,
        pce: false,
        bce: false,
        cs: false,
        offending: None,
    }
}

/// A cause that names the type and instance of the element at fault.
pub fn fault_cause(value: u8, kind: u8, instance: Below<16>) -> Cause
    ensures { result ≡ cause_at value kind instance }
{
    Cause {
        offending: Some(Offending { kind, instance }),
        ..plain_cause(value)
    }
}

/// An F-TEID (TS 29.274 8.22) that a gateway gives, with its own address.
pub fn own_end(interface: u8, teid: Teid, ip: Ip) -> FTeid
    requires { interface < 64 }
    ensures { result ≡ tunnel_end interface teid ip }
{
    FTeid::new(Below::new(interface), teid, ip)
}

/// A TEID that may be absent, as it is written: 0 for none.
pub fn written_teid(teid: Option<Teid>) -> Teid
    ensures { result ≡ written teid }
{
    teid.unwrap_or(Teid(0))
}

/// Whether a TEID stands in a header.
pub fn is_there(header: Teid) -> bool
    ensures { result ≡ not (header == 0) }
{
    header != Teid(0)
}
