//! What the bodies of elements say, a function for each form.

ghost use Rattle.std.specs.Prelude.{◌≡◌, ◌≤◌, length, take};
ghost use Rattle.gtp_c.specs.Values.{IdentityIs, NameIs, CauseIs, QualityIs, NetworkIs, TunnelIs, AllocationIs};

use crate::session::Quality;
use crate::told::bit;
use gtp_ie::{Apn, Cause, FTeid, Imsi, Paa, Plmn, Qos};

/// Octets, with zeros behind them.
fn padded<const N: usize>(octets: &[u8]) -> [u8; N]
    requires { length octets.now ≤ N }
    ensures { take (length octets.now) result ≡ octets.now }
{
    let mut cells = [0u8; N];
    let (place, _rest) = cells.split_at_mut(octets.len());
    place.copy_from_slice(octets);
    cells
}

/// International mobile subscriber identity (TS 29.274 8.3).
#[repr(C)]
#[derive(Clone, Copy)]
pub struct Identity {
    /// How many digits, 6 to 15.
    pub count: u8,
    pub digits: [u8; 15],
}

/// An access point name (8.6): labels, each after an octet with its length.
#[repr(C)]
#[derive(Clone, Copy)]
pub struct Name {
    /// How many octets, 1 to 100.
    pub len: u8,
    pub octets: [u8; 100],
}

/// A cause (8.4).
#[repr(C)]
#[derive(Clone, Copy)]
pub struct CauseSaid {
    pub value: u8,
    /// 1 where the flag is set.
    pub pce: u8,
    pub bce: u8,
    pub cs: u8,
    /// 1 where an element at fault is named, and its type and instance.
    pub has_offending: u8,
    pub offending: u8,
    pub instance: u8,
}

/// An aggregate maximum bit rate (8.7), in kilobits a second.
#[repr(C)]
#[derive(Clone, Copy)]
pub struct TotalRates {
    pub up: u32,
    pub down: u32,
}

/// A PDN address allocation (8.14).
#[repr(C)]
#[derive(Clone, Copy)]
pub struct Allocation {
    /// The PDN type: 1 IPv4, 2 IPv6, 3 both; of another one nothing more is read.
    pub pdn: u8,
    /// The length of the IPv6 prefix, in bits.
    pub prefix: u8,
    pub v4: [u8; 4],
    pub v6: [u8; 16],
}

/// The digits of a network's codes (8.18): the last is 15 where the second code has two.
#[repr(C)]
#[derive(Clone, Copy)]
pub struct NetworkCodes {
    pub digits: [u8; 6],
}

/// A fully qualified tunnel endpoint identifier (8.22).
#[repr(C)]
#[derive(Clone, Copy)]
pub struct Tunnel {
    pub teid: u32,
    pub interface: u8,
    /// 1 where the address is there.
    pub has_v4: u8,
    pub has_v6: u8,
    pub v4: [u8; 4],
    pub v6: [u8; 16],
}

impl Identity {
    pub(crate) fn of(imsi: &Imsi) -> Identity
        ensures { IdentityIs imsi.now result }
    {
        let digits = imsi.digits();
        Identity {
            count: digits.len() as u8,
            digits: padded(digits),
        }
    }
}

impl Name {
    pub(crate) fn of(name: &Apn) -> Name
        ensures { NameIs name.now result }
    {
        let octets = name.octets();
        Name {
            len: octets.len() as u8,
            octets: padded(octets),
        }
    }
}

impl CauseSaid {
    pub(crate) fn of(cause: &Cause) -> CauseSaid
        ensures { CauseIs cause.now result }
    {
        let (has_offending, offending, instance) = match cause.offending {
            Some(element) => (1, element.kind, element.instance.number()),
            None => (0, 0, 0),
        };
        CauseSaid {
            value: cause.value,
            pce: bit(cause.pce),
            bce: bit(cause.bce),
            cs: bit(cause.cs),
            has_offending,
            offending,
            instance,
        }
    }
}

impl Quality {
    pub(crate) fn of(qos: &Qos) -> Quality
        ensures { QualityIs qos.now result }
    {
        Quality {
            mbr_up: qos.mbr.up.number(),
            mbr_down: qos.mbr.down.number(),
            gbr_up: qos.gbr.up.number(),
            gbr_down: qos.gbr.down.number(),
            pci: qos.pci,
            pl: qos.pl.number(),
            pvi: qos.pvi,
            qci: qos.qci,
        }
    }
}

impl Allocation {
    pub(crate) fn of(paa: &Paa) -> Allocation
        ensures { AllocationIs paa.now result }
    {
        match *paa {
            Paa::V4(v4) => Allocation {
                pdn: 1,
                prefix: 0,
                v4,
                v6: [0; 16],
            },
            Paa::V6 { prefix, address } => Allocation {
                pdn: 2,
                prefix,
                v4: [0; 4],
                v6: address,
            },
            Paa::V4V6 { prefix, v6, v4 } => Allocation {
                pdn: 3,
                prefix,
                v4,
                v6,
            },
            Paa::Other(other) => Allocation {
                pdn: other.number(),
                prefix: 0,
                v4: [0; 4],
                v6: [0; 16],
            },
        }
    }
}

impl Tunnel {
    pub(crate) fn of(end: &FTeid) -> Tunnel
        ensures { TunnelIs end.now result }
    {
        let (has_v4, v4) = match end.v4() {
            Some(octets) => (1, octets),
            None => (0, [0; 4]),
        };
        let (has_v6, v6) = match end.v6() {
            Some(octets) => (1, octets),
            None => (0, [0; 16]),
        };
        Tunnel {
            teid: end.teid().0,
            interface: end.interface().number(),
            has_v4,
            has_v6,
            v4,
            v6,
        }
    }
}

/// The digits of a network's codes.
pub(crate) fn digits_of(network: &Plmn) -> NetworkCodes
    ensures { NetworkIs network.now result }
{
    let [a, b, c] = padded::<3>(network.mcc());
    let mnc = network.mnc();
    let [d, e, f] = padded::<3>(mnc);
    let last = if mnc.len() == 2 { 15 } else { f };
    NetworkCodes {
        digits: [a, b, c, d, e, last],
    }
}
