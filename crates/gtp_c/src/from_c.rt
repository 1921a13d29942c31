//! The values that C's structs say, or none.

ghost use Rattle.std.specs.Prelude.{◌≡◌, ◌↔◌, ◌<◌, IsSome, IfSome};
ghost use Rattle.gtp_c.specs.Bodies.{IsGoodIdentity, IsGoodName, IsGoodCause, IsGoodTunnel, where_set};
ghost use Rattle.gtp_c.specs.Bodies.{digits_at, labels_at, cause_at, offending_at, total_at, allocation_at, tunnel_at};

use crate::values::{Allocation, CauseSaid, Identity, Name, TotalRates, Tunnel};
use gtp_ie::{Ambr, Apn, Below, Cause, FTeid, Imsi, Offending, OtherPdnType, Paa, Teid};

/// The TEID of a number.
pub(crate) fn teid_of(number: u32) -> Teid
    ensures { result ≡ number }
{
    Teid(number)
}

/// The number of a TEID.
pub(crate) fn number_of_teid(teid: Teid) -> u32
    ensures { result ≡ teid }
{
    teid.0
}

/// The number as an octet.
pub(crate) fn octet_of(number: u32) -> Option<u8>
    ensures some { IsSome result ↔ (number < 256) }
    ensures value { IfSome result (λ octet. octet ≡ number) }
{
    if number < 256 {
        Some(number as u8)
    } else {
        None
    }
}

/// The number, where it is below `N`.
pub(crate) fn below<const N: u8>(number: u32) -> Option<Below<N>>
    ensures some { IsSome result ↔ (number < N) }
    ensures value { IfSome result (λ small. small ≡ number) }
{
    let octet = octet_of(number)?;
    match Below::try_new(octet) {
        Ok(small) => Some(small),
        Err(_) => None,
    }
}

impl Identity {
    /// The identity with these digits.
    pub(crate) fn imsi(&self) -> Option<Imsi>
        ensures some { IsSome result ↔ IsGoodIdentity self.now }
        ensures value { IfSome result (λ imsi. imsi ≡ digits_at self.now) }
    {
        let count = usize::from(self.count);
        if count > 15 {
            return None;
        }
        match Imsi::try_new(&self.digits[..count]) {
            Ok(imsi) => Some(imsi),
            Err(_) => None,
        }
    }
}

impl Name {
    /// The name with these labels.
    pub(crate) fn apn(&self) -> Option<Apn>
        ensures some { IsSome result ↔ IsGoodName self.now }
        ensures value { IfSome result (λ name. name ≡ labels_at self.now) }
    {
        let len = usize::from(self.len);
        if len > 100 {
            return None;
        }
        match Apn::try_new(&self.octets[..len]) {
            Ok(name) => Some(name),
            Err(_) => None,
        }
    }
}

impl CauseSaid {
    /// The cause with these parts.
    pub(crate) fn cause(&self) -> Option<Cause>
        ensures some { IsSome result ↔ IsGoodCause self.now }
        ensures value { IfSome result (λ cause. cause ≡ cause_at self.now) }
    {
        let mut cause = Cause {
            value: self.value,
            pce: self.pce != 0,
            bce: self.bce != 0,
            cs: self.cs != 0,
            offending: None,
        };
        if self.has_offending == 0 {
            return Some(cause);
        }
        match Below::try_new(self.instance) {
            Ok(instance) => {
                cause.offending = Some(Offending {
                    kind: self.offending,
                    instance,
                });
                Some(cause)
            }
            Err(_) => None,
        }
    }
}

impl TotalRates {
    /// The rates.
    pub(crate) fn ambr(&self) -> Ambr
        ensures { result ≡ total_at self.now }
    {
        Ambr {
            up: self.up,
            down: self.down,
        }
    }
}

impl Allocation {
    /// The allocation of this PDN type.
    pub(crate) fn paa(&self) -> Option<Paa>
        ensures some { IsSome result ↔ (self.now.pdn < 8) }
        ensures value { IfSome result (λ paa. paa ≡ allocation_at self.now) }
    {
        match self.pdn {
            1 => Some(Paa::V4(self.v4)),
            2 => Some(Paa::V6 {
                prefix: self.prefix,
                address: self.v6,
            }),
            3 => Some(Paa::V4V6 {
                prefix: self.prefix,
                v6: self.v6,
                v4: self.v4,
            }),
            other => match OtherPdnType::try_new(other) {
                Ok(other) => Some(Paa::Other(other)),
                Err(_) => None,
            },
        }
    }
}

/// An address of version 4 where C says that there is one.
fn v4_where(has: u8, octets: [u8; 4]) -> Option<[u8; 4]>
    ensures { result ≡ where_set has octets }
{
    if has == 0 { None } else { Some(octets) }
}

/// An address of version 6 where C says that there is one.
fn v6_where(has: u8, octets: [u8; 16]) -> Option<[u8; 16]>
    ensures { result ≡ where_set has octets }
{
    if has == 0 { None } else { Some(octets) }
}

impl Tunnel {
    /// The tunnel end with these parts.
    pub(crate) fn fteid(&self) -> Option<FTeid>
        ensures some { IsSome result ↔ IsGoodTunnel self.now }
        ensures value { IfSome result (λ end. end ≡ tunnel_at self.now) }
    {
        let v4 = v4_where(self.has_v4, self.v4);
        let v6 = v6_where(self.has_v6, self.v6);
        match FTeid::try_new(self.interface, teid_of(self.teid), v4, v6) {
            Ok(end) => Some(end),
            Err(_) => None,
        }
    }
}
