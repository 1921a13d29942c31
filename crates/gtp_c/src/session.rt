//! With what a session or a bearer is asked for, as C says it.

ghost use Rattle.std.specs.Prelude.{◌≡◌, ◌↔◌, ◌<◌, ◌^◌, IsSome, IfSome};
ghost use Rattle.gtp_values.specs.Apn.{apn_text, IsApnText};
ghost use Rattle.gtp_values.specs.Ebi.{IsEbi};
ghost use Rattle.gtp_values.specs.Plmn.{IsNetwork};
ghost use Rattle.gtp_c.specs.Bodies.{IsGoodIdentity};
ghost use Rattle.gtp_c.specs.Sessions.{rates_at, quality_at, network_in, IsSubscriber, IsSpecified};
ghost use Rattle.gtp_c.specs.Sessions.{IsGoodQuality, IsGoodSession};

use crate::values::Identity;
use gtp_gateway::{Ambr, Apn, Ebi, PdnType, Plmn, Qos, Rat, Selection, SessionSpec, Subscriber};
use gtp_values::{Below, Rate, Rates};

/// The quality of service of a bearer (TS 29.274 8.15). Rates are in kilobits a second.
#[repr(C)]
#[derive(Clone, Copy)]
pub struct Quality {
    pub mbr_up: u64,
    pub mbr_down: u64,
    pub gbr_up: u64,
    pub gbr_down: u64,
    pub pci: bool,
    pub pl: u8,
    pub pvi: bool,
    pub qci: u8,
}

/// With what a session is asked for (TS 29.274 table 7.2.1-1).
#[repr(C)]
pub struct Session {
    pub quality: Quality,
    pub ambr_up: u32,
    pub ambr_down: u32,
    /// The digits of the network's codes: 001 and 01 are 0, 0, 1 and 0, 1, 15.
    pub network: [u8; 6],
    pub identity: u8,
    pub rat: u8,
    pub selection: u8,
    pub pdn: u8,
}

/// The bit rates of two numbers.
fn rates_of(up: u64, down: u64) -> Option<Rates>
    ensures some { IsSome result ↔ ((up < 2 ^ 40) × (down < 2 ^ 40)) }
    ensures value { IfSome result (λ rates. rates ≡ rates_at up down) }
{
    let Ok(up) = Rate::try_new(up) else {
        return None;
    };
    let Ok(down) = Rate::try_new(down) else {
        return None;
    };
    Some(Rates { up, down })
}

impl Quality {
    /// The quality, where its numbers are in their ranges.
    pub(crate) fn qos(&self) -> Option<Qos>
        ensures some { IsSome result ↔ IsGoodQuality self.now }
        ensures value { IfSome result (λ qos. qos ≡ quality_at self.now) }
    {
        let mbr = rates_of(self.mbr_up, self.mbr_down)?;
        let gbr = rates_of(self.gbr_up, self.gbr_down)?;
        let Ok(pl) = Below::try_new(self.pl) else {
            return None;
        };
        Some(Qos {
            pci: self.pci,
            pl,
            pvi: self.pvi,
            qci: self.qci,
            mbr,
            gbr,
        })
    }
}

/// The network of these digits: the last is 15 where the second code has two.
pub(crate) fn network_of(digits: &[u8; 6]) -> Option<Plmn>
    ensures some { IsSome result ↔ IsNetwork (network_in digits.now) }
    ensures value { IfSome result (λ network. network ≡ network_in digits.now) }
{
    let [a, b, c, d, e, last] = *digits;
    let second = [d, e, last];
    let count = if last == 15 { 2 } else { 3 };
    match Plmn::try_new(&[a, b, c], &second[..count]) {
        Ok(network) => Some(network),
        Err(_) => None,
    }
}

/// The name that a text writes.
pub(crate) fn access_point_of(octets: &[u8]) -> Option<Apn>
    ensures some { IsSome result ↔ IsApnText octets.now }
    ensures value { IfSome result (λ name. apn_text name ≡ octets.now) }
{
    let Ok(text) = std::str::from_utf8(octets) else {
        return None;
    };
    match Apn::from_text(text) {
        Ok(name) => Some(name),
        Err(_) => None,
    }
}

/// Who asks.
fn subscriber_of(identity: u8, imsi: &Identity, access_point: &[u8]) -> Option<Subscriber>
    ensures some { IsSome result
        ↔ (IsGoodIdentity imsi.now × IsApnText access_point.now × IsEbi identity) }
    ensures value { IfSome result (IsSubscriber identity imsi.now access_point.now) }
{
    let imsi = imsi.imsi()?;
    let Some(access_point) = access_point_of(access_point) else {
        return None;
    };
    match Ebi::try_new(identity) {
        Ok(identity) => Some(Subscriber {
            imsi,
            access_point,
            identity,
        }),
        Err(_) => None,
    }
}

impl Session {
    /// The session that is asked for.
    pub(crate) fn specification(&self, imsi: &Identity, access_point: &[u8]) -> Option<SessionSpec>
        ensures some { IsSome result ↔ IsGoodSession self.now imsi.now access_point.now }
        ensures value { IfSome result (IsSpecified self.now imsi.now access_point.now) }
    {
        let subscriber = subscriber_of(self.identity, imsi, access_point)?;
        let plmn = network_of(&self.network)?;
        let qos = self.quality.qos()?;
        let Ok(selection) = Below::try_new(self.selection) else {
            return None;
        };
        let Ok(pdn) = Below::try_new(self.pdn) else {
            return None;
        };
        Some(SessionSpec {
            subscriber,
            plmn,
            rat: Rat(self.rat),
            selection: Selection(selection),
            pdn: PdnType(pdn),
            ambr: Ambr {
                up: self.ambr_up,
                down: self.ambr_down,
            },
            qos,
        })
    }
}
