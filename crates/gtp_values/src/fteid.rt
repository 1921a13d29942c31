//! Tunnel ends.

ghost use Rattle.std.specs.Prelude.{◌≡◌, ◌<◌, ◌↔◌, ◌||◌, IsTrue, IsOk, IfOk, IfErr, is_some};
ghost use Rattle.gtp_values.specs.declared.fault.ValueFault.TheVariants.{OutOfRange};
ghost use Rattle.gtp_values.specs.TunnelEnd.{IsTunnelEnd, HasAddress};

use crate::address::Ip;
use crate::below::Below;
use crate::fault::ValueFault;
use crate::identifiers::Teid;
use std::marker::Model;

/// A fully qualified tunnel endpoint identifier (F-TEID): an interface type below 64, a TEID and at
/// least one address (TS 29.274 8.22). Contracts see it as a `TunnelEnd`.
#[derive(Clone, Copy, Debug, PartialEq, Eq)]
pub struct FTeid {
    interface: Below<64>,
    teid: Teid,
    v4: Option<[u8; 4]>,
    v6: Option<[u8; 16]>,
}

impl Model for FTeid {
    ghost use Rattle.gtp_values.specs.TunnelEnd.{TunnelEnd, IsTunnelEnd};

    ghost Value = { TunnelEnd };

    ghost view = { λ a. record { interface = a.interface; teid = a.teid; v4 = a.v4; v6 = a.v6 } };

    ghost invariant = { λ a. IsTunnelEnd (record
        { interface = a.interface; teid = a.teid; v4 = a.v4; v6 = a.v6 }) };

    ghost inverse = { λ e. record {
      interface = e.interface;
      teid = e.teid;
      v4 = e.v4;
      v6 = e.v6;
    } };
}

impl FTeid {
    /// The tunnel end of these parts, `OutOfRange` for an interface type above 63 or where there is
    /// no address.
    pub fn try_new(
        interface: u8,
        teid: Teid,
        v4: Option<[u8; 4]>,
        v6: Option<[u8; 16]>,
    ) -> Result<FTeid, ValueFault>
        ensures ok { IsOk result ↔ ((interface < 64) × IsTrue (is_some v4 || is_some v6)) }
        ensures value { IfOk result
            (λ end. end ≡ record { interface = interface; teid = teid; v4 = v4; v6 = v6 }) }
        ensures fault { IfErr result (λ f. f ≡ OutOfRange) }
    {
        if interface >= 64 || (v4.is_none() && v6.is_none()) {
            return Err(ValueFault::OutOfRange);
        }
        Ok(FTeid::of(Below::new(interface), teid, v4, v6))
    }

    /// The tunnel end of these parts, of which one is an address.
    pub fn of(interface: Below<64>, teid: Teid, v4: Option<[u8; 4]>, v6: Option<[u8; 16]>) -> FTeid
        requires { IsTrue (is_some v4 || is_some v6) }
        ensures { result ≡ record { interface = interface; teid = teid; v4 = v4; v6 = v6 } }
    {
        FTeid {
            interface,
            teid,
            v4,
            v6,
        }
    }

    /// The tunnel end of one address. It takes any interface type, so it can't be refused.
    pub fn new(interface: Below<64>, teid: Teid, address: Ip) -> FTeid
        ensures interface { result.interface ≡ interface }
        ensures teid { result.teid ≡ teid }
        ensures address { HasAddress result address }
    {
        let (v4, v6) = match address {
            Ip::V4(octets) => (Some(octets), None),
            Ip::V6(octets) => (None, Some(octets)),
        };
        FTeid::of(interface, teid, v4, v6)
    }

    /// The interface type (table 8.22-1).
    pub fn interface(&self) -> Below<64>
        ensures value { result ≡ self.now.interface }
        ensures range { IsTunnelEnd self.now }
    {
        self.interface
    }

    /// The identifier.
    pub fn teid(&self) -> Teid
        ensures { result ≡ self.now.teid }
    {
        self.teid
    }

    /// The address of version 4, where there is one.
    pub fn v4(&self) -> Option<[u8; 4]>
        ensures { result ≡ self.now.v4 }
    {
        self.v4
    }

    /// The address of version 6, where there is one.
    pub fn v6(&self) -> Option<[u8; 16]>
        ensures { result ≡ self.now.v6 }
    {
        self.v6
    }
}
