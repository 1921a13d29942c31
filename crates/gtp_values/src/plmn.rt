//! Networks.

ghost use Rattle.std.specs.Prelude.{◌≡◌, ◌<◌, ◌↔◌, All, IsOk, IfOk, IsErrOf};
ghost use Rattle.gtp_values.specs.Plmn.{IsNetwork, IsShortNetwork, IsLongNetwork, HasNetworkLengths};

use crate::fault::ValueFault;
use crate::octets::Octets;
use std::marker::Model;

/// A public land mobile network: a mobile country code (MCC) of three digits and a mobile network
/// code (MNC) of two or three (TS 29.274 8.18, TS 23.003 2.2). Contracts see it as a `Network`.
#[derive(Clone, Copy, Debug, PartialEq, Eq)]
pub struct Plmn {
    mcc: Octets<3>,
    mnc: Octets<3>,
}

impl Model for Plmn {
    ghost use Rattle.gtp_values.specs.Plmn.{Network, IsNetwork};

    ghost Value = { Network };

    ghost view = { λ a. record { mcc = a.mcc; mnc = a.mnc } };

    ghost invariant = { λ a. IsNetwork (record { mcc = a.mcc; mnc = a.mnc }) };

    ghost inverse = { λ n. record { mcc = n.mcc; mnc = n.mnc } };
}

impl Plmn {
    /// The network with these digits: `TooShort` for fewer than three and two, `TooLong` for more
    /// than three and three, `BadDigit` where one is above 9.
    pub fn try_new(mcc: &[u8], mnc: &[u8]) -> Result<Plmn, ValueFault>
        ensures ok { IsOk result ↔ IsNetwork (record { mcc = mcc.now; mnc = mnc.now }) }
        ensures value { IfOk result (λ plmn. plmn ≡ record { mcc = mcc.now; mnc = mnc.now }) }
        ensures short { IsErrOf result ValueFault.TooShort ↔ IsShortNetwork mcc.now mnc.now }
        ensures long { IsErrOf result ValueFault.TooLong
            ↔ (¬ IsShortNetwork mcc.now mnc.now × IsLongNetwork mcc.now mnc.now) }
        ensures digit { IsErrOf result ValueFault.BadDigit
            ↔ (HasNetworkLengths mcc.now mnc.now
            × ¬ (All (λ digit. digit < 10) mcc.now × All (λ digit. digit < 10) mnc.now)) }
    {
        if mcc.len() < 3 || mnc.len() < 2 {
            return Err(ValueFault::TooShort);
        }
        if mcc.len() > 3 || mnc.len() > 3 {
            return Err(ValueFault::TooLong);
        }
        if !mcc.iter().all(|digit| *digit < 10) || !mnc.iter().all(|digit| *digit < 10) {
            return Err(ValueFault::BadDigit);
        }
        Ok(Plmn::of(Octets::of(mcc), Octets::of(mnc)))
    }

    /// The network with these digits, which are those of one.
    pub fn of(mcc: Octets<3>, mnc: Octets<3>) -> Plmn
        requires { IsNetwork (record { mcc = mcc; mnc = mnc }) }
        ensures { result ≡ record { mcc = mcc; mnc = mnc } }
    {
        Plmn { mcc, mnc }
    }

    /// The digits of the mobile country code.
    pub fn mcc(&self) -> &[u8]
        ensures value { result.now ≡ self.now.mcc }
        ensures range { IsNetwork self.now }
    {
        self.mcc.as_slice()
    }

    /// The digits of the mobile network code.
    pub fn mnc(&self) -> &[u8]
        ensures value { result.now ≡ self.now.mnc }
        ensures range { IsNetwork self.now }
    {
        self.mnc.as_slice()
    }
}
