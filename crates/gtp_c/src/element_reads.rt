//! What the bodies of elements say: an export for each form. Each answers 0 with what C is told; 10 where the body is below the
//! least length of its form, and 11 where it is long enough and says nothing.

ghost use Rattle.gtp_ie.specs.Value.{OfImsi, OfCause, OfApn, OfAmbr, OfPaa, OfQos, OfPlmn, OfFTeid};
ghost use Rattle.gtp_c.specs.Values.{IsTold, IsNumberTold, IdentityIs, NameIs, CauseIs, RatesAre, QualityIs};
ghost use Rattle.gtp_c.specs.Values.{NetworkIs, TunnelIs, AllocationIs};

use crate::session::Quality;
use crate::status::{DONE, NO_VALUE, SHORT_VALUE};
use crate::values::{
    Allocation, CauseSaid, Identity, Name, NetworkCodes, TotalRates, Tunnel, digits_of,
};
use gtp_ie::{
    Ambr, Apn, Cause, ChargingId, EbiValue, FTeid, IeValue, Imsi, Paa, PdnType, Plmn, Pti, Qos,
    Rat, ReadFault, Recovery, Selection,
};

/// What a reading of a body comes to: C is told what was read, or which status says why there is nothing.
macro_rules! tell {
    ($reading:expr, $told:ident, $read:ident => $value:expr) => {
        match $reading {
            Ok($read) => {
                *$told = $value;
                DONE
            }
            Err(ReadFault::Short) => SHORT_VALUE,
            Err(ReadFault::Bad) => NO_VALUE,
        }
    };
}

/// What the body of an IMSI, of type 1, says.
#[unsafe(no_mangle)]
pub extern "C" fn gtp_imsi_read(body: &[u8], value: &mut Identity) -> u8
    ensures { IsTold 1 OfImsi IdentityIs body.now value.old value.new result }
{
    tell!(Imsi::read(body), value, read => Identity::of(&read))
}

/// What the body of a cause, of type 2, says.
#[unsafe(no_mangle)]
pub extern "C" fn gtp_cause_read(body: &[u8], value: &mut CauseSaid) -> u8
    ensures { IsTold 2 OfCause CauseIs body.now value.old value.new result }
{
    tell!(Cause::read(body), value, read => CauseSaid::of(&read))
}

/// What the body of an access point name, of type 71, says.
#[unsafe(no_mangle)]
pub extern "C" fn gtp_apn_read(body: &[u8], value: &mut Name) -> u8
    ensures { IsTold 71 OfApn NameIs body.now value.old value.new result }
{
    tell!(Apn::read(body), value, read => Name::of(&read))
}

/// What the body of an aggregate maximum bit rate, of type 72, says.
#[unsafe(no_mangle)]
pub extern "C" fn gtp_ambr_read(body: &[u8], value: &mut TotalRates) -> u8
    ensures { IsTold 72 OfAmbr RatesAre body.now value.old value.new result }
{
    tell!(Ambr::read(body), value, read => TotalRates { up: read.up, down: read.down })
}

/// What the body of a PDN address allocation, of type 79, says.
#[unsafe(no_mangle)]
pub extern "C" fn gtp_paa_read(body: &[u8], value: &mut Allocation) -> u8
    ensures { IsTold 79 OfPaa AllocationIs body.now value.old value.new result }
{
    tell!(Paa::read(body), value, read => Allocation::of(&read))
}

/// What the body of a bearer quality of service, of type 80, says.
#[unsafe(no_mangle)]
pub extern "C" fn gtp_qos_read(body: &[u8], value: &mut Quality) -> u8
    ensures { IsTold 80 OfQos QualityIs body.now value.old value.new result }
{
    tell!(Qos::read(body), value, read => Quality::of(&read))
}

/// What the body of a serving network, of type 83, says.
#[unsafe(no_mangle)]
pub extern "C" fn gtp_network_read(body: &[u8], value: &mut NetworkCodes) -> u8
    ensures { IsTold 83 OfPlmn NetworkIs body.now value.old value.new result }
{
    tell!(Plmn::read(body), value, read => digits_of(&read))
}

/// What the body of an F-TEID, of type 87, says.
#[unsafe(no_mangle)]
pub extern "C" fn gtp_fteid_read(body: &[u8], value: &mut Tunnel) -> u8
    ensures { IsTold 87 OfFTeid TunnelIs body.now value.old value.new result }
{
    tell!(FTeid::read(body), value, read => Tunnel::of(&read))
}

/// What the body of a restart counter, of type 3, says.
#[unsafe(no_mangle)]
pub extern "C" fn gtp_recovery_read(body: &[u8], number: &mut u32) -> u8
    ensures { IsNumberTold 3 body.now number.old number.new result }
{
    tell!(Recovery::read(body), number, read => u32::from(read.0.0))
}

/// What the body of an EPS bearer identity, of type 73, says.
#[unsafe(no_mangle)]
pub extern "C" fn gtp_ebi_read(body: &[u8], number: &mut u32) -> u8
    ensures { IsNumberTold 73 body.now number.old number.new result }
{
    tell!(EbiValue::read(body), number, read => u32::from(read.0.number()))
}

/// What the body of a radio access technology, of type 82, says.
#[unsafe(no_mangle)]
pub extern "C" fn gtp_rat_read(body: &[u8], number: &mut u32) -> u8
    ensures { IsNumberTold 82 body.now number.old number.new result }
{
    tell!(Rat::read(body), number, read => u32::from(read.0))
}

/// What the body of a charging identifier, of type 94, says.
#[unsafe(no_mangle)]
pub extern "C" fn gtp_charging_id_read(body: &[u8], number: &mut u32) -> u8
    ensures { IsNumberTold 94 body.now number.old number.new result }
{
    tell!(ChargingId::read(body), number, read => read.0)
}

/// What the body of a PDN type, of type 99, says.
#[unsafe(no_mangle)]
pub extern "C" fn gtp_pdn_type_read(body: &[u8], number: &mut u32) -> u8
    ensures { IsNumberTold 99 body.now number.old number.new result }
{
    tell!(PdnType::read(body), number, read => u32::from(read.0.number()))
}

/// What the body of a procedure transaction identity, of type 100, says.
#[unsafe(no_mangle)]
pub extern "C" fn gtp_pti_read(body: &[u8], number: &mut u32) -> u8
    ensures { IsNumberTold 100 body.now number.old number.new result }
{
    tell!(Pti::read(body), number, read => u32::from(read.0))
}

/// What the body of a selection mode, of type 128, says.
#[unsafe(no_mangle)]
pub extern "C" fn gtp_selection_read(body: &[u8], number: &mut u32) -> u8
    ensures { IsNumberTold 128 body.now number.old number.new result }
{
    tell!(Selection::read(body), number, read => u32::from(read.0.number()))
}
