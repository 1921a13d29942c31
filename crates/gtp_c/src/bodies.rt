//! Bodies of elements, written to a caller's buffer: an export for each form. Each answers 0, and `size` says how many octets the
//! body has; 5 where they do not fit, and `size` says how many they are; 1 where C's value is no value of the form; 2 where an
//! allocation was refused.

ghost use Rattle.std.specs.Prelude.{◌≤◌, ◌<◌};
ghost use Rattle.gtp_ie.specs.Value.{OfImsi, OfCause, OfRecovery, OfApn, OfAmbr, OfEbi, OfPaa, OfQos, OfRat, OfPlmn, OfFTeid};
ghost use Rattle.gtp_ie.specs.Value.{OfChargingId, OfPdnType, OfPti, OfSelection};
ghost use Rattle.gtp_values.specs.Plmn.{IsNetwork};
ghost use Rattle.gtp_c.specs.Bodies.{IsBodyWritten, IsGoodIdentity, IsGoodName, IsGoodCause, IsGoodTunnel};
ghost use Rattle.gtp_c.specs.Bodies.{digits_at, labels_at, cause_at, total_at, allocation_at, tunnel_at};
ghost use Rattle.gtp_c.specs.Sessions.{IsGoodQuality, quality_at, network_in};

use crate::from_c::{below, octet_of};
use crate::session::{Quality, network_of};
use crate::status::{BAD_VALUE, NO_MEMORY};
use crate::values::{Allocation, CauseSaid, Identity, Name, NetworkCodes, TotalRates, Tunnel};
use crate::writing::write_parts;
use gtp_ie::{ChargingId, Counter, EbiValue, IeValue, PdnType, Pti, Rat, Recovery, Selection};
use std::alloc::Global;

/// Writes the body of a value.
fn write_value<T: IeValue>(alloc: Global, value: &T, buffer: &mut [u8], size: &mut u64) -> u8
    ensures { IsBodyWritten ⊥ (T.value value.now) buffer.old buffer.new size.old size.new result }
{
    let mut body = Vec::new(alloc);
    match value.write(&mut body) {
        Ok(()) => write_parts(buffer, 0, &[], body.as_slice(), size),
        Err(_) => NO_MEMORY,
    }
}

/// Writes the body of what C's value is, where it is one.
macro_rules! write_asked {
    ($alloc:ident, $buffer:ident, $size:ident, $asked:expr, $value:ident => $made:expr) => {
        match $asked {
            Some($value) => write_value($alloc, &$made, $buffer, $size),
            None => BAD_VALUE,
        }
    };
}

/// Writes the body of an IMSI, of type 1.
#[unsafe(no_mangle)]
pub extern "C" fn gtp_imsi_write(
    alloc: Global,
    buffer: &mut [u8],
    value: &Identity,
    size: &mut u64,
) -> u8
    ensures { IsBodyWritten (¬ IsGoodIdentity value.now) (OfImsi (digits_at value.now))
        buffer.old buffer.new size.old size.new result }
{
    write_asked!(alloc, buffer, size, value.imsi(), imsi => imsi)
}

/// Writes the body of a cause, of type 2.
#[unsafe(no_mangle)]
pub extern "C" fn gtp_cause_write(
    alloc: Global,
    buffer: &mut [u8],
    value: &CauseSaid,
    size: &mut u64,
) -> u8
    ensures { IsBodyWritten (¬ IsGoodCause value.now) (OfCause (cause_at value.now))
        buffer.old buffer.new size.old size.new result }
{
    write_asked!(alloc, buffer, size, value.cause(), cause => cause)
}

/// Writes the body of a restart counter, of type 3.
#[unsafe(no_mangle)]
pub extern "C" fn gtp_recovery_write(
    alloc: Global,
    buffer: &mut [u8],
    number: u32,
    size: &mut u64,
) -> u8
    ensures { IsBodyWritten (256 ≤ number) (OfRecovery number)
        buffer.old buffer.new size.old size.new result }
{
    write_asked!(alloc, buffer, size, octet_of(number), octet => Recovery(Counter(octet)))
}

/// Writes the body of an access point name, of type 71.
#[unsafe(no_mangle)]
pub extern "C" fn gtp_apn_write(
    alloc: Global,
    buffer: &mut [u8],
    value: &Name,
    size: &mut u64,
) -> u8
    ensures { IsBodyWritten (¬ IsGoodName value.now) (OfApn (labels_at value.now))
        buffer.old buffer.new size.old size.new result }
{
    write_asked!(alloc, buffer, size, value.apn(), name => name)
}

/// Writes the body of an aggregate maximum bit rate, of type 72.
#[unsafe(no_mangle)]
pub extern "C" fn gtp_ambr_write(
    alloc: Global,
    buffer: &mut [u8],
    value: &TotalRates,
    size: &mut u64,
) -> u8
    ensures { IsBodyWritten ⊥ (OfAmbr (total_at value.now))
        buffer.old buffer.new size.old size.new result }
{
    write_value(alloc, &value.ambr(), buffer, size)
}

/// Writes the body of an EPS bearer identity, of type 73.
#[unsafe(no_mangle)]
pub extern "C" fn gtp_ebi_write(alloc: Global, buffer: &mut [u8], number: u32, size: &mut u64) -> u8
    ensures { IsBodyWritten (16 ≤ number) (OfEbi number)
        buffer.old buffer.new size.old size.new result }
{
    write_asked!(alloc, buffer, size, below(number), small => EbiValue(small))
}

/// Writes the body of a PDN address allocation, of type 79.
#[unsafe(no_mangle)]
pub extern "C" fn gtp_paa_write(
    alloc: Global,
    buffer: &mut [u8],
    value: &Allocation,
    size: &mut u64,
) -> u8
    ensures { IsBodyWritten (8 ≤ value.now.pdn) (OfPaa (allocation_at value.now))
        buffer.old buffer.new size.old size.new result }
{
    write_asked!(alloc, buffer, size, value.paa(), paa => paa)
}

/// Writes the body of a bearer quality of service, of type 80.
#[unsafe(no_mangle)]
pub extern "C" fn gtp_qos_write(
    alloc: Global,
    buffer: &mut [u8],
    value: &Quality,
    size: &mut u64,
) -> u8
    ensures { IsBodyWritten (¬ IsGoodQuality value.now) (OfQos (quality_at value.now))
        buffer.old buffer.new size.old size.new result }
{
    write_asked!(alloc, buffer, size, value.qos(), qos => qos)
}

/// Writes the body of a radio access technology, of type 82.
#[unsafe(no_mangle)]
pub extern "C" fn gtp_rat_write(alloc: Global, buffer: &mut [u8], number: u32, size: &mut u64) -> u8
    ensures { IsBodyWritten (256 ≤ number) (OfRat number)
        buffer.old buffer.new size.old size.new result }
{
    write_asked!(alloc, buffer, size, octet_of(number), octet => Rat(octet))
}

/// Writes the body of a serving network, of type 83.
#[unsafe(no_mangle)]
pub extern "C" fn gtp_network_write(
    alloc: Global,
    buffer: &mut [u8],
    value: &NetworkCodes,
    size: &mut u64,
) -> u8
    ensures { IsBodyWritten (¬ IsNetwork (network_in value.now.digits)) (OfPlmn (network_in value.now.digits))
        buffer.old buffer.new size.old size.new result }
{
    write_asked!(alloc, buffer, size, network_of(&value.digits), network => network)
}

/// Writes the body of an F-TEID, of type 87.
#[unsafe(no_mangle)]
pub extern "C" fn gtp_fteid_write(
    alloc: Global,
    buffer: &mut [u8],
    value: &Tunnel,
    size: &mut u64,
) -> u8
    ensures { IsBodyWritten (¬ IsGoodTunnel value.now) (OfFTeid (tunnel_at value.now))
        buffer.old buffer.new size.old size.new result }
{
    write_asked!(alloc, buffer, size, value.fteid(), end => end)
}

/// Writes the body of a charging identifier, of type 94.
#[unsafe(no_mangle)]
pub extern "C" fn gtp_charging_id_write(
    alloc: Global,
    buffer: &mut [u8],
    number: u32,
    size: &mut u64,
) -> u8
    ensures { IsBodyWritten ⊥ (OfChargingId number)
        buffer.old buffer.new size.old size.new result }
{
    write_value(alloc, &ChargingId(number), buffer, size)
}

/// Writes the body of a PDN type, of type 99.
#[unsafe(no_mangle)]
pub extern "C" fn gtp_pdn_type_write(
    alloc: Global,
    buffer: &mut [u8],
    number: u32,
    size: &mut u64,
) -> u8
    ensures { IsBodyWritten (8 ≤ number) (OfPdnType number)
        buffer.old buffer.new size.old size.new result }
{
    write_asked!(alloc, buffer, size, below(number), small => PdnType(small))
}

/// Writes the body of a procedure transaction identity, of type 100.
#[unsafe(no_mangle)]
pub extern "C" fn gtp_pti_write(alloc: Global, buffer: &mut [u8], number: u32, size: &mut u64) -> u8
    ensures { IsBodyWritten (256 ≤ number) (OfPti number)
        buffer.old buffer.new size.old size.new result }
{
    write_asked!(alloc, buffer, size, octet_of(number), octet => Pti(octet))
}

/// Writes the body of a selection mode, of type 128.
#[unsafe(no_mangle)]
pub extern "C" fn gtp_selection_write(
    alloc: Global,
    buffer: &mut [u8],
    number: u32,
    size: &mut u64,
) -> u8
    ensures { IsBodyWritten (4 ≤ number) (OfSelection number)
        buffer.old buffer.new size.old size.new result }
{
    write_asked!(alloc, buffer, size, below(number), small => Selection(small))
}
