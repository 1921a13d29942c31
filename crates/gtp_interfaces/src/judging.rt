//! Datagrams judged by the rules of an interface.

ghost use Rattle.std.specs.Prelude.{◌≡◌, map, IfOk, IfErr, Ok, Err};
ghost use Rattle.gtp_v2.specs.declared.fault.V2Fault.{V2Fault as AnyFault};
ghost use Rattle.gtp_v2.specs.reading.Lines.{asked_kept};
ghost use Rattle.gtp_v2.specs.Instances.{IsOfOctets};
ghost use Rattle.gtp_v2.specs.Pair.{DatagramValue, IsDatagramBy, IsDatagramFaultBy};
ghost use Rattle.gtp_user.specs.declared.fault.UserFault.{UserFault as AnyUserFault};
ghost use Rattle.gtp_user.specs.Message.{MessageValue};
ghost use Rattle.gtp_user.specs.Datagram.{IsUserMessageBy, IsUserFaultBy};
ghost use Rattle.gtp_interfaces.specs.Any.{any};
ghost use Rattle.gtp_interfaces.specs.S11.{s11};
ghost use Rattle.gtp_interfaces.specs.Interface.{asked_on, understood_on};

use crate::any::ANY;
use crate::extension_types::UNDERSTOOD;
use crate::interface::Interface;
use crate::s11::S11;
use gtp_user::UserFault;
use gtp_v2::{Others, Tables, V2Fault, view};

/// What is asked on S11.
fn tables_of_s11() -> Tables
    ensures tables { map asked_kept result.tables.now ≡ s11 }
    ensures others { result.others ≡ Others.Elements }
{
    S11
}

/// What is asked on each interface.
fn tables_of_any() -> Tables
    ensures tables { map asked_kept result.tables.now ≡ any }
    ensures others { result.others ≡ Others.Elements }
{
    ANY
}

/// That a datagram has no fault by the tables of S5/S8.
fn judge_s5s8(octets: &[u8]) -> Result<(), V2Fault>
    ensures found { IfOk result (λ _. (d : DatagramValue)
        × IsDatagramBy (asked_on Interface.S5S8) octets.now d) }
    ensures only { (d : DatagramValue) →
        IsDatagramBy (asked_on Interface.S5S8) octets.now d → result ≡ Ok tt }
    ensures first { (f : AnyFault) →
        IsDatagramFaultBy (asked_on Interface.S5S8) octets.now f → result ≡ Err f }
    ensures fault { IfErr result (λ f. IsDatagramFaultBy (asked_on Interface.S5S8) octets.now f) }
    ensures of_octets { IfErr result IsOfOctets }
{
    match view(octets) {
        Ok(_) => Ok(()),
        Err(fault) => Err(fault),
    }
}

/// That a datagram of the control plane is one message or two, each of which has what the interface asks of
/// its type; else its first fault. Takes no memory.
pub fn judge_control(interface: Interface, octets: &[u8]) -> Result<(), V2Fault>
    // What passes is spelled so.
    ensures found { IfOk result (λ _. (d : DatagramValue)
        × IsDatagramBy (asked_on interface) octets.now d) }
    // What is spelled so passes.
    ensures only { (d : DatagramValue) →
        IsDatagramBy (asked_on interface) octets.now d → result ≡ Ok tt }
    // The first fault is answered.
    ensures first { (f : AnyFault) →
        IsDatagramFaultBy (asked_on interface) octets.now f → result ≡ Err f }
    // A fault is the first one.
    ensures fault { IfErr result (λ f. IsDatagramFaultBy (asked_on interface) octets.now f) }
    // No fault is out of memory or too long.
    ensures of_octets { IfErr result IsOfOctets }
{
    match interface {
        Interface::S5S8 => judge_s5s8(octets),
        Interface::S11 => gtp_v2::judge(&tables_of_s11(), octets),
        Interface::Any => gtp_v2::judge(&tables_of_any(), octets),
    }
}

/// The types of extension headers that are understood on an interface.
fn understood(interface: Interface) -> &'static [u8]
    ensures { result.now ≡ understood_on interface }
{
    match interface {
        Interface::S5S8 => &[],
        Interface::S11 | Interface::Any => UNDERSTOOD,
    }
}

/// That a datagram of the user plane spells a message, by who understands what is understood on the interface;
/// else its first fault. Takes no memory.
pub fn judge_user(interface: Interface, octets: &[u8]) -> Result<(), UserFault>
    // What passes is spelled so.
    ensures found { IfOk result (λ _. (m : MessageValue)
        × IsUserMessageBy (understood_on interface) octets.now m) }
    // What is spelled so passes.
    ensures only { (m : MessageValue) →
        IsUserMessageBy (understood_on interface) octets.now m → result ≡ Ok tt }
    // A fault is the first one.
    ensures fault { IfErr result (λ f. IsUserFaultBy (understood_on interface) octets.now f) }
    // The first fault is answered.
    ensures first { (f : AnyUserFault) →
        IsUserFaultBy (understood_on interface) octets.now f → result ≡ Err f }
{
    gtp_user::judge(understood(interface), octets)
}
