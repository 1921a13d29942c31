//! Values that a scenario has as texts.

ghost use Rattle.std.specs.Prelude.{◌≡◌, option_map};
ghost use Rattle.gtp_scenario.specs.Steps.{Gives};
ghost use Rattle.gtp_scenario.specs.Texts.{imsi_of, apn_of, teid_of, octets_of, address_of, ipv6_of};

use crate::fault::Fault;
use gtp_values::{Apn, Imsi, Teid};
use hex::{FromHex, FromHexError};
use std::alloc::Global;
use std::net::Ipv4Addr;

/// A subscriber.
pub(crate) fn imsi_of(text: &str) -> Option<Imsi>
    ensures { result ≡ imsi_of text.now }
{
    Imsi::from_text(text).ok()
}

/// An access point name.
pub(crate) fn apn_of(text: &str) -> Option<Apn>
    ensures { result ≡ apn_of text.now }
{
    match Apn::from_text(text) {
        Ok(apn) => {
            // A name's octets are labels, by its type, so no other name has this text.
            prove!(apn.octets().len() <= 100);
            Some(apn)
        }
        Err(_) => None,
    }
}

/// A TEID.
pub(crate) fn teid_of(text: &str) -> Option<Teid>
    ensures { result ≡ teid_of text.now }
{
    Teid::from_text(text).ok()
}

/// An IPv4 address.
pub fn address_of(text: &str) -> Option<Ipv4Addr>
    ensures { option_map (λ address. address.octets) result ≡ address_of text.now }
{
    text.parse().ok()
}

/// An IPv6 address, as hexadecimal digits.
#[tactic(auto, unfolding(crate::specs::Texts::ipv6_of))]
pub fn ipv6_of(text: &str) -> Option<[u8; 16]>
    ensures { result ≡ ipv6_of text.now }
{
    <[u8; 16] as FromHex>::from_hex(text).ok()
}

/// Octets in hexadecimal digits.
#[tactic(auto, unfolding(crate::specs::Texts::octets_of))]
pub fn octets_of(alloc: Global, text: &str) -> Result<Vec<u8>, Fault>
    ensures { Gives (λ octets. octets.items) result (octets_of text.now) }
{
    match hex::decode(alloc, text) {
        Ok(octets) => Ok(octets),
        Err(FromHexError::OutOfMemory) => Err(Fault::Memory),
        Err(_) => Err(Fault::Wrong),
    }
}
