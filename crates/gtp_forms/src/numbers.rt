//! Numbers in octets, and bits of them.

ghost use Rattle.std.specs.Prelude.{◌≡◌};
ghost use Rattle.gtp_forms.specs.Numbers.{number, bits};
ghost use Rattle.gtp_forms.specs.Text.{are_zero as spec_are_zero};

use crate::form::Bits;
use byteorder::{BigEndian, ByteOrder};

/// The number in octets, the highest first; 0 of none, and of more than eight.
#[tactic(auto, unfolding(crate::specs::Numbers::number))]
pub fn number_in(octets: &[u8]) -> u64
    ensures { result ≡ number octets.now }
{
    if octets.len() == 0 {
        return 0;
    }
    if octets.len() > 8 {
        return 0;
    }
    BigEndian::read_uint(octets, octets.len())
}

/// Bits of a number.
#[tactic(auto, unfolding(crate::specs::Numbers::bits))]
pub fn bits_of(of: Bits, number: u64) -> u64
    ensures { result ≡ bits of number }
{
    if of.divisor == 0 {
        return 0;
    }
    let above = number / of.divisor;
    if of.modulus == 0 {
        return above;
    }
    above % of.modulus
}

/// Whether all octets are 0.
pub fn are_zero(octets: &[u8]) -> bool
    ensures { result ≡ spec_are_zero octets.now }
{
    for octet in octets {
        if *octet != 0 {
            return false;
        }
    }
    true
}
