//! Pieces of text, appended to a buffer.

ghost use Rattle.std.specs.Prelude.{◌≡◌, ◌<◌, ◌++◌, All, OnOk, IfSome};
ghost use Rattle.hex.specs.Hex.{encode_lower};
ghost use Rattle.std.specs.Net.Text.{ipv4_text};
ghost use Rattle.gtp_values.specs.Address.{ip_text};
ghost use Rattle.gtp_values.specs.Imsi.{digits_text};
ghost use Rattle.gtp_values.specs.Teid.{teid_text};
ghost use Rattle.gtp_lines.specs.Text.{octets_text};

use crate::values::put_field;
pub use gtp_forms::text::{put, put_number};
use gtp_values::{Ip, Teid};
use std::alloc::AllocError;
use std::fmt::Display;

/// Appends octets in lower case hexadecimal.
pub fn put_hex(out: &mut Vec<u8>, octets: &[u8]) -> Result<(), AllocError>
    ensures ok { OnOk result (out.new.items ≡ out.old.items ++ encode_lower octets.now) }
{
    for octet in octets {
        let mut digits = [0u8; 2];
        let _ = hex::encode_to_slice([*octet].as_slice(), &mut digits);
        out.extend_from_slice(&digits)?;
    }
    Ok(())
}

/// Appends octets in lower case hexadecimal, or a mark that there are none.
pub fn put_octets(out: &mut Vec<u8>, octets: &[u8]) -> Result<(), AllocError>
    ensures ok { OnOk result (out.new.items ≡ out.old.items ++ octets_text octets.now) }
{
    if octets.is_empty() {
        put(out, b"-")
    } else {
        put_hex(out, octets)
    }
}

/// Appends a tunnel endpoint identifier.
pub fn put_teid(out: &mut Vec<u8>, teid: Teid) -> Result<(), AllocError>
    ensures ok { OnOk result (out.new.items ≡ out.old.items ++ teid_text teid) }
{
    put_hex(out, &teid.0.to_be_bytes())
}

/// Appends an address of version 4. Takes no memory of its own.
#[tactic(auto, using(crate::proofs::Appends::appending))]
pub fn put_v4(out: &mut Vec<u8>, address: &[u8; 4]) -> Result<(), AllocError>
    ensures ok { OnOk result (out.new.items ≡ out.old.items ++ ipv4_text address.now) }
{
    put_number(out, u64::from(address[0]))?;
    put_field(out, b".", u64::from(address[1]))?;
    put_field(out, b".", u64::from(address[2]))?;
    put_field(out, b".", u64::from(address[3]))
}

/// Appends an address. Takes no memory of its own.
pub fn put_ip(out: &mut Vec<u8>, ip: &Ip) -> Result<(), AllocError>
    ensures ok { OnOk result (out.new.items ≡ out.old.items ++ ip_text ip.now) }
{
    match ip {
        Ip::V4(address) => put_v4(out, address),
        Ip::V6(address) => put_hex(out, address),
    }
}

/// Appends what a value displays.
pub fn put_display<D: Display>(out: &mut Vec<u8>, value: &D) -> Result<(), AllocError>
    ensures ok { OnOk result
        (IfSome (D.Display.output value.now) (λ text. out.new.items ≡ out.old.items ++ text)) }
{
    let text = value.to_string(*out.allocator())?;
    put(out, text.as_bytes())
}

/// Appends decimal digits.
pub fn put_digits(out: &mut Vec<u8>, digits: &[u8]) -> Result<(), AllocError>
    requires { All (λ digit. digit < 10) digits.now }
    ensures ok { OnOk result (out.new.items ≡ out.old.items ++ digits_text digits.now) }
{
    for digit in digits {
        out.push(b'0' + *digit)?;
    }
    Ok(())
}
