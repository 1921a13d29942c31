//! Addresses of gateways.

ghost use Rattle.std.specs.Prelude.{◌<◌, Some};
ghost use Rattle.gtp_values.specs.Address.{ReadsIp, ip_text};

use crate::fault::ValueFault;
use crate::hexadecimal::write_digits;
use std::fmt;
use std::net::Ipv4Addr;
use std::str::FromStr;

/// An address of IP version 4 (RFC 791) or 6 (RFC 4291), its octets in the order in which they are
/// sent.
#[derive(Clone, Copy, Debug, PartialEq, Eq, PartialOrd, Ord)]
pub enum Ip {
    V4([u8; 4]),
    V6([u8; 16]),
}

/// Where a datagram comes from or goes to: an address and a UDP port (TS 29.274 4.2, TS 29.281 4.4.2).
#[derive(Clone, Copy, Debug, PartialEq, Eq, PartialOrd, Ord)]
pub struct Endpoint {
    /// The IP address.
    pub ip: Ip,
    /// The UDP port.
    pub port: u16,
}

impl Ip {
    /// The address that a text writes, in dotted decimal for version 4 or by 32 hexadecimal digits
    /// of either case for version 6: `TooShort` below 7 octets, `TooLong` above 32, `BadDigit`
    /// where it's neither.
    pub fn from_text(text: &str) -> Result<Ip, ValueFault>
        ensures { ReadsIp text.now result }
    {
        if text.len() < 7 {
            return Err(ValueFault::TooShort);
        }
        if text.len() > 32 {
            return Err(ValueFault::TooLong);
        }
        if let Ok(address) = text.parse::<Ipv4Addr>() {
            return Ok(Ip::V4(address.octets()));
        }
        let mut octets = [0u8; 16];
        match hex::decode_to_slice(text, &mut octets) {
            Ok(()) => Ok(Ip::V6(octets)),
            Err(_) => Err(ValueFault::BadDigit),
        }
    }
}

/// Dotted decimal for version 4, 32 hexadecimal digits for version 6.
impl fmt::Display for Ip {
    ghost output = { λ ip. Some (ip_text ip) };

    fn fmt<W: fmt::Write>(&self, f: &mut fmt::Formatter<W>) -> fmt::Result {
        let ip = *self;
        match ip {
            Ip::V4(octets) => f.write(Ipv4Addr::from(octets)),
            Ip::V6(octets) => write_digits(f, &octets, &mut [0; 32]),
        }
    }
}

impl FromStr for Ip {
    type Err = ValueFault;

    ghost from_str_gives = { ReadsIp };

    fn from_str(text: &str) -> Result<Ip, ValueFault> {
        Ip::from_text(text)
    }
}
