//! Addresses and ends, as C has them.

ghost use Rattle.std.specs.Prelude.{◌≡◌, ◌↔◌, ◌<◌, Some, None, IfSome, take};
ghost use Rattle.gtp_c.specs.Ends.{ip_at, endpoint_at, plane_at};

use gtp_gateway::{Endpoint, Ip, Plane};

/// An address: of IP version 4 its four octets come first, of version 6 it has sixteen.
#[repr(C)]
#[derive(Clone, Copy)]
pub struct Address {
    /// 4 or 6.
    pub version: u8,
    pub octets: [u8; 16],
}

/// Where a datagram comes from or goes to.
#[repr(C)]
#[derive(Clone, Copy)]
pub struct End {
    pub address: Address,
    /// The UDP port.
    pub port: u16,
}

/// The first four octets.
fn first_four(octets: &[u8; 16]) -> [u8; 4]
    ensures { result ≡ take 4 octets.now }
{
    let mut cells = [0u8; 4];
    cells.copy_from_slice(&octets[..4]);
    cells
}

impl Address {
    /// The address, where the version is 4 or 6.
    pub(crate) fn ip(&self) -> Option<Ip>
        ensures { result ≡ ip_at self.now }
    {
        match self.version {
            4 => Some(Ip::V4(first_four(&self.octets))),
            6 => Some(Ip::V6(self.octets)),
            _ => None,
        }
    }

    /// No address.
    pub(crate) fn none() -> Address
        ensures { result.version ≡ 0 }
    {
        Address {
            version: 0,
            octets: [0; 16],
        }
    }

    /// An address, as C has it.
    pub(crate) fn of(ip: Ip) -> Address
        ensures { ip_at result ≡ Some ip }
    {
        match ip {
            Ip::V4(octets) => {
                let [a, b, c, d] = octets;
                Address {
                    version: 4,
                    octets: [a, b, c, d, 0, 0, 0, 0, 0, 0, 0, 0, 0, 0, 0, 0],
                }
            }
            Ip::V6(octets) => Address { version: 6, octets },
        }
    }
}

impl End {
    /// The end, where its address is one.
    pub(crate) fn endpoint(&self) -> Option<Endpoint>
        ensures { result ≡ endpoint_at self.now }
    {
        let ip = self.address.ip()?;
        Some(Endpoint {
            ip,
            port: self.port,
        })
    }

    /// An end, as C has it.
    pub(crate) fn of(end: Endpoint) -> End
        ensures { endpoint_at result ≡ Some end }
    {
        End {
            address: Address::of(end.ip),
            port: end.port,
        }
    }
}

/// The plane of this number.
pub(crate) fn plane_of(number: u8) -> Option<Plane>
    ensures some { IfSome result (λ plane. plane_at plane ≡ number) }
    ensures none { (result ≡ None) ↔ (1 < number) }
{
    match number {
        0 => Some(Plane::Control),
        1 => Some(Plane::User),
        _ => None,
    }
}

/// The number of a plane.
pub(crate) fn plane_number(plane: Plane) -> u8
    ensures { result ≡ plane_at plane }
{
    match plane {
        Plane::Control => 0,
        Plane::User => 1,
    }
}
