//! The ports of GTP.

ghost use Rattle.std.specs.Prelude.{◌≡◌, None};
ghost use Rattle.gtp_capture.specs.Packet.{is_port, plane_at};

use gtp_values::Plane;

/// The ports that count beside 2123 (control) and 2152 (user).
#[derive(Clone, Copy, Debug, PartialEq, Eq)]
pub struct Ports {
    pub control: Option<u16>,
    pub user: Option<u16>,
}

impl Ports {
    /// None beside 2123 and 2152.
    pub fn standard() -> Ports
        ensures { result ≡ record { control = None; user = None } }
    {
        Ports {
            control: None,
            user: None,
        }
    }
}

/// Whether a port is the standard one or the further one.
fn is_gtp(standard: u16, further: Option<u16>, port: u16) -> bool
    ensures { result ≡ is_port standard further port }
{
    match further {
        Some(further) => port == standard || port == further,
        None => port == standard,
    }
}

/// The plane by the ports: control has 2123 (TS 29.274 4.2.1), user 2152 (TS 29.281 4.4.2), or the further port.
pub fn plane_of(ports: Ports, from: u16, to: u16) -> Option<Plane>
    ensures { result ≡ plane_at ports from to }
{
    if is_gtp(2123, ports.control, from) || is_gtp(2123, ports.control, to) {
        return Some(Plane::Control);
    }
    if is_gtp(2152, ports.user, from) || is_gtp(2152, ports.user, to) {
        return Some(Plane::User);
    }
    None
}
