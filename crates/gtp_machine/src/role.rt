//! The two gateways of the S5/S8 interface.

ghost use Rattle.std.specs.Prelude.{◌≡◌};
ghost use Rattle.gtp_machine.specs.World.{other};

/// Serving gateway or packet gateway (TS 23.401 4.4.3).
#[derive(Clone, Copy, Debug, PartialEq, Eq)]
pub enum Role {
    Serving,
    Packet,
}

impl Role {
    /// The other gateway.
    pub fn other(self) -> Role
        ensures { result ≡ other self }
    {
        match self {
            Role::Serving => Role::Packet,
            Role::Packet => Role::Serving,
        }
    }
}
