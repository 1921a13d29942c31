//! The two gateways of a world, by their roles.

use crate::simulated_gateway::SimulatedGateway;
use gtp_gateway::Role;

/// The serving and the packet gateway.
#[derive(Drop)]
pub struct Gateways {
    pub serving: SimulatedGateway,
    pub packet: SimulatedGateway,
}

impl Gateways {
    ghost use Rattle.std.specs.Prelude.{◌≡◌};
    ghost use Rattle.std.specs.Borrow.{sem};
    ghost use Rattle.gtp_world.specs.Gateways.{side_of, LendsSide};

    /// The gateway of a role.
    pub fn get(&self, role: Role) -> &SimulatedGateway
        ensures { result.now ≡ side_of role self.now }
    {
        match role {
            Role::Serving => &self.serving,
            Role::Packet => &self.packet,
        }
    }

    /// The gateway of a role, to be changed: the other one stays as it is.
    pub fn get_mut(&mut self, role: Role) -> &mut SimulatedGateway
        ensures* writes_back { sem 𝓛 (LendsSide role self.entry result) }
        ensures value { result.now ≡ side_of role self.old }
    {
        match role {
            Role::Serving => &mut self.serving,
            Role::Packet => &mut self.packet,
        }
    }
}
