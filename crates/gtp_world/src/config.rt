//! The settings of a world.

ghost use Rattle.std.specs.Prelude.{◌≡◌, ◌↔◌, ◌<◌, [], ◌∷◌, map, IsTrue, IsOk, IfOk, IfErr};
ghost use Rattle.gtp_values.specs.declared.fault.ValueFault.TheVariants.{OutOfRange};
ghost use Rattle.gtp_world.specs.Runs.{AreFacing};

use gtp_gateway::{Config, Counter, ValueFault};
use std::marker::Model;

/// The settings of both gateways, and their first restart counters.
#[derive(Debug, Drop)]
pub struct WorldConfig {
    serving: Config,
    packet: Config,
    serving_counter: Counter,
    packet_counter: Counter,
}

impl Model for WorldConfig {
    ghost use Rattle.std.specs.Prelude.{◌<◌};
    ghost use Rattle.gtp_world.specs.Runs.{Setup, AreFacing};

    ghost Value = { Setup };

    ghost view = { λ c. record {
      serving = c.serving;
      packet = c.packet;
      serving_counter = c.serving_counter.0;
      packet_counter = c.packet_counter.0;
    } };

    ghost invariant = { λ c.
        (c.serving_counter.0 < 256) × (c.packet_counter.0 < 256) × AreFacing c.serving c.packet };
}

/// Whether the peer addresses of each gateway are the own addresses of the other.
fn are_facing(serving: &Config, packet: &Config) -> bool
    ensures { IsTrue result ↔ AreFacing serving.now packet.now }
{
    serving.own() == packet.peer() && packet.own() == serving.peer()
}

/// Both counters, each of one octet. Beside two `Config`s the prover does not find that range.
fn each_of(counters: [Counter; 2]) -> (Counter, Counter)
    ensures values { map (λ k. k.0) counters ≡ result.0.0 ∷ result.1.0 ∷ [] }
    ensures range { (result.0.0 < 256) × (result.1.0 < 256) }
{
    let [serving, packet] = counters;
    (serving, packet)
}

impl WorldConfig {
    /// The settings of the serving and of the packet gateway, and their restart counters in this order: `OutOfRange`
    /// unless the peer addresses of each gateway are the own addresses of the other.
    pub fn try_new(
        serving: Config,
        packet: Config,
        counters: [Counter; 2],
    ) -> Result<WorldConfig, ValueFault>
        ensures ok { IsOk result ↔ AreFacing serving packet }
        ensures serving { IfOk result (λ c. c.serving ≡ serving) }
        ensures packet { IfOk result (λ c. c.packet ≡ packet) }
        ensures counters { IfOk result (λ c. map (λ k. k.0) counters
            ≡ c.serving_counter ∷ c.packet_counter ∷ []) }
        ensures fault { IfErr result (λ f. f ≡ OutOfRange) }
    {
        if !are_facing(&serving, &packet) {
            return Err(ValueFault::OutOfRange);
        }
        let (serving_counter, packet_counter) = each_of(counters);
        Ok(WorldConfig {
            serving,
            packet,
            serving_counter,
            packet_counter,
        })
    }

    /// The settings of the serving gateway.
    pub fn serving(&self) -> &Config
        ensures config { result.now ≡ self.now.serving }
        // The peer addresses of each gateway are the own addresses of the other.
        ensures always { AreFacing self.now.serving self.now.packet }
    {
        &self.serving
    }

    /// The settings of the packet gateway.
    pub fn packet(&self) -> &Config
        ensures { result.now ≡ self.now.packet }
    {
        &self.packet
    }

    /// The first restart counter of the serving gateway.
    pub fn serving_counter(&self) -> Counter
        ensures value { result.0 ≡ self.now.serving_counter }
    {
        self.serving_counter
    }

    /// The first restart counter of the packet gateway.
    pub fn packet_counter(&self) -> Counter
        ensures value { result.0 ≡ self.now.packet_counter }
    {
        self.packet_counter
    }
}
