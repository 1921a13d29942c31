//! The settings of a gateway.

pub mod access_points;

ghost use Rattle.std.specs.Prelude.{◌≡◌, ◌↔◌, IsTrue, IsOk, IfOk, IfErr};
ghost use Rattle.gtp_values.specs.FiniteMap.{Among};
ghost use Rattle.gtp_values.specs.declared.fault.ValueFault.TheVariants.{OutOfRange};
ghost use Rattle.gtp_tables.specs.Pool.{ArePrefixes, no_prefixes};
ghost use Rattle.gtp_machine.specs.Config.{template_for, access_point_for};
ghost use Rattle.gtp_gateway.specs.Settings.{settings_of, switched, with_prefixes, AreSettings, template_by, templates_in, with_template};

use crate::config::access_points::{Template, meant_among, place_of, template_at};
use gtp_machine::Switches;
use gtp_tables::{Pool, Pools, Prefixes};
use gtp_values::{Apn, Ip, Memory, Qos, Tft, ValueFault};
use std::alloc::Global;
use std::marker::Model;

/// The most access points that a gateway is configured for.
const MOST_ACCESS_POINTS: usize = 16;

/// The address of a gateway on each plane.
#[derive(Clone, Copy, Debug, PartialEq, Eq)]
pub struct Addresses {
    pub control: Ip,
    pub user: Ip,
}

/// The times of reliable delivery, in ticks, and its number of repeats (TS 29.274 7.6). The caller decides how long a
/// tick is. The default is 3, 3 and 60.
#[derive(Clone, Copy, Debug, PartialEq, Eq)]
pub struct Timers {
    /// T3-RESPONSE: the ticks without an answer after which a request is sent again, 1 to 1,000.
    pub t3: u32,
    /// N3-REQUESTS: how often a request is sent again before it is given up, 0 to 100.
    pub n3: u32,
    /// The ticks for which the answer to a request is held, in case the request comes again: 1 to 100,000.
    pub hold: u32,
}

impl Default for Timers {
    fn default() -> Timers
        ensures { result ≡ record { t3 = 3; n3 = 3; hold = 60 } }
    {
        Timers {
            t3: 3,
            n3: 3,
            hold: 60,
        }
    }
}

/// The template of each access point, at its place.
#[derive(Clone, Copy, Debug)]
struct Templates {
    places: [Option<Template>; MOST_ACCESS_POINTS],
}

/// The addresses of both gateways, the access points that the packet gateway serves, each perhaps with a template, the
/// pools of addresses that it gives to sessions, and the timers. A serving gateway uses neither access points nor pools.
#[derive(Debug, Drop)]
pub struct Config {
    own: Addresses,
    peer: Addresses,
    access_points: Vec<Apn>,
    switches: Switches,
    pools: Pools,
    templates: Templates,
    timers: Timers,
}

impl Model for Config {
    ghost use Rattle.gtp_gateway.specs.Settings.{Settings, settings_of, switched, templates_in, with_templates, AreSettings};

    ghost Value = { Settings };

    ghost view = { λ c. with_templates (templates_in c.access_points.items c.templates.places)
        (switched c.switches (settings_of c.own c.peer c.access_points.items c.pools c.timers)) };

    ghost invariant = { λ c. AreSettings c.access_points.items c.timers };
}

impl Config {
    /// The settings of a gateway, with no IPv6 addresses to give: `OutOfRange` if there are more than 16 access points,
    /// or a timer is out of its range. Allocates nothing.
    pub fn try_new(
        own: Addresses,
        peer: Addresses,
        access_points: Vec<Apn>,
        pool: Pool,
        timers: Timers,
    ) -> Result<Config, ValueFault>
        ensures ok { IsOk result ↔ AreSettings access_points.items timers }
        ensures value { IfOk result (λ config.
            config ≡ settings_of own peer access_points.items
            (record { v4 = pool; v6 = no_prefixes }) timers) }
        ensures fault { IfErr result (λ f. f ≡ OutOfRange) }
    {
        let are_few = access_points.len() <= MOST_ACCESS_POINTS;
        let are_times = matches!(timers.t3, 1..=1_000)
            && timers.n3 <= 100
            && matches!(timers.hold, 1..=100_000);
        if !are_few || !are_times {
            return Err(ValueFault::OutOfRange);
        }
        Ok(Config {
            own,
            peer,
            access_points,
            switches: Switches::default(),
            pools: Pools {
                v4: pool,
                v6: Prefixes::none(),
            },
            templates: Templates {
                places: [None; MOST_ACCESS_POINTS],
            },
            timers,
        })
    }

    /// The same settings, with `count` IPv6 addresses to give, each under a prefix of 64 bits of its own: address k, from
    /// 0, has the first eight octets of `start`, read as a number, plus k, and its last eight octets. They take the place
    /// of those before; with `count` 0 there are none. `OutOfRange` for more than 65,536, and where the number of a prefix
    /// passes 2^64 - 1. Allocates nothing.
    pub fn with_pool6(mut self, start: [u8; 16], count: u32) -> Result<Config, ValueFault>
        ensures ok { IsOk result ↔ ArePrefixes (record { start = start; count = count }) }
        ensures value { IfOk result (λ config.
            config ≡ with_prefixes (record { start = start; count = count }) self) }
        ensures fault { IfErr result (λ f. f ≡ OutOfRange) }
    {
        self.pools.v6 = Prefixes::try_new(start, count)?;
        Ok(self)
    }

    /// The same settings with these switches, in place of those before. Allocates nothing.
    pub fn with_switches(mut self, switches: Switches) -> Config
        ensures { result ≡ switched switches self }
    {
        self.switches = switches;
        self
    }

    /// The same settings, with a template for an access point: besides its default bearer, each of its sessions gets a
    /// dedicated bearer with this TFT and this QoS (TS 29.274 7.2.3). It takes the place of the template that the access
    /// point had before. `OutOfRange` where no access point has this name. Allocates nothing.
    pub fn with_template(
        mut self,
        access_point: &Apn,
        tft: &Tft,
        qos: &Qos,
    ) -> Result<Config, ValueFault>
        ensures ok { IsOk result ↔ Among access_point.now self.config.access_points }
        ensures value { IfOk result (λ config. config ≡ with_template
            (record { access_point = access_point.now; tft = tft.now; qos = qos.now }) self) }
        ensures fault { IfErr result (λ f. f ≡ OutOfRange) }
    {
        let Some(place) = place_of(self.access_points.as_slice(), access_point) else {
            return Err(ValueFault::OutOfRange);
        };
        self.templates.places[place] = Some(Template {
            tft: *tft,
            qos: *qos,
        });
        Ok(self)
    }

    /// A copy of the settings. `Memory` if the allocation of the list of access points was refused.
    pub fn copy(&self, alloc: Global) -> Result<Config, Memory>
        ensures { IfOk result (λ config. config ≡ self.now) }
    {
        let access_points = Vec::from_slice(alloc, self.access_points.as_slice())?;
        Ok(Config {
            own: self.own,
            peer: self.peer,
            access_points,
            switches: self.switches,
            pools: self.pools,
            templates: self.templates,
            timers: self.timers,
        })
    }

    /// The gateway's own addresses.
    pub fn own(&self) -> Addresses
        ensures control { result.control ≡ self.now.config.own.control }
        ensures user { result.user ≡ self.now.config.own.user }
    {
        self.own
    }

    /// The addresses of the other gateway.
    pub fn peer(&self) -> Addresses
        ensures control { result.control ≡ self.now.config.peer.control }
        ensures user { result.user ≡ self.now.config.peer.user }
    {
        self.peer
    }

    /// Whether this is the other gateway's address on the user plane.
    pub(crate) fn is_user_peer(&self, address: &Ip) -> bool
        ensures { IsTrue result ↔ (address.now ≡ self.now.config.peer.user) }
    {
        *address == self.peer.user
    }

    /// Which optional behaviour is on.
    pub fn switches(&self) -> Switches
        ensures { result ≡ self.now.config.switches }
    {
        self.switches
    }

    /// The access points, in the order in which they were given.
    pub fn access_points(&self) -> &[Apn]
        ensures { result.now ≡ self.now.config.access_points }
    {
        self.access_points.as_slice()
    }

    /// The access point that is meant by this name: the one that is written so, else, by the switch, the first with its
    /// network identifier.
    pub fn access_point_for(&self, name: &Apn) -> Option<Apn>
        ensures { result ≡ access_point_for self.now.config name.now }
    {
        let access_points = self.access_points.as_slice();
        match meant_among(false, access_points, name) {
            Some(own) => Some(own),
            None if self.switches.network_identifiers => meant_among(true, access_points, name),
            None => None,
        }
    }

    /// The template of the access point with this name, where it has one.
    pub(crate) fn template_for(&self, access_point: &Apn) -> Option<Template>
        ensures { template_by access_point.now result
            ≡ template_for access_point.now self.now.config.templates }
    {
        template_at(
            self.access_points.as_slice(),
            &self.templates.places,
            access_point,
        )
    }

    /// The addresses that the packet gateway gives to sessions.
    pub fn pools(&self) -> Pools
        ensures { result ≡ self.now.config.pools }
    {
        self.pools
    }

    /// The timers, which are in their ranges.
    pub fn timers(&self) -> Timers
        ensures value { result ≡ self.now.timers }
        ensures range { AreSettings self.now.config.access_points result }
    {
        self.timers
    }
}
