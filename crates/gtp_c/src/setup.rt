//! How a gateway is set up, as C says it.

ghost use Rattle.std.specs.Prelude.{◌≡◌, ◌↔◌, ◌≤◌, IfOk, IfErr, OnOk, IsErrOf, IfSome, IsSome};
ghost use Rattle.gtp_c.specs.Setups.{role_at, AreAddresses, IsConfigured, IsStarted, timers_at};
ghost use Rattle.gtp_c.specs.Setups.{HasAddresses, IsGoodConfig, IsGoodSetup, switches_at, templates_in, no_gateway};
ghost use Rattle.gtp_c.specs.Common.{IsOneOf};

use crate::ends::Address;
use crate::names::{access_points_of, count_of_names};
use crate::status::{BAD_VALUE, NO_MEMORY};
use crate::template::{Template, are_templates, with_templates};
use gtp_gateway::{Addresses, Apn, Config, Counter, Gateway, Pool, Role, Switches, Timers};
use std::alloc::Global;

/// The most templates that a setup has.
const MOST_TEMPLATES: usize = 16;

/// How a gateway is set up.
#[repr(C)]
pub struct Setup {
    pub own_control: Address,
    pub own_user: Address,
    pub peer_control: Address,
    pub peer_user: Address,
    /// The first IPv6 address that is given to sessions, and how many are.
    pub pool6: [u8; 16],
    pub pool6_count: u32,
    /// The first IPv4 address that is given to sessions, as a number, and how many are.
    pub pool: u32,
    pub pool_count: u32,
    pub t3: u32,
    pub n3: u32,
    pub hold: u32,
    /// 0 serving, 1 packet.
    pub role: u8,
    pub counter: u8,
    /// How many templates there are, at most 16, and these.
    pub template_count: u8,
    /// Optional behaviour, added: 1 network identifiers, 2 Version Not Supported Indications.
    pub switches: u8,
    pub templates: [Template; MOST_TEMPLATES],
}

/// The role of this number.
pub(crate) fn role_of(number: u8) -> Option<Role>
    ensures some { IsSome result ↔ (number ≤ 1) }
    ensures value { IfSome result (λ role. role_at role ≡ number) }
{
    match number {
        0 => Some(Role::Serving),
        1 => Some(Role::Packet),
        _ => None,
    }
}

/// The addresses of a gateway on each plane.
fn addresses_of(control: &Address, user: &Address) -> Option<Addresses>
    ensures some { IsSome result ↔ HasAddresses control.now user.now }
    ensures value { IfSome result (AreAddresses control.now user.now) }
{
    let control = control.ip()?;
    let user = user.ip()?;
    Some(Addresses { control, user })
}

impl Setup {
    fn timers(&self) -> Timers
        ensures { result ≡ timers_at self.now }
    {
        Timers {
            t3: self.t3,
            n3: self.n3,
            hold: self.hold,
        }
    }

    /// The switches that are asked for.
    pub(crate) fn switches(&self) -> Option<Switches>
        ensures some { IsSome result ↔ (self.now.switches ≤ 3) }
        ensures value { IfSome result (λ switches. switches ≡ switches_at self.now) }
    {
        if self.switches > 3 {
            return None;
        }
        Some(Switches {
            network_identifiers: self.switches % 2 == 1,
            version_not_supported: self.switches / 2 % 2 == 1,
        })
    }

    /// The templates that are asked for.
    pub(crate) fn templates(&self) -> Option<&[Template]>
        ensures some { IsSome result ↔ (self.now.template_count ≤ 16) }
        ensures value { IfSome result (λ templates. templates.now ≡ templates_in self.now) }
    {
        let count = usize::from(self.template_count);
        if count > MOST_TEMPLATES {
            return None;
        }
        Some(&self.templates[..count])
    }

    /// The settings that are asked for, without templates.
    fn config(&self, names: Vec<Apn>) -> Option<Config>
        ensures some { IsSome result ↔ IsGoodConfig self.now names.items }
        ensures value { IfSome result (IsConfigured self.now names.items) }
    {
        let own = addresses_of(&self.own_control, &self.own_user)?;
        let peer = addresses_of(&self.peer_control, &self.peer_user)?;
        let Ok(pool) = Pool::try_new(self.pool, self.pool_count) else {
            return None;
        };
        let Ok(config) = Config::try_new(own, peer, names, pool, self.timers()) else {
            return None;
        };
        let switches = self.switches()?;
        match config.with_pool6(self.pool6, self.pool6_count) {
            Ok(config) => Some(config.with_switches(switches)),
            Err(_) => None,
        }
    }

    /// A gateway as it is asked for, or the status that says why there is none.
    pub(crate) fn start(&self, alloc: Global, octets: &[u8]) -> Result<Gateway, u8>
        ensures ok { IfOk result (IsStarted self.now octets.now) }
        ensures good { OnOk result (IsGoodSetup self.now octets.now) }
        ensures err { IfErr result (IsOneOf no_gateway) }
        ensures bad { IsErrOf result 1 → ¬ IsGoodSetup self.now octets.now }
        ensures memory { IsErrOf result 2 → IsGoodSetup self.now octets.now }
    {
        let Some(role) = role_of(self.role) else {
            return Err(BAD_VALUE);
        };
        // All is looked at before memory is taken.
        let Some(_) = self.config(Vec::new(alloc)) else {
            return Err(BAD_VALUE);
        };
        let Some(count) = count_of_names(octets) else {
            return Err(BAD_VALUE);
        };
        let Some(templates) = self.templates() else {
            return Err(BAD_VALUE);
        };
        if !are_templates(templates, count) {
            return Err(BAD_VALUE);
        }
        let names = access_points_of(alloc, octets)?;
        let Some(config) = self.config(names) else {
            return Err(BAD_VALUE);
        };
        let Some(config) = with_templates(config, templates) else {
            return Err(BAD_VALUE);
        };
        match Gateway::start(alloc, role, &config, Counter(self.counter)) {
            Ok(gateway) => Ok(gateway),
            Err(_) => Err(NO_MEMORY),
        }
    }
}
