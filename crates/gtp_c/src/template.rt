//! Templates of access points, as C says them.

ghost use Rattle.std.specs.Prelude.{◌≡◌, ◌↔◌, IsTrue, IsSome, IfSome, length};
ghost use Rattle.gtp_gateway.specs.Settings.{with_template};
ghost use Rattle.gtp_c.specs.Templates.{IsGoodTemplate, AreGoodTemplates, template_at, with_each};

use crate::session::Quality;
use gtp_gateway::{Config, Tft};

/// The dedicated bearer that a packet gateway asks for with each session of an access point.
#[repr(C)]
#[derive(Clone, Copy)]
pub struct Template {
    pub quality: Quality,
    /// The place of the access point among those of the gateway, from 0.
    pub access_point: u8,
    /// How many octets the traffic flow template has, and these.
    pub tft_len: u8,
    pub tft: [u8; 255],
}

impl Template {
    /// Whether it is one, where there are so many access points.
    fn is_good(&self, count: usize) -> bool
        ensures { IsTrue result ↔ IsGoodTemplate count self.now }
    {
        usize::from(self.access_point) < count && self.quality.qos().is_some()
    }

    /// The settings with this template.
    #[tactic(auto, using(crate::proofs::Points::among_at))]
    fn put(&self, config: Config) -> Option<Config>
        ensures some { IsGoodTemplate (length config.config.access_points) self.now → IsSome result }
        ensures value { IfSome result (λ settings. settings
            ≡ with_template (template_at config.config.access_points self.now) config) }
    {
        let qos = self.quality.qos()?;
        let place = usize::from(self.access_point);
        if place >= config.access_points().len() {
            return None;
        }
        let name = config.access_points()[place];
        let tft = Tft::of(&self.tft[..usize::from(self.tft_len)]);
        match config.with_template(&name, &tft, &qos) {
            Ok(config) => Some(config),
            Err(_) => None,
        }
    }
}

/// Whether all are templates, where there are so many access points.
pub(crate) fn are_templates(templates: &[Template], count: usize) -> bool
    ensures { IsTrue result ↔ AreGoodTemplates count templates.now }
{
    for template in templates {
        if !template.is_good(count) {
            return false;
        }
    }
    true
}

/// The settings with each of these templates, one after the other.
pub(crate) fn with_templates(config: Config, templates: &[Template]) -> Option<Config>
    ensures some { AreGoodTemplates (length config.config.access_points) templates.now
        → IsSome result }
    ensures value { IfSome result (λ settings. settings ≡ with_each templates.now config) }
{
    let mut settings = config;
    for template in templates {
        settings = template.put(settings)?;
    }
    Some(settings)
}
