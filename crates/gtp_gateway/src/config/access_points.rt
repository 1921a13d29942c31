//! Access points by name, and their templates.

ghost use Rattle.std.specs.Prelude.{◌≡◌, ◌≤◌, IfSome, IfNone, length};
ghost use Rattle.gtp_values.specs.FiniteMap.{Among};
ghost use Rattle.gtp_machine.specs.AccessPoints.{plain, is_operator, network_identifier, is_meant};
ghost use Rattle.gtp_machine.specs.Config.{meant_among, template_for};
ghost use Rattle.gtp_gateway.specs.Settings.{template_by, templates_in, IsPlaceOf};

use gtp_values::{Apn, Qos, Tft};

/// What the sessions of an access point get besides their default bearer: a dedicated bearer with this TFT and this QoS.
#[derive(Clone, Copy, Debug, PartialEq, Eq)]
pub struct Template {
    pub tft: Tft,
    pub qos: Qos,
}

/// An operator identifier, with each digit as 0.
const OPERATOR: &[u8] = b"\x06mnc000\x06mcc000\x04gprs";

/// A letter in lower case, and a digit as 0.
fn plain(octet: u8) -> u8
    ensures { result ≡ plain octet }
{
    if octet.is_ascii_digit() {
        return b'0';
    }
    octet.to_ascii_lowercase()
}

/// Whether labels are an operator identifier: `mnc` and `mcc`, each with three digits, and `gprs`, in either case.
fn is_operator(labels: &[u8]) -> bool
    ensures { result ≡ is_operator labels.now }
{
    if labels.len() != OPERATOR.len() {
        return false;
    }
    for place in 0..labels.len() {
        if plain(labels[place]) != OPERATOR[place] {
            return false;
        }
    }
    true
}

/// The labels of a name without an operator identifier.
fn network_identifier(name: &[u8]) -> &[u8]
    ensures { result.now ≡ network_identifier name.now }
{
    if name.len() <= OPERATOR.len() {
        return name;
    }
    let (network, operator) = name.split_at(name.len() - OPERATOR.len());
    if is_operator(operator) { network } else { name }
}

/// Whether an access point is meant by a name: as it is written, or by its network identifier, in either case.
fn is_meant(by_network: bool, own: &Apn, name: &Apn) -> bool
    ensures { result ≡ is_meant by_network own.now name.now }
{
    if !by_network {
        return own == name;
    }
    network_identifier(own.octets()).eq_ignore_ascii_case(network_identifier(name.octets()))
}

/// The first of these access points that is meant by a name.
pub fn meant_among(by_network: bool, access_points: &[Apn], name: &Apn) -> Option<Apn>
    ensures { result ≡ meant_among by_network access_points.now name.now }
{
    for place in 0..access_points.len() {
        let own = &access_points[place];
        if is_meant(by_network, own, name) {
            return Some(*own);
        }
    }
    None
}

/// The place of the first of these access points that has the name.
pub fn place_of(access_points: &[Apn], name: &Apn) -> Option<usize>
    ensures some { IfSome result (λ place. IsPlaceOf name.now access_points.now place) }
    ensures none { IfNone result (Among name.now access_points.now → ⊥) }
{
    for place in 0..access_points.len() {
        if access_points[place] == *name {
            return Some(place);
        }
    }
    None
}

/// The first template that stands at the place of an access point with the name.
pub fn template_at(
    access_points: &[Apn],
    templates: &[Option<Template>],
    name: &Apn,
) -> Option<Template>
    requires { length access_points.now ≤ length templates.now }
    ensures { template_by name.now result
        ≡ template_for name.now (templates_in access_points.now templates.now) }
{
    for place in 0..access_points.len() {
        if access_points[place] == *name {
            if let Some(template) = templates[place] {
                return Some(template);
            }
        }
    }
    None
}
