//! Which value is out of its range, where C wants to know.

ghost use Rattle.gtp_c.specs.BadValues.{NamesBadSetup, NamesBadSession};

use crate::names::count_of_names;
use crate::session::{Session, access_point_of, network_of};
use crate::setup::{Setup, role_of};
use crate::template::are_templates;
use crate::values::Identity;
use gtp_gateway::{Ebi, Pool, Prefixes};

/// A value for which no gateway can be set up so, by its number in `enum gtp_setup_value`; 0 exactly where one can. Takes no memory.
#[unsafe(no_mangle)]
pub extern "C" fn gtp_setup_bad_value(setup: &Setup, access_points: &[u8]) -> u8
    ensures { NamesBadSetup setup.now access_points.now result }
{
    if role_of(setup.role).is_none() {
        return 1;
    }
    if setup.own_control.ip().is_none() {
        return 2;
    }
    if setup.own_user.ip().is_none() {
        return 3;
    }
    if setup.peer_control.ip().is_none() {
        return 4;
    }
    if setup.peer_user.ip().is_none() {
        return 5;
    }
    let Some(count) = count_of_names(access_points) else {
        return 6;
    };
    if !matches!(setup.t3, 1..=1_000) {
        return 7;
    }
    if setup.n3 > 100 {
        return 8;
    }
    if !matches!(setup.hold, 1..=100_000) {
        return 9;
    }
    if Pool::try_new(setup.pool, setup.pool_count).is_err() {
        return 10;
    }
    if Prefixes::try_new(setup.pool6, setup.pool6_count).is_err() {
        return 11;
    }
    let Some(templates) = setup.templates() else {
        return 12;
    };
    if !are_templates(templates, count) {
        return 13;
    }
    if setup.switches().is_none() {
        return 14;
    }
    0
}

/// A value for which no session can be asked for, by its number in `enum gtp_session_value`; 0 exactly where one can. Takes no
/// memory.
#[unsafe(no_mangle)]
pub extern "C" fn gtp_session_bad_value(
    session: &Session,
    imsi: &Identity,
    access_point: &[u8],
) -> u8
    ensures { NamesBadSession session.now imsi.now access_point.now result }
{
    if imsi.imsi().is_none() {
        return 1;
    }
    if access_point_of(access_point).is_none() {
        return 2;
    }
    if Ebi::try_new(session.identity).is_err() {
        return 3;
    }
    if network_of(&session.network).is_none() {
        return 4;
    }
    if session.quality.qos().is_none() {
        return 5;
    }
    if session.selection >= 4 {
        return 6;
    }
    if session.pdn >= 8 {
        return 7;
    }
    0
}
