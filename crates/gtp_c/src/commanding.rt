//! Commands to a gateway behind a handle. Each answers 0 with `told` filled, or 6 with `told` saying which rule refuses it; and else
//! nothing happened.

ghost use Rattle.std.specs.Prelude.{◌≤◌, length};
ghost use Rattle.gtp_values.specs.Ebi.{IsEbi};
ghost use Rattle.gtp_machine.specs.Input.{Delete_session, Create_bearer, Delete_bearer};
ghost use Rattle.gtp_machine.specs.Input.{Release_session, Mark_end, Send_echo, Send_user};
ghost use Rattle.gtp_c.specs.Commands.{IsCommanded};
ghost use Rattle.gtp_c.specs.Sessions.{quality_at, IsGoodQuality, IsSessionAsked};

use crate::handle::Handle;
use crate::session::{Quality, Session};
use crate::status::{BAD_VALUE, DONE, EMPTY};
use crate::told::Told;
use crate::values::Identity;
use gtp_gateway::{Ebi, Teid, Tft};
use std::alloc::Global;

/// The number of what a request comes to.
const BEGUN: u8 = 1;

/// The number of what a packet or an End Marker comes to.
const GONE_OUT: u8 = 2;

/// A command to the gateway behind a handle that is full, which has this number where it is carried out: once there is room for a
/// datagram more.
macro_rules! command {
    ($handle:ident, $told:ident, $number:ident, $gateway:ident => $called:expr) => {{
        let desk = $handle.hidden.get_mut();
        let status = desk.room_for(1);
        if status != DONE {
            return status;
        }
        let $gateway = &mut desk.gateway;
        let begun = $called;
        desk.settle(begun, $number, $told)
    }};
}

/// Asks for a session: a command of the serving gateway.
#[unsafe(no_mangle)]
pub extern "C" fn gtp_gateway_create_session(
    alloc: Global,
    handle: &mut Handle,
    session: &Session,
    imsi: &Identity,
    access_point: &[u8],
    told: &mut Told,
) -> u8
    ensures { IsSessionAsked session.now imsi.now access_point.now told.old told.new
        handle.old.hidden.value handle.new.hidden.value result }
{
    if handle.count == 0 {
        return EMPTY;
    }
    let Some(spec) = session.specification(imsi, access_point) else {
        return BAD_VALUE;
    };
    command!(handle, told, BEGUN, gateway => gateway.create_session(alloc, &spec))
}

/// Ends a session: a command of the serving gateway.
#[unsafe(no_mangle)]
pub extern "C" fn gtp_gateway_delete_session(
    alloc: Global,
    handle: &mut Handle,
    session: u32,
    told: &mut Told,
) -> u8
    ensures { IsCommanded (Delete_session session) ⊥ told.old told.new
        handle.old.hidden.value handle.new.hidden.value result }
{
    if handle.count == 0 {
        return EMPTY;
    }
    command!(handle, told, BEGUN, gateway => gateway.delete_session(alloc, Teid(session)))
}

/// Asks for a dedicated bearer of a session, with these octets of a traffic flow template: a command of the packet gateway.
#[unsafe(no_mangle)]
pub extern "C" fn gtp_gateway_create_bearer(
    alloc: Global,
    handle: &mut Handle,
    session: u32,
    quality: &Quality,
    tft: &[u8],
    told: &mut Told,
) -> u8
    ensures { IsCommanded (Create_bearer session tft.now (quality_at quality.now)) (¬ (IsGoodQuality quality.now × (length tft.now ≤ 255))) told.old told.new
        handle.old.hidden.value handle.new.hidden.value result }
{
    if handle.count == 0 {
        return EMPTY;
    }
    let Some(qos) = quality.qos() else {
        return BAD_VALUE;
    };
    let Ok(tft) = Tft::try_new(tft) else {
        return BAD_VALUE;
    };
    command!(handle, told, BEGUN, gateway => gateway.create_bearer(alloc, Teid(session), &tft, &qos))
}

/// Ends a dedicated bearer of a session: a command of the packet gateway.
#[unsafe(no_mangle)]
pub extern "C" fn gtp_gateway_delete_bearer(
    alloc: Global,
    handle: &mut Handle,
    session: u32,
    identity: u8,
    told: &mut Told,
) -> u8
    ensures { IsCommanded (Delete_bearer session identity) (¬ IsEbi identity) told.old told.new
        handle.old.hidden.value handle.new.hidden.value result }
{
    if handle.count == 0 {
        return EMPTY;
    }
    let Ok(identity) = Ebi::try_new(identity) else {
        return BAD_VALUE;
    };
    command!(handle, told, BEGUN, gateway => gateway.delete_bearer(alloc, Teid(session), identity))
}

/// Ends a session: a command of the packet gateway.
#[unsafe(no_mangle)]
pub extern "C" fn gtp_gateway_release_session(
    alloc: Global,
    handle: &mut Handle,
    session: u32,
    told: &mut Told,
) -> u8
    ensures { IsCommanded (Release_session session) ⊥ told.old told.new
        handle.old.hidden.value handle.new.hidden.value result }
{
    if handle.count == 0 {
        return EMPTY;
    }
    command!(handle, told, BEGUN, gateway => gateway.release_session(alloc, Teid(session)))
}

/// Sends an End Marker on a bearer, once for each: a command of the packet gateway.
#[unsafe(no_mangle)]
pub extern "C" fn gtp_gateway_end_marker(
    alloc: Global,
    handle: &mut Handle,
    bearer: u32,
    told: &mut Told,
) -> u8
    ensures { IsCommanded (Mark_end bearer) ⊥ told.old told.new
        handle.old.hidden.value handle.new.hidden.value result }
{
    if handle.count == 0 {
        return EMPTY;
    }
    command!(handle, told, GONE_OUT, gateway => gateway.end_marker(alloc, Teid(bearer)))
}

/// Sends a packet on a bearer, of at most 65,000 octets.
#[unsafe(no_mangle)]
pub extern "C" fn gtp_gateway_send_user(
    alloc: Global,
    handle: &mut Handle,
    bearer: u32,
    payload: &[u8],
    told: &mut Told,
) -> u8
    ensures { IsCommanded (Send_user bearer payload.now) ⊥ told.old told.new
        handle.old.hidden.value handle.new.hidden.value result }
{
    if handle.count == 0 {
        return EMPTY;
    }
    command!(handle, told, GONE_OUT, gateway => gateway.send_user(alloc, Teid(bearer), payload))
}

/// Asks whether the peer is alive.
#[unsafe(no_mangle)]
pub extern "C" fn gtp_gateway_echo(alloc: Global, handle: &mut Handle, told: &mut Told) -> u8
    ensures { IsCommanded Send_echo ⊥ told.old told.new
        handle.old.hidden.value handle.new.hidden.value result }
{
    if handle.count == 0 {
        return EMPTY;
    }
    command!(handle, told, BEGUN, gateway => gateway.echo(alloc))
}
