//! The sessions and bearers of a gateway behind a handle.

ghost use Rattle.gtp_c.specs.Contexts.{IsLookedUp, HasSession, HasBearer, SessionAt, BearerAt};
ghost use Rattle.gtp_c.specs.Contexts.{NoSession, NoBearer, SessionsEnd, BearersEnd};

use crate::handle::Handle;
use crate::rows::{BearerRow, SessionRow};
use crate::status::{DONE, EMPTY, NONE};
use gtp_gateway::Teid;

/// A look-up by the gateway behind a handle: what it finds is told.
macro_rules! look_up {
    ($handle:ident, $row:ident, $gateway:ident => $looked:expr, $found:pat => $told:expr) => {{
        if $handle.count == 0 {
            return EMPTY;
        }
        let $gateway = &$handle.hidden.get_mut().gateway;
        match $looked {
            Some($found) => {
                *$row = $told;
                DONE
            }
            None => NONE,
        }
    }};
}

/// The session with this control plane TEID of the gateway's own: 0 with `row` filled, 4 where there is none.
#[unsafe(no_mangle)]
pub extern "C" fn gtp_gateway_session(handle: &mut Handle, teid: u32, row: &mut SessionRow) -> u8
    ensures { IsLookedUp (HasSession teid) (NoSession teid) row.old row.new
        handle.old.hidden.value handle.new.hidden.value result }
{
    look_up!(handle, row, gateway => gateway.session(Teid(teid)), session => SessionRow::of(Teid(teid), &session))
}

/// The bearer with this user plane TEID of the gateway's own: 0 with `row` filled, 4 where there is none.
#[unsafe(no_mangle)]
pub extern "C" fn gtp_gateway_bearer(handle: &mut Handle, teid: u32, row: &mut BearerRow) -> u8
    ensures { IsLookedUp (HasBearer teid) (NoBearer teid) row.old row.new
        handle.old.hidden.value handle.new.hidden.value result }
{
    look_up!(handle, row, gateway => gateway.bearer(Teid(teid)), bearer => BearerRow::of(Teid(teid), &bearer))
}

/// The session at a place, from 0, in the order of the gateway's own TEIDs: 0 with `row` filled, 4 behind the last.
#[unsafe(no_mangle)]
pub extern "C" fn gtp_gateway_session_at(
    handle: &mut Handle,
    place: u64,
    row: &mut SessionRow,
) -> u8
    ensures { IsLookedUp (SessionAt place) (SessionsEnd place) row.old row.new
        handle.old.hidden.value handle.new.hidden.value result }
{
    look_up!(handle, row, gateway => gateway.session_at(place as usize), found => SessionRow::of(found.0, &found.1))
}

/// The bearer at a place, from 0, in the order of the gateway's own TEIDs: 0 with `row` filled, 4 behind the last.
#[unsafe(no_mangle)]
pub extern "C" fn gtp_gateway_bearer_at(handle: &mut Handle, place: u64, row: &mut BearerRow) -> u8
    ensures { IsLookedUp (BearerAt place) (BearersEnd place) row.old row.new
        handle.old.hidden.value handle.new.hidden.value result }
{
    look_up!(handle, row, gateway => gateway.bearer_at(place as usize), found => BearerRow::of(found.0, &found.1))
}
