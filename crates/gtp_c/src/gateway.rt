//! A gateway behind a handle.

ghost use Rattle.std.specs.Prelude.{◌≡◌, ◌≢◌, ◌↔◌, ◌≤◌, [], ◌∷◌, None, IsSome, IsSomeAnd, length};
ghost use Rattle.std.specs.VecDeque.{deque_capacity};
ghost use Rattle.gtp_c.specs.Handles.{Goes, Stays};
ghost use Rattle.gtp_c.specs.Setups.{Starts, IsGoodSetup, new_statuses};
ghost use Rattle.gtp_c.specs.Common.{IsOneOf};
ghost use Rattle.gtp_c.specs.Statuses.{HasStatus, step_statuses, IsBadArrival};
ghost use Rattle.gtp_c.specs.Statuses.{ComingMayRunOut, TickMayRunOut};
ghost use Rattle.gtp_c.specs.Steps.{HasTicked, Hands, IsTooSmall, Comes, NothingWaits};

use crate::datagram::Datagram;
use crate::detached_box::DetachedBox;
use crate::ends::{End, plane_of};
use crate::gateway_with_queue::GatewayWithQueue;
use crate::handle::Handle;
use crate::owned_pointer::OwnedPointer;
use crate::setup::Setup;
use crate::status::{BAD_VALUE, DONE, EMPTY, NO_MEMORY, NOT_EMPTY};
use crate::told::Told;
use gtp_gateway::Gateway;
use std::alloc::Global;
use std::mem::replace;

/// Puts a gateway behind an empty handle.
fn fill(alloc: Global, gateway: Gateway, handle: &mut Handle) -> u8
    requires { handle.old.hidden.value ≡ None }
    ensures done { result ≡ 0 → IsSomeAnd handle.new.hidden.value (λ d.
        (d.gateway ≡ gateway) × (d.waiting.items ≡ []) × (4352 ≤ deque_capacity d.waiting)) }
    ensures kept { result ≢ 0 → handle.new.hidden.value ≡ None }
    ensures known { result ≢ 0 → result ≡ 2 }
{
    let Ok(desk) = GatewayWithQueue::new(alloc, gateway) else {
        return NO_MEMORY;
    };
    match Box::new(alloc, desk) {
        Ok(desk) => {
            replace(&mut handle.hidden, OwnedPointer::of(DetachedBox::of(desk))).end();
            handle.count = 1;
            DONE
        }
        Err(_) => NO_MEMORY,
    }
}

/// Starts a gateway behind a handle that is empty. A status that is not 0 leaves the handle as it was.
#[unsafe(no_mangle)]
pub extern "C" fn gtp_gateway_new(
    alloc: Global,
    handle: &mut Handle,
    setup: &Setup,
    access_points: &[u8],
) -> u8
    ensures done { result ≡ 0 → IsSomeAnd handle.new.hidden.value (Starts setup.now access_points.now) }
    ensures kept { result ≢ 0 → Stays handle.old.hidden.value handle.new.hidden.value }
    ensures open { (result ≡ 8) ↔ (IsSome handle.old.hidden.value) }
    ensures good { result ≡ 0 → IsGoodSetup setup.now access_points.now }
    ensures bad { result ≡ 1 → ¬ IsGoodSetup setup.now access_points.now }
    ensures memory { result ≡ 2 → IsGoodSetup setup.now access_points.now }
    ensures known { IsOneOf new_statuses result }
{
    if handle.count != 0 {
        return NOT_EMPTY;
    }
    match setup.start(alloc, access_points) {
        Ok(gateway) => fill(alloc, gateway, handle),
        Err(status) => status,
    }
}

/// A datagram came: 0 with `told` filled, and else nothing happened.
#[unsafe(no_mangle)]
pub extern "C" fn gtp_gateway_receive(
    alloc: Global,
    handle: &mut Handle,
    source: &End,
    plane: u8,
    octets: &[u8],
    told: &mut Told,
) -> u8
    ensures done { result ≡ 0 → Goes (Comes plane source.now octets.now told.new)
        handle.old.hidden.value handle.new.hidden.value }
    ensures kept { result ≢ 0 → Stays handle.old.hidden.value handle.new.hidden.value }
    ensures status { HasStatus step_statuses (IsBadArrival plane source.now)
        handle.old.hidden.value result }
    ensures untold { result ≢ 0 → told.new ≡ told.old }
    ensures memory { result ≡ 2 → IsSomeAnd handle.old.hidden.value
        (ComingMayRunOut plane source.now octets.now) }
{
    if handle.count == 0 {
        return EMPTY;
    }
    let Some(plane) = plane_of(plane) else {
        return BAD_VALUE;
    };
    let Some(source) = source.endpoint() else {
        return BAD_VALUE;
    };
    handle
        .hidden
        .get_mut()
        .receive(alloc, source, plane, octets, told)
}

/// A tick passes: 0 with `told` filled, and else nothing happened.
#[unsafe(no_mangle)]
pub extern "C" fn gtp_gateway_tick(alloc: Global, handle: &mut Handle, told: &mut Told) -> u8
    ensures done { result ≡ 0 → Goes (HasTicked told.new)
        handle.old.hidden.value handle.new.hidden.value }
    ensures kept { result ≢ 0 → Stays handle.old.hidden.value handle.new.hidden.value }
    ensures status { HasStatus step_statuses ⊥ handle.old.hidden.value result }
    ensures untold { result ≢ 0 → told.new ≡ told.old }
    ensures memory { result ≡ 2 → IsSomeAnd handle.old.hidden.value TickMayRunOut }
{
    if handle.count == 0 {
        return EMPTY;
    }
    handle.hidden.get_mut().tick(alloc, told)
}

/// The next datagram to send: 0 with `buffer` and `datagram` filled, 4 where none waits, 5 where it does not fit, with
/// `datagram` filled alone. It is handed out once, and stays where it does not fit.
#[unsafe(no_mangle)]
pub extern "C" fn gtp_gateway_take(
    handle: &mut Handle,
    buffer: &mut [u8],
    datagram: &mut Datagram,
) -> u8
    ensures taken { result ≡ 0 → Goes (Hands buffer.old buffer.new datagram.new)
        handle.old.hidden.value handle.new.hidden.value }
    ensures small { result ≡ 5 → Goes (IsTooSmall (length buffer.old) datagram.new)
        handle.old.hidden.value handle.new.hidden.value }
    ensures buffer { result ≢ 0 → buffer.new ≡ buffer.old }
    ensures untold { result ≢ 0 → result ≢ 5 → datagram.new ≡ datagram.old }
    ensures kept { result ≢ 0 → handle.new.hidden.value ≡ handle.old.hidden.value }
    ensures empty { (result ≡ 7) ↔ (handle.old.hidden.value ≡ None) }
    ensures none { (result ≡ 4) ↔ IsSomeAnd handle.old.hidden.value NothingWaits }
    ensures known { IsOneOf (0 ∷ 4 ∷ 5 ∷ 7 ∷ []) result }
{
    if handle.count == 0 {
        return EMPTY;
    }
    handle.hidden.get_mut().take(buffer, datagram)
}

/// Lets a gateway go, and what waits. The handle is empty then.
#[unsafe(no_mangle)]
pub extern "C" fn gtp_gateway_free(alloc: Global, handle: &mut Handle) -> u8
    ensures gone { handle.new.hidden.value ≡ None }
    ensures empty { (result ≡ 7) ↔ (handle.old.hidden.value ≡ None) }
    ensures known { IsOneOf (0 ∷ 7 ∷ []) result }
{
    if handle.count == 0 {
        return EMPTY;
    }
    let full = replace(&mut handle.hidden, OwnedPointer::empty());
    handle.count = 0;
    drop(full.detach(alloc).into_box());
    DONE
}
