//! Addresses and their places, behind a handle.

ghost use Rattle.std.specs.Prelude.{◌≡◌, ◌≢◌, ◌↔◌, [], ◌∷◌, None, IsSome, IsSomeAnd};
ghost use Rattle.gtp_c.specs.Common.{IsOneOf};
ghost use Rattle.gtp_c.specs.Ends.{ip_at};
ghost use Rattle.gtp_c.specs.Handles.{Goes};
ghost use Rattle.gtp_c.specs.Places.{HasNone, Adds, Drops, Finds, Lacks};

use crate::address_places::AddressPlaces;
use crate::ends::Address;
use crate::places_handle::PlacesHandle;
use crate::status::{BAD_VALUE, DONE, EMPTY, NO_MEMORY, NONE, NOT_EMPTY};
use gtp_node::Places;
use std::alloc::Global;

/// Opens a list without addresses behind a handle that is empty. A status that is not 0 leaves the handle as it was.
#[unsafe(no_mangle)]
pub extern "C" fn gtp_places_new(alloc: Global, handle: &mut PlacesHandle) -> u8
    ensures done { result ≡ 0 → IsSomeAnd handle.new.hidden.value HasNone }
    ensures kept { result ≢ 0 → handle.new.hidden.value ≡ handle.old.hidden.value }
    ensures open { (result ≡ 8) ↔ IsSome handle.old.hidden.value }
    ensures known { IsOneOf (0 ∷ 2 ∷ 8 ∷ []) result }
{
    if handle.count != 0 {
        return NOT_EMPTY;
    }
    let none = AddressPlaces {
        places: Places::new(alloc),
    };
    match Box::new(alloc, none) {
        Ok(none) => {
            handle.put(none);
            DONE
        }
        Err(_) => NO_MEMORY,
    }
}

/// Adds an address behind all others: 0, and else nothing happened.
#[unsafe(no_mangle)]
pub extern "C" fn gtp_places_add(alloc: Global, handle: &mut PlacesHandle, address: &Address) -> u8
    ensures done { result ≡ 0 → Goes (Adds address.now)
        handle.old.hidden.value handle.new.hidden.value }
    ensures kept { result ≢ 0 → handle.new.hidden.value ≡ handle.old.hidden.value }
    ensures empty { (result ≡ 7) ↔ (handle.old.hidden.value ≡ None) }
    ensures bad { (result ≡ 1) ↔ (IsSome handle.old.hidden.value × (ip_at address.now ≡ None)) }
    ensures known { IsOneOf (0 ∷ 1 ∷ 2 ∷ 7 ∷ []) result }
{
    if handle.count == 0 {
        return EMPTY;
    }
    let Some(ip) = address.ip() else {
        return BAD_VALUE;
    };
    let mut addresses = handle.take(alloc);
    let added = addresses.places.push(ip);
    handle.put(addresses);
    match added {
        Ok(()) => DONE,
        Err(_) => NO_MEMORY,
    }
}

/// Takes the last address away: 0, and 4 where there is none.
#[unsafe(no_mangle)]
pub extern "C" fn gtp_places_pop(alloc: Global, handle: &mut PlacesHandle) -> u8
    ensures done { result ≡ 0 → Goes Drops handle.old.hidden.value handle.new.hidden.value }
    ensures kept { result ≢ 0 → handle.new.hidden.value ≡ handle.old.hidden.value }
    ensures empty { (result ≡ 7) ↔ (handle.old.hidden.value ≡ None) }
    ensures none { (result ≡ 4) ↔ IsSomeAnd handle.old.hidden.value HasNone }
    ensures known { IsOneOf (0 ∷ 4 ∷ 7 ∷ []) result }
{
    if handle.count == 0 {
        return EMPTY;
    }
    let mut addresses = handle.take(alloc);
    let count = addresses.places.len();
    addresses.places.pop();
    handle.put(addresses);
    if count == 0 { NONE } else { DONE }
}

/// The first place of an address, from 0: 0 with `place` filled, 4 where it has none.
#[unsafe(no_mangle)]
pub extern "C" fn gtp_places_find(
    alloc: Global,
    handle: &mut PlacesHandle,
    address: &Address,
    place: &mut u64,
) -> u8
    ensures found { result ≡ 0 → IsSomeAnd handle.old.hidden.value (Finds address.now place.new) }
    ensures none { (result ≡ 4) ↔ IsSomeAnd handle.old.hidden.value (Lacks address.now) }
    ensures kept { handle.new.hidden.value ≡ handle.old.hidden.value }
    ensures untold { result ≢ 0 → place.new ≡ place.old }
    ensures empty { (result ≡ 7) ↔ (handle.old.hidden.value ≡ None) }
    ensures bad { (result ≡ 1) ↔ (IsSome handle.old.hidden.value × (ip_at address.now ≡ None)) }
    ensures known { IsOneOf (0 ∷ 1 ∷ 4 ∷ 7 ∷ []) result }
{
    if handle.count == 0 {
        return EMPTY;
    }
    let Some(ip) = address.ip() else {
        return BAD_VALUE;
    };
    let addresses = handle.take(alloc);
    let found = addresses.places.place_of(&ip);
    handle.put(addresses);
    match found {
        Some(first) => {
            *place = first as u64;
            DONE
        }
        None => NONE,
    }
}

/// Lets the addresses go. The handle is empty then.
#[unsafe(no_mangle)]
pub extern "C" fn gtp_places_free(alloc: Global, handle: &mut PlacesHandle) -> u8
    ensures gone { handle.new.hidden.value ≡ None }
    ensures empty { (result ≡ 7) ↔ (handle.old.hidden.value ≡ None) }
    ensures known { IsOneOf (0 ∷ 7 ∷ []) result }
{
    if handle.count == 0 {
        return EMPTY;
    }
    drop(handle.take(alloc));
    DONE
}
