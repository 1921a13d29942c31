//! Eleven bearers of each of a thousand sessions.

use gtp_tables::{Bearer, Bearers, Ebi, Kind, State, Teid};
use std::process::Abort;
use std::test::Fail;

/// The TEID of this number in the seventh start.
fn teid(number: u32) -> Teid {
    Teid(number.wrapping_add(0x0700_0000))
}

/// The bearer of this number, of the eleven of each session, without the TEID of the peer.
fn bearer(number: u32) -> Result<Bearer, Fail> {
    Ok(Bearer {
        remote: None,
        session: Teid(number / 11),
        identity: Some(Ebi::try_new((5 + number % 11) as u8)?),
        kind: Kind::Default,
        state: State::Active,
        ended: false,
    })
}

/// Adds the bearer of this number, and opens it with the TEID of the peer, which is its number.
fn add_and_open(rt: &impl Abort, bearers: &mut Bearers, number: u32) -> Result<(), Fail> {
    let own = teid(number);
    assert!(rt; bearers.is_above(own));
    bearers.add(own, bearer(number)?)?;
    let pending = bearers.get(own).ok_or("the bearer that was added")?;
    if pending.remote.is_none() {
        let remote = Some(Teid(number));
        bearers.open(own, Bearer { remote, ..pending })?;
    }
    Ok(())
}

/// Whether the bearer of this number is found by its own TEID and by the peer's.
fn is_found(bearers: &Bearers, number: u32) -> bool {
    bearers.get(teid(number)).is_some()
        && bearers.first_of_remote(Teid(number)) == Some(teid(number))
}

/// Finds a bearer and removes it.
fn find_and_remove(rt: &impl Abort, bearers: &mut Bearers, number: u32) {
    assert!(rt; is_found(bearers, number), "{number}");
    bearers.remove(teid(number));
}

/// Adds all bearers, and removes them in an order that jumps.
fn fill_and_empty(rt: &impl Abort, bearers: &mut Bearers) -> Result<(), Fail> {
    for number in 0..11_000u32 {
        add_and_open(rt, bearers, number)?;
    }
    for turn in 0..11_000u32 {
        find_and_remove(rt, bearers, turn * 7919 % 11_000);
    }
    assert!(rt; bearers.len() == 0);
    Ok(())
}

#[test]
fn eleven_bearers_of_a_thousand_sessions(rt: HostRuntime) -> Result<(), Fail> {
    let mut bearers = Bearers::new(rt.alloc());
    fill_and_empty(&rt, &mut bearers)
}
