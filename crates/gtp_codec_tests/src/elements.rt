//! A value that is written is read again of each body that says the same (TS 29.274 8.4, 8.8).

use gtp_ie::*;
use std::test::Fail;

#[test]
fn values_are_read_again(rt: HostRuntime) -> Result<(), Fail> {
    let mut out = Vec::new(rt.alloc());
    let ebi = EbiValue(Below::new(5));
    let read = laws::read_again(&ebi, &mut out, &[0xf5, 9])?;
    assert!(rt; read == Ok(ebi));
    let offending = Offending {
        kind: 73,
        instance: Below::new(4),
    };
    let cause = Cause {
        value: 64,
        pce: false,
        bce: true,
        cs: false,
        offending: Some(offending),
    };
    let read = laws::read_again(&cause, &mut out, &[64, 0xfa, 73, 1, 2, 0xf4, 9])?;
    assert!(rt; read == Ok(cause));
    Ok(())
}
