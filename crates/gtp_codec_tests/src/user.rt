//! Datagrams of the user plane, encoded again, and chains of extension headers that a caller makes. What is decoded of them is
//! in tests/lines/user. Of them these stand with their clauses in examples/datagrams/user: end-marker, error-indication, g-pdu,
//! g-pdu-empty, g-pdu-extension-headers, supported-extensions.

use gtp_user::*;
use std::alloc::Global;
use std::process::Abort;
use std::test::Fail;

/// Messages of the path and of a tunnel, the last with two extension headers.
const VECTORS: [&[u8]; 10] = [
    b"\x32\x02\x00\x06\x00\x00\x00\x00\x00\x05\x00\x00\x0e\x00",
    b"\x32\x01\x00\x04\x00\x00\x00\x00\x00\x05\x00\x00",
    b"\x32\x1f\x00\x07\x00\x00\x00\x00\x00\x00\x00\x00\x8d\x01\x40",
    b"\x32\x1a\x00\x10\x00\x00\x00\x00\x00\x00\x00\x00\x10\x01\x00\x00\x02\x85\x00\x04\x0a\x00\x00\x02",
    b"\x32\x1a\x00\x1c\x00\x00\x00\x00\x00\x00\x00\x00\x10\x01\x00\x00\x02\x85\x00\x10\x20\x01\x0d\xb8\x00\x00\x00\x00\x00\x00\x00\x00\x00\x00\x00\x01",
    b"\x30\xfe\x00\x00\x01\x00\x00\x02",
    b"\x30\xff\x00\x03\x01\x00\x00\x02abc",
    b"\x30\xff\x00\x00\x01\x00\x00\x02",
    b"\x33\x03\x00\x06\x01\x00\x00\x02\x00\x07\x09\x00xy",
    b"\x34\xff\x00\x0f\x01\x00\x00\x02\x00\x00\x00\x20\x01\xaa\xbb\x40\x01\x08\x68\x00abc",
];

/// What is decoded, encoded again.
fn encoded_again(alloc: Global, octets: &[u8]) -> Result<Vec<u8>, Fail> {
    let message = match decode(octets) {
        Ok(message) => message,
        Err(fault) => return Err(fault.into()),
    };
    if !message.is_encodable() {
        return Err("not to be encoded".into());
    }
    Ok(encode(alloc, &message)?)
}

/// A datagram is encoded again as it is.
fn stands(rt: &impl Abort, alloc: Global, octets: &[u8]) -> Result<(), Fail> {
    let again = encoded_again(alloc, octets)?;
    assert!(rt; again.as_slice() == octets);
    Ok(())
}

/// The vectors, and the longest packet that a header can state.
#[test]
fn vectors_stand(rt: HostRuntime) -> Result<(), Fail> {
    for octets in VECTORS {
        stands(&rt, rt.alloc(), octets)?;
    }
    let mut longest = Vec::from_slice(rt.alloc(), b"\x30\xff\xff\xff\x01\x00\x00\x02")?;
    longest.resize(65_543, 7)?;
    stands(&rt, rt.alloc(), &longest)
}

/// The first type and the octets of chains, and their faults.
const CHAINS: [(u8, &[u8], Option<UserFault>); 8] = [
    (0, b"", None),
    (0x20, b"\x01\xaa\xbb\x40\x01\x08\x68\x00", None),
    (0, b"\x01", Some(UserFault::Length { stated: 0, held: 1 })),
    (
        0x20,
        b"\x01\xaa\xbb\x00\x01\x02",
        Some(UserFault::Length { stated: 4, held: 6 }),
    ),
    (0x20, b"", Some(UserFault::ExtensionPast { at: 0 })),
    (0x20, b"\x00", Some(UserFault::ExtensionZero { at: 0 })),
    (
        0x20,
        b"\x01\xaa\xbb\x40\x02\x08",
        Some(UserFault::ExtensionPast { at: 4 }),
    ),
    (
        0xc1,
        b"\x01\xaa\xbb\x00",
        Some(UserFault::ExtensionNeeded { kind: 0xc1, at: 0 }),
    ),
];

/// The fault of a chain that is made of these octets, if there is one.
fn is_made(rt: &impl Abort, first: u8, octets: &[u8], fault: Option<UserFault>) {
    assert!(rt;
        Extensions::try_new(first, octets).err() == fault,
        "{first} {octets:?}"
    );
}

#[test]
fn made_chains(rt: HostRuntime) {
    for (first, octets, fault) in CHAINS {
        is_made(&rt, first, octets, fault);
    }
}
