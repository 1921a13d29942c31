//! Datagrams of the control plane, encoded again, and what a fault tells of its message. Their octets are drawn by hand after
//! the figures of TS 29.274 clauses 5, 7 and 8.

use crate::datagrams::{BEARER_REQUEST, BEARER_RESPONSE, SESSION_REQUEST, SESSION_RESPONSE};
use gtp_v2::*;
use std::alloc::Global;
use std::process::Abort;
use std::test::Fail;

/// A request to remove bearers 6 and 9: examples/datagrams/control/delete-bearer-request.
const REMOVAL_REQUEST: &str = "48630012010000010000050049000101064900010109";

/// Its answer, which removed the first alone: examples/datagrams/control/delete-bearer-response.
const REMOVAL_RESPONSE: &str = concat!(
    "4864003101000001000005000200020011005d000b004900010006020002001000",
    "5d000b0049000100090200020040000300010001"
);

/// A removal with a priority, in whose answer the cause names an element.
const REMOVAL_RESPONSE_BY_PRIORITY: &str = concat!(
    "4c64002f000000070000093002000600460549000001",
    "4900010006",
    "5d000f00490001000602000600460549000001",
    "03000100c8"
);

/// An answer that accepts a session, and the request for a bearer, in one datagram:
/// examples/datagrams/control/create-session-response-and-create-bearer-request.
const PAIR: &str = concat!(
    "582100730100000100000000020002001000",
    "5700090187010000010a0000024f000500010a01000148000800000003e8000003e8",
    "5d003a0049000100050200020010005700090285010000020a000002",
    "5000160020090000000000000000000000000000000000000000",
    "5e000400010000020300010001",
    "485f004a01000001000000004900010005",
    "5d0039004900010000540001002157000901850100000",
    "30a0000025000160020090000000000000000000000000000000000000000",
    "5e00040001000003"
);

/// What each of them says is in tests/lines/control or beside it in examples/datagrams/control: the first is echo-request
/// there, those of types 36 and 37 are delete-session-request and delete-session-response.
const VECTORS: &[&str] = &[
    "40010009000001000300010007",
    "400200090000020003000100ff",
    "4003000400000100",
    SESSION_REQUEST,
    SESSION_RESPONSE,
    "4824000d01000001000001004900010005",
    "4825001301000001000001000200020010000300010001",
    BEARER_REQUEST,
    BEARER_RESPONSE,
    REMOVAL_REQUEST,
    "4863000d01000001000001004900010106",
    REMOVAL_RESPONSE,
    "482200080100000100000700",
    "4022000b0000070061626364656667",
    "4c6300170000000700000930490001000649000101064900010106",
    REMOVAL_RESPONSE_BY_PRIORITY,
    "4c2400080000000700000930",
    "4c250012000000070000093002000600460549000001",
    "4c21001300000007000009300200020049000300010001",
    PAIR,
];

/// What is decoded, encoded again.
fn encoded_again(alloc: Global, octets: &[u8]) -> Result<Vec<u8>, V2Fault> {
    let datagram = decode(alloc, octets)?;
    match &datagram.second {
        Some(second) => encode_pair(alloc, &datagram.message, second),
        None => encode(alloc, &datagram.message),
    }
}

/// A datagram is encoded again as it is.
fn stands(rt: &impl Abort, alloc: Global, octets: &[u8], name: &str) -> Result<(), Fail> {
    let again = encoded_again(alloc, octets)?;
    assert!(rt; again.as_slice() == octets, "{name}");
    Ok(())
}

#[test]
fn vectors_stand(rt: HostRuntime) -> Result<(), Fail> {
    for digits in VECTORS {
        let octets = hex::decode(rt.alloc(), digits)?;
        stands(&rt, rt.alloc(), &octets, digits)?;
    }
    Ok(())
}

/// A datagram in pieces, each as often as it says.
type Pieces = &'static [(&'static str, usize)];

/// The longest message with a table that a header can state, a Delete Bearer Response that accepts (TS 29.274 table
/// 7.2.10.2-1): 6 octets of its cause, 4,363 contexts of 15 and 4 of 19. The longest without a table. Three hundred
/// identities in a Delete Bearer Request.
const LONG: [Pieces; 3] = [
    &[
        ("4864ffff0100000100000700020002001000", 1),
        ("5d000b004900010005020002001000", 4_363),
        ("5d000f00490001000602000600400049000001", 4),
    ],
    &[("4022ffff00000100", 1), ("00", 65_531)],
    &[("486305e40100000100000700", 1), ("4900010109", 300)],
];

/// Appends octets so many times.
fn append(alloc: Global, octets: &mut Vec<u8>, digits: &str, times: usize) -> Result<(), Fail> {
    let piece = hex::decode(alloc, digits)?;
    for _ in 0..times {
        octets.extend_from_slice(&piece)?;
    }
    Ok(())
}

/// A datagram of pieces is encoded again as it is.
fn pieces_stand(rt: &impl Abort, alloc: Global, pieces: Pieces) -> Result<(), Fail> {
    let mut octets = Vec::new(alloc);
    for (digits, times) in pieces {
        append(alloc, &mut octets, digits, *times)?;
    }
    stands(rt, alloc, &octets, "a long message")
}

#[test]
fn long_messages_stand(rt: HostRuntime) -> Result<(), Fail> {
    for pieces in LONG {
        pieces_stand(&rt, rt.alloc(), pieces)?;
    }
    Ok(())
}

/// A Create Session Request with a priority, to the TEID 7: its sender's F-TEID, and an access point name that is empty or
/// goes past the end of the list.
const WITHOUT_NAME: [&str; 2] = [
    "4c20002a00000007000009300100080000010121436587f952000100065700090086010000010a00000147000000",
    "4c20002900000007000009300100080000010121436587f952000100065700090086010000010a0000014700ff",
];

/// What is known of it.
fn head(sender: Option<FTeid>) -> Head {
    Head {
        kind: 32,
        teid: Some(Teid(7)),
        seq: Seq::new(9),
        priority: Some(Below::new(3)),
        sender,
    }
}

/// A datagram has this fault.
fn has_fault(rt: &impl Abort, alloc: Global, digits: &str, fault: V2Fault) -> Result<(), Fail> {
    let octets = hex::decode(alloc, digits)?;
    assert!(rt; view(&octets).err() == Some(fault), "{digits}");
    Ok(())
}

/// The sender is told where the list is complete.
#[test]
fn heads_of_faults(rt: HostRuntime) -> Result<(), Fail> {
    let [empty, cut] = WITHOUT_NAME;
    let sender = FTeid::try_new(6, Teid(0x01000001), Some([10, 0, 0, 1]), None)?;
    let fault = V2Fault::Element {
        fault: IeFault::ShortValue {
            kind: 71,
            instance: 0,
            at: 42,
        },
        head: head(Some(sender)),
    };
    has_fault(&rt, rt.alloc(), empty, fault)?;
    let fault = V2Fault::Element {
        fault: IeFault::Truncated { at: 42 },
        head: head(None),
    };
    has_fault(&rt, rt.alloc(), cut, fault)
}
