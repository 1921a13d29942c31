//! Numbers of requests from 8,388,606 on, what is sent again while others are answered, clones of what a tick does, and
//! texts of faults.

use gtp_reliable::{Endpoint, Held, Pending, ReliableFault, Request, Resend, Seq};
use gtp_values::Ip;
use std::alloc::Global;
use std::process::Abort;
use std::test::Fail;

const PLACE: Endpoint = Endpoint {
    ip: Ip::V4([10, 0, 0, 2]),
    port: 2123,
};

/// Begins a request of one octet, which has this number.
fn begin(
    rt: &impl Abort,
    alloc: Global,
    pending: &mut Pending<u8>,
    number: u32,
) -> Result<(), Fail> {
    let octets = vec![in alloc; 7u8]?;
    let seq = pending.prepare()?;
    assert!(rt; seq.number() == number, "{number}");
    pending.begin(seq, PLACE, octets, 7);
    Ok(())
}

/// What is sent again has this number, and is the same as its clone.
fn is_resent(rt: &impl Abort, resend: &Resend, number: u32) -> Result<(), Fail> {
    assert!(rt; resend.seq.number() == number, "{number}");
    let again = resend.clone()?;
    assert!(rt; again == *resend);
    Ok(())
}

/// The next tick sends the requests of these numbers again, in this order.
fn are_resent(rt: &impl Abort, pending: &Pending<u8>, numbers: &[u32]) -> Result<(), Fail> {
    let due = pending.due()?;
    assert!(rt; due.resend.len() == numbers.len());
    for (resend, number) in due.resend.iter().zip(numbers) {
        is_resent(rt, resend, *number)?;
    }
    Ok(())
}

/// Requests begin with these numbers, and the next tick sends them again in this order (TS 29.274 7.6: the highest of
/// the 24 bits is for commands).
fn are_numbered(
    rt: &impl Abort,
    alloc: Global,
    pending: &mut Pending<u8>,
    numbers: &[u32],
) -> Result<(), Fail> {
    for number in numbers {
        begin(rt, alloc, pending, *number)?;
    }
    are_resent(rt, pending, numbers)
}

#[test]
fn numbers_turn_over(rt: HostRuntime) -> Result<(), Fail> {
    let mut pending = Pending::new_at(rt.alloc(), 1, 1, Seq::new(8_388_606));
    are_numbered(&rt, rt.alloc(), &mut pending, &[8_388_606, 8_388_607, 0, 1])
}

/// So many requests begin and are answered, one after another.
fn are_answered(alloc: Global, pending: &mut Pending<u8>, count: u32) -> Result<(), Fail> {
    for _ in 0..count {
        let octets = vec![in alloc; 7u8]?;
        let seq = pending.prepare()?;
        pending.begin(seq, PLACE, octets, 7);
        pending.finish(seq);
    }
    Ok(())
}

/// Requests that are answered leave gaps behind the first one, which are closed in between.
#[test]
fn others_are_answered(rt: HostRuntime) -> Result<(), Fail> {
    let alloc = rt.alloc();
    let mut pending = Pending::new(alloc, 2, 1);
    begin(&rt, alloc, &mut pending, 0)?;
    are_answered(alloc, &mut pending, 40)?;
    begin(&rt, alloc, &mut pending, 41)?;
    pending.tick();
    begin(&rt, alloc, &mut pending, 42)?;
    are_resent(&rt, &pending, &[0, 41])?;
    pending.tick();
    are_resent(&rt, &pending, &[42])?;
    pending.tick();
    are_answered(alloc, &mut pending, 40)?;
    assert!(rt; pending.matched(Seq::new(42)) == Some(&7));
    let due = pending.due()?;
    assert!(rt; due.resend.is_empty() && due.gave_up.len() == 2);
    pending.tick();
    are_resent(&rt, &pending, &[])
}

/// The one request is the same as its clone.
fn is_cloned(rt: &impl Abort, requests: &[Request]) -> Result<(), Fail> {
    let [request] = requests else {
        return Err("not one request".into());
    };
    let again = request.clone()?;
    assert!(rt; again == *request);
    Ok(())
}

/// An answer is kept, and the next tick forgets its request.
fn keep_one(rt: &impl Abort, alloc: Global, held: &mut Held) -> Result<(), Fail> {
    let (request, answer) = (vec![in alloc; 7u8]?, vec![in alloc; 8u8]?);
    if held.lookup(PLACE, &request).is_some() {
        return Err("an answer is held".into());
    }
    held.prepare()?;
    held.keep(PLACE, request, answer);
    let due = held.due()?;
    is_cloned(rt, due.as_slice())
}

#[test]
fn clones_of_requests(rt: HostRuntime) -> Result<(), Fail> {
    let mut held = Held::new(rt.alloc(), 1);
    keep_one(&rt, rt.alloc(), &mut held)
}

const FAULTS: &[(ReliableFault, &str)] = &[
    (ReliableFault::PendingFull, "256 requests are pending"),
    (ReliableFault::HeldFull, "4096 answers are held"),
    (ReliableFault::Memory, "no memory"),
];

#[test]
fn faults_in_words(rt: HostRuntime) -> Result<(), Fail> {
    for (fault, words) in FAULTS {
        let told = fault.to_string(rt.alloc())?;
        assert!(rt; told.as_str() == *words, "{told}");
    }
    Ok(())
}
