//! Replays over readers and writers that do little in a call, or fail in one.

use crate::setting::scenario_of;
use gtp_replay::{Counted, Form, ReplayFault, Verdict, replay};
use std::alloc::Global;
use std::io;
use std::io::{Read, Write};
use std::process::Abort;
use std::test::Fail;

/// The calls of a reader or a writer.
#[derive(Clone, Copy)]
struct Calls {
    /// How many were made.
    count: u64,
    /// Which one fails, from 1: none for 0.
    fails_at: u64,
    /// Whether every other one is interrupted, from the first on.
    is_restless: bool,
}

impl Calls {
    /// No call was made, and the one with this number fails.
    fn failing_at(fails_at: u64) -> Calls {
        Calls {
            count: 0,
            fails_at,
            is_restless: false,
        }
    }

    /// Another call is made: how it fails, if it does. A failure is of two kinds, in turn.
    fn fault(&mut self) -> Option<io::ErrorKind> {
        self.count = self.count.saturating_add(1);
        let is_odd = self.count % 2 == 1;
        if self.is_restless && is_odd {
            Some(io::ErrorKind::Interrupted)
        } else if self.count != self.fails_at {
            None
        } else if is_odd {
            Some(io::ErrorKind::BrokenPipe)
        } else {
            Some(io::ErrorKind::TimedOut)
        }
    }
}

/// Gives one octet a call.
#[derive(Clone, Copy)]
struct Slow<'a> {
    text: &'a [u8],
    calls: Calls,
}

impl<'a> Read for Slow<'a> {
    fn read(&mut self, buf: &mut [u8]) -> io::Result<usize> {
        if let Some(kind) = self.calls.fault() {
            return Err(io::Error::from(kind));
        }
        match (self.text.split_first(), buf.first_mut()) {
            (Some((octet, rest)), Some(place)) => {
                *place = *octet;
                self.text = rest;
                Ok(1)
            }
            _ => Ok(0),
        }
    }
}

/// Takes so many octets a call.
#[derive(Drop)]
struct Narrow {
    taken: Vec<u8>,
    width: usize,
    calls: Calls,
}

impl Write for Narrow {
    fn write(&mut self, buf: &[u8]) -> io::Result<usize> {
        if let Some(kind) = self.calls.fault() {
            return Err(io::Error::from(kind));
        }
        let (front, _) = buf.split_at(self.width.min(buf.len()));
        self.taken.extend_from_slice(front)?;
        Ok(front.len())
    }

    fn flush(&mut self) -> io::Result<()> {
        Ok(())
    }
}

/// A scenario of one event, whose report is short.
fn scenario(alloc: Global) -> Result<String, Fail> {
    scenario_of(
        alloc,
        "10",
        "60",
        r#"[{"do":"deliver","datagram":0,"expect":"N1"}]"#,
    )
}

/// Its report.
const REPORT: &[u8] = b"event 0 deliver N1\nlate 0\n";

/// How a scenario is replayed.
#[derive(Clone, Copy)]
struct Manner<'a> {
    text: &'a [u8],
    form: Form,
    reads: Calls,
    writes: Calls,
    width: usize,
}

impl<'a> Manner<'a> {
    /// A report over calls of one octet each, of which none fails.
    fn of(text: &'a [u8]) -> Manner<'a> {
        Manner {
            text,
            form: Form::Report,
            reads: Calls::failing_at(0),
            writes: Calls::failing_at(0),
            width: 1,
        }
    }
}

/// What a replay comes to, how many calls failed, and what is written.
type Done = (Result<Verdict, ReplayFault>, u64, Vec<u8>);

/// The scenario is replayed in this manner.
fn replayed(alloc: Global, manner: &Manner<'_>) -> Done {
    let mut reader = Counted::new(Slow {
        text: manner.text,
        calls: manner.reads,
    });
    let mut writer = Counted::new(Narrow {
        taken: Vec::new(alloc),
        width: manner.width,
        calls: manner.writes,
    });
    let result = replay(alloc, manner.form, &mut reader, &mut writer);
    let failures = reader.failures().saturating_add(writer.failures());
    (result, failures, writer.into_inner().taken)
}

/// No call fails, and all is written.
fn is_whole(rt: &impl Abort, alloc: Global, manner: &Manner<'_>, whole: &[u8]) {
    let (result, failures, written) = replayed(alloc, manner);
    assert!(rt;
        result == Ok(Verdict::Expected) && failures == 0,
        "{result:?}, {failures}"
    );
    assert!(rt; written.as_slice() == whole, "{written:?}");
}

/// One call fails, so this is answered, and so much is written.
fn is_cut(rt: &impl Abort, alloc: Global, manner: &Manner<'_>, fault: ReplayFault, front: &[u8]) {
    let (result, failures, written) = replayed(alloc, manner);
    assert!(rt;
        result == Err(fault) && failures == 1,
        "{result:?}, {failures}"
    );
    assert!(rt; written.as_slice() == front, "{written:?}");
}

/// A call that was interrupted has not failed, and is made again.
#[test]
fn calls_of_an_octet_each(rt: HostRuntime) -> Result<(), Fail> {
    let text = scenario(rt.alloc())?;
    let mut manner = Manner::of(text.as_bytes());
    is_whole(&rt, rt.alloc(), &manner, REPORT);
    manner.reads.is_restless = true;
    manner.writes.is_restless = true;
    is_whole(&rt, rt.alloc(), &manner, REPORT);
    Ok(())
}

/// Whichever call fails, and be it the one that would tell of the end.
#[test]
fn a_reader_that_fails(rt: HostRuntime) -> Result<(), Fail> {
    let text = scenario(rt.alloc())?;
    let mut manner = Manner::of(text.as_bytes());
    for call in 0..=text.len() {
        manner.reads = Calls::failing_at((call as u64).saturating_add(1));
        is_cut(&rt, rt.alloc(), &manner, ReplayFault::Read, &[]);
    }
    Ok(())
}

/// Whichever call fails. What was taken before is there.
fn writes_fail(rt: &impl Abort, alloc: Global, manner: &Manner<'_>, whole: &[u8]) {
    let mut manner = *manner;
    for call in 0..whole.len() {
        manner.writes = Calls::failing_at((call as u64).saturating_add(1));
        is_cut(rt, alloc, &manner, ReplayFault::Write, &whole[..call]);
    }
}

/// Of a report, and of a diagram. To take nothing is to fail, too.
#[test]
fn a_writer_that_fails(rt: HostRuntime) -> Result<(), Fail> {
    let text = scenario(rt.alloc())?;
    let mut manner = Manner::of(text.as_bytes());
    writes_fail(&rt, rt.alloc(), &manner, REPORT);
    manner.width = 0;
    is_cut(&rt, rt.alloc(), &manner, ReplayFault::Write, &[]);
    manner = Manner::of(text.as_bytes());
    manner.form = Form::Diagram;
    let (result, _, diagram) = replayed(rt.alloc(), &manner);
    assert!(rt; result == Ok(Verdict::Expected), "{result:?}");
    writes_fail(&rt, rt.alloc(), &manner, diagram.as_slice());
    Ok(())
}
