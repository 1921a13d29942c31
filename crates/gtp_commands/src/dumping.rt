//! Showing the datagrams of standard input, a line each.

ghost use Rattle.std.specs.Prelude.{◌≤◌, IfOk};

use crate::capturing::unwritten;
use crate::command::Failure;
use crate::hinting::{hint_of_dump, hint_of_interface, hint_of_pasted};
use crate::showing::show_dump;
use crate::watched_readers::Watched;
use gtp_counted::Counted;
use gtp_dump::{Asked, Form};
use gtp_interfaces::Interface;
use gtp_json::Members;
use std::alloc::Global;
use std::io::{self, BufReader, BufWriter, ErrorKind, Write};
use std::str;

/// How many octets are read or written at once.
pub const BUFFERED: usize = 65_536;

/// Standard error, as a writer of text.
#[derive(Drop)]
struct Errors<'a, P> {
    to: &'a P,
}

impl<P: Eprint> Write for Errors<'_, P> {
    fn write(&mut self, buf: &[u8]) -> io::Result<usize> {
        match str::from_utf8(buf) {
            Ok(text) => {
                self.to.eprint(text)?;
                Ok(buf.len())
            }
            Err(_) => Err(io::Error::from(ErrorKind::InvalidData)),
        }
    }

    fn flush(&mut self) -> io::Result<()> {
        Ok(())
    }
}

/// The interface by which a form judges.
pub fn interface_of(form: Form) -> Interface {
    match form {
        Form::All(_, interface) | Form::Json(Members::All { interface, .. }) => interface,
        _ => Interface::S5S8,
    }
}

/// Shows the datagrams of standard input, says on standard error what it is if it is something else, and returns the exit status.
pub fn dump_printed<R: Print + Eprint + Input>(
    rt: &R,
    alloc: Global,
    asked: Asked,
) -> Result<u8, Failure>
    ensures { IfOk result (λ status. status ≤ 2) }
{
    let reader = Watched::new(alloc, rt.reader());
    let reader = BufReader::with_capacity(alloc, BUFFERED, reader).map_err(|_| Failure::Memory)?;
    let out = BufWriter::with_capacity(alloc, BUFFERED, io::writer(rt)).map_err(
        |_| Failure::Memory,
    )?;
    let mut reader = Counted::new(reader);
    let mut out = Counted::new(out);
    let shown = show_dump(
        alloc,
        asked,
        &mut reader,
        &mut out,
        &mut Counted::new(Errors { to: rt }),
    );
    out.flush().map_err(unwritten)?;
    let first = reader.into_inner().into_inner().first;
    let shown = shown?;
    if shown.status == 2 {
        let _ = hint_of_dump(rt, &first);
    }
    if shown.status == 1 {
        let _ = hint_of_pasted(rt, alloc, &first);
    }
    if interface_of(asked.form) == Interface::S5S8 {
        let _ = hint_of_interface(rt, shown.elsewhere);
    }
    Ok(shown.status)
}
