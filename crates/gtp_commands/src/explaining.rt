//! Explaining codes and types.

ghost use Rattle.std.specs.Prelude.{◌≡◌, ◌≢◌, ◌-◌, ◌^◌, ◌<◌, [], Err, None, IfOk, IfErr, IfSome, IsSomeAnd, OnOk, map, option_map};
ghost use Rattle.std.specs.Io.KnownBytes.{Appends};
ghost use Rattle.gtp_counted.specs.Counts.{inner_of, failures_of};
ghost use Rattle.gtp_counted.specs.Streams.{WritesFront};
ghost use Rattle.gtp_codes.specs.Explained.{explanation};
ghost use Rattle.gtp_lines.specs.Types.{type_lines as spec_type_lines};
ghost use Rattle.gtp_commands.specs.Stops.{TellsClosed, StopsExplain};

use crate::capturing::unwritten;
use crate::command::Failure;
use gtp_codes::{Meaning, explain};
use gtp_counted::Counted;
use gtp_lines::{Names, TypeOf, type_lines};
use std::alloc::Global;
use std::io::Write;

/// Writes the lines of those of the codes of these parts that a word asks for, or of all codes without one, and returns the
/// exit status, 0. `BadCode` if no code is called so, `Memory` if an allocation was refused, `Write` or `Closed` if the write
/// failed.
#[tactic(auto, using(gtp_counted::proofs::Written::front_none))]
pub fn explain_code<W: Write>(
    alloc: Global,
    parts: &[&[Meaning]],
    word: Option<&str>,
    out: &mut Counted<W>,
) -> Result<u8, Failure>
    requires { failures_of out.old < 2 ^ 64 - 1 }
    ensures written { OnOk result (Appends (W.contents (inner_of out.old)) (W.contents (inner_of out.new))
        (explanation (option_map (λ w. w.now) word.entry) (map (λ part. part.now) parts.now))) }
    ensures front { WritesFront (W.contents (inner_of out.old)) (W.contents (inner_of out.new))
        (explanation (option_map (λ w. w.now) word.entry) (map (λ part. part.now) parts.now)) }
    ensures status { IfOk result (λ status. status ≡ 0) }
    // No code is called so exactly where nothing would be written.
    ensures code { result ≡ Err Failure.BadCode → (out.new ≡ out.old) ×
        (explanation (option_map (λ w. w.now) word.entry) (map (λ part. part.now) parts.now) ≡ []) }
    ensures some { OnOk result
        (explanation (option_map (λ w. w.now) word.entry) (map (λ part. part.now) parts.now) ≢ []) }
    ensures memory { result ≡ Err Failure.Memory → out.new ≡ out.old }
    ensures writes { TellsClosed result out.old out.new }
    ensures kind { IfErr result StopsExplain }
{
    let Ok(text) = explain(alloc, parts, word) else {
        return Err(Failure::Memory);
    };
    if text.is_empty() {
        return Err(Failure::BadCode);
    }
    match out.write_all(&text) {
        Ok(()) => Ok(0),
        Err(failed) => Err(unwritten(failed)),
    }
}

/// Writes the lines of a type: its name, its clause, and the names of its fields where it has a form. Returns the exit status, 0.
/// `BadCode` if the type has no name, `Memory` if an allocation was refused, `Write` or `Closed` if the write failed.
#[tactic(auto, using(gtp_counted::proofs::Written::front_none))]
pub fn explain_type<W: Write>(
    alloc: Global,
    names: &Names,
    what: TypeOf,
    kind: u8,
    out: &mut Counted<W>,
) -> Result<u8, Failure>
    requires { failures_of out.old < 2 ^ 64 - 1 }
    ensures written { OnOk result (IsSomeAnd (spec_type_lines names.now what kind)
        (Appends (W.contents (inner_of out.old)) (W.contents (inner_of out.new)))) }
    ensures front { IfSome (spec_type_lines names.now what kind)
        (WritesFront (W.contents (inner_of out.old)) (W.contents (inner_of out.new))) }
    ensures status { IfOk result (λ status. status ≡ 0) }
    ensures code { result ≡ Err Failure.BadCode → (out.new ≡ out.old) × (spec_type_lines names.now what kind ≡ None) }
    ensures memory { result ≡ Err Failure.Memory → out.new ≡ out.old }
    ensures writes { TellsClosed result out.old out.new }
    ensures kind { IfErr result StopsExplain }
{
    let Ok(text) = type_lines(alloc, names, what, kind) else {
        return Err(Failure::Memory);
    };
    let Some(text) = text else {
        return Err(Failure::BadCode);
    };
    match out.write_all(&text) {
        Ok(()) => Ok(0),
        Err(failed) => Err(unwritten(failed)),
    }
}
