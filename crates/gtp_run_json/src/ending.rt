//! What stands at the end of a run, as JSON.

ghost use Rattle.std.specs.Prelude.{◌≡◌, IfOk};
ghost use Rattle.json.specs.Json.{Json};
ghost use Rattle.gtp_json.specs.Tree.{line_of};
ghost use Rattle.gtp_run_json.specs.Run.{ReadsAsItself};
ghost use Rattle.gtp_run_json.specs.Ending.{IsEndJson};

use crate::contexts::{put_bearers, put_sessions};
use crate::verdicts::{put_accepted, put_mutual};
use gtp_json::Output;
use gtp_world::World;
use std::alloc::{AllocError, Global};

/// The line of what stands at the end.
pub fn end_line(alloc: Global, world: &World) -> Result<Vec<u8>, AllocError>
    ensures { IfOk result (λ text.
        (j : Json) × IsEndJson world.now j × ReadsAsItself j × (text.items ≡ line_of j)) }
{
    let mut out = Output::new(alloc);
    out.begin_object()?;
    put_sessions(&mut out, world)?;
    put_bearers(&mut out, world)?;
    put_mutual(&mut out, world)?;
    put_accepted(&mut out, world)?;
    out.number_member("late", world.late() as u64)?;
    out.end_object()?;
    out.into_line()
}
