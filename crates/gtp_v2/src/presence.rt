//! What the marks of a table ask.

ghost use Rattle.std.specs.Prelude.{◌↔◌, IsTrue, map, All};
ghost use Rattle.gtp_v2.specs.Grammar.{IsEnough};
ghost use Rattle.gtp_v2.specs.Marks.{RowsMarked};

use crate::fault::Need;
use crate::grouped_rows::Context;

/// Whether each bearer context has what the marks of its rows ask.
fn all_meet<C: Context>(accepting: bool, contexts: &[C]) -> bool
    ensures { IsTrue result ↔ All (RowsMarked accepting C.rows) (map C.values contexts.now) }
{
    for context in contexts {
        if !context.meets_marks(accepting) {
            return false;
        }
    }
    true
}

/// Whether there are as many bearer contexts as are needed, and each has what the marks of its rows ask.
pub fn contexts_meet<C: Context>(need: Need, accepting: bool, contexts: &[C]) -> bool
    ensures { IsTrue result
        ↔ (IsEnough need (map C.values contexts.now)
        × All (RowsMarked accepting C.rows) (map C.values contexts.now)) }
{
    (need == Need::Optional || !contexts.is_empty()) && all_meet(accepting, contexts)
}
