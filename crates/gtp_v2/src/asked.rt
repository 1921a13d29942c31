//! What a caller's tables ask of messages.

ghost use Rattle.std.specs.Prelude.{◌≡◌};
ghost use Rattle.gtp_v2.specs.Asked.{first_asked};

use crate::table::Line;

/// What messages of a type are to have.
#[derive(Clone, Copy, Debug)]
pub struct Asked {
    /// The type (TS 29.274 table 6.1-1).
    pub kind: u8,
    /// Whether the header has a TEID, where that is asked.
    pub has_teid: Option<bool>,
    /// The lines of the type's table. The first that is at fault is told. What a row asks for is a value: so a row
    /// that has to have one, of a type of element whose values are not known here, is at fault in each message.
    pub lines: &'static [Line],
}

/// What messages of a type without a table are to have after the header.
#[derive(Clone, Copy, Debug, PartialEq, Eq)]
pub enum Others {
    /// Octets, whatever they are.
    Octets,
    /// Elements, all of which are whole.
    Elements,
}

/// What messages are to have, by their type: what the first table of the type asks, and of a type without
/// a table what is asked of the others.
#[derive(Clone, Copy, Debug)]
pub struct Tables {
    pub tables: &'static [Asked],
    pub others: Others,
}

/// The first table of a type.
pub fn first_asked(kind: u8, tables: &[Asked]) -> Option<Asked>
    ensures { result ≡ first_asked kind tables.now }
{
    for asked in tables {
        if asked.kind == kind {
            return Some(*asked);
        }
    }
    None
}
