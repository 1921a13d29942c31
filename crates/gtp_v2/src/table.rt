//! The rows and lines of tables of messages, for the code and for contracts.

ghost use Rattle.std.specs.Prelude.{◌≡◌};
ghost use Rattle.gtp_v2.specs.Table.{need_of, kind_of, instance_of};

use crate::fault::Need;

/// A row of a type and instance, and who needs it.
#[derive(Clone, Copy, Debug, PartialEq, Eq)]
pub enum Row {
    /// Each message.
    Mandatory(u8, u8),
    /// Each message, by a condition that the standard states.
    Conditional(u8, u8),
    /// A message whose causes accept.
    Accepted(u8, u8),
    /// None.
    Optional(u8, u8),
}

/// A line of a message's table.
#[derive(Clone, Copy, Debug)]
pub enum Line {
    /// A row of at most one value.
    Single(Row),
    /// A row of groups, with the rows in each.
    Grouped(Row, &'static [Row]),
    /// All values of a type and an instance. Where no line before has a value there must be one; if there is
    /// none, the element of that type and of the third number, an instance, is missing.
    Several(u8, u8, u8),
}

/// What the lines so far say: whether each cause accepts, and whether none has a value.
#[derive(Clone, Copy, Debug)]
pub struct State {
    pub accepting: bool,
    pub silent: bool,
}

/// What a type of message asks: whether its header has a TEID, and its lines.
#[derive(Clone, Copy, Debug)]
pub struct Shape {
    pub has_teid: bool,
    pub lines: &'static [Line],
}

impl Row {
    /// Who needs it.
    pub(crate) fn need(&self, accepting: bool) -> Need
        ensures { result ≡ need_of accepting self.now }
    {
        match self {
            Row::Mandatory(..) => Need::Mandatory,
            Row::Conditional(..) => Need::Conditional,
            Row::Accepted(..) => Need::where_accepting(accepting),
            Row::Optional(..) => Need::Optional,
        }
    }

    /// The type of its element.
    pub(crate) fn kind(&self) -> u8
        ensures { result ≡ kind_of self.now }
    {
        match self {
            Row::Mandatory(kind, _)
            | Row::Conditional(kind, _)
            | Row::Accepted(kind, _)
            | Row::Optional(kind, _) => *kind,
        }
    }

    /// The instance of its element.
    pub(crate) fn instance(&self) -> u8
        ensures { result ≡ instance_of self.now }
    {
        match self {
            Row::Mandatory(_, instance)
            | Row::Conditional(_, instance)
            | Row::Accepted(_, instance)
            | Row::Optional(_, instance) => *instance,
        }
    }
}
