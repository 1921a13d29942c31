//! Messages with a table.

ghost use Rattle.std.specs.Prelude.{◌≡◌, ◌↔◌, ◌++◌, Ok, OnOk, IfOk, IfSome, IsOk, Bool, ℕ, List, IsTrue, length, None};
ghost use Rattle.gtp_v2.specs.Table.{Line, Field, start};
ghost use Rattle.gtp_v2.specs.reading.Rows.{lines_at};
ghost use Rattle.gtp_v2.specs.reading.Headed.{headed_of, HasHeader};
ghost use Rattle.gtp_v2.specs.Text.{lines_encoding};
ghost use Rattle.gtp_values.specs.Room.{Leaves};
ghost use Rattle.gtp_v2.specs.Room.{TakesAtMost, most_of_lines};
ghost use Rattle.gtp_v2.specs.Kinds.{LinesHaveKinds};
ghost use Rattle.gtp_v2.specs.Marks.{LinesMarked};
ghost use Rattle.gtp_v2.specs.Message.{head_of, with_head as headed_fault, FieldsAllocate, MessageGives};
ghost use Rattle.gtp_v2.specs.reading.Message.{sender_of, as_fields, carried_at, fields_at};
ghost use Rattle.gtp_v2.specs.Body.{content_of, kind_of, OctetsOnlyWithoutTable};
ghost use Rattle.gtp_v2.specs.declared.fault.V2Fault.TheVariants.{Element};

use crate::body::{Body, CreateSessionRequest};
use crate::fault::{Head, RowFault, V2Fault};
use crate::header::Header;
use crate::message::Datagram;
use crate::single_rows::optional;
use gtp_ie::{IeFault, Indexed};
use gtp_values::FTeid;
use std::alloc::{AllocError, Global};

/// A kind of message that has a table of rows.
pub trait HasTable: Drop {
    /// Its type (TS 29.274 table 6.1-1).
    const KIND: u8;

    ghost KIND: { ℕ };

    /// Whether its header has a TEID.
    const HAS_TEID: bool;

    ghost HAS_TEID: { Bool };

    /// The name that contracts see.
    ghost named: { List ℕ };

    /// The lines of its table.
    ghost lines: { List Line };

    /// The values of the lines.
    ghost fields: { Self → List Field };

    /// The name of its type (TS 29.274 table 6.1-1), in lower case and with hyphens.
    fn name() -> &'static str
        ensures { result.now ≡ named };

    /// The datagram of one message with this header and these elements, which have what the lines ask. A call of its own, so
    /// that it sets up no room for messages of the other kinds.
    fn build(alloc: Global, header: &Header, elements: &Indexed) -> Result<Datagram, V2Fault>
        requires { IsOk (lines_at start lines elements.now) }
        ensures content { MessageGives (FieldsAllocate KIND lines) (λ d. content_of d.message.body) result
            (as_fields (fields_at lines (headed_of header.now) elements.now)) }
        ensures kind { IfOk result (λ d. kind_of d.message.body ≡ KIND) }
        ensures header { IfOk result (λ d. HasHeader header.now d.message) }
        ensures octets_only { IfOk result (λ d. OctetsOnlyWithoutTable d.message.body) }
        ensures alone { IfOk result (λ d. d.second ≡ None) };

    /// That the elements have what the lines ask.
    fn passes(elements: &Indexed) -> bool
        ensures { IsTrue result → IsOk (lines_at start lines elements.now) };

    /// What the message of these elements says; `None` where they don't have what the lines ask, and where memory ran
    /// out. Answers no fault and checks and builds by one reading; a call of its own for the same reason as `build`.
    fn read(alloc: Global, elements: &Indexed) -> Option<Body>
        ensures content { IfSome result (λ body. carried_at lines elements.now ≡ Ok (content_of body)) }
        ensures kind { IfSome result (λ body. kind_of body ≡ KIND) }
        ensures octets_only { IfSome result OctetsOnlyWithoutTable };

    /// Appends the elements of the lines.
    fn write(&self, out: &mut Vec<u8>) -> Result<(), AllocError>
        ensures ok { OnOk result (out.new.items
            ≡ out.old.items ++ lines_encoding lines (fields self.now)) }
        // The values are of the types of the table's rows.
        ensures kinds { OnOk result (LinesHaveKinds lines (fields self.now)) };

    /// What is left of a room after the elements of the lines, `None` where they don't fit.
    fn room_after(&self, room: usize) -> Option<usize>
        ensures left { Leaves room (length (lines_encoding lines (fields self.now))) result }
        ensures most { TakesAtMost room (most_of_lines lines (fields self.now)) result };

    /// Whether what the marks of the table ask is there.
    fn meets_marks(&self) -> bool
        ensures { IsTrue result ↔ LinesMarked start lines (fields self.now) };
}

/// What is known of a message whose elements are at fault.
pub fn head(header: &Header, sender: Option<FTeid>) -> Head
    ensures { result ≡ head_of (headed_of header.now) sender }
{
    Head {
        kind: header.kind,
        teid: header.teid,
        seq: header.seq,
        priority: header.priority,
        sender,
    }
}

/// The sender's end for control messages, which a Create Session Request gives.
#[tactic(auto, unfolding(crate::specs::reading::Message::sender_of))]
pub fn sender(kind: u8, elements: &Indexed) -> Option<FTeid>
    ensures { result ≡ sender_of kind elements.now }
{
    if kind == CreateSessionRequest::KIND {
        optional::<FTeid>(elements, 0)
    } else {
        None
    }
}

/// The fault of a row, told with the head.
pub fn with_head(head: Head, fault: RowFault) -> V2Fault
    ensures { result ≡ headed_fault head fault }
{
    match fault {
        RowFault::Missing {
            kind,
            instance,
            conditional,
            group,
        } => V2Fault::Missing {
            kind,
            instance,
            conditional,
            group,
            head,
        },
        RowFault::Element(fault) => V2Fault::Element { fault, head },
    }
}

/// The fault of a list of elements that is cut short.
#[cold]
pub fn list_fault(header: &Header, fault: IeFault) -> V2Fault
    ensures { result ≡ Element fault (head_of (headed_of header.now) None) }
{
    let head = head(header, None);
    V2Fault::Element { fault, head }
}

/// The fault of a row of these elements.
#[cold]
pub fn row_fault(header: &Header, elements: &Indexed, fault: RowFault) -> V2Fault
    ensures { result ≡ headed_fault (head_of (headed_of header.now)
        (sender_of header.now.kind elements.now)) fault }
{
    let head = head(header, sender(header.kind, elements));
    with_head(head, fault)
}
