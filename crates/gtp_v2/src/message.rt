//! Messages.

ghost use Rattle.std.specs.Prelude.{◌≡◌, ◌↔◌, IsTrue, None};
ghost use Rattle.gtp_v2.specs.reading.Headed.{HasHeader};
ghost use Rattle.gtp_v2.specs.Priority.{PriorityNeedsTeid};
ghost use Rattle.gtp_v2.specs.Body.{message_value, OctetsOnlyWithoutTable};
ghost use Rattle.gtp_v2.specs.Marks.{MeetsMarks};

use crate::body::{Body, meets_marks, type_name};
use crate::header::Header;
use gtp_values::{Below, Seq, Teid};

/// A control message (TS 29.274 5.1).
#[derive(Debug, PartialEq, Eq, Drop)]
pub struct Message {
    /// The receiver's TEID, where the header has one: a type with a table has one or has none, as its
    /// table says (TS 29.274 5.5.1).
    pub teid: Option<Teid>,
    /// The sequence number, 0 to 16,777,215.
    pub seq: Seq,
    /// The message's priority, 0 the highest: only where the header has a TEID.
    pub priority: Option<Below<16>>,
    /// Its type, and what it carries.
    pub body: Body,
}

impl Message {
    /// Whether `encode` takes it: a priority stands beside a TEID alone, and a message kept as octets is
    /// of a type without a table.
    pub fn is_encodable(&self) -> bool
        ensures { IsTrue result
            ↔ (PriorityNeedsTeid self.now.teid self.now.priority
            × OctetsOnlyWithoutTable self.now.body) }
    {
        let fits = match &self.body {
            Body::Other { kind, .. } => type_name(*kind).is_none(),
            _ => true,
        };
        (self.teid.is_some() || self.priority.is_none()) && fits
    }

    /// Whether it has a TEID exactly where its table says so, and what the marks of the table ask is there
    /// (a message of a type without a table meets them). Exactly then the encoding that `encode` answers is
    /// read as this message. Each message that `decode` answers meets them.
    pub fn meets_marks(&self) -> bool
        ensures { IsTrue result ↔ MeetsMarks (message_value self.now) }
    {
        meets_marks(&self.body, self.teid.is_some())
    }
}

/// What a datagram holds: one message, or two (TS 29.274 5.5.1).
#[derive(Debug, Drop, PartialEq, Eq)]
pub struct Datagram {
    pub message: Message,
    /// The second message, which the first announces.
    pub second: Option<Box<Message>>,
}

impl Datagram {
    /// The datagram of one message, with this header, that says this.
    pub(crate) fn of(header: &Header, body: Body) -> Datagram
        ensures header { HasHeader header.now result.message }
        ensures body { result.message.body ≡ body }
        ensures alone { result.second ≡ None }
    {
        let message = Message {
            teid: header.teid,
            seq: header.seq,
            priority: header.priority,
            body,
        };
        Datagram {
            message,
            second: None,
        }
    }
}
