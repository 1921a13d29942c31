//! What messages say, and the list of their kinds.

ghost use Rattle.std.specs.Prelude.{◌≡◌, ◌↔◌, ◌++◌, length, IsTrue, None, option_map, Ok, OnOk, IfOk, IfSome, IsOk, IsSomeAnd, is_some};
ghost use Rattle.gtp_v2.specs.Table.{start};
ghost use Rattle.gtp_v2.specs.reading.Rows.{lines_at};
ghost use Rattle.gtp_v2.specs.Tables.{table_of};
ghost use Rattle.gtp_v2.specs.Message.{MessageGives, ContentAllocates, raw_of};
ghost use Rattle.gtp_v2.specs.reading.Message.{carried_at, content_at, content_among};
ghost use Rattle.gtp_v2.specs.Body.{content_of, kind_of, OctetsOnlyWithoutTable};
ghost use Rattle.gtp_v2.specs.Encoding.{carried_by};
ghost use Rattle.gtp_values.specs.Room.{Leaves};
ghost use Rattle.gtp_v2.specs.Room.{TakesAtMost, most_carried_by};
ghost use Rattle.gtp_v2.specs.Marks.{ContentMarked};
ghost use Rattle.gtp_v2.specs.Kinds.{ContentHasKinds};
ghost use Rattle.gtp_v2.specs.reading.Headed.{headed_of, HasHeader};

use crate::boxed::Boxed;
use crate::fault::V2Fault;
use crate::header::Header;
use crate::list::Listed;
use crate::message::Datagram;
use crate::message_table::HasTable;
use gtp_ie::Indexed;
use std::alloc::{AllocError, Global};

mod create_bearer_request;
mod create_bearer_response;
mod create_session_request;
mod create_session_response;
mod delete_bearer_request;
mod delete_bearer_response;
mod delete_session_request;
mod delete_session_response;
mod echo_request;
mod echo_response;
mod version_not_supported;

pub use create_bearer_request::{BearerRequestContext, CreateBearerRequest};
pub use create_bearer_response::{BearerResponseContext, CreateBearerResponse};
pub use create_session_request::{CreateSessionRequest, SessionRequestContext};
pub use create_session_response::{CreateSessionResponse, SessionResponseContext};
pub use delete_bearer_request::DeleteBearerRequest;
pub use delete_bearer_response::{DeleteBearerResponse, RemovalResponseContext};
pub use delete_session_request::DeleteSessionRequest;
pub use delete_session_response::DeleteSessionResponse;
pub use echo_request::EchoRequest;
pub use echo_response::EchoResponse;
pub use version_not_supported::VersionNotSupported;

/// What a message says, by its type (TS 29.274 6.1).
#[derive(Debug, Drop, PartialEq, Eq)]
pub enum Body {
    EchoRequest(EchoRequest),
    EchoResponse(EchoResponse),
    VersionNotSupported(VersionNotSupported),
    CreateSessionRequest(Boxed<CreateSessionRequest>),
    CreateSessionResponse(Boxed<CreateSessionResponse>),
    DeleteSessionRequest(DeleteSessionRequest),
    DeleteSessionResponse(DeleteSessionResponse),
    CreateBearerRequest(CreateBearerRequest),
    CreateBearerResponse(CreateBearerResponse),
    DeleteBearerRequest(DeleteBearerRequest),
    DeleteBearerResponse(DeleteBearerResponse),
    /// A message of another type: the octets after its header.
    Other { kind: u8, octets: Listed<u8> },
}

/// Hands a macro what it is given, and then each kind of message with a table.
macro_rules! with_kinds {
    ($macro:ident, $($given:expr),+) => {
        $macro!(
            ($($given),+),
            EchoRequest,
            EchoResponse,
            VersionNotSupported,
            CreateSessionRequest,
            CreateSessionResponse,
            DeleteSessionRequest,
            DeleteSessionResponse,
            CreateBearerRequest,
            CreateBearerResponse,
            DeleteBearerRequest,
            DeleteBearerResponse
        )
    };
}

/// The type of a body's message.
macro_rules! kind_among {
    (($body:expr), $($kind:ident),+) => {
        match $body {
            $(Body::$kind(_) => $kind::KIND,)+
            Body::Other { kind, .. } => *kind,
        }
    };
}

/// The name of a type.
macro_rules! name_among {
    (($number:expr), $($kind:ident),+) => {
        match $number {
            $($kind::KIND => Some($kind::name()),)+
            _ => None,
        }
    };
}

/// The datagram with this header whose elements are these, or the octets after it.
macro_rules! build_among {
    (($alloc:expr, $header:expr, $elements:expr), $($kind:ident),+) => {
        match $header.kind {
            $($kind::KIND => $kind::build($alloc, $header, $elements),)+
            _ => build_other($alloc, $header),
        }
    };
}

/// What elements say, where the header has the form that the type has.
macro_rules! read_among {
    (($alloc:expr, $kind_of:expr, $has_teid:expr, $elements:expr), $($kind:ident),+) => {
        match $kind_of {
            $($kind::KIND if $has_teid == $kind::HAS_TEID => $kind::read($alloc, $elements),)+
            _ => None,
        }
    };
}

/// Whether a type of message has a table.
macro_rules! table_among {
    (($kind_of:expr), $($kind:ident),+) => {
        match $kind_of {
            $($kind::KIND => true,)+
            _ => false,
        }
    };
}

/// Whether elements pass, where the header has the form that the type has.
macro_rules! passes_among {
    (($kind_of:expr, $has_teid:expr, $elements:expr), $($kind:ident),+) => {
        match $kind_of {
            $($kind::KIND => $has_teid == $kind::HAS_TEID && $kind::passes($elements),)+
            _ => false,
        }
    };
}

/// What is left of a room after what a body carries.
macro_rules! room_among {
    (($body:expr, $room:expr), $($kind:ident),+) => {
        match $body {
            $(Body::$kind(message) => message.room_after($room),)+
            Body::Other { octets, .. } => $room.checked_sub(octets.len()),
        }
    };
}

/// Whether a message with a TEID or without one has what its table asks.
macro_rules! marks_among {
    (($body:expr, $has_teid:expr), $($kind:ident),+) => {
        match $body {
            $(Body::$kind(message) => $has_teid == $kind::HAS_TEID && message.meets_marks(),)+
            Body::Other { .. } => true,
        }
    };
}

/// Writes what a body carries.
macro_rules! write_among {
    (($body:expr, $out:expr), $($kind:ident),+) => {
        match $body {
            $(Body::$kind(message) => message.write($out)?,)+
            Body::Other { octets, .. } => $out.extend_from_slice(octets.as_slice())?,
        }
    };
}

impl Body {
    /// The type of the message.
    pub fn kind(&self) -> u8
        ensures { result ≡ kind_of self.now }
    {
        with_kinds!(kind_among, self)
    }

    /// The octets of a message that is kept as octets; `None` of a message whose type has a table.
    pub fn octets(&self) -> Option<&[u8]>
        ensures { option_map (λ octets. octets.now) result ≡ raw_of (content_of self.now) }
    {
        match self {
            Body::Other { octets, .. } => Some(octets.as_slice()),
            _ => None,
        }
    }
}

/// The name of a type of message that has a table (TS 29.274 table 6.1-1), in lower case and with
/// hyphens: `create-session-request`.
pub fn type_name(kind: u8) -> Option<&'static str>
    ensures { option_map (λ name. name.now) result
        ≡ option_map (λ table. table.name) (table_of kind) }
{
    with_kinds!(name_among, kind)
}

/// A message of another type, as octets. Not inlined, so that a message with a table is written where the
/// caller wants it, and not moved there.
#[inline(never)]
#[tactic(auto, unfolding(crate::specs::reading::Message::content_at))]
pub fn build_other(alloc: Global, header: &Header) -> Result<Datagram, V2Fault>
    requires { table_of header.now.kind ≡ None }
    ensures content { MessageGives (ContentAllocates (table_of header.now.kind))
        (λ d. content_of d.message.body) result (content_at (headed_of header.now)) }
    ensures kind { IfOk result (λ d. kind_of d.message.body ≡ header.now.kind) }
    ensures header { IfOk result (λ d. HasHeader header.now d.message) }
    ensures octets_only { IfOk result (λ d. OctetsOnlyWithoutTable d.message.body) }
    ensures alone { IfOk result (λ d. d.second ≡ None) }
{
    let kind = header.kind;
    // No octets take no memory, so it may not be answered that it ran out.
    let octets = if header.rest.is_empty() {
        Vec::new(alloc)
    } else {
        Vec::from_slice(alloc, header.rest)?
    };
    let octets = Listed::of(octets);
    Ok(Datagram::of(header, Body::Other { kind, octets }))
}

/// The datagram with this header whose elements are these, which have what its table asks. Not inlined,
/// so that a message is moved once for all kinds, and not once more for each caller.
#[inline(never)]
#[tactic(auto, unfolding(crate::specs::reading::Message::content_at))]
pub fn build_datagram(
    alloc: Global,
    header: &Header,
    elements: &Indexed,
) -> Result<Datagram, V2Fault>
    requires { IsOk (content_among (table_of header.now.kind) (headed_of header.now) elements.now) }
    ensures content { MessageGives (ContentAllocates (table_of header.now.kind))
        (λ d. content_of d.message.body) result
        (content_among (table_of header.now.kind) (headed_of header.now) elements.now) }
    ensures kind { IfOk result (λ d. kind_of d.message.body ≡ header.now.kind) }
    ensures header { IfOk result (λ d. HasHeader header.now d.message) }
    ensures octets_only { IfOk result (λ d. OctetsOnlyWithoutTable d.message.body) }
    ensures alone { IfOk result (λ d. d.second ≡ None) }
{
    with_kinds!(build_among, alloc, header, elements)
}

/// Whether a type of message has a table.
#[inline(always)]
pub fn has_table(kind: u8) -> bool
    ensures { result ≡ is_some (table_of kind) }
{
    with_kinds!(table_among, kind)
}

/// Whether a header has the form that its type asks, and the elements after it have what the table asks. Answers no
/// fault, so that all is in registers.
#[inline(always)]
pub fn passes(kind: u8, has_teid: bool, elements: &Indexed) -> bool
    ensures { IsTrue result → IsSomeAnd (table_of kind) (λ table. (has_teid ≡ table.has_teid)
        × IsOk (lines_at start table.lines elements.now)) }
{
    with_kinds!(passes_among, kind, has_teid, elements)
}

/// What the elements after a header say, where it has the form that its type has; `None` where they don't have what the
/// table asks, and where memory ran out. Answers no fault.
#[inline(always)]
pub fn read_body(alloc: Global, kind: u8, has_teid: bool, elements: &Indexed) -> Option<Body>
    ensures content { IfSome result (λ body. IsSomeAnd (table_of kind) (λ table. (has_teid ≡ table.has_teid)
        × (carried_at table.lines elements.now ≡ Ok (content_of body)))) }
    ensures kind { IfSome result (λ body. kind_of body ≡ kind) }
    ensures octets_only { IfSome result OctetsOnlyWithoutTable }
{
    with_kinds!(read_among, alloc, kind, has_teid, elements)
}

/// What is left of a room after what a message carries, `None` where it doesn't fit.
pub fn room_after(body: &Body, room: usize) -> Option<usize>
    requires { OctetsOnlyWithoutTable body.now }
    ensures left { Leaves room (length (carried_by (table_of (kind_of body.now))
        (content_of body.now))) result }
    ensures most { TakesAtMost room (most_carried_by (table_of (kind_of body.now))
        (content_of body.now))
        result }
{
    with_kinds!(room_among, body, room)
}

/// Whether a TEID stands exactly where the kind has one, and what the marks of its table ask is there.
pub fn meets_marks(body: &Body, has_teid: bool) -> bool
    ensures { IsTrue result
        ↔ ContentMarked (table_of (kind_of body.now)) has_teid (content_of body.now) }
{
    with_kinds!(marks_among, body, has_teid)
}

/// Appends what a message carries.
pub fn write_body(out: &mut Vec<u8>, body: &Body) -> Result<(), AllocError>
    requires { OctetsOnlyWithoutTable body.now }
    ensures ok { OnOk result
        (out.new.items
        ≡ out.old.items
        ++ carried_by (table_of (kind_of body.now)) (content_of body.now)) }
    ensures kinds { OnOk result (ContentHasKinds (table_of (kind_of body.now))
        (content_of body.now)) }
{
    with_kinds!(write_among, body, out);
    Ok(())
}
