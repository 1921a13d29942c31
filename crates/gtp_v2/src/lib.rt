//! GTPv2-C messages (TS 29.274 clauses 5 to 8).
#![tactic(auto)]

mod asked;
mod body;
mod boxed;
mod check;
mod contexts;
mod decoding;
mod encoded_length;
mod encoding;
mod fault;
pub mod flags;
mod grouped_rows;
mod header;
mod judging;
pub mod kinds;
pub mod laws;
mod list;
mod list_rows;
mod message;
mod message_table;
mod presence;
mod required_rows;
mod single_rows;
mod table;
mod values;
mod viewing;
mod writing;

pub use asked::{Asked, Others, Tables};
pub use body::{
    BearerRequestContext, BearerResponseContext, Body, CreateBearerRequest, CreateBearerResponse,
    CreateSessionRequest, CreateSessionResponse, DeleteBearerRequest, DeleteBearerResponse,
    DeleteSessionRequest, DeleteSessionResponse, EchoRequest, EchoResponse, RemovalResponseContext,
    SessionRequestContext, SessionResponseContext, VersionNotSupported, type_name,
};
pub use boxed::Boxed;
pub use contexts::{ContextView, Contexts};
pub use decoding::decode;
pub use encoding::{encode, encode_pair, pair};
pub use fault::{BAD_ELEMENT, Head, MISSING_ELEMENT, V2Fault};
pub use gtp_ie::kinds::BEARER_CONTEXT;
pub use judging::judge;
pub use list::Listed;
pub use message::{Datagram, Message};
pub use required_rows::S5S8;
pub use table::{Line, Row};
pub use values::Values;
pub use viewing::{DatagramView, MessageView, view};

/// What the signatures and contracts here name of the crates below.
pub use gtp_ie::{
    Ambr, Apn, Below, Cause, ChargingId, Counter, EbiValue, FTeid, IeFault, Imsi, Offending,
    OtherPdnType, Paa, PdnType, Plmn, Pti, Qos, Rat, Rate, Rates, Recovery, Selection, Teid, Tft,
};
pub use gtp_values::Seq;
