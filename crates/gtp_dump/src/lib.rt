//! Datagrams in text, as dumps and logs have them: hexadecimal digits, a datagram a line, in the rows of a dump, or in lines that
//! are joined.
#![tactic(auto)]

mod bounded_line;
mod decoding;
mod elsewhere;
mod entry;
mod flaw;
mod hint;
mod row;
mod text;

pub use decoding::{Asked, DumpFault, Form, Tally, decode_dump, decode_word};
pub use elsewhere::count_elsewhere;
pub use flaw::{Flaw, flaw_of};
pub use hint::{Hint, hint_of};
pub use row::{begins_dump, row_digits};
pub use text::{Dumped, LineFault, MOST_OCTETS, read_line};

/// What the signatures here name of the crates below.
pub use gtp_counted::Counted;
pub use gtp_json::Members;
pub use gtp_values::Plane;
