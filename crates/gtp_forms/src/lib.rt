//! Values by their forms. A form is data: the steps by which octets are read. One reader serves all forms, and one printer
//! writes the lines of what was told.
#![tactic(auto)]

mod describing;
mod form;
pub mod laws;
mod lines;
mod members;
mod numbers;
mod reader;
mod spelling;
pub mod text;
mod told;

pub use describing::put_names;
pub use form::{Bits, Case, How, Row, Spelling, Step, View, Word, row_of};
pub use lines::put_told;
pub use members::write_told;
pub use reader::read;
pub use told::Told;
