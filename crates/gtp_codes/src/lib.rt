//! What the codes mean that `gtpshow` prints: faults of datagrams, refused commands, dropped datagrams, events that cannot
//! happen, and causes.
#![tactic(auto)]

mod explaining;
mod meanings;
mod words;

pub use explaining::{Meaning, explain};
pub use meanings::parts;
pub use words::{Word, cause_word, interface_type_word, pdn_type_word, rat_type_word};
