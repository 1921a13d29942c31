//! The commands of the program gtpshow: they decode GTP datagrams, also those of captures, replay scenarios of two gateways, run one
//! gateway behind lines, and explain the codes that they print.
#![tactic(auto)]

mod capturing;
mod command;
mod dumping;
mod explaining;
mod flags;
mod hinting;
mod replaying;
mod running;
mod serving;
mod showing;
mod unexpected;
mod watched_readers;

pub use command::Failure;
pub use hinting::hint;
pub use running::run;
