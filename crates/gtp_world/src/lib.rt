//! A simulated network of both gateways of the S5/S8 interface: commands, ticks, deliveries, losses and restarts.
#![tactic(auto)]

mod command;
mod config;
mod event;
mod gateways;
mod handed;
mod last;
pub mod laws;
mod log;
mod mutual;
mod records;
mod remembered;
mod request_key;
mod room;
mod run;
mod simulated_gateway;
mod simulation;
mod world;

pub use command::{outcome_of, run_command};
pub use config::WorldConfig;
pub use event::{Event, EventOutcome};
pub use gtp_gateway::{
    Apn, Config, Counter, Ebi, Gateway, Memory, Outcome, Qos, Role, Sent, Seq, SessionSpec, Teid,
    Tft, ValueFault,
};
pub use log::{Datagram, Entry, Note};
pub use mutual::{Mutual, Mutuals};
pub use run::RunFault;
pub use world::World;
