//! Both gateways of the S5/S8 interface (TS 23.401 4.4.3): one type, with a role.
#![tactic(auto)]

mod command;
mod config;
mod fault;
mod gateway;
pub mod laws;
mod messages;
mod parts;
mod receive;
mod sent;
mod step;
mod tables;
mod tick;
mod user;

pub use command::create_session::SessionSpec;
pub use config::{Addresses, Config, Timers};
pub use fault::CommandFault;
pub use gateway::Gateway;
pub use receive::second_at;
pub use sent::{Begun, Sent};
pub use step::{Accepted, Report, Step};
pub use tick::Ticked;

/// What the signatures and contracts here name of the crates below.
pub use gtp_machine::{DropReason, FaultName, Outcome, Plane, Refusal, Role, Switches};
pub use gtp_reliable::Request;
pub use gtp_tables::{
    Bearer, BearerList, Kind, Pool, Pools, Prefixes, Session, SessionList, State, Subscriber,
};
pub use gtp_v2::{PdnType, Rat, Selection};
pub use gtp_values::{
    Addr, Ambr, Apn, Counter, Ebi, Endpoint, Ip, Memory, Plmn, Qos, Seq, Teid, Tft, ValueFault,
};
