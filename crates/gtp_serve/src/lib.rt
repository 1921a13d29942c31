//! One gateway, or a node of many peers, behind lines: a JSON object a line goes in (RFC 8259), and one comes out for each.
#![tactic(auto)]

mod answering;
mod gateway_server;
mod head;
mod node_head;
mod node_request;
mod node_server;
mod reason;
mod reply;
mod request;
mod server;
mod serving;

pub use gateway_server::GatewayServer;
pub use head::{Head, head_in};
pub use node_head::{NodeHead, node_in};
pub use node_request::{NodeRequest, node_request_in};
pub use node_server::NodeServer;
pub use reason::{HeadReason, head_reason};
pub use request::{Request, request_in};
pub use server::Server;
pub use serving::{MOST_OCTETS, ServeFault, serve};

/// What the signatures and contracts here name of the crates below.
pub use gtp_counted::Counted;
pub use gtp_gateway::{Config, Counter, Endpoint, Plane, Role};
pub use gtp_scenario::{Fault, GatewayFlaw, JsonFlaw};
pub use gtp_world::Event;
