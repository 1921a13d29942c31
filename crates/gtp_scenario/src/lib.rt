//! Scenarios: two gateways and what happens to them, read from JSON.
#![tactic(auto)]

mod about;
mod defaults;
mod entry;
mod event;
mod expanding;
mod fault;
mod halt;
mod head;
mod items;
pub mod laws;
mod members;
mod name;
mod past;
mod reason;
mod scenario;
mod text;
mod tree;
mod word;

pub use entry::Entry;
pub use expanding::events_of;
pub use fault::{ReadFault, Refusal};
pub use name::{BearerName, Name, SessionName};
pub use reason::event::EventFlaw;
pub use reason::flaw::ObjectFlaw;
pub use reason::gateway::{GatewayFlaw, gateway_flaw};
pub use reason::head::HeadFlaw;
pub use reason::key::Key;
pub use reason::kind::EventKind;
pub use reason::not_json::{JsonFlaw, json_flaw};
pub use reason::packet::PacketFlaw;
pub use reason::template::TemplateFlaw;
pub use reason::wanted::Wanted;
pub use reason::{Reason, reason_of};
pub use scenario::{Scenario, read_scenario};
pub use word::{name_of, word_of};

/// Readers of a scenario's values, for other texts that have them too.
pub use event::{event_named, payload_at, role_of, teid_at};
pub use fault::Fault;
pub use head::{access_points_at, counter_at, pools_at, switches_at, timers_at, with_templates_at};
pub use members::{Items, as_list, has, has_only, number_at, text_at, value_at, within};
pub use scenario::json_of;
pub use text::{address_of, ipv6_of, octets_of};
pub use tree::Tree;

/// What the signatures and contracts here name of the crates below.
pub use gtp_gateway::Role;
pub use gtp_values::Memory;
pub use gtp_world::{Event, WorldConfig};
