//! What a gateway keeps of its sessions and bearers (TS 29.274), of the TEIDs that it drew and of
//! its peer's restart counter.
#![tactic(auto)]

mod bearers;
mod context;
mod draws;
mod fault;
mod index;
mod listing;
mod peer;
mod place_counts;
mod place_set;
mod pool;
mod pool_places;
mod sessions;
mod table;
mod view;

pub use bearers::Bearers;
pub use context::{Bearer, Kind, Session, State, Subscriber};
pub use draws::Draws;
pub use fault::TablesFault;
pub use listing::{BearerList, Listing, SessionList};
pub use peer::Peer;
pub use pool::{Asked, IpVersion, Pool, Pools, Prefixes};
pub use sessions::Sessions;
pub use table::Table;
pub use view::{View, end_opened};

/// What the signatures and contracts here name of the crate below.
pub use gtp_values::{Addr, Age, Apn, Counter, Ebi, Imsi, Teid, ValueFault};
