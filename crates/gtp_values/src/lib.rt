//! Identifiers, names and addresses of GTP: values of a fixed size, none of which takes memory.
#![tactic(auto)]

mod addr;
mod address;
mod apn;
mod below;
mod bit;
mod cause;
mod counter;
mod ebi;
mod fault;
mod fteid;
mod hexadecimal;
mod identifiers;
mod imsi;
pub mod laws;
mod octets;
mod paa;
mod plane;
mod plmn;
mod qos;
mod tft;

pub use addr::Addr;
pub use address::{Endpoint, Ip};
pub use apn::Apn;
pub use below::Below;
pub use bit::has_bit;
pub use cause::{Cause, Offending};
pub use counter::{Age, Counter};
pub use ebi::Ebi;
pub use fault::{Memory, ValueFault};
pub use fteid::FTeid;
pub use identifiers::{Seq, Teid};
pub use imsi::Imsi;
pub use octets::Octets;
pub use paa::{OtherPdnType, Paa};
pub use plane::Plane;
pub use plmn::Plmn;
pub use qos::{Ambr, Qos, Rate, Rates};
pub use tft::Tft;
