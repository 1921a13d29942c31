//! Information elements of GTPv2-C in the place where they lie, and the values that they spell.
#![tactic(auto)]

mod elements;
mod fault;
mod form;
pub mod kinds;
pub mod laws;
mod value;
mod view;
mod writing;

pub use elements::{AllOf, Elements, Indexed, all_elements, elements_at, indexed_at};
pub use fault::{IeFault, ReadFault};
pub use form::Form;
pub use value::{ChargingId, EbiValue, IeValue, PdnType, Pti, Rat, Recovery, Selection};
pub use view::ElementView;
pub use writing::{append, close, open, put, put_value};

/// What the signatures and contracts here name of the crate below.
pub use gtp_values::{
    Ambr, Apn, Below, Cause, Counter, FTeid, Imsi, Offending, OtherPdnType, Paa, Plmn, Qos, Rate,
    Rates, Teid, Tft,
};
