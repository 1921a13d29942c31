//! The addresses of peers, each with its place among them.

use gtp_node::{Ip, Places};

/// Addresses in the order in which they were added.
#[derive(Drop)]
pub struct AddressPlaces {
    pub(crate) places: Places<Ip>,
}
