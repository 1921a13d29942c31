//! What stands in a table, in order of the TEIDs.

ghost use Rattle.std.specs.Iterator.{YieldsFirstBy, item_count};

use crate::context::{Bearer, Session};
use crate::table::Table;
use gtp_values::Teid;
use std::marker::Model;

/// What stands in a table under each TEID, in order of the TEIDs. Contracts see what is left.
#[derive(Drop)]
pub struct Listing<'a, V: Copy> {
    table: &'a Table<V>,
    next: usize,
}

/// Sessions by own control plane TEID.
pub type SessionList<'a> = Listing<'a, Session>;

/// Bearers by own user plane TEID.
pub type BearerList<'a> = Listing<'a, Bearer>;

impl<'a, V: Copy> Model for Listing<'a, V> {
    ghost use Rattle.std.specs.Prelude.{ℕ, List, drop};
    ghost use Rattle.std.specs.Coded.{coded_list, coded×, coded_ℕ};
    ghost use Rattle.std.specs.FinMap as map;

    ghost Value = { List (ℕ × V) };

    ghost coded = { coded_list (coded× coded_ℕ V.code) };

    ghost view = { λ a. drop a.next (map.entries a.table.now.table) };
}

impl<V: Copy> Table<V> {
    ghost use Rattle.std.specs.Prelude.{◌≡◌};
    ghost use Rattle.std.specs.FinMap as map;

    /// All that stands there, in order of the TEIDs. Takes no memory.
    pub fn iter(&self) -> Listing<'_, V>
        ensures { result ≡ map.entries self.now.table }
    {
        Listing {
            table: self,
            next: 0,
        }
    }
}

impl<'a, V: Copy> Iterator for Listing<'a, V> {
    type Item = (Teid, V);

    ghost next_gives = { YieldsFirstBy (λ e. e) (λ es. es) };

    ghost remaining = { item_count (λ es. es) };

    fn next(&mut self) -> Option<(Teid, V)> {
        if self.next >= self.table.len() {
            return None;
        }
        let entry = self.table.at(self.next)?;
        self.next += 1;
        Some(entry)
    }
}
