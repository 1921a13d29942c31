//! Packets that were handed in.

ghost use Rattle.std.specs.Prelude.{◌≡◌, ◌↔◌, ◌<◌, ◌≤◌, ◌++◌, [], ◌∷◌, map, option_map, option_to_list, IsTrue, IfOk, OnOk};
ghost use Rattle.gtp_values.specs.FiniteMap.{Among};
ghost use Rattle.gtp_machine.specs.World.{other};
ghost use Rattle.gtp_world.specs.Indexes.{entry_by, owed_by};

use crate::log::Entry;
use crate::room::{insert_reserved, push_reserved};
use gtp_gateway::{Memory, Role};
use indexmap::IndexSet;
use std::alloc::Global;
use std::marker::Model;

/// A packet that is handed in, and the entry that it has where the other gateway accepts it.
/// Contracts see the packet, and the gateway where it is handed in.
#[derive(Drop)]
pub struct HandedIn {
    entry: Entry,
    expected: Entry,
}

impl Model for HandedIn {
    ghost use Rattle.std.specs.Prelude.{◌≡◌};
    ghost use Rattle.gtp_machine.specs.Input.{Entry as UserPacket};
    ghost use Rattle.gtp_machine.specs.World.{By};
    ghost use Rattle.gtp_world.specs.Indexes.{entry_by, owed_by};

    ghost Value = { By UserPacket };

    ghost view = { λ a. entry_by a.entry };

    ghost invariant = { λ a. owed_by a.expected ≡ entry_by a.entry };
}

impl HandedIn {
    /// Of this entry, if there is one.
    pub fn of_any(alloc: Global, entry: Option<Entry>) -> Result<Option<HandedIn>, Memory>
        ensures { IfOk result (λ packet. packet ≡ option_map entry_by entry) }
    {
        match entry {
            Some(entry) => Ok(Some(HandedIn::of(alloc, entry)?)),
            None => Ok(None),
        }
    }

    /// Of this entry.
    fn of(alloc: Global, entry: Entry) -> Result<HandedIn, Memory>
        ensures { IfOk result (λ packet. packet ≡ entry_by entry) }
    {
        let expected = Entry {
            node: entry.node.other(),
            teid: entry.teid,
            payload: Vec::from_slice(alloc, entry.payload.as_slice())?,
            imsi: entry.imsi,
            apn: entry.apn,
            ebi: entry.ebi,
        };
        Ok(HandedIn { entry, expected })
    }
}

/// Packets that were handed in, in order, and which are expected. Contracts see the packets, and for
/// how many more there is room.
#[derive(Drop)]
pub struct Handed {
    entries: Vec<Entry>,
    /// The entry that each has where the other gateway accepts it, once.
    expected: IndexSet<Entry>,
    room: usize,
}

impl Model for Handed {
    ghost use Rattle.std.specs.Prelude.{◌+◌, ◌≤◌, map, vec_len, vec_capacity};
    ghost use Rattle.indexmap.specs.IndexSet.{spare};
    ghost use Rattle.gtp_world.specs.Indexes.{Packets, IsIndexed, entry_by, owed_by};

    ghost Value = { Packets };

    ghost view = { λ a. record { list = map entry_by a.entries.items; room = a.room } };

    ghost invariant = { λ a. record {
      index : IsIndexed (map entry_by a.entries.items) (map owed_by a.expected.keys);
      room : vec_len a.entries + a.room ≤ vec_capacity a.entries;
      spare : a.room ≤ spare a.expected;
    } };
}

impl Handed {
    /// No packets. Allocates nothing.
    pub fn new(alloc: Global) -> Handed
        ensures { result ≡ record { list = []; room = 0 } }
    {
        Handed {
            entries: Vec::new(alloc),
            expected: IndexSet::new(alloc),
            room: 0,
        }
    }

    /// Room for one more; nothing else changes.
    pub fn make_room(&mut self) -> Result<(), Memory>
        ensures room { OnOk result (0 < self.new.room) }
        ensures same { self.new.list ≡ self.old.list }
    {
        if self.room == 0 {
            self.entries.try_reserve(1)?;
            self.expected.reserve(1)?;
            self.room = 1;
        }
        Ok(())
    }

    /// It, if there is one, in the room that was made. Allocates nothing.
    pub fn push_reserved_option(&mut self, packet: Option<HandedIn>)
        requires { 0 < self.old.room }
        ensures { self.new.list ≡ self.old.list ++ option_to_list packet }
    {
        if let Some(packet) = packet {
            self.push(packet);
        }
    }

    /// One more, in the room that was made.
    fn push(&mut self, packet: HandedIn)
        requires { 0 < self.old.room }
        ensures { self.new.list ≡ self.old.list ++ packet ∷ [] }
    {
        let HandedIn { entry, expected } = packet;
        push_reserved(&mut self.entries, entry);
        insert_reserved(&mut self.expected, expected);
        self.room -= 1;
    }

    /// Each of them, in order. Allocates nothing.
    pub fn as_slice(&self) -> &[Entry]
        ensures { map entry_by result.now ≡ self.now.list }
    {
        self.entries.as_slice()
    }

    /// Whether an accepted packet was handed in at the other gateway. Allocates nothing.
    pub fn owes(&self, accepted: &Entry) -> bool
        ensures { IsTrue result ↔ Among (owed_by accepted.now) self.now.list }
    {
        self.expected.contains(accepted)
    }
}
