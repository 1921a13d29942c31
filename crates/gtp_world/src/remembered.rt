//! Requests that are remembered.

ghost use Rattle.std.specs.Prelude.{◌≡◌, ◌↔◌, ◌+◌, ◌<◌, ◌≤◌, ◌++◌, [], ◌∷◌, length, IsTrue, IfOk, OnOk};
ghost use Rattle.gtp_values.specs.FiniteMap.{Among};
ghost use Rattle.gtp_gateway.specs.Tick.{arrivals_of};
ghost use Rattle.gtp_gateway.specs.Parts.{arrival_of};
ghost use Rattle.gtp_world.specs.Indexes.{asked};

use crate::request_key::RequestKey;
use crate::room::{insert_all_reserved, insert_reserved, push_all_reserved, push_reserved};
use gtp_gateway::{Memory, Request};
use indexmap::IndexSet;
use std::alloc::Global;
use std::marker::Model;

/// Requests in order, some perhaps more than once, and which there are. Contracts see the list, and
/// for how many more there is room.
#[derive(Drop)]
pub struct Remembered {
    requests: Vec<Request>,
    /// Each of them once.
    index: IndexSet<RequestKey>,
    room: usize,
}

impl Model for Remembered {
    ghost use Rattle.std.specs.Prelude.{◌+◌, ◌≤◌, map, vec_len, vec_capacity};
    ghost use Rattle.indexmap.specs.IndexSet.{spare};
    ghost use Rattle.gtp_gateway.specs.Tick.{arrivals_of};
    ghost use Rattle.gtp_world.specs.Indexes.{Arrivals, IsIndexed, asked};

    ghost Value = { Arrivals };

    ghost view = { λ a. record { list = arrivals_of a.requests.items; room = a.room } };

    ghost invariant = { λ a. record {
      index : IsIndexed (arrivals_of a.requests.items) (map asked a.index.keys);
      room : vec_len a.requests + a.room ≤ vec_capacity a.requests;
      spare : a.room ≤ spare a.index;
    } };
}

impl Remembered {
    /// No requests. Allocates nothing.
    pub fn new(alloc: Global) -> Remembered
        ensures { result ≡ record { list = []; room = 0 } }
    {
        Remembered {
            requests: Vec::new(alloc),
            index: IndexSet::new(alloc),
            room: 0,
        }
    }

    /// These requests.
    pub fn of(alloc: Global, requests: Vec<Request>) -> Result<Remembered, Memory>
        ensures { IfOk result (λ all. all.list ≡ arrivals_of requests.items) }
    {
        let mut all = Remembered::new(alloc);
        for request in requests {
            all.make_room(1)?;
            let key = RequestKey::copy(alloc, request.source, request.octets.as_slice())?;
            all.push(request, key);
        }
        Ok(all)
    }

    /// Room for so many more; nothing else changes.
    fn make_room(&mut self, more: usize) -> Result<(), Memory>
        ensures room { OnOk result (more ≤ self.new.room) }
        ensures same { self.new.list ≡ self.old.list }
    {
        if self.room < more {
            self.requests.try_reserve(more)?;
            self.index.reserve(more)?;
            self.room = more;
        }
        Ok(())
    }

    /// One more, in the room that was made.
    fn push(&mut self, request: Request, key: RequestKey)
        requires room { 0 < self.old.room }
        requires key { asked key ≡ arrival_of request.source request.octets.items }
        ensures { self.new.list
            ≡ self.old.list ++ arrival_of request.source request.octets.items ∷ [] }
    {
        push_reserved(&mut self.requests, request);
        insert_reserved(&mut self.index, key);
        self.room -= 1;
    }

    /// Room for all of these; nothing else changes.
    pub fn make_room_for(&mut self, more: &Remembered) -> Result<(), Memory>
        ensures room { OnOk result (length more.now.list ≤ self.new.room) }
        ensures same { self.new.list ≡ self.old.list }
    {
        self.make_room(more.requests.len())
    }

    /// All of these, in the room that was made. Allocates nothing.
    pub fn append(&mut self, more: Remembered)
        requires { length more.list ≤ self.old.room }
        ensures { self.new.list ≡ self.old.list ++ more.list }
    {
        let Remembered {
            requests,
            index,
            ..
        } = more;
        self.room -= requests.len();
        push_all_reserved(&mut self.requests, requests);
        insert_all_reserved(&mut self.index, index);
    }

    /// Whether the request is one of them.
    pub fn has(&self, request: &RequestKey) -> bool
        ensures { IsTrue result ↔ Among (asked request.now) self.now.list }
    {
        self.index.contains(request)
    }

    /// None of them any more.
    pub fn clear(&mut self)
        ensures { self.new.list ≡ [] }
    {
        self.requests.clear();
        self.index.clear();
        self.room = 0;
    }
}
