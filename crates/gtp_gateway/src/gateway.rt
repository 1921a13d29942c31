//! One gateway: datagrams, commands and ticks go in; datagrams, packets and a report come out.

ghost use Rattle.std.specs.Prelude.{◌≡◌, ◌≤◌, length, option_map, slice_get, IsOk, IsSome, IfOk, IfErr, OnOk, OnErr};
ghost use Rattle.std.specs.FinMap as map;
ghost use Rattle.gtp_gateway.specs.receive.Choosing.{ChoosesLowest};
ghost use Rattle.gtp_reliable.specs.Pending.{AreDistinct};
ghost use Rattle.gtp_machine.specs.Determined.{OneAnswerPerRequest};
ghost use Rattle.gtp_machine.specs.declared.role.Role.TheVariants.{Packet};
ghost use Rattle.gtp_machine.specs.Sound.{AreAddressesApart};
ghost use Rattle.gtp_gateway.specs.GatewayState.{GatewayState, starting, NodeMatchesQueues, IsSoundState};
ghost use Rattle.gtp_gateway.specs.Tick.{IsIdle, ForgetsNone, IsTicked, QueuesAfterTick, arrivals_of, due_in};
ghost use Rattle.gtp_gateway.specs.receive.Received.{IsReceived, QueuesAfterReceive, MayRunOut};

use crate::config::Config;
use crate::parts::Parts;
use crate::step::Step;
use crate::tick::Ticked;
use gtp_machine::{Plane, Role};
use gtp_reliable::Request;
use gtp_tables::{Bearer, BearerList, Session, SessionList};
use gtp_values::{Counter, Endpoint, Memory, Teid};
use std::alloc::Global;
use std::marker::Model;

mod commands;

/// A serving gateway or a packet gateway (TS 23.401 4.4.3), without sockets and clocks. Contracts see its role, its
/// state as a node of the machine, its settings and its timers. A command returns the datagram to be sent, or the first
/// refusal that applies. After an error the gateway is as before.
#[derive(Drop)]
pub struct Gateway {
    parts: Parts,
}

impl Model for Gateway {
    ghost use Rattle.std.specs.Coded.{codes};
    ghost use Rattle.gtp_machine.specs.Sound.{IsSound};
    ghost use Rattle.gtp_gateway.specs.tables.Codes.{table_code};
    ghost use Rattle.gtp_gateway.specs.Parts.{node_of};
    ghost use Rattle.gtp_gateway.specs.GatewayState.{GatewayState, state_of};
    ghost use Rattle.gtp_tables.specs.contracts.context.Session as session;
    ghost use Rattle.gtp_tables.specs.contracts.context.Bearer as bearer;

    ghost Value = { GatewayState };

    ghost coded = { Prim.hlevel (codes, table_code, session.the_row.coded, bearer.the_row.coded) };

    ghost view = { λ g. state_of g.parts };

    ghost invariant = { λ g. ∥ IsSound g.parts.role (node_of g.parts) ∥₁ };
}

impl Gateway {
    /// A gateway that starts with this restart counter (TS 23.007 18). It has no sessions and knows nothing of its
    /// peer. `Memory` if an allocation was refused.
    pub fn start(
        alloc: Global,
        role: Role,
        config: &Config,
        counter: Counter,
    ) -> Result<Gateway, Memory>
        ensures { IfOk result (λ gateway. gateway ≡ starting role config.now counter.0) }
    {
        Ok(Gateway {
            parts: Parts::start(alloc, role, config, counter)?,
        })
    }

    /// The session with this control plane TEID of the gateway's own. Allocates nothing.
    pub fn session(&self, session: Teid) -> Option<Session>
        ensures { result ≡ map.get self.now.node.sessions session }
    {
        self.parts.sessions.get(session)
    }

    /// The bearer with this user plane TEID of the gateway's own. Allocates nothing.
    pub fn bearer(&self, bearer: Teid) -> Option<Bearer>
        ensures { result ≡ map.get self.now.node.bearers bearer }
    {
        self.parts.bearers.get(bearer)
    }

    /// The requests whose held answers the next tick forgets, oldest first. Allocates nothing if there is none; `Memory`
    /// if an allocation was refused.
    pub fn forgets(&self) -> Result<Vec<Request>, Memory>
        ensures forgets { IfOk result (λ requests.
            arrivals_of requests.items ≡ (due_in self.now.queues).forgets) }
        // It is answered if there is none, whatever else is due.
        ensures quiet { ForgetsNone self.now.queues → IsOk result }
    {
        self.parts.held.due().map_err(|_| Memory)
    }

    /// The sessions, in order of the gateway's own TEIDs. Allocates nothing.
    pub fn sessions(&self) -> SessionList<'_>
        ensures sessions { result ≡ map.entries self.now.node.sessions }
        // Of a packet gateway no two have one address of either version.
        ensures addresses { self.now.role ≡ Packet → AreAddressesApart self.now.node.sessions }
        // What holds of a gateway at all times.
        ensures always { NodeMatchesQueues self.now }
    {
        self.parts.sessions.iter()
    }

    /// The bearers, in order of the gateway's own TEIDs. Allocates nothing.
    pub fn bearers(&self) -> BearerList<'_>
        ensures { result ≡ map.entries self.now.node.bearers }
    {
        self.parts.bearers.iter()
    }

    /// The session at a place in order of the gateway's own TEIDs, from 0; none behind the last. Takes the same time at
    /// each place. Allocates nothing.
    pub fn session_at(&self, place: usize) -> Option<(Teid, Session)>
        ensures { result
            ≡ slice_get (map.entries self.now.node.sessions) place }
    {
        self.parts.sessions.at(place)
    }

    /// The bearer at a place in order of the gateway's own TEIDs, from 0; none behind the last. Takes the same time at
    /// each place. Allocates nothing.
    pub fn bearer_at(&self, place: usize) -> Option<(Teid, Bearer)>
        ensures { result
            ≡ slice_get (map.entries self.now.node.bearers) place }
    {
        self.parts.bearers.at(place)
    }

    /// Takes a datagram, whatever its octets and wherever it comes from (TS 29.274 7, TS 29.281 7). `Memory` if an
    /// allocation was refused: handed in again, the datagram is processed as if it had come only then.
    pub fn receive<'a>(
        &mut self,
        alloc: Global,
        source: Endpoint,
        plane: Plane,
        octets: &'a [u8],
    ) -> Result<Step<'a>, Memory>
        // It is a step of the machine, which sends, reports and accepts exactly this.
        ensures received { IfOk result (λ step.
            IsReceived plane source octets.now self.old step self.new) }
        // What later ticks depend on.
        ensures queues { IfOk result (λ step.
            QueuesAfterReceive plane source octets.now step self.old self.new) }
        // Of the free addresses and identities it takes the lowest.
        ensures choices { IfOk result (λ step.
            ChoosesLowest step.report.made self.old.role self.old.node self.new.node) }
        // A packet that is accepted changes nothing.
        ensures packet { IfOk result (λ step. IsSome step.accepted → self.new ≡ self.old) }
        // Memory can run out only if something is sent, or on the control plane a context is opened: every other
        // datagram is processed whether or not there is memory.
        ensures memory { IfErr result (λ _. MayRunOut plane source octets.now self.old) }
        ensures err { OnErr result (self.new ≡ self.old) }
    {
        self.parts.receive(alloc, source, plane, octets)
    }

    /// What holds of a gateway at all times.
    pub(crate) fn stands(&self)
        ensures whole { IsSoundState self.now }
        ensures tied { NodeMatchesQueues self.now }
        ensures once { OneAnswerPerRequest self.now.node }
        ensures distinct { AreDistinct self.now.queues.waiting }
    {
        let _held_full = self.parts.held.is_full();
        let _pending_full = self.parts.pending.is_full();
    }

    /// A tick passes, the unit of `Timers` (TS 29.274 7.6): each request that has waited T3-RESPONSE is sent again, or
    /// given up after N3-REQUESTS times, and each answer that was held long enough is forgotten. Returns the datagrams to
    /// be sent again. `Memory` if an allocation was refused: the tick has then not passed. A tick in which nothing is
    /// due allocates nothing.
    pub fn tick(&mut self, alloc: Global) -> Result<Ticked, Memory>
        // It is the machine's tick, which sends and reports exactly this.
        ensures ticked { IfOk result (λ ticked. IsTicked self.old ticked self.new) }
        ensures counts { OnOk result (QueuesAfterTick self.old self.new) }
        ensures few { IfOk result (λ ticked. length ticked.resent.items ≤ 256) }
        ensures few_forgotten { IfOk result (λ ticked. length ticked.forgotten.items ≤ 4096) }
        ensures quiet { IsIdle self.old.queues → IsOk result }
        ensures err { OnErr result (self.new ≡ self.old) }
    {
        self.parts.tick(alloc)
    }
}
