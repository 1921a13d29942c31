//! A simulated network of both gateways, with every datagram that they have sent.

ghost use Rattle.std.specs.Prelude.{◌≡◌, ◌↔◌, ◌≤◌, ◌++◌, [], ◌∷◌, Some, map, length, slice_get};
ghost use Rattle.std.specs.Prelude.{IsTrue, IfOk, IfErr, IfSome, IfNone, OnOk, OnErr};
ghost use Rattle.gtp_values.specs.FiniteMap.{Among};
ghost use Rattle.gtp_machine.specs.Input.{Entry as UserPacket};
ghost use Rattle.gtp_machine.specs.Exchange.{CanExchange};
ghost use Rattle.gtp_machine.specs.Safety.{IsOwed};
ghost use Rattle.gtp_machine.specs.World.{By};
ghost use Rattle.gtp_gateway.specs.command.CreateSession.{specification};
ghost use Rattle.gtp_world.specs.Record.{gateway_in, outcome_of, outcomes_in, sent_by, entry_by, told_by};
ghost use Rattle.gtp_world.specs.Events.{event_of};
ghost use Rattle.gtp_world.specs.Naming.{Pair, pair_of, mutual_pairs, NameEachOther, DoAgree};
ghost use Rattle.gtp_world.specs.Stepped.{EventLeaves, EventsLeave};
ghost use Rattle.gtp_world.specs.Views.{IsMade, IsMadeOnce, IsAnsweredAlike};
ghost use Rattle.gtp_world.specs.Ends.{IsCutShort, IsStoppedIn};
ghost use Rattle.gtp_world.specs.Exchange.{exchange_events, CameSoFar, IsExchanged};
ghost use Rattle.gtp_world.specs.Runs.{begun, LeftBySomeRun, LeftByRun, ContinuesRun, IsSafe};

use crate::config::WorldConfig;
use crate::event::{Event, EventOutcome};
use crate::log::{Datagram, Entry, Note};
use crate::mutual::{Mutual, Mutuals, do_agree};
use crate::run::RunFault;
use crate::simulation::Simulation;
use gtp_gateway::{Config, Gateway, Memory, Role, SessionSpec};
use std::alloc::Global;
use std::marker::Model;

/// Two gateways, every datagram that they have sent, and the record of each event. It is always what some run of the
/// machine leaves, so what its views promise needs no premise on how it came about.
#[derive(Drop)]
pub struct World {
    sides: Simulation,
}

impl Model for World {
    ghost use Rattle.std.specs.Coded.{codes};
    ghost use Rattle.gtp_gateway.specs.tables.Codes.{table_code};
    ghost use Rattle.gtp_tables.specs.contracts.context.Session as session;
    ghost use Rattle.gtp_tables.specs.contracts.context.Bearer as bearer;
    ghost use Rattle.gtp_world.specs.Record.{WorldRecord, world_record_of};
    ghost use Rattle.gtp_world.specs.Runs.{LeftBySomeRun};

    ghost Value = { WorldRecord };

    ghost coded = { Prim.hlevel (codes, table_code, session.the_row.coded, bearer.the_row.coded) };

    ghost view = { λ w. world_record_of w.sides };

    ghost invariant = { λ w. ∥ LeftBySomeRun (world_record_of w.sides) ∥₁ };
}

impl World {
    /// Both gateways, just started; nothing was sent. `Memory` if an allocation was refused.
    pub fn start(alloc: Global, config: &WorldConfig) -> Result<World, Memory>
        ensures begun { IfOk result (λ world. world ≡ begun config.now) }
        ensures run { IfOk result (λ world. LeftByRun config.now [] world) }
    {
        Ok(World {
            sides: Simulation::start(alloc, config)?,
        })
    }

    /// Starts both gateways and lets all of these events happen, in order.
    pub fn run(alloc: Global, config: &WorldConfig, events: &[Event]) -> Result<World, RunFault>
        // Exactly: each event leaves what the definitions say, gateway by gateway and octet by octet.
        ensures comes { IfOk result (λ world.
            EventsLeave (begun config.now) (map event_of events.now) world) }
        // Faithfully: it is a run of the machine. Each event is a step or a tick of its gateway, and the datagrams
        // are those that these steps send, octet for octet.
        ensures run { IfOk result (λ world.
            LeftByRun config.now (map event_of events.now) world) }
        // Tunnel safety: contexts that name each other agree; if no delivery was late, each accepted packet
        // was handed in at the other gateway; no session outlives a restart of the peer of which its gateway has
        // received the counter.
        ensures safe { IfOk result (λ world. IsSafe world) }
        // If an allocation was refused, all of this holds for the events before.
        ensures fault { IfErr result (λ fault.
            IsCutShort config.now (map event_of events.now) fault) }
    {
        match World::start(alloc, config) {
            Ok(world) => world.resume(alloc, events),
            Err(_) => Err(RunFault::Start),
        }
    }

    /// Lets all of these events happen, in order, after those that have happened. If an allocation was refused, the
    /// error is `At`, with the number of these events that have happened and the world after them; it is never `Start`.
    pub fn resume(self, alloc: Global, events: &[Event]) -> Result<World, RunFault>
        // Each event leaves what the definitions say, gateway by gateway and octet by octet.
        ensures comes { IfOk result (λ world. EventsLeave self (map event_of events.now) world) }
        // They continue each run of the machine that leaves the world before.
        ensures run { IfOk result (λ world. ContinuesRun self (map event_of events.now) world) }
        // If an allocation was refused, all of this holds for the events before.
        ensures fault { IfErr result (λ fault. IsStoppedIn self (map event_of events.now) fault) }
    {
        let mut world = self;
        for at in 0..events.len() {
            if world.step(alloc, &events[at]).is_err() {
                return Err(RunFault::At { at, world });
            }
        }
        Ok(world)
    }

    /// Lets an event happen. Each datagram that it sends gets the next number. A datagram that does not exist, a cut
    /// that is not shorter than its datagram, a restart beyond the 127th and a refused command change nothing but the
    /// record of events. `Memory` if an allocation was refused; the world is then as before.
    pub fn step(&mut self, alloc: Global, event: &Event) -> Result<EventOutcome, Memory>
        // It leaves what the definitions say, gateway by gateway and octet by octet.
        ensures comes { OnOk result (EventLeaves self.old (event_of event.now) self.new) }
        // Its outcome is the last one recorded.
        ensures outcome { IfOk result (λ outcome. outcomes_in self.new.log
            ≡ outcomes_in self.old.log ++ outcome_of outcome ∷ []) }
        // It continues each run of the machine that leaves the world before.
        ensures run { OnOk result (ContinuesRun self.old (event_of event.now ∷ []) self.new) }
        ensures err { OnErr result (self.new ≡ self.old) }
    {
        self.sides.step(alloc, event)
    }

    /// A session is requested, and its request and then the response are delivered (TS 29.274 7.2.1, 7.2.2): three
    /// events, with their outcomes. `Memory` if an allocation was refused; the world is then as after the events
    /// before that.
    pub fn exchange(
        &mut self,
        alloc: Global,
        spec: &SessionSpec,
    ) -> Result<[EventOutcome; 3], Memory>
        // The three events leave what the definitions say.
        ensures comes { OnOk result (EventsLeave self.old
            (exchange_events (specification spec.now) (length self.old.log.datagrams)) self.new) }
        // They continue each run of the machine that leaves the world before.
        ensures run { OnOk result (ContinuesRun self.old
            (exchange_events (specification spec.now) (length self.old.log.datagrams)) self.new) }
        // Their outcomes are the last ones recorded.
        ensures outcomes { IfOk result (λ outcomes. outcomes_in self.new.log
            ≡ outcomes_in self.old.log ++ map outcome_of outcomes) }
        // After a run, if nothing prevents it, they make a new session at both gateways, which carries packets in
        // both directions.
        ensures fair { (reached : LeftBySomeRun self.old)
            → CanExchange reached.run.world (specification spec.now)
            → IfOk result (λ outcomes. IsExchanged (specification spec.now) self.old reached
            (map outcome_of outcomes) self.new) }
        ensures err { OnErr result (CameSoFar self.old
            (exchange_events (specification spec.now) (length self.old.log.datagrams)) self.new) }
    {
        let next = self.datagrams().len() as u64;
        let begun = self.step(alloc, &Event::CreateSession(*spec))?;
        let answered = self.step(alloc, &Event::Deliver(next))?;
        let opened = self.step(alloc, &Event::Deliver(next + 1))?;
        Ok([begun, answered, opened])
    }

    /// The datagrams that were sent, in order, each with its sender. Allocates nothing.
    pub fn datagrams(&self) -> &[Datagram]
        ensures { map sent_by result.now ≡ self.now.log.datagrams }
    {
        self.sides.records.datagrams.as_slice()
    }

    /// The user packets that were handed in, in order, each with its gateway and context. Allocates nothing.
    pub fn handed_in(&self) -> &[Entry]
        ensures { map entry_by result.now ≡ self.now.log.handed }
    {
        self.sides.records.handed.as_slice()
    }

    /// The user packets that were accepted, in order, each with its gateway and context. Allocates nothing.
    pub fn accepted(&self) -> &[Entry]
        ensures { map entry_by result.now ≡ self.now.log.accepted }
    {
        self.sides.records.accepted.as_slice()
    }

    /// The record of each event, in order. Allocates nothing.
    pub fn outcomes(&self) -> &[Note]
        ensures { map told_by result.now ≡ self.now.log.notes }
    {
        self.sides.records.notes.as_slice()
    }

    /// The gateway with this role. Allocates nothing.
    pub fn gateway(&self, role: Role) -> &Gateway
        ensures { result.now ≡ (gateway_in self.now role).state }
    {
        &self.sides.side(role).gateway
    }

    /// With which settings the gateway of this role starts. Allocates nothing.
    pub fn settings(&self, role: Role) -> &Config
        ensures { result.now ≡ (gateway_in self.now role).settings }
    {
        &self.sides.side(role).config
    }

    /// The number of contexts that the receiver of the datagram with this number has made, since it last started, on
    /// deliveries of a create request with the same octets. Of two messages in one datagram the second counts, with its
    /// own octets. A session with its default bearer is one context. `None` if there is no such datagram. Allocates
    /// nothing.
    pub fn made(&self, number: u64) -> Option<usize>
        ensures some { IfSome result (λ count. IsMade self.now number count) }
        ensures none { IfNone result (length self.now.log.datagrams ≤ number) }
        // It is at most 1 at the end of a run in which no delivery of the request to its receiver was late since
        // the receiver started, and if no delivery at all was late.
        ensures once { IfSome result (λ count. IsMadeOnce self.now number count) }
        ensures timely { self.now.log.late ≡ 0 → IfSome result (λ count. count ≤ 1) }
        // All that was then sent in answer to it since its receiver started has the same octets.
        ensures answers { IsAnsweredAlike self.now number }
    {
        self.sides.made(number)
    }

    /// The contexts that name each other: sessions before bearers, each in order of the serving gateway's TEIDs.
    /// Allocates nothing.
    pub fn mutual(&self) -> Mutuals<'_>
        ensures pairs { result ≡ mutual_pairs self.now }
        // Exactly those that name each other.
        ensures exactly { (pair : Pair)
            → Among pair (mutual_pairs self.now) ↔ NameEachOther self.now pair }
    {
        Mutuals::of(self.gateway(Role::Serving), self.gateway(Role::Packet))
    }

    /// Whether two contexts agree: sessions on subscriber, access point, default bearer identity and address; bearers
    /// on their identity, if also their sessions agree. False if a context does not exist. Allocates nothing.
    pub fn agrees(&self, pair: &Mutual) -> bool
        ensures { IsTrue result ↔ DoAgree self.now (pair_of pair.now) }
    {
        do_agree(
            self.gateway(Role::Serving),
            self.gateway(Role::Packet),
            pair,
        )
    }

    /// Whether the pair at this place of `mutual`, counted from 0, agrees; `None` past the end. Allocates nothing.
    pub fn agree(&self, index: usize) -> Option<bool>
        ensures some { IfSome result (λ agree. (pair : Pair)
            × (slice_get (mutual_pairs self.now) index ≡ Some pair)
            × (IsTrue agree ↔ DoAgree self.now pair)) }
        ensures none { IfNone result (length (mutual_pairs self.now) ≤ index) }
        // Each such pair agrees.
        ensures safe { IfSome result (λ agree. IsTrue agree) }
    {
        let serving = &self.sides.gateways.serving.gateway;
        let packet = &self.sides.gateways.packet.gateway;
        let pair = Mutuals::of(serving, packet).nth(index)?;
        Some(do_agree(serving, packet, &pair))
    }

    /// Whether the packet at this place of `accepted`, counted from 0, was handed in at the other gateway: octet for
    /// octet, for the same TEID, subscriber, access point and bearer. `None` past the end. Allocates nothing.
    pub fn owed(&self, index: usize) -> Option<bool>
        ensures some { IfSome result (λ owed. (entry : By UserPacket)
            × (slice_get self.now.log.accepted index ≡ Some entry)
            × (IsTrue owed ↔ IsOwed self.now.log.handed entry.role entry.what)) }
        ensures none { IfNone result (length self.now.log.accepted ≤ index) }
        // If no delivery was late, it was handed in.
        ensures safe { self.now.log.late ≡ 0 → IfSome result (λ owed. IsTrue owed) }
    {
        let accepted = self.accepted().get(index)?;
        Some(self.sides.records.is_owed(accepted))
    }

    /// The number of late deliveries: of a request whose answer its receiver had forgotten since it last started. Of two
    /// messages in one datagram the second counts. Allocates nothing.
    pub fn late(&self) -> usize
        ensures { result ≡ self.now.log.late }
    {
        self.sides.records.late()
    }
}
