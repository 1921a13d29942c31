//! Both gateways, and what is kept of what they did.

ghost use Rattle.std.specs.Prelude.{◌≡◌, ◌↔◌, ◌<◌, ◌≤◌, ◌++◌, [], ◌∷◌, true, false, length, take, IsTrue, IfOk, IfSome, IfNone, OnOk, OnErr};
ghost use Rattle.gtp_machine.specs.Input.{Commanded};
ghost use Rattle.gtp_machine.specs.World.{other, Restart, Tick, Deliver, Cut};
ghost use Rattle.gtp_world.specs.Commands.{command_of, is_command};
ghost use Rattle.gtp_world.specs.Events.{event_of};
ghost use Rattle.gtp_world.specs.Record.{world_record_of, gateway_record_of, gateway_in, outcome_of, outcomes_in};
ghost use Rattle.gtp_world.specs.Recorded.{HasRoom};
ghost use Rattle.gtp_world.specs.Runs.{begun, AreFacing};
ghost use Rattle.gtp_world.specs.Views.{IsMade};
ghost use Rattle.gtp_world.specs.Stepped.{EventLeaves, StepsOn, AsksFor, BringsFirst, TicksBy, IsThere};

use crate::config::WorldConfig;
use crate::event::{Event, EventOutcome};
use crate::gateways::Gateways;
use crate::last::last_message;
use crate::records::Records;
use crate::simulated_gateway::SimulatedGateway;
use gtp_gateway::{Memory, Role};
use std::alloc::Global;

/// Both gateways, and what is kept of what they did.
#[derive(Drop)]
pub struct Simulation {
    pub gateways: Gateways,
    pub records: Records,
}

/// The most datagrams that a tick sends.
const MOST_RESENT: usize = 256;

impl Simulation {
    /// Both gateways, just started, which have sent nothing.
    pub fn start(alloc: Global, config: &WorldConfig) -> Result<Simulation, Memory>
        ensures begun { IfOk result (λ sides. world_record_of sides ≡ begun config.now) }
        ensures facing { OnOk result (AreFacing config.now.serving config.now.packet) }
        ensures serving { OnOk result (config.now.serving_counter < 256) }
        ensures packet { OnOk result (config.now.packet_counter < 256) }
    {
        let gateways = Gateways {
            serving: SimulatedGateway::start(
                alloc,
                Role::Serving,
                config.serving(),
                config.serving_counter(),
            )?,
            packet: SimulatedGateway::start(
                alloc,
                Role::Packet,
                config.packet(),
                config.packet_counter(),
            )?,
        };
        Ok(Simulation {
            gateways,
            records: Records::new(alloc),
        })
    }

    /// One of the gateways.
    pub fn side(&self, role: Role) -> &SimulatedGateway
        ensures { gateway_record_of result.now ≡ gateway_in (world_record_of self.now) role }
    {
        self.gateways.get(role)
    }

    /// How many contexts were made for the last message of the datagram of this number, if there is
    /// one, by the gateway that did not send it, since that started.
    pub fn made(&self, number: u64) -> Option<usize>
        ensures some { IfSome result (λ count. IsMade (world_record_of self.now) number count) }
        ensures none { IfNone result (length (world_record_of self.now).log.datagrams ≤ number) }
    {
        let index = self.records.find(number)?;
        let datagram = &self.records.datagrams[index];
        let receiver = self.side(datagram.node.other());
        let sent = &datagram.sent;
        let request = last_message(sent.octets.as_slice());
        Some(receiver.contexts_made(sent.from, request))
    }

    /// A gateway carries a command out, or refuses it.
    fn command(&mut self, alloc: Global, node: Role, event: &Event) -> Result<EventOutcome, Memory>
        requires command { is_command event.now ≡ true }
        ensures takes { OnOk result (StepsOn (world_record_of self.old) node
            (Commanded (command_of event.now)) AsksFor false (world_record_of self.new)) }
        ensures outcome { IfOk result (λ outcome. outcomes_in (world_record_of self.new).log
            ≡ outcomes_in (world_record_of self.old).log ++ outcome_of outcome ∷ []) }
        ensures err { OnErr result (world_record_of self.new ≡ world_record_of self.old) }
    {
        self.records.make_room(1)?;
        let came = self.gateways.get_mut(node).command(alloc, node, event)?;
        Ok(self.records.record_step(alloc, node, came, false))
    }

    /// The first octets of the datagram at an index come to the gateway that did not send it. If all of
    /// them do, the delivery may be late.
    fn deliver_octets(
        &mut self,
        alloc: Global,
        index: usize,
        count: usize,
        whole: bool,
    ) -> Result<EventOutcome, Memory>
        requires room { HasRoom 1 self.old.records }
        requires there { index < length self.old.records.datagrams.items }
        ensures brings { OnOk result ((found : IsThere (world_record_of self.old).log.datagrams index)
            → BringsFirst (world_record_of self.old) found.sent count whole (world_record_of self.new)) }
        ensures outcome { IfOk result (λ outcome. outcomes_in (world_record_of self.new).log
            ≡ outcomes_in (world_record_of self.old).log ++ outcome_of outcome ∷ []) }
        ensures err { OnErr result (world_record_of self.new ≡ world_record_of self.old) }
    {
        let datagram = &self.records.datagrams[index];
        let node = datagram.node.other();
        let sent = &datagram.sent;
        let octets = match sent.octets.as_slice().get(..count) {
            Some(front) => front,
            None => sent.octets.as_slice(),
        };
        let last = last_message(octets);
        let late = if whole {
            let gateway = self.gateways.get(node);
            gateway.has_given_up(alloc, sent.from, sent.plane, last)?
        } else {
            false
        };
        let gateway = self.gateways.get_mut(node);
        let came = gateway.receive(alloc, node, sent.from, sent.plane, octets, last)?;
        Ok(self.records.record_step(alloc, node, came, late))
    }

    /// A datagram comes to the gateway that did not send it.
    fn deliver(&mut self, alloc: Global, number: u64) -> Result<EventOutcome, Memory>
        ensures comes { OnOk result (EventLeaves (world_record_of self.old) (Deliver number) (world_record_of self.new)) }
        ensures outcome { IfOk result (λ outcome. outcomes_in (world_record_of self.new).log
            ≡ outcomes_in (world_record_of self.old).log ++ outcome_of outcome ∷ []) }
        ensures err { OnErr result (world_record_of self.new ≡ world_record_of self.old) }
    {
        self.records.make_room(1)?;
        let Some(index) = self.records.find(number) else {
            return Ok(
                self.records
                    .record_outcome(alloc, EventOutcome::NoSuchDatagram),
            );
        };
        let count = self.records.datagrams[index].sent.octets.len();
        self.deliver_octets(alloc, index, count, true)
    }

    /// The first octets of a datagram come to the gateway that did not send it.
    fn cut(&mut self, alloc: Global, number: u64, count: u64) -> Result<EventOutcome, Memory>
        ensures comes { OnOk result
            (EventLeaves (world_record_of self.old) (Cut number count) (world_record_of self.new)) }
        ensures outcome { IfOk result (λ outcome. outcomes_in (world_record_of self.new).log
            ≡ outcomes_in (world_record_of self.old).log ++ outcome_of outcome ∷ []) }
        ensures err { OnErr result (world_record_of self.new ≡ world_record_of self.old) }
    {
        self.records.make_room(1)?;
        let Some(index) = self.records.find(number) else {
            return Ok(
                self.records
                    .record_outcome(alloc, EventOutcome::NoSuchDatagram),
            );
        };
        let length = self.records.datagrams[index].sent.octets.len();
        if count >= length as u64 {
            return Ok(self.records.record_outcome(alloc, EventOutcome::CutTooLong));
        }
        self.deliver_octets(alloc, index, count as usize, false)
    }

    /// A tick passes at a gateway.
    fn tick(&mut self, alloc: Global, node: Role) -> Result<EventOutcome, Memory>
        ensures ticks { OnOk result (TicksBy (world_record_of self.old) node (world_record_of self.new)) }
        ensures outcome { IfOk result (λ outcome. outcomes_in (world_record_of self.new).log
            ≡ outcomes_in (world_record_of self.old).log ++ outcome_of outcome ∷ []) }
        ensures err { OnErr result (world_record_of self.new ≡ world_record_of self.old) }
    {
        self.records.make_room(MOST_RESENT)?;
        let ticked = self.gateways.get_mut(node).tick(alloc)?;
        Ok(self.records.record_tick(node, ticked))
    }

    /// A gateway starts afresh, unless it was restarted 127 times.
    fn restart(&mut self, alloc: Global, node: Role) -> Result<EventOutcome, Memory>
        ensures comes { OnOk result (EventLeaves (world_record_of self.old) (Restart node) (world_record_of self.new)) }
        ensures outcome { IfOk result (λ outcome. outcomes_in (world_record_of self.new).log
            ≡ outcomes_in (world_record_of self.old).log ++ outcome_of outcome ∷ []) }
        ensures err { OnErr result (world_record_of self.new ≡ world_record_of self.old) }
    {
        self.records.make_room(1)?;
        if self.gateways.get(node).restarts >= 127 {
            return Ok(
                self.records
                    .record_outcome(alloc, EventOutcome::RestartsUsed),
            );
        }
        let counter = self.gateways.get_mut(node).restart(alloc, node)?;
        Ok(
            self.records
                .record_outcome(alloc, EventOutcome::Restarted(counter)),
        )
    }

    /// An event happens.
    pub fn step(&mut self, alloc: Global, event: &Event) -> Result<EventOutcome, Memory>
        ensures comes { OnOk result
            (EventLeaves (world_record_of self.old) (event_of event.now) (world_record_of self.new)) }
        ensures outcome { IfOk result (λ outcome. outcomes_in (world_record_of self.new).log
            ≡ outcomes_in (world_record_of self.old).log ++ outcome_of outcome ∷ []) }
        ensures err { OnErr result (world_record_of self.new ≡ world_record_of self.old) }
    {
        if let Some(node) = event.role() {
            return self.command(alloc, node, event);
        }
        match event {
            Event::Tick(node) => self.tick(alloc, *node),
            Event::Deliver(number) => self.deliver(alloc, *number),
            Event::Cut { datagram, length } => self.cut(alloc, *datagram, *length),
            Event::Restart(node) => self.restart(alloc, *node),
            _ => unreachable!(),
        }
    }
}
