//! One gateway of a world, and what is kept of it.

ghost use Rattle.std.specs.Prelude.{◌≡◌, ◌↔◌, ◌+◌, ◌<◌, ◌≤◌, ◌++◌, Some, None, true, length};
ghost use Rattle.std.specs.Prelude.{option_map, option_to_list, vec_len, vec_capacity};
ghost use Rattle.std.specs.Prelude.{IsTrue, IsSome, IfOk, IfErr, OnOk, OnErr};
ghost use Rattle.std.specs.FinMap.{get};
ghost use Rattle.gtp_machine.specs.Input.{Commanded};
ghost use Rattle.gtp_gateway.specs.Parts.{arrival_of};
ghost use Rattle.gtp_gateway.specs.receive.Taken.{made_for};
ghost use Rattle.gtp_reliable.specs.Forgotten.{question_of};
ghost use Rattle.gtp_gateway.specs.Tick.{asked_by, arrivals_of};
ghost use Rattle.gtp_world.specs.Commands.{command_of, is_command};
ghost use Rattle.gtp_world.specs.Record.{gateway_record_of, entry_by};
ghost use Rattle.gtp_world.specs.Last.{last_octets};
ghost use Rattle.gtp_world.specs.Inputs.{IsInput, IsBrought, IsTick, IsEntryAt, IsHanded, IsAccepted};
ghost use Rattle.gtp_world.specs.Views.{IsCount};
ghost use Rattle.gtp_world.specs.Stepped.{AsksFor, IsGivenUp, counter_after, gateway_begun, gateway_restarted};

use crate::command::{outcome_of, run_command};
use crate::event::Event;
use crate::handed::HandedIn;
use crate::log::Entry;
use crate::remembered::Remembered;
use crate::request_key::RequestKey;
use crate::room::push_reserved;
use gtp_gateway::{
    Accepted, Begun, CommandFault, Config, Counter, Endpoint, Gateway, Memory, Outcome, Plane,
    Refusal, Request, Role, Sent, Subscriber, Teid, Ticked,
};
use std::alloc::Global;

/// A gateway, and what is kept of it since it started.
#[derive(Drop)]
pub struct SimulatedGateway {
    pub config: Config,
    pub gateway: Gateway,
    /// The restart counter that it began with.
    pub first: Counter,
    /// How often it was restarted.
    pub restarts: u8,
    /// The counters that it heard.
    pub seen: Vec<Counter>,
    /// The requests whose answers it has given up.
    pub forgotten: Remembered,
    /// The create requests for which it made a context.
    pub made: Vec<Request>,
}

/// What a command or a datagram came to at a gateway.
#[derive(Drop)]
pub struct StepRecord {
    pub outcome: Outcome,
    /// The outcome of the second message of a datagram, where two were taken one after the other.
    pub second: Option<Outcome>,
    pub restart: Option<Counter>,
    pub out: Option<Sent>,
    pub handed: Option<HandedIn>,
    pub accepted: Option<Entry>,
}

/// Whether a request is this one.
fn is_from(request: &Request, source: Endpoint, octets: &[u8]) -> bool
    ensures { IsTrue result
        ↔ arrival_of source octets.now ≡ asked_by (question_of request.now) }
{
    request.source == source && request.octets.as_slice() == octets
}

impl SimulatedGateway {
    /// A gateway that starts, and began with this counter.
    pub fn start(
        alloc: Global,
        role: Role,
        config: &Config,
        first: Counter,
    ) -> Result<SimulatedGateway, Memory>
        ensures { IfOk result (λ side. gateway_record_of side ≡ gateway_begun role config.now first.0) }
    {
        Ok(SimulatedGateway {
            config: config.copy(alloc)?,
            gateway: Gateway::start(alloc, role, config, first)?,
            first,
            restarts: 0,
            seen: Vec::new(alloc),
            forgotten: Remembered::new(alloc),
            made: Vec::new(alloc),
        })
    }

    /// The subscriber of a session that stands.
    fn subscriber(&self, session: Teid) -> Option<Subscriber>
        ensures { result
            ≡ option_map (λ s. s.subscriber) (get self.now.gateway.node.sessions session) }
    {
        match self.gateway.session(session) {
            Some(found) => Some(found.subscriber),
            None => None,
        }
    }

    /// The entry of a packet on a bearer, if that and its session stand, under the TEID that the
    /// packet names.
    fn entry(
        &self,
        node: Role,
        bearer: Teid,
        names: Option<Teid>,
        payload: Vec<u8>,
    ) -> Option<Entry>
        ensures { IsEntryAt node self.now.gateway.node bearer names payload.items
            (option_map entry_by result) }
    {
        let at = self.gateway.bearer(bearer)?;
        let of = self.subscriber(at.session)?;
        Some(Entry {
            node,
            teid: names.or(at.remote).unwrap_or(Teid(0)),
            payload,
            imsi: of.imsi,
            apn: of.access_point,
            ebi: at.identity,
        })
    }

    /// The entry of a packet that a command hands in.
    fn handing(&self, alloc: Global, node: Role, event: &Event) -> Result<Option<HandedIn>, Memory>
        ensures { IfOk result (λ entry.
            IsHanded node self.now.gateway.node (command_of event.now) entry) }
    {
        let Event::SendUser {
            bearer,
            payload,
            ..
        } = event
        else {
            return Ok(None);
        };
        let payload = Vec::from_slice(alloc, payload.as_slice())?;
        HandedIn::of_any(alloc, self.entry(node, *bearer, None, payload))
    }

    /// The entry of a packet that was accepted.
    fn accepting(
        &self,
        alloc: Global,
        node: Role,
        accepted: &Option<Accepted<'_>>,
    ) -> Result<Option<Entry>, Memory>
        ensures accepted { IfOk result (λ entry.
            IsAccepted node self.now.gateway.node accepted.now entry) }
        ensures memory { IfErr result (λ _. IsSome accepted.now) }
    {
        let Some(accepted) = accepted else {
            return Ok(None);
        };
        let payload = Vec::from_slice(alloc, accepted.payload)?;
        Ok(self.entry(node, accepted.bearer, Some(accepted.bearer), payload))
    }

    /// Carries a command out, or refuses it.
    pub fn command(
        &mut self,
        alloc: Global,
        node: Role,
        event: &Event,
    ) -> Result<StepRecord, Memory>
        requires command { is_command event.now ≡ true }
        ensures done { IfOk result (λ came. IsInput node (Commanded (command_of event.now)) AsksFor
            (gateway_record_of self.old) came (gateway_record_of self.new)) }
        ensures err { OnErr result (gateway_record_of self.new ≡ gateway_record_of self.old) }
    {
        let handed = self.handing(alloc, node, event)?;
        match run_command(&mut self.gateway, alloc, event) {
            Ok(begun) => {
                let outcome = outcome_of(event, begun.teid);
                Ok(StepRecord::begun(begun, outcome, handed))
            }
            Err(CommandFault::Refused(why)) => Ok(StepRecord::refused(why)),
            Err(CommandFault::Memory) => Err(Memory),
        }
    }

    /// The counter that was heard, if one was, is kept.
    fn hear(&mut self, heard: Option<Counter>)
        requires { vec_len self.old.seen < vec_capacity self.old.seen }
        ensures seen { self.new.seen.items ≡ self.old.seen.items ++ option_to_list heard }
        ensures rest { self.new ≡ record self.old { seen = self.new.seen } }
    {
        if let Some(counter) = heard {
            push_reserved(&mut self.seen, counter);
        }
    }

    /// The request is kept, where a context was made for it.
    fn make(&mut self, made: bool, request: Request)
        requires { vec_len self.old.made < vec_capacity self.old.made }
        ensures made { arrivals_of self.new.made.items ≡ arrivals_of self.old.made.items
            ++ made_for (arrival_of request.source request.octets.items) made }
        ensures rest { self.new ≡ record self.old { made = self.new.made } }
    {
        if made {
            push_reserved(&mut self.made, request);
        }
    }

    /// Takes a datagram. The octets of its last message are for a create request for which a context is
    /// made: it is kept by its own.
    pub fn receive(
        &mut self,
        alloc: Global,
        node: Role,
        source: Endpoint,
        plane: Plane,
        octets: &[u8],
        last: &[u8],
    ) -> Result<StepRecord, Memory>
        requires last { last.now ≡ last_octets octets.now }
        ensures taken { IfOk result (λ came. IsBrought node plane source octets.now
            (gateway_record_of self.old) came (gateway_record_of self.new)) }
        ensures err { OnErr result (gateway_record_of self.new ≡ gateway_record_of self.old) }
    {
        self.seen.try_reserve(1)?;
        self.made.try_reserve(1)?;
        let request = Request {
            source,
            octets: Vec::from_slice(alloc, last)?,
        };
        let step = self.gateway.receive(alloc, source, plane, octets)?;
        let accepted = self.accepting(alloc, node, &step.accepted)?;
        self.hear(step.report.heard);
        self.make(step.report.made, request);
        Ok(StepRecord {
            outcome: step.report.outcome,
            second: step.report.second,
            restart: step.report.restart,
            out: step.out,
            handed: None,
            accepted,
        })
    }

    /// Whether a message is a request whose answer the gateway has given up.
    pub fn has_given_up(
        &self,
        alloc: Global,
        source: Endpoint,
        plane: Plane,
        octets: &[u8],
    ) -> Result<bool, Memory>
        ensures { IfOk result (λ is. IsTrue is
            ↔ IsGivenUp (gateway_record_of self.now) plane (arrival_of source octets.now)) }
    {
        match plane {
            Plane::Control => {
                let request = RequestKey::copy(alloc, source, octets)?;
                Ok(self.forgotten.has(&request))
            }
            Plane::User => Ok(false),
        }
    }

    /// How many contexts the gateway has made for this request.
    pub fn contexts_made(&self, source: Endpoint, octets: &[u8]) -> usize
        ensures { IsCount (arrival_of source octets.now) (gateway_record_of self.now).made result }
    {
        let mut count = 0usize;
        for request in self.made.as_slice() {
            if is_from(request, source, octets) {
                count += 1;
            }
        }
        count
    }

    /// A tick passes.
    pub fn tick(&mut self, alloc: Global) -> Result<Ticked, Memory>
        ensures ticked { IfOk result (λ ticked.
            IsTick (gateway_record_of self.old) ticked (gateway_record_of self.new)) }
        ensures few { IfOk result (λ ticked. length ticked.resent.items ≤ 256) }
        ensures err { OnErr result (gateway_record_of self.new ≡ gateway_record_of self.old) }
    {
        let forgotten = Remembered::of(alloc, self.gateway.forgets()?)?;
        self.forgotten.make_room_for(&forgotten)?;
        let ticked = self.gateway.tick(alloc)?;
        self.forgotten.append(forgotten);
        Ok(ticked)
    }

    /// The counter of the next start.
    fn next_counter(&self) -> Counter
        ensures { result.0 ≡ counter_after (gateway_record_of self.now) }
    {
        let number = (u32::from(self.first.0) + u32::from(self.restarts) + 1) % 256;
        Counter(number as u8)
    }

    /// Starts afresh with the next counter.
    pub fn restart(&mut self, alloc: Global, node: Role) -> Result<Counter, Memory>
        requires { self.old.restarts < 127 }
        ensures counter { IfOk result (λ counter. counter.0 ≡ counter_after (gateway_record_of self.old)) }
        ensures restarted { OnOk result
            (gateway_record_of self.new ≡ gateway_restarted node (gateway_record_of self.old)) }
        ensures err { OnErr result (gateway_record_of self.new ≡ gateway_record_of self.old) }
    {
        let counter = self.next_counter();
        self.gateway = Gateway::start(alloc, node, &self.config, counter)?;
        self.restarts += 1;
        self.seen.clear();
        self.forgotten.clear();
        self.made.clear();
        Ok(counter)
    }
}

impl StepRecord {
    /// A command was carried out.
    fn begun(begun: Begun, outcome: Outcome, handed: Option<HandedIn>) -> StepRecord
        ensures { result ≡ record {
          outcome = outcome;
          second = None;
          restart = None;
          out = Some begun.out;
          handed = handed;
          accepted = None;
        } }
    {
        StepRecord {
            outcome,
            second: None,
            restart: None,
            out: Some(begun.out),
            handed,
            accepted: None,
        }
    }

    /// A command was refused.
    fn refused(why: Refusal) -> StepRecord
        ensures { result ≡ record {
          outcome = Outcome.Refused why;
          second = None;
          restart = None;
          out = None;
          handed = None;
          accepted = None;
        } }
    {
        StepRecord {
            outcome: Outcome::Refused(why),
            second: None,
            restart: None,
            out: None,
            handed: None,
            accepted: None,
        }
    }
}
