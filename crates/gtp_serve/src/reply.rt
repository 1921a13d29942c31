//! What a request came to, as a line of JSON.

ghost use Rattle.std.specs.Prelude.{◌≡◌, ◌++◌, true, None, OnOk, IfOk, map, option_map, codes};
ghost use Rattle.std.specs.List.{flat_map};
ghost use Rattle.json.specs.Tree.{json_tokens};
ghost use Rattle.gtp_gateway.specs.messages.Sent.{datagram_by};
ghost use Rattle.gtp_gateway.specs.receive.Taken.{datagrams};
ghost use Rattle.gtp_world.specs.Record.{outcome_of};
ghost use Rattle.gtp_world.specs.Commands.{command_of, is_command};
ghost use Rattle.gtp_json.specs.Tree.{line_of, member, array_of};
ghost use Rattle.gtp_json.specs.reading.Tokens.{written};
ghost use Rattle.gtp_run_json.specs.Contexts.{sessions_of, bearers_of};
ghost use Rattle.gtp_serve.specs.Replies.{sent_json, sent_members, packet_members, accepted_json, accepted_members, told_members, left_members, peer_members, reply_json, word_json, contexts_json, packet_of, plain, of_begun, of_refusal, of_step, of_tick};
ghost use Rattle.gtp_serve.specs.Told.{reply_by};
ghost use Rattle.gtp_machine.specs.World.{Came_to};
ghost use Rattle.gtp_machine.specs.declared.outcome.Outcome.TheVariants.{Dropped};
ghost use Rattle.gtp_machine.specs.declared.outcome.DropReason.TheVariants.{NotPeer};

use gtp_gateway::{
    Accepted, Begun, Counter, DropReason, Gateway, Outcome, Refusal, Request, Role, Sent, Seq,
    Step, Ticked,
};
use gtp_json::{Output, put_end};
use gtp_outcomes::plane_word;
use gtp_run_json::{
    put_bearers_of, put_came, put_forgot, put_gave_up, put_learned, put_second, put_sessions_of,
    put_teid,
};
use gtp_values::Teid;
use gtp_world::{Event, EventOutcome, outcome_of};
use std::alloc::{AllocError, Global};
use std::slice;

/// What a request came to.
#[derive(Clone, Copy)]
struct Told<'a> {
    outcome: EventOutcome,
    second: Option<Outcome>,
    learned: Option<Counter>,
    sent: &'a [Sent],
    accepted: Option<&'a Accepted<'a>>,
    gave_up: &'a [Seq],
    forgotten: &'a [Request],
}

impl<'a> Told<'a> {
    /// Nothing but an outcome.
    fn of(outcome: EventOutcome) -> Told<'a>
        ensures { reply_by result ≡ plain (outcome_of outcome) }
    {
        Told {
            outcome,
            second: None,
            learned: None,
            sent: &[],
            accepted: None,
            gave_up: &[],
            forgotten: &[],
        }
    }
}

/// Writes a datagram that is to be sent.
#[tactic(auto, using(gtp_json::proofs::Tokens::nesting))]
fn put_datagram(out: &mut Output, sent: &Sent) -> Result<(), AllocError>
    ensures ok { OnOk result
        (out.new ≡ out.old ++ json_tokens (sent_json (datagram_by sent.now))) }
{
    out.begin_object()?;
    out.string_member("plane", plane_word(sent.plane))?;
    put_end(out, "from", &sent.from)?;
    put_end(out, "to", &sent.to)?;
    out.hex_member("octets", sent.octets.as_slice())?;
    out.end_object()
}

/// Writes datagrams that are to be sent.
fn put_all_datagrams(out: &mut Output, sent: &[Sent]) -> Result<(), AllocError>
    ensures ok { OnOk result (out.new
        ≡ out.old ++ flat_map json_tokens (map sent_json (map datagram_by sent.now))) }
{
    for datagram in sent {
        put_datagram(out, datagram)?;
    }
    Ok(())
}

/// Writes the member of the datagrams that are to be sent.
#[tactic(auto, using(gtp_run_json::proofs::Arrays::listing))]
fn put_sent(out: &mut Output, sent: &[Sent]) -> Result<(), AllocError>
    ensures ok { OnOk result
        (out.new ≡ out.old ++ written (sent_members (map datagram_by sent.now))) }
{
    out.key("sent")?;
    out.begin_array()?;
    put_all_datagrams(out, sent)?;
    out.end_array()
}

/// Writes the bearer of a packet, and the packet.
#[tactic(auto, using(gtp_json::proofs::Tokens::appending))]
fn put_packet_members(out: &mut Output, bearer: Teid, payload: &[u8]) -> Result<(), AllocError>
    ensures ok { OnOk result
        (out.new ≡ out.old ++ written (packet_members (bearer, payload.now))) }
{
    put_teid(out, "teid", bearer)?;
    out.hex_member("payload", payload)
}

/// Writes a packet that was accepted.
#[tactic(auto, using(gtp_json::proofs::Tokens::nesting))]
fn put_packet(out: &mut Output, bearer: Teid, payload: &[u8]) -> Result<(), AllocError>
    ensures ok { OnOk result
        (out.new ≡ out.old ++ json_tokens (accepted_json (bearer, payload.now))) }
{
    out.begin_object()?;
    put_packet_members(out, bearer, payload)?;
    out.end_object()
}

/// Writes the packet that was accepted, where there is one.
#[tactic(auto, using(gtp_json::proofs::Tokens::nesting))]
fn put_accepted(out: &mut Output, accepted: Option<&Accepted<'_>>) -> Result<(), AllocError>
    ensures ok { OnOk result (out.new
        ≡ out.old ++ written (accepted_members
        (option_map (λ a. packet_of a.now) accepted.entry))) }
{
    let Some(accepted) = accepted else {
        return Ok(());
    };
    out.key("accepted")?;
    put_packet(out, accepted.bearer, accepted.payload)
}

/// Writes the outcome, and the counter that was learned.
#[tactic(auto, using(gtp_json::proofs::Tokens::appending))]
fn put_outcome(out: &mut Output, told: &Told<'_>) -> Result<(), AllocError>
    ensures ok { OnOk result (out.new ≡ out.old ++ written (told_members (reply_by told.now))) }
{
    put_came(out, told.outcome)?;
    put_second(out, told.second)?;
    put_learned(out, told.learned)
}

/// Writes what was sent, accepted, given up and forgotten.
#[tactic(auto, using(gtp_json::proofs::Tokens::appending))]
fn put_left(out: &mut Output, told: &Told<'_>) -> Result<(), AllocError>
    ensures ok { OnOk result (out.new ≡ out.old ++ written (left_members (reply_by told.now))) }
{
    put_sent(out, told.sent)?;
    put_accepted(out, told.accepted)?;
    put_gave_up(out, told.gave_up)?;
    put_forgot(out, told.forgotten)
}

/// Writes the member of the place of a peer, where a node answers.
#[tactic(auto, using(gtp_json::proofs::Tokens::appending))]
fn put_peer(out: &mut Output, peer: Option<usize>) -> Result<(), AllocError>
    ensures ok { OnOk result (out.new ≡ out.old ++ written (peer_members peer)) }
{
    match peer {
        None => Ok(()),
        Some(place) => out.number_member("peer", place as u64),
    }
}

/// The line of what a request came to, of the peer at this place.
#[tactic(auto, using(gtp_json::proofs::Tokens::nesting))]
fn told_line(alloc: Global, peer: Option<usize>, told: &Told<'_>) -> Result<Vec<u8>, AllocError>
    ensures { IfOk result (λ text. text.items ≡ line_of (reply_json peer (reply_by told.now))) }
{
    let mut out = Output::new(alloc);
    out.begin_object()?;
    put_peer(&mut out, peer)?;
    put_outcome(&mut out, told)?;
    put_left(&mut out, told)?;
    out.end_object()?;
    out.into_line()
}

/// The line of a command that was carried out.
pub fn begun_line(
    alloc: Global,
    peer: Option<usize>,
    event: &Event,
    begun: &Begun,
) -> Result<Vec<u8>, AllocError>
    requires { is_command event.now ≡ true }
    ensures { IfOk result (λ text.
        text.items ≡ line_of (reply_json peer (of_begun (command_of event.now) begun.now))) }
{
    let outcome = EventOutcome::CameTo(outcome_of(event, begun.teid));
    told_line(
        alloc,
        peer,
        &Told {
            sent: slice::from_ref(&begun.out),
            ..Told::of(outcome)
        },
    )
}

/// The line of a command that was refused.
pub fn refused_line(alloc: Global, peer: Option<usize>, why: Refusal) -> Result<Vec<u8>, AllocError>
    ensures { IfOk result (λ text. text.items ≡ line_of (reply_json peer (of_refusal why))) }
{
    told_line(
        alloc,
        peer,
        &Told::of(EventOutcome::CameTo(Outcome::Refused(why))),
    )
}

/// The line of a datagram that was received.
pub fn step_line(alloc: Global, peer: Option<usize>, step: &Step<'_>) -> Result<Vec<u8>, AllocError>
    ensures { IfOk result (λ text. text.items ≡ line_of (reply_json peer (of_step step.now))) }
{
    told_line(
        alloc,
        peer,
        &Told {
            second: step.report.second,
            learned: step.report.restart,
            sent: step.out.as_slice(),
            accepted: step.accepted.as_ref(),
            ..Told::of(EventOutcome::CameTo(step.report.outcome))
        },
    )
}

/// The line of a datagram that comes from no peer of a node: that of a gateway for one that is not its peer's.
pub fn not_peer_line(alloc: Global) -> Result<Vec<u8>, AllocError>
    ensures { IfOk result (λ text.
        text.items ≡ line_of (reply_json None (plain (Came_to (Dropped NotPeer))))) }
{
    let outcome = Outcome::Dropped(DropReason::NotPeer);
    told_line(alloc, None, &Told::of(EventOutcome::CameTo(outcome)))
}

/// The line of a tick that passed.
pub fn ticked_line(
    alloc: Global,
    peer: Option<usize>,
    ticked: &Ticked,
) -> Result<Vec<u8>, AllocError>
    ensures { IfOk result (λ text. text.items ≡ line_of (reply_json peer (of_tick ticked.now))) }
{
    told_line(
        alloc,
        peer,
        &Told {
            sent: ticked.resent.as_slice(),
            gave_up: ticked.gave_up.as_slice(),
            forgotten: ticked.forgotten.as_slice(),
            ..Told::of(EventOutcome::Ticked)
        },
    )
}

/// The line of an outcome that is a word, and nothing else.
#[tactic(auto, using(gtp_json::proofs::Tokens::nesting))]
pub fn word_line(alloc: Global, peer: Option<usize>, word: &str) -> Result<Vec<u8>, AllocError>
    ensures { IfOk result (λ text. text.items ≡ line_of (word_json peer word.now)) }
{
    let mut out = Output::new(alloc);
    out.begin_object()?;
    put_peer(&mut out, peer)?;
    out.string_member("outcome", word)?;
    out.end_object()?;
    out.into_line()
}

/// Writes the member of the sessions of a gateway.
#[tactic(auto, using(gtp_run_json::proofs::Arrays::listing))]
fn put_sessions(out: &mut Output, role: Role, gateway: &Gateway) -> Result<(), AllocError>
    ensures ok { OnOk result (out.new ≡ out.old
        ++ written (member (codes "sessions") (array_of (sessions_of role gateway.now.node)))) }
{
    out.key("sessions")?;
    out.begin_array()?;
    put_sessions_of(out, role, gateway)?;
    out.end_array()
}

/// Writes the member of the bearers of a gateway.
#[tactic(auto, using(gtp_run_json::proofs::Arrays::listing))]
fn put_bearers(out: &mut Output, role: Role, gateway: &Gateway) -> Result<(), AllocError>
    ensures ok { OnOk result (out.new ≡ out.old
        ++ written (member (codes "bearers") (array_of (bearers_of role gateway.now.node)))) }
{
    out.key("bearers")?;
    out.begin_array()?;
    put_bearers_of(out, role, gateway)?;
    out.end_array()
}

/// The line of the contexts of a gateway.
#[tactic(auto, using(gtp_json::proofs::Tokens::nesting))]
pub fn contexts_line(
    alloc: Global,
    peer: Option<usize>,
    role: Role,
    gateway: &Gateway,
) -> Result<Vec<u8>, AllocError>
    ensures { IfOk result (λ text. text.items ≡ line_of (contexts_json peer role gateway.now.node)) }
{
    let mut out = Output::new(alloc);
    out.begin_object()?;
    put_peer(&mut out, peer)?;
    out.string_member("outcome", "listed")?;
    put_sessions(&mut out, role, gateway)?;
    put_bearers(&mut out, role, gateway)?;
    out.end_object()?;
    out.into_line()
}
