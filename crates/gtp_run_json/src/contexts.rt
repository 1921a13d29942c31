//! The contexts of a gateway as JSON.

ghost use Rattle.std.specs.Prelude.{◌≡◌, ◌++◌, OnOk, codes};
ghost use Rattle.std.specs.List.{flat_map};
ghost use Rattle.json.specs.Tree.{json_tokens};
ghost use Rattle.gtp_json.specs.reading.Tokens.{written};
ghost use Rattle.gtp_values.specs.PdnAddress.{address_text};
ghost use Rattle.gtp_run_json.specs.Members.{where_some, word_member};
ghost use Rattle.gtp_run_json.specs.Contexts.{ends_members, subscriber_members, standing_members, session_json, bearer_members, bearer_json, sessions_of, bearers_of, sessions_members, bearers_members};

use crate::members::{put_some_number, put_some_teid, put_teid};
use gtp_gateway::{Addr, Bearer, Gateway, Role, Session, Subscriber};
use gtp_json::Output;
use gtp_outcomes::state_word;
use gtp_scenario::name_of;
use gtp_values::Teid;
use gtp_world::World;
use std::alloc::AllocError;

/// Writes the gateway and both TEIDs of a context.
#[tactic(auto, using(gtp_json::proofs::Tokens::appending))]
fn put_ends(out: &mut Output, node: Role, own: Teid, remote: Option<Teid>) -> Result<(), AllocError>
    ensures ok { OnOk result (out.new ≡ out.old ++ written (ends_members node own remote)) }
{
    out.string_member("node", name_of(node))?;
    put_teid(out, "local", own)?;
    put_some_teid(out, "remote", remote)
}

/// Writes the subscriber of a session, its access point and the identity of its default bearer.
#[tactic(auto, using(gtp_json::proofs::Tokens::appending))]
fn put_subscriber(out: &mut Output, subscriber: &Subscriber) -> Result<(), AllocError>
    ensures ok { OnOk result (out.new ≡ out.old ++ written (subscriber_members subscriber.now)) }
{
    out.display_member("imsi", &subscriber.imsi)?;
    out.display_member("apn", &subscriber.access_point)?;
    out.number_member("ebi", u64::from(subscriber.identity.number()))
}

/// Writes an address, where there is one.
#[tactic(auto, using(gtp_json::proofs::Tokens::appending))]
fn put_address(out: &mut Output, address: Option<Addr>) -> Result<(), AllocError>
    ensures ok { OnOk result (out.new ≡ out.old ++ written (where_some
        (λ address. word_member (codes "address") (address_text address)) address)) }
{
    match address {
        None => Ok(()),
        Some(address) => out.display_member("address", &address),
    }
}

/// Writes the address and the state of a session.
#[tactic(auto, using(gtp_json::proofs::Tokens::appending))]
fn put_standing(out: &mut Output, session: &Session) -> Result<(), AllocError>
    ensures ok { OnOk result (out.new ≡ out.old ++ written (standing_members session.now)) }
{
    put_address(out, session.address)?;
    out.string_member("state", state_word(session.state))
}

/// Writes a session.
#[tactic(auto, using(gtp_json::proofs::Tokens::nesting))]
fn put_session(out: &mut Output, node: Role, own: Teid, session: &Session) -> Result<(), AllocError>
    ensures ok { OnOk result
        (out.new ≡ out.old ++ json_tokens (session_json node (own, session.now))) }
{
    out.begin_object()?;
    put_ends(out, node, own, session.remote)?;
    put_subscriber(out, &session.subscriber)?;
    put_standing(out, session)?;
    out.end_object()
}

/// Writes the session of a bearer, its identity, its state, and whether it has ended.
#[tactic(auto, using(gtp_json::proofs::Tokens::appending))]
fn put_bearer_members(out: &mut Output, bearer: &Bearer) -> Result<(), AllocError>
    ensures ok { OnOk result (out.new ≡ out.old ++ written (bearer_members bearer.now)) }
{
    put_teid(out, "session", bearer.session)?;
    put_some_number(
        out,
        "ebi",
        bearer.identity.map(|ebi| u64::from(ebi.number())),
    )?;
    out.string_member("state", state_word(bearer.state))?;
    out.bool_member("ended", bearer.ended)
}

/// Writes a bearer.
#[tactic(auto, using(gtp_json::proofs::Tokens::nesting))]
fn put_bearer(out: &mut Output, node: Role, own: Teid, bearer: &Bearer) -> Result<(), AllocError>
    ensures ok { OnOk result
        (out.new ≡ out.old ++ json_tokens (bearer_json node (own, bearer.now))) }
{
    out.begin_object()?;
    put_ends(out, node, own, bearer.remote)?;
    put_bearer_members(out, bearer)?;
    out.end_object()
}

/// Writes the sessions of a gateway.
pub fn put_sessions_of(out: &mut Output, node: Role, gateway: &Gateway) -> Result<(), AllocError>
    ensures ok { OnOk result
        (out.new ≡ out.old ++ flat_map json_tokens (sessions_of node gateway.now.node)) }
{
    for (own, session) in gateway.sessions() {
        put_session(out, node, own, &session)?;
    }
    Ok(())
}

/// Writes the bearers of a gateway.
pub fn put_bearers_of(out: &mut Output, node: Role, gateway: &Gateway) -> Result<(), AllocError>
    ensures ok { OnOk result
        (out.new ≡ out.old ++ flat_map json_tokens (bearers_of node gateway.now.node)) }
{
    for (own, bearer) in gateway.bearers() {
        put_bearer(out, node, own, &bearer)?;
    }
    Ok(())
}

/// Writes the member of the sessions of both gateways.
#[tactic(auto, using(crate::proofs::Arrays::listing))]
pub fn put_sessions(out: &mut Output, world: &World) -> Result<(), AllocError>
    ensures ok { OnOk result (out.new ≡ out.old ++ written (sessions_members world.now)) }
{
    out.key("sessions")?;
    out.begin_array()?;
    put_sessions_of(out, Role::Serving, world.gateway(Role::Serving))?;
    put_sessions_of(out, Role::Packet, world.gateway(Role::Packet))?;
    out.end_array()
}

/// Writes the member of the bearers of both gateways.
#[tactic(auto, using(crate::proofs::Arrays::listing))]
pub fn put_bearers(out: &mut Output, world: &World) -> Result<(), AllocError>
    ensures ok { OnOk result (out.new ≡ out.old ++ written (bearers_members world.now)) }
{
    out.key("bearers")?;
    out.begin_array()?;
    put_bearers_of(out, Role::Serving, world.gateway(Role::Serving))?;
    put_bearers_of(out, Role::Packet, world.gateway(Role::Packet))?;
    out.end_array()
}
