//! The lines of the contexts of a gateway.

ghost use Rattle.std.specs.Prelude.{◌≡◌, ◌++◌, OnOk, decimal};
ghost use Rattle.std.specs.FinMap.{entries};
ghost use Rattle.std.specs.List.{flat_map};
ghost use Rattle.gtp_values.specs.PdnAddress.{address_text};
ghost use Rattle.gtp_values.specs.Teid.{teid_text};
ghost use Rattle.gtp_replay.specs.Contexts.{or_dash, ended_text, ends_text, bearer_state, session_line, bearer_line, node_text};

use gtp_gateway::{Addr, Bearer, Ebi, Gateway, Role, Session};
use gtp_lines::text::{put, put_display, put_number, put_teid};
use gtp_outcomes::state_word;
use gtp_scenario::name_of;
use gtp_values::Teid;
use std::alloc::AllocError;

/// The mark of a bearer on which an End Marker was sent or came.
fn ended_mark(ended: bool) -> &'static str
    ensures { result.now ≡ ended_text ended }
{
    if ended { " ended" } else { "" }
}

/// Appends a TEID, or a mark that there is none.
fn put_some_teid(out: &mut Vec<u8>, teid: Option<Teid>) -> Result<(), AllocError>
    ensures ok { OnOk result (out.new.items ≡ out.old.items ++ or_dash teid_text teid) }
{
    match teid {
        Some(teid) => put_teid(out, teid),
        None => put(out, b"-"),
    }
}

/// Appends an address, or a mark that there is none.
fn put_some_address(out: &mut Vec<u8>, address: Option<Addr>) -> Result<(), AllocError>
    ensures ok { OnOk result (out.new.items ≡ out.old.items ++ or_dash address_text address) }
{
    match address {
        Some(address) => put_display(out, &address),
        None => put(out, b"-"),
    }
}

/// Appends the identity of a bearer, or a mark that there is none.
fn put_some_identity(out: &mut Vec<u8>, identity: Option<Ebi>) -> Result<(), AllocError>
    ensures ok { OnOk result (out.new.items ≡ out.old.items ++ or_dash decimal identity) }
{
    match identity {
        Some(identity) => put_number(out, u64::from(identity.number())),
        None => put(out, b"-"),
    }
}

/// Appends the gateway and both TEIDs of a context.
#[tactic(auto, using(crate::proofs::Appends::appending))]
fn put_ends(
    out: &mut Vec<u8>,
    node: Role,
    own: Teid,
    remote: Option<Teid>,
) -> Result<(), AllocError>
    ensures ok { OnOk result (out.new.items ≡ out.old.items ++ ends_text node own remote) }
{
    put(out, name_of(node).as_bytes())?;
    put(out, b" ")?;
    put_teid(out, own)?;
    put(out, b" ")?;
    put_some_teid(out, remote)
}

/// Appends the line of a session.
#[tactic(auto, using(crate::proofs::Appends::appending))]
fn put_session(
    out: &mut Vec<u8>,
    node: Role,
    own: Teid,
    session: &Session,
) -> Result<(), AllocError>
    ensures ok { OnOk result (out.new.items
        ≡ out.old.items ++ session_line node (own, session.now)) }
{
    put(out, b"session ")?;
    put_ends(out, node, own, session.remote)?;
    put(out, b" ")?;
    put_display(out, &session.subscriber.imsi)?;
    put(out, b" ")?;
    put_display(out, &session.subscriber.access_point)?;
    put(out, b" ")?;
    put_number(out, u64::from(session.subscriber.identity.number()))?;
    put(out, b" ")?;
    put_some_address(out, session.address)?;
    put(out, b" ")?;
    put(out, state_word(session.state).as_bytes())?;
    put(out, b"\n")
}

/// Appends the state of a bearer, and whether it has ended.
#[tactic(auto, using(crate::proofs::Appends::appending))]
fn put_bearer_state(out: &mut Vec<u8>, bearer: &Bearer) -> Result<(), AllocError>
    ensures ok { OnOk result (out.new.items ≡ out.old.items ++ bearer_state bearer.now) }
{
    put(out, state_word(bearer.state).as_bytes())?;
    put(out, ended_mark(bearer.ended).as_bytes())?;
    put(out, b"\n")
}

/// Appends the line of a bearer.
#[tactic(auto, using(crate::proofs::Appends::appending))]
fn put_bearer(out: &mut Vec<u8>, node: Role, own: Teid, bearer: &Bearer) -> Result<(), AllocError>
    ensures ok { OnOk result (out.new.items
        ≡ out.old.items ++ bearer_line node (own, bearer.now)) }
{
    put(out, b"bearer ")?;
    put_ends(out, node, own, bearer.remote)?;
    put(out, b" ")?;
    put_teid(out, bearer.session)?;
    put(out, b" ")?;
    put_some_identity(out, bearer.identity)?;
    put(out, b" ")?;
    put_bearer_state(out, bearer)
}

/// Appends the lines of all sessions.
fn put_sessions(out: &mut Vec<u8>, node: Role, gateway: &Gateway) -> Result<(), AllocError>
    ensures ok { OnOk result (out.new.items ≡ out.old.items
        ++ flat_map (session_line node) (entries gateway.now.node.sessions)) }
{
    for (own, session) in gateway.sessions() {
        put_session(out, node, own, &session)?;
    }
    Ok(())
}

/// Appends the lines of all bearers.
fn put_bearers(out: &mut Vec<u8>, node: Role, gateway: &Gateway) -> Result<(), AllocError>
    ensures ok { OnOk result (out.new.items ≡ out.old.items
        ++ flat_map (bearer_line node) (entries gateway.now.node.bearers)) }
{
    for (own, bearer) in gateway.bearers() {
        put_bearer(out, node, own, &bearer)?;
    }
    Ok(())
}

/// Appends the lines of the contexts of a gateway.
#[tactic(auto, using(crate::proofs::Appends::appending))]
pub(crate) fn put_contexts(
    out: &mut Vec<u8>,
    node: Role,
    gateway: &Gateway,
) -> Result<(), AllocError>
    ensures ok { OnOk result (out.new.items ≡ out.old.items ++ node_text node gateway.now.node) }
{
    put_sessions(out, node, gateway)?;
    put_bearers(out, node, gateway)
}
