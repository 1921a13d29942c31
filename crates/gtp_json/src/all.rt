//! All that can be shown of a datagram, as JSON.

ghost use Rattle.std.specs.Prelude.{◌≡◌, ◌++◌, Some, option_map, OnOk};
ghost use Rattle.gtp_lines.specs.All.{head_at as spec_head_at, user_head_at as spec_user_head_at};
ghost use Rattle.gtp_lines.specs.Fronts.{chain_at as spec_chain_at};
ghost use Rattle.gtp_lines.specs.reading.Header.{headed_of, user_head_of, front_seen, chain_of};
ghost use Rattle.gtp_json.specs.reading.Tokens.{written};
ghost use Rattle.gtp_json.specs.Adds.{Adds};
ghost use Rattle.gtp_json.specs.Named.{named_elements};
ghost use Rattle.gtp_json.specs.All.{rest_members, MessageShown, AloneShown, SecondShown, PairShown, ControlShown, kind_members, packet_members, front_members, chain_members, user_shown};

use crate::control::put_head_members;
use crate::named::{put_named_elements, put_named_headers};
use crate::object::Output;
use crate::user;
use gtp_ie::Elements;
use gtp_lines::{
    ChainFront, Header, UserHeader, chain_at, chain_front, front_elements, head_at, name_in,
    pair_at, user_head_at, user_name,
};
use gtp_names::Names;
use gtp_user::kinds::G_PDU;
use std::alloc::AllocError;

/// Writes octets that are left, where there are some.
#[tactic(auto, using(crate::proofs::Tokens::appending))]
fn put_rest(out: &mut Output, rest: &[u8]) -> Result<(), AllocError>
    ensures ok { OnOk result (out.new ≡ out.old ++ written (rest_members rest.now)) }
{
    if rest.is_empty() {
        return Ok(());
    }
    out.hex_member("rest", rest)
}

/// Writes elements and the octets after them.
#[tactic(auto, using(crate::proofs::Tokens::appending))]
fn put_list(
    out: &mut Output,
    places: bool,
    names: &Names,
    message: u8,
    elements: &Elements,
    rest: &[u8],
) -> Result<(), AllocError>
    ensures ok { OnOk result (out.new
        ≡ out.old ++ written (named_elements places names.now message elements.now ++ rest_members rest.now)) }
{
    put_named_elements(out, places, names, message, elements)?;
    put_rest(out, rest)
}

/// Writes a message with this header.
fn put_message(
    out: &mut Output,
    places: bool,
    names: &Names,
    header: &Header,
) -> Result<(), AllocError>
    ensures ok { OnOk result (Adds (MessageShown places names.now (headed_of header.now)) out.old out.new) }
{
    put_head_members(
        out,
        name_in(names, header.kind),
        header.kind,
        header.teid,
        header.seq,
        header.priority,
    )?;
    let (elements, rest) = front_elements(header.rest, header.place());
    put_list(out, places, names, header.kind, &elements, rest)?;
    Ok(())
}

/// Writes a message, where there is a header.
fn put_alone(out: &mut Output, places: bool, names: &Names, octets: &[u8]) -> Result<(), AllocError>
    ensures ok { OnOk result (Adds (AloneShown places names.now (spec_head_at octets.now)) out.old out.new) }
{
    match head_at(octets) {
        Some(header) => put_message(out, places, names, &header),
        None => Ok(()),
    }
}

/// Writes a second message, or its octets where there is no header.
fn put_second(
    out: &mut Output,
    places: bool,
    names: &Names,
    octets: &[u8],
) -> Result<(), AllocError>
    ensures ok { OnOk result
        (Adds (SecondShown places names.now octets.now (spec_head_at octets.now)) out.old out.new) }
{
    match head_at(octets) {
        Some(header) => put_message(out, places, names, &header),
        None => put_rest(out, octets),
    }
}

/// Writes a first message with this header, and an object of the octets after it.
fn put_pair(
    out: &mut Output,
    places: bool,
    names: &Names,
    header: &Header,
    back: &[u8],
) -> Result<(), AllocError>
    ensures ok { OnOk result (Adds (PairShown places names.now (headed_of header.now) back.now) out.old out.new) }
{
    put_message(out, places, names, header)?;
    out.key("second")?;
    out.begin_object()?;
    put_second(out, places, names, back)?;
    out.end_object()?;
    Ok(())
}

/// Writes what can be shown of a control datagram.
pub fn put_shown(
    out: &mut Output,
    places: bool,
    names: &Names,
    octets: &[u8],
) -> Result<(), AllocError>
    ensures ok { OnOk result (Adds (ControlShown places names.now octets.now) out.old out.new) }
{
    match pair_at(octets) {
        Some((header, back)) => put_pair(out, places, names, &header, back),
        None => put_alone(out, places, names, octets),
    }
}

/// Writes the type of a message of the user plane, and its name where it has one.
fn put_kind(out: &mut Output, kind: u8) -> Result<(), AllocError>
    ensures ok { OnOk result (out.new ≡ out.old ++ written (kind_members kind)) }
{
    user::put_named(out, kind, user_name(kind))
}

/// Writes the packet of a G-PDU, whose extension headers are whole.
#[tactic(auto, using(crate::proofs::Tokens::appending))]
fn put_packet(out: &mut Output, kind: u8, next: u8, rest: &[u8]) -> Result<(), AllocError>
    ensures ok { OnOk result (out.new ≡ out.old ++ written (packet_members kind next rest.now)) }
{
    if next == 0 && kind == G_PDU {
        return out.hex_member("payload", rest);
    }
    Ok(())
}

/// Writes the extension headers of a datagram at fault, as far as they are whole, and the packet after them.
#[tactic(auto, using(crate::proofs::Tokens::appending))]
fn put_front(
    out: &mut Output,
    names: &Names,
    kind: u8,
    front: &ChainFront,
) -> Result<(), AllocError>
    ensures ok { OnOk result
        (out.new ≡ out.old ++ written (front_members names.now kind (front_seen front.now))) }
{
    put_named_headers(out, names, &front.headers)?;
    put_packet(out, kind, front.next, front.rest)
}

/// Writes those of a datagram at fault, where it says that it has some.
#[tactic(auto, using(crate::proofs::Tokens::appending))]
fn put_chain(
    out: &mut Output,
    names: &Names,
    kind: u8,
    chain: Option<(u8, &[u8])>,
) -> Result<(), AllocError>
    ensures ok { OnOk result
        (out.new ≡ out.old ++ written (chain_members names.now kind (option_map chain_of chain.entry))) }
{
    let Some((first, octets)) = chain else {
        return Ok(());
    };
    let front = chain_front(out.alloc(), first, octets)?;
    put_front(out, names, kind, &front)
}

/// Writes the header of a datagram of the user plane that is at fault, and what follows it.
#[tactic(auto, using(crate::proofs::Tokens::appending))]
fn put_headed(
    out: &mut Output,
    names: &Names,
    header: &UserHeader,
    chain: Option<(u8, &[u8])>,
) -> Result<(), AllocError>
    ensures ok { OnOk result
        (out.new ≡ out.old ++ written (user_shown names.now (Some (user_head_of header.now)) (option_map chain_of chain.entry))) }
{
    put_kind(out, header.kind)?;
    out.display_member("teid", &header.teid)?;
    user::put_some(out, "seq", header.seq.map(u64::from))?;
    put_rest(out, header.rest)?;
    put_chain(out, names, header.kind, chain)
}

/// Writes what can be shown of a datagram of the user plane that is at fault.
#[tactic(auto, using(crate::proofs::Tokens::none_written))]
pub fn put_user_shown(out: &mut Output, names: &Names, octets: &[u8]) -> Result<(), AllocError>
    ensures ok { OnOk result (out.new
        ≡ out.old ++ written (user_shown names.now (spec_user_head_at octets.now) (spec_chain_at octets.now))) }
{
    match user_head_at(octets) {
        Some(header) => put_headed(out, names, &header, chain_at(octets)),
        None => Ok(()),
    }
}
