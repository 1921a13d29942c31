//! All that can be shown of a datagram, and then its fault.

ghost use Rattle.std.specs.Prelude.{◌≡◌, ◌++◌, OnOk, IfOk, option_map};
ghost use Rattle.std.specs.List.{flat_map};
ghost use Rattle.gtp_lines.specs.Text.{Adds};
ghost use Rattle.gtp_lines.specs.Named.{named_lines};
ghost use Rattle.gtp_lines.specs.All.{rest_line, numbered_line, context_line, MessageShown, AloneShown, SecondShown, PairShown, ControlShown, AllControl, behind_head, user_shown, UserShown, AllUser, AllLines, head_at as spec_head_at};
ghost use Rattle.gtp_lines.specs.reading.Header.{headed_of, user_head_of, chain_of};

use crate::complete_elements::front_elements;
use crate::contexts::fault_context;
use crate::control::{put_fault_line, put_first_line};
use crate::extension_front::{chain_at, chain_front, put_front};
use crate::header::{Header, head_at, pair_at};
use crate::lines::Shown;
use crate::named::{put_named_elements, put_named_user_message, title_in};
use crate::text::{put, put_octets, put_teid};
use crate::user::{put_kind_title, put_some, put_user_fault_line};
use crate::user_header::{UserHeader, user_head_at};
use crate::values::put_field;
use gtp_ie::Elements;
use gtp_interfaces::{Interface, judge_control, judge_user};
use gtp_names::Names;
use gtp_values::{Memory, Plane};
use std::alloc::{AllocError, Global};

/// Appends the line of octets that are left, where there are some.
#[tactic(auto, using(crate::proofs::Appends::appending))]
fn put_rest(out: &mut Vec<u8>, rest: &[u8]) -> Result<(), AllocError>
    ensures ok { OnOk result (out.new.items ≡ out.old.items ++ rest_line rest.now) }
{
    if rest.is_empty() {
        return Ok(());
    }
    put(out, b"rest ")?;
    put_octets(out, rest)?;
    put(out, b"\n")
}

/// Appends the lines of the elements of a message of a type and of the octets after them.
#[tactic(auto, using(crate::proofs::Appends::appending))]
fn put_list(
    out: &mut Vec<u8>,
    names: &Names,
    message: u8,
    elements: &Elements,
    rest: &[u8],
) -> Result<(), AllocError>
    ensures ok { OnOk result (out.new.items
        ≡ out.old.items ++ (flat_map (named_lines names.now message) elements.now ++ rest_line rest.now)) }
{
    put_named_elements(out, names, message, elements)?;
    put_rest(out, rest)
}

/// Appends the lines of a message with this header.
fn put_message(out: &mut Vec<u8>, names: &Names, header: &Header) -> Result<(), AllocError>
    ensures ok { OnOk result
        (Adds (MessageShown names.now (headed_of header.now)) out.old.items out.new.items) }
{
    let title = title_in(names, header.kind);
    put_first_line(
        out,
        title,
        header.kind,
        header.teid,
        header.seq,
        header.priority,
    )?;
    let (elements, rest) = front_elements(header.rest, header.place());
    put_list(out, names, header.kind, &elements, rest)?;
    Ok(())
}

/// Appends the lines of a message, where there is a header.
fn put_alone(out: &mut Vec<u8>, names: &Names, octets: &[u8]) -> Result<(), AllocError>
    ensures ok { OnOk result
        (Adds (AloneShown names.now (spec_head_at octets.now)) out.old.items out.new.items) }
{
    match head_at(octets) {
        Some(header) => {
            put_message(out, names, &header)?;
            Ok(())
        }
        None => Ok(()),
    }
}

/// Appends the lines of a second message, or its octets where there is no header.
fn put_second(out: &mut Vec<u8>, names: &Names, octets: &[u8]) -> Result<(), AllocError>
    ensures ok { OnOk result
        (Adds (SecondShown names.now octets.now (spec_head_at octets.now)) out.old.items out.new.items) }
{
    match head_at(octets) {
        Some(header) => {
            put_message(out, names, &header)?;
            Ok(())
        }
        None => {
            put_rest(out, octets)?;
            Ok(())
        }
    }
}

/// Appends the lines of a first message with this header, and of the octets after it.
fn put_pair(
    out: &mut Vec<u8>,
    names: &Names,
    header: &Header,
    back: &[u8],
) -> Result<(), AllocError>
    ensures ok { OnOk result
        (Adds (PairShown names.now (headed_of header.now) back.now) out.old.items out.new.items) }
{
    put_message(out, names, header)?;
    put_second(out, names, back)?;
    Ok(())
}

/// Appends what can be shown of a control datagram.
fn put_shown(out: &mut Vec<u8>, names: &Names, octets: &[u8]) -> Result<(), AllocError>
    ensures ok { OnOk result (Adds (ControlShown names.now octets.now) out.old.items out.new.items) }
{
    match pair_at(octets) {
        Some((header, back)) => {
            put_pair(out, names, &header, back)?;
            Ok(())
        }
        None => {
            put_alone(out, names, octets)?;
            Ok(())
        }
    }
}

/// Appends the line of a bearer context.
#[tactic(auto, using(crate::proofs::Appends::appending))]
fn put_numbered(out: &mut Vec<u8>, number: u64) -> Result<(), AllocError>
    ensures ok { OnOk result (out.new.items ≡ out.old.items ++ numbered_line number) }
{
    put_field(out, b"in bearer-context ", number)?;
    put(out, b"\n")
}

/// The same, where there is one.
#[tactic(auto, using(crate::proofs::Appends::appending))]
fn put_context(out: &mut Vec<u8>, number: Option<u64>) -> Result<(), AllocError>
    ensures ok { OnOk result (out.new.items ≡ out.old.items ++ context_line number) }
{
    match number {
        Some(number) => put_numbered(out, number),
        None => Ok(()),
    }
}

/// All lines of a control datagram; `Memory` where an allocation was refused.
fn all_control(
    alloc: Global,
    names: &Names,
    interface: Interface,
    octets: &[u8],
) -> Result<Shown, Memory>
    ensures { IfOk result (λ shown. AllControl names.now interface octets.now shown.text.items shown.faulty) }
{
    let mut text = Vec::new(alloc);
    put_shown(&mut text, names, octets)?;
    match judge_control(interface, octets) {
        Ok(()) => Ok(Shown {
            text,
            faulty: false,
        }),
        Err(fault) => {
            put_fault_line(&mut text, &fault)?;
            put_context(&mut text, fault_context(octets, &fault))?;
            Ok(Shown { text, faulty: true })
        }
    }
}

/// Appends what follows the first line of a datagram of the user plane that is at fault.
fn put_behind(
    out: &mut Vec<u8>,
    names: &Names,
    header: &UserHeader,
    chain: Option<(u8, &[u8])>,
) -> Result<(), AllocError>
    ensures ok { OnOk result (out.new.items
        ≡ out.old.items ++ behind_head names.now (user_head_of header.now) (option_map chain_of chain.entry)) }
{
    let Some((first, octets)) = chain else {
        return put_rest(out, header.rest);
    };
    let front = chain_front(*out.allocator(), first, octets)?;
    put_front(out, names, header.kind, &front)
}

/// Appends what can be shown of a datagram of the user plane by its octets.
#[tactic(auto, using(crate::proofs::Appends::appending))]
fn put_user_shown(
    out: &mut Vec<u8>,
    names: &Names,
    header: &Option<UserHeader>,
    chain: Option<(u8, &[u8])>,
) -> Result<(), AllocError>
    ensures ok { OnOk result (out.new.items
        ≡ out.old.items ++ user_shown names.now (option_map user_head_of header.now) (option_map chain_of chain.entry)) }
{
    let Some(header) = header else {
        return Ok(());
    };
    put_kind_title(out, header.kind)?;
    put(out, b" teid ")?;
    put_teid(out, header.teid)?;
    put_some(out, b" seq ", header.seq.map(u64::from))?;
    put(out, b"\n")?;
    put_behind(out, names, header, chain)
}

/// Appends the lines of a message of the user plane; or all that can be shown of one whose extension headers are not all understood
/// on S5/S8.
fn put_user(out: &mut Vec<u8>, names: &Names, octets: &[u8]) -> Result<(), AllocError>
    ensures ok { OnOk result (Adds (UserShown names.now octets.now) out.old.items out.new.items) }
{
    match gtp_user::decode(octets) {
        Ok(message) => {
            put_named_user_message(out, names, &message)?;
            Ok(())
        }
        Err(_) => {
            put_user_shown(out, names, &user_head_at(octets), chain_at(octets))?;
            Ok(())
        }
    }
}

/// All lines of a datagram of the user plane; `Memory` where an allocation was refused.
fn all_user(
    alloc: Global,
    names: &Names,
    interface: Interface,
    octets: &[u8],
) -> Result<Shown, Memory>
    ensures { IfOk result (λ shown. AllUser names.now interface octets.now shown.text.items shown.faulty) }
{
    let mut text = Vec::new(alloc);
    match judge_user(interface, octets) {
        Ok(()) => {
            put_user(&mut text, names, octets)?;
            Ok(Shown {
                text,
                faulty: false,
            })
        }
        Err(fault) => {
            put_user_shown(&mut text, names, &user_head_at(octets), chain_at(octets))?;
            put_user_fault_line(&mut text, &fault)?;
            Ok(Shown { text, faulty: true })
        }
    }
}

/// All lines of a datagram. Control plane: of each message its header, with its name, and its elements, as many as are whole, and the
/// octets that are left; then the line of the datagram's first fault on the interface, if it has one, and of the bearer context in which that lies. User
/// plane: the lines of its message, with the names of its extension headers; or what the header of a datagram at fault says, the octets
/// after that, and the line of its fault.
///
/// An element that `decode_lines` shows by name has its line, with the word of what it says. Any other has the name of its type and
/// the fields of its form, in these tables; without a form its octets, and without a name its octets alone. Grouped elements are shown
/// by theirs. `Memory` where an allocation was refused.
pub fn all_lines(
    alloc: Global,
    names: &Names,
    interface: Interface,
    plane: Plane,
    octets: &[u8],
) -> Result<Shown, Memory>
    ensures { IfOk result (λ shown. AllLines names.now interface plane octets.now shown.text.items shown.faulty) }
{
    match plane {
        Plane::Control => all_control(alloc, names, interface, octets),
        Plane::User => all_user(alloc, names, interface, octets),
    }
}
