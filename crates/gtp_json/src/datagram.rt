//! The JSON of a datagram.

ghost use Rattle.std.specs.Prelude.{◌≡◌, ◌++◌, OnOk, IfOk};
ghost use Rattle.gtp_values.specs.declared.plane.Plane.TheVariants as planes;
ghost use Rattle.gtp_json.specs.reading.Tokens.{written};
ghost use Rattle.gtp_json.specs.Adds.{Adds};
ghost use Rattle.gtp_json.specs.Places.{user_members_at};
ghost use Rattle.gtp_json.specs.Datagram.{plane_word, plane_member, BeforeFault, WithFault, FaultShown, UserShown, MembersBy, has_places, octets_shown, WholeMembers, IsDatagramJson, DatagramJson};
ghost use Rattle.gtp_json.specs.Reads.{ReadsBack};

use crate::all::{put_shown, put_user_shown};
use crate::named::put_named_message;
use crate::object::Output;
use crate::{control, user};
use gtp_interfaces::{Interface, judge_control, judge_user};
use gtp_lines::Shown;
use gtp_names::Names;
use gtp_user::UserFault;
use gtp_v2::{V2Fault, view};
use gtp_values::{Memory, Plane};
use std::alloc::{AllocError, Global};

/// Which members an object has of a datagram, after its plane.
#[derive(Clone, Copy, Debug)]
pub enum Members {
    /// Those of its message or of its two; or, in their place, its first fault.
    Plain,
    /// All that can be shown of it, by these names and forms, and then its first fault on this interface, if it has one; of a user
    /// datagram without a fault on S5/S8, those of its message.
    /// With places: the octets of the datagram before these, of each element of the control plane where it stands, and of the
    /// fault where it lies.
    All {
        names: Names,
        interface: Interface,
        places: bool,
    },
}

impl Members {
    /// Whether places are asked for.
    fn has_places(self) -> bool
        ensures { result ≡ has_places self }
    {
        matches!(self, Members::All { places: true, .. })
    }
}

/// The word of a plane.
fn word(plane: Plane) -> &'static str
    ensures { result.now ≡ plane_word plane }
{
    match plane {
        Plane::Control => "control",
        Plane::User => "user",
    }
}

/// Writes the plane.
pub fn put_plane(out: &mut Output, plane: Plane) -> Result<(), AllocError>
    ensures ok { OnOk result (out.new ≡ out.old ++ written (plane_member plane)) }
{
    out.string_member("plane", word(plane))
}

/// Writes what stands before a fault.
fn put_before(
    out: &mut Output,
    members: Members,
    plane: Plane,
    octets: &[u8],
) -> Result<(), AllocError>
    ensures ok { OnOk result (Adds (BeforeFault members plane octets.now) out.old out.new) }
{
    match (members, plane) {
        (Members::Plain, _) => Ok(()),
        (Members::All { names, places, .. }, Plane::Control) => {
            put_shown(out, places, &names, octets)
        }
        (Members::All { names, .. }, Plane::User) => put_user_shown(out, &names, octets),
    }
}

/// Writes the members of a control datagram at fault.
fn put_control_fault(
    out: &mut Output,
    members: Members,
    octets: &[u8],
    fault: &V2Fault,
) -> Result<(), AllocError>
    ensures ok { OnOk result (Adds (FaultShown members octets.now fault.now) out.old out.new) }
{
    put_before(out, members, Plane::Control, octets)?;
    control::put_fault(out, members.has_places(), octets, fault)?;
    Ok(())
}

/// Writes the members of a control datagram, and tells whether it has a fault.
fn put_plain_control(out: &mut Output, octets: &[u8]) -> Result<bool, AllocError>
    ensures { IfOk result (λ faulty.
        Adds (λ ms. MembersBy Members.Plain planes.Control octets.now ms faulty) out.old out.new) }
{
    match view(octets) {
        Ok(seen) => {
            control::put_datagram(out, &seen)?;
            Ok(false)
        }
        Err(fault) => {
            put_control_fault(out, Members::Plain, octets, &fault)?;
            Ok(true)
        }
    }
}

/// Writes all that can be shown of one, and tells whether it has a fault on an interface.
fn put_all_control(
    out: &mut Output,
    names: Names,
    interface: Interface,
    places: bool,
    octets: &[u8],
) -> Result<bool, AllocError>
    ensures { IfOk result (λ faulty.
        Adds (λ ms. MembersBy (Members.All names interface places) planes.Control octets.now ms faulty) out.old out.new) }
{
    match judge_control(interface, octets) {
        Ok(()) => {
            put_shown(out, places, &names, octets)?;
            Ok(false)
        }
        Err(fault) => {
            let members = Members::All {
                names,
                interface,
                places,
            };
            put_control_fault(out, members, octets, &fault)?;
            Ok(true)
        }
    }
}

/// Writes the members of a user datagram at fault.
fn put_user_fault(
    out: &mut Output,
    members: Members,
    octets: &[u8],
    fault: &UserFault,
) -> Result<(), AllocError>
    ensures ok { OnOk result (Adds (WithFault members planes.User octets.now
        (user_members_at (has_places members) fault.now)) out.old out.new) }
{
    put_before(out, members, Plane::User, octets)?;
    user::put_fault(out, members.has_places(), fault)?;
    Ok(())
}

/// Writes the members of a user datagram, and tells whether it has a fault.
fn put_plain_user(out: &mut Output, octets: &[u8]) -> Result<bool, AllocError>
    ensures { IfOk result (λ faulty.
        Adds (λ ms. MembersBy Members.Plain planes.User octets.now ms faulty) out.old out.new) }
{
    match gtp_user::decode(octets) {
        Ok(message) => {
            user::put_message(out, &message)?;
            Ok(false)
        }
        Err(fault) => {
            put_user_fault(out, Members::Plain, octets, &fault)?;
            Ok(true)
        }
    }
}

/// Writes the members of the message of a user datagram; or all that can be shown of one whose extension headers are not all understood
/// on S5/S8.
fn put_user_message(out: &mut Output, names: &Names, octets: &[u8]) -> Result<(), AllocError>
    ensures ok { OnOk result (Adds (UserShown names.now octets.now) out.old out.new) }
{
    match gtp_user::decode(octets) {
        Ok(message) => {
            put_named_message(out, names, &message)?;
            Ok(())
        }
        Err(_) => {
            put_user_shown(out, names, octets)?;
            Ok(())
        }
    }
}

/// Writes all that can be shown of a user datagram, and tells whether it has a fault on an interface.
fn put_all_user(
    out: &mut Output,
    names: Names,
    interface: Interface,
    places: bool,
    octets: &[u8],
) -> Result<bool, AllocError>
    ensures { IfOk result (λ faulty.
        Adds (λ ms. MembersBy (Members.All names interface places) planes.User octets.now ms faulty) out.old out.new) }
{
    match judge_user(interface, octets) {
        Ok(()) => {
            put_user_message(out, &names, octets)?;
            Ok(false)
        }
        Err(fault) => {
            let members = Members::All {
                names,
                interface,
                places,
            };
            put_user_fault(out, members, octets, &fault)?;
            Ok(true)
        }
    }
}

/// Writes the octets of a datagram, where places are asked for.
#[tactic(auto, using(crate::proofs::Tokens::appending))]
fn put_octets_shown(out: &mut Output, members: Members, octets: &[u8]) -> Result<(), AllocError>
    ensures ok { OnOk result (out.new ≡ out.old ++ written (octets_shown members octets.now)) }
{
    if !members.has_places() {
        return Ok(());
    }
    out.hex_member("datagram", octets)
}

/// Writes the members of a datagram, and tells whether it has a fault.
fn put_plain(out: &mut Output, plane: Plane, octets: &[u8]) -> Result<bool, AllocError>
    ensures { IfOk result (λ faulty.
        Adds (λ ms. MembersBy Members.Plain plane octets.now ms faulty) out.old out.new) }
{
    match plane {
        Plane::Control => put_plain_control(out, octets),
        Plane::User => put_plain_user(out, octets),
    }
}

/// Writes all that can be shown of one, and tells whether it has a fault on an interface.
fn put_all(
    out: &mut Output,
    names: Names,
    interface: Interface,
    places: bool,
    plane: Plane,
    octets: &[u8],
) -> Result<bool, AllocError>
    ensures { IfOk result (λ faulty.
        Adds (λ ms. MembersBy (Members.All names interface places) plane octets.now ms faulty) out.old out.new) }
{
    match plane {
        Plane::Control => put_all_control(out, names, interface, places, octets),
        Plane::User => put_all_user(out, names, interface, places, octets),
    }
}

/// Writes what stands after them, and tells whether the datagram has a fault.
fn put_said(
    out: &mut Output,
    members: Members,
    plane: Plane,
    octets: &[u8],
) -> Result<bool, AllocError>
    ensures { IfOk result (λ faulty.
        Adds (λ ms. MembersBy members plane octets.now ms faulty) out.old out.new) }
{
    match members {
        Members::Plain => put_plain(out, plane, octets),
        Members::All {
            names,
            interface,
            places,
        } => put_all(out, names, interface, places, plane, octets),
    }
}

/// Writes the members of a datagram after its plane, and tells whether it has a fault.
pub fn put_members(
    out: &mut Output,
    members: Members,
    plane: Plane,
    octets: &[u8],
) -> Result<bool, AllocError>
    ensures { IfOk result (λ faulty.
        Adds (λ ms. WholeMembers members plane octets.now ms faulty) out.old out.new) }
{
    put_octets_shown(out, members, octets)?;
    let faulty = put_said(out, members, plane, octets)?;
    Ok(faulty)
}

/// A datagram as one JSON object on one line, in ASCII, with a line feed: its plane, and then these members; and whether it
/// has a fault. `Plain`: those of its message or of its two, or its first fault alone. `All`: of each message of the control
/// plane its header and its elements, as many as are whole, and the octets that are left; and then the datagram's first fault,
/// if it has one; messages, elements and extension headers have `name`, where their type has one, and elements and extension headers
/// `fields`, what their form says, where it has one; groups have `elements`. `All` with places has before these `datagram`, its octets; each element of the control plane has `at`, the place of its
/// first octet, and `length`, how many octets it is; and the fault has `at`, where it lies, where what follows its code has no place.
/// `Memory` where an allocation was refused.
pub fn datagram_json(
    alloc: Global,
    members: Members,
    plane: Plane,
    octets: &[u8],
) -> Result<Shown, Memory>
    ensures text { IfOk result (λ shown.
        DatagramJson members plane octets.now shown.text.items shown.faulty) }
    // A reader of JSON finds this value in the line.
    ensures reads_back { IfOk result (λ shown.
        ReadsBack (λ j. IsDatagramJson members plane octets.now j shown.faulty) shown.text.items) }
{
    let mut out = Output::new(alloc);
    out.begin_object()?;
    put_plane(&mut out, plane)?;
    let faulty = put_members(&mut out, members, plane, octets)?;
    out.end_object()?;
    let text = out.into_line()?;
    Ok(Shown { text, faulty })
}
