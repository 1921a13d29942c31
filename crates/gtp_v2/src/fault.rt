//! What can be wrong with a datagram.

ghost use Rattle.std.specs.Prelude.{◌≡◌, ◌+◌, ◌<◌, ◌^◌};
ghost use Rattle.gtp_v2.specs.Pair.{element_moved, moved};
ghost use Rattle.gtp_v2.specs.reading.Places.{place_of_element, place_of_fault};
ghost use Rattle.gtp_v2.specs.Codes.{number_of};
ghost use Rattle.gtp_v2.specs.Needs.{need_where};
ghost use Rattle.gtp_v2.specs.Grammar.{in_group};
ghost use Rattle.gtp_v2.specs.declared.fault.V2Fault.TheVariants as faults;

use gtp_ie::IeFault;
use gtp_values::{Below, FTeid, Memory, Seq, Teid};
use std::alloc::AllocError;
use thiserror::Error;

/// Why a row of a message's table has no value.
#[derive(Debug, Drop)]
pub enum RowFault {
    /// Of a row of a group, `group` is the place of the group.
    Missing {
        kind: u8,
        instance: u8,
        conditional: bool,
        group: Option<usize>,
    },
    Element(IeFault),
}

impl RowFault {
    /// Of a row of the group that begins at a place.
    pub fn in_group(self, at: usize) -> RowFault
        ensures { result ≡ in_group at self }
    {
        match self {
            RowFault::Missing {
                kind,
                instance,
                conditional,
                ..
            } => RowFault::Missing {
                kind,
                instance,
                conditional,
                group: Some(at),
            },
            RowFault::Element(fault) => RowFault::Element(fault),
        }
    }
}

/// Whether a row must have an element, and which fault it is where there is none.
#[derive(Clone, Copy, Debug, PartialEq, Eq)]
pub enum Need {
    Mandatory,
    Conditional,
    /// None needs to be there.
    Optional,
}

impl Need {
    /// Of a row that is needed where the causes accept.
    pub fn where_accepting(accepting: bool) -> Need
        ensures { result ≡ need_where accepting }
    {
        if accepting {
            Need::Conditional
        } else {
            Need::Optional
        }
    }
}

/// What is known of a message whose elements are at fault: its header (TS 29.274 5.1).
#[derive(Clone, Copy, Debug, PartialEq, Eq)]
pub struct Head {
    /// The message's type (TS 29.274 table 6.1-1).
    pub kind: u8,
    /// The receiver's TEID, where the header has one.
    pub teid: Option<Teid>,
    /// The sequence number.
    pub seq: Seq,
    /// The message's priority, where the header tells one.
    pub priority: Option<Below<16>>,
    /// The sender's end for control messages, of a Create Session Request whose top list is whole
    /// and in which that element reads.
    pub sender: Option<FTeid>,
}

/// Why a datagram does not read: the first check that fails, or out of memory (TS 29.274 7.7.2 to
/// 7.7.8). `held` counts octets of the message at fault, `at` octets from the start of the datagram;
/// `conditional` tells a conditional row from a mandatory one; `group` is the place of the bearer context
/// that lacks the element, counted as `at` is, `None` where the message itself lacks it.
#[derive(Clone, Copy, Debug, PartialEq, Eq, Error)]
pub enum V2Fault {
    /// H1: the header is not whole.
    #[error("only {held} octets")]
    Short {
        held: usize,
    },
    /// H2: the version, which is told, is not 2.
    #[error("version {version}")]
    Version {
        version: u8,
    },
    /// H5: the flag P announces a second message, and none follows, or P is set in the second. `at` is the
    /// place of the second message's first octet.
    #[error("the message at {at} is missing, or announces a third")]
    BadPiggyback {
        at: usize,
    },
    /// H3: `held` is without the first four octets.
    #[error("the length is stated as {stated} and is {held}")]
    Length {
        stated: usize,
        held: usize,
    },
    /// H4: a TEID where the type has none, or none where it has one.
    #[error("type {kind} has the wrong form of header")]
    FlagT {
        kind: u8,
    },
    /// H6: the message has no element of a row that has to have one, which is mandatory or
    /// conditional.
    #[error("the element {kind}/{instance} is missing")]
    Missing {
        kind: u8,
        instance: u8,
        conditional: bool,
        group: Option<usize>,
        head: Head,
    },
    /// H7: a list of elements is not whole, or an element does not read.
    #[error("{fault}")]
    Element {
        fault: IeFault,
        head: Head,
    },
    /// H8: an allocation was refused.
    #[error("no memory")]
    Memory,
    /// H9: answered by `encode` alone.
    #[error("the length is above 65535")]
    TooLong,
}

/// The printed number of an element that is missing, after H.
pub const MISSING_ELEMENT: u8 = 6;

/// The printed number of an element that does not read, and of a list that is not whole, after H.
pub const BAD_ELEMENT: u8 = 7;

impl V2Fault {
    /// The printed number, after H.
    pub fn number(&self) -> u8
        ensures { result ≡ number_of self.now }
    {
        match self {
            V2Fault::Short { .. } => 1,
            V2Fault::Version { .. } => 2,
            V2Fault::Length { .. } => 3,
            V2Fault::FlagT { .. } => 4,
            V2Fault::BadPiggyback { .. } => 5,
            V2Fault::Missing { .. } => MISSING_ELEMENT,
            V2Fault::Element { .. } => BAD_ELEMENT,
            V2Fault::Memory => 8,
            V2Fault::TooLong => 9,
        }
    }
}

/// The fault of an element, its place counted from so many octets earlier.
fn element_moved(fault: IeFault, place: usize) -> IeFault
    requires { place + place_of_element fault < 2 ^ 64 }
    ensures { result ≡ element_moved place fault }
{
    match fault {
        IeFault::Truncated { at } => IeFault::Truncated { at: place + at },
        IeFault::ShortValue { kind, instance, at } => IeFault::ShortValue {
            kind,
            instance,
            at: place + at,
        },
        IeFault::BadValue { kind, instance, at } => IeFault::BadValue {
            kind,
            instance,
            at: place + at,
        },
        IeFault::Memory => IeFault::Memory,
        IeFault::TooLong => IeFault::TooLong,
    }
}

/// The fault of a second message, its place counted from the start of the datagram, so many octets earlier.
#[cold]
pub fn moved(fault: V2Fault, place: usize) -> V2Fault
    requires { place + place_of_fault fault < 2 ^ 64 }
    ensures { result ≡ moved place fault }
{
    match fault {
        V2Fault::BadPiggyback { at } => V2Fault::BadPiggyback { at: place + at },
        V2Fault::Missing {
            kind,
            instance,
            conditional,
            group: Some(at),
            head,
        } => V2Fault::Missing {
            kind,
            instance,
            conditional,
            group: Some(place + at),
            head,
        },
        V2Fault::Element { fault, head } => V2Fault::Element {
            fault: element_moved(fault, place),
            head,
        },
        other => other,
    }
}

impl From<AllocError> for V2Fault {
    ghost from_gives = { λ _ e. e ≡ faults.Memory };

    fn from(_e: AllocError) -> V2Fault {
        V2Fault::Memory
    }
}

impl From<Memory> for V2Fault {
    ghost from_gives = { λ _ e. e ≡ faults.Memory };

    fn from(_e: Memory) -> V2Fault {
        V2Fault::Memory
    }
}
