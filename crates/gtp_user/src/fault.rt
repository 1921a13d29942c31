//! What can be wrong with a datagram of the user plane.

ghost use Rattle.std.specs.Prelude.{◌≡◌};
ghost use Rattle.gtp_user.specs.Codes.{number_of};
ghost use Rattle.gtp_user.specs.declared.fault.UserFault.TheVariants.{Memory};

use std::alloc::AllocError;
use thiserror::Error;

/// Why a datagram is no message: the first of these, in the order of the checks, that applies.
/// A place counts octets from the start of the datagram, from 0.
///
/// The last two are answered by writing alone.
#[derive(Clone, Copy, Debug, PartialEq, Eq, Error)]
pub enum UserFault {
    /// U1: the header is not whole.
    #[error("only {held} octets")]
    Short { held: usize },
    /// U2: the version is not 1.
    #[error("version {version}")]
    Version { version: u8 },
    /// U3: the protocol type is GTP' and not GTP.
    #[error("not of the protocol GTP")]
    Protocol,
    /// U4: the length that is stated is not that of the octets after the first eight.
    #[error("the length is stated as {stated} and is {held}")]
    Length { stated: usize, held: usize },
    /// U5: an extension header whose length octet, at this place, is 0.
    #[error("the extension header at {at} has length 0")]
    ExtensionZero { at: usize },
    /// U6: an extension header, its length octet at this place, that is missing or passes the end.
    #[error("the extension header at {at} is not whole")]
    ExtensionPast { at: usize },
    /// U7: an extension header, its length octet at this place, that the receiver has to understand, and does not.
    #[error("the extension header of type {kind} at {at} is not understood")]
    ExtensionNeeded { kind: u8, at: usize },
    /// U8: the element that the message must have is missing.
    #[error("the element {kind} is missing")]
    Missing { kind: u8 },
    /// U9: at this place there is no whole element of a known form.
    #[error("there is no element at {at}")]
    Element { at: usize },
    /// U10: an allocation was refused.
    #[error("no memory")]
    Memory,
    /// U11: the length passes what two octets can state.
    #[error("the length is above 65535")]
    TooLong,
}

impl UserFault {
    /// The printed number, after U.
    pub fn number(&self) -> u8
        ensures { result ≡ number_of self.now }
    {
        match self {
            UserFault::Short { .. } => 1,
            UserFault::Version { .. } => 2,
            UserFault::Protocol => 3,
            UserFault::Length { .. } => 4,
            UserFault::ExtensionZero { .. } => 5,
            UserFault::ExtensionPast { .. } => 6,
            UserFault::ExtensionNeeded { .. } => 7,
            UserFault::Missing { .. } => 8,
            UserFault::Element { .. } => 9,
            UserFault::Memory => 10,
            UserFault::TooLong => 11,
        }
    }
}

impl From<AllocError> for UserFault {
    ghost from_gives = { λ _ e. e ≡ Memory };

    fn from(_e: AllocError) -> UserFault {
        UserFault::Memory
    }
}
