//! The first octet of a message (TS 29.274 5.1): the version in its three highest bits, and the flags.

ghost use Rattle.std.specs.Prelude.{◌≡◌, ◌/◌, ◌==◌};

/// Version 2, and no flag.
pub const VERSION_2: u8 = 2 << 5;

/// The place of the flag P, counted from the lowest bit: another message follows in the datagram (5.5.1).
pub const PIGGYBACKING: u8 = 4;

/// The place of the flag T: the header has a TEID.
pub const TEID: u8 = 3;

/// The place of the flag MP: the header has a message priority.
pub const MESSAGE_PRIORITY: u8 = 2;

/// Version 2 and the flag T: the first octet of a message with a TEID.
pub const WITH_TEID: u8 = VERSION_2 | 1 << TEID;

/// Whether it is of version 2 and announces another message.
#[inline(always)]
pub fn announces_another(first: u8) -> bool
    ensures { result ≡ (first / 16 == 5) }
{
    first >> PIGGYBACKING == VERSION_2 >> PIGGYBACKING | 1
}

/// Whether it is of version 2 and announces no other message.
#[inline(always)]
pub fn announces_none(first: u8) -> bool
    ensures { result ≡ (first / 16 == 4) }
{
    first >> PIGGYBACKING == VERSION_2 >> PIGGYBACKING
}
