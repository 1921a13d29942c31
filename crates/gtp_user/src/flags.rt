//! The first octet of a message (TS 29.281 5.1): the version in its three highest bits, the protocol type, a spare bit,
//! and the flags.

ghost use Rattle.std.specs.Prelude.{◌≡◌, ◌%◌};

/// Version 1, and no flag.
pub const VERSION_1: u8 = 1 << 5;

/// The place of the protocol type, counted from the lowest bit: it is set in GTP, and not in GTP'.
pub const PROTOCOL_TYPE: u8 = 4;

/// The place of the flag E: an extension header follows.
pub const EXTENSION_HEADER: u8 = 2;

/// The place of the flag S: the sequence number is meaningful.
pub const SEQUENCE_NUMBER: u8 = 1;

/// The place of the flag PN: the N-PDU number is meaningful.
pub const N_PDU_NUMBER: u8 = 0;

/// The first octet of a message of GTP without a flag.
pub const GTP: u8 = VERSION_1 | 1 << PROTOCOL_TYPE;

/// The flags E, S and PN: four octets follow the first eight where one is set.
pub fn field_flags(first: u8) -> u8
    ensures { result ≡ first % 8 }
{
    first & 7
}
