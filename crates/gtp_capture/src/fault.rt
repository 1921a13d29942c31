//! Why a capture was not read to its end.

ghost use Rattle.std.specs.Prelude.{◌≡◌};
ghost use Rattle.gtp_capture.specs.declared.fault.CaptureFault.TheVariants.{Stopped};

use thiserror::Error;

/// What stopped the reading, whatever the octets are.
#[derive(Clone, Copy, Debug, PartialEq, Eq, Error)]
pub enum Stop {
    /// The file has 2^64 - 1 octets or more, which are not counted.
    #[error("too long")]
    TooLong,
    /// An allocation was refused.
    #[error("no memory")]
    Memory,
    /// A read failed.
    #[error("read failed")]
    Read,
    /// The sink did not take a datagram.
    #[error("not taken")]
    Refused,
}

/// Why a capture was not read to its end.
#[derive(Clone, Copy, Debug, PartialEq, Eq, Error)]
pub enum CaptureFault {
    /// The octets do not begin as a capture does.
    #[error("bad capture")]
    NoCapture,
    /// No record or block stands from this octet on, counted from 0.
    #[error("bad capture at {at}")]
    Broken { at: u64 },
    /// Something else stopped the reading.
    #[error("{0}")]
    Stopped(Stop),
}

impl From<Stop> for CaptureFault {
    ghost from_gives = { λ stop fault. fault ≡ Stopped stop };

    fn from(stop: Stop) -> CaptureFault {
        CaptureFault::Stopped(stop)
    }
}
