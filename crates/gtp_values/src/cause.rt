//! Causes.

ghost use Rattle.std.specs.Prelude.{◌≡◌};
ghost use Rattle.gtp_values.specs.Cause.{is_accepting_value};

use crate::below::Below;

/// Why a request was accepted or refused (TS 29.274 8.4).
#[derive(Clone, Copy, Debug, PartialEq, Eq)]
pub struct Cause {
    /// The cause value (TS 29.274 table 8.4-1). That 16 to 63 accept, also those that the table keeps
    /// for later, is a choice of this product.
    pub value: u8,
    /// PDN connection information element error.
    pub pce: bool,
    /// Bearer context information element error.
    pub bce: bool,
    /// Cause source: whether the cause is of the remote node.
    pub cs: bool,
    /// The element at fault, where one is named.
    pub offending: Option<Offending>,
}

/// The element at fault that a cause names (TS 29.274 8.4).
#[derive(Clone, Copy, Debug, PartialEq, Eq)]
pub struct Offending {
    /// Its type.
    pub kind: u8,
    /// Its instance.
    pub instance: Below<16>,
}

impl Cause {
    /// Whether the request was accepted: the value is 16 to 63.
    pub fn is_accepting(&self) -> bool
        ensures { result ≡ is_accepting_value self.now.value }
    {
        matches!(self.value, 16..=63)
    }
}
