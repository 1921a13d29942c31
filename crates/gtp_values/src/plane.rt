//! Which protocol a datagram is of.

/// Control plane or user plane.
#[derive(Clone, Copy, Debug, PartialEq, Eq)]
pub enum Plane {
    /// GTPv2-C (TS 29.274).
    Control,
    /// GTP-U (TS 29.281).
    User,
}
