//! Interfaces.

/// An interface, by whose rules a datagram is judged.
#[derive(Clone, Copy, Debug, PartialEq, Eq)]
pub enum Interface {
    /// Between a serving and a packet gateway: the tables of TS 29.274 7, and no extension header that has to be
    /// understood.
    S5S8,
    /// Between a mobility management entity and a serving gateway: the rows of its messages.
    S11,
    /// What is wrong on each: no rows.
    Any,
}
