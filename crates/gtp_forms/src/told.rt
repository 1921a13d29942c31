//! What a reading tells, in order.

use crate::form::View;

/// Whether a reading goes on.
#[derive(Clone, Copy, Debug)]
pub enum Mode {
    /// It does.
    Going,
    /// It ended where it may.
    Ended,
    /// Octets are missing.
    Short,
}

/// One thing that is told.
#[derive(Clone, Copy, Debug)]
pub enum Told<'a> {
    /// Octets, and how they are seen.
    Field {
        views: &'static [View],
        octets: &'a [u8],
    },
    /// A part begins.
    BeginPart {
        name: &'static str,
    },
    /// A part ends.
    EndPart,
    /// A list begins.
    BeginList {
        name: &'static str,
    },
    /// A list ends.
    EndList,
    /// An item of a list begins; without a name no line begins with it.
    BeginItem {
        name: &'static str,
    },
    /// An item ends.
    EndItem {
        name: &'static str,
    },
    /// Octets are missing here.
    Missing,
    /// Octets are left here.
    Left {
        octets: &'a [u8],
    },
}
