//! What stands in a capture, a piece at a time.

use crate::captured::Time;
use crate::head::Kind;
use crate::interface::Interface;
use crate::octets::Order;

/// How what follows is read: as records of a kind, or as blocks in an order.
#[derive(Clone, Copy)]
pub enum Format {
    Records(Kind),
    Blocks(Order),
}

/// How a capture begins, and how many octets that takes.
#[derive(Clone, Copy)]
pub struct Started {
    pub format: Format,
    pub size: u32,
}

/// What is said of a frame, and where its octets stand in what was read.
#[derive(Clone, Copy)]
pub struct Head {
    pub time: Time,
    pub link: u32,
    pub had: u32,
    pub at: usize,
    pub held: usize,
}

/// A piece of a capture.
#[derive(Clone, Copy)]
pub enum Item {
    Frame(Head),
    /// The header of a section.
    Section(Order),
    /// The description of an interface.
    Interface(Interface),
    Other,
}

/// A piece, and how many octets it takes.
#[derive(Clone, Copy)]
pub struct Found {
    pub item: Item,
    pub size: u32,
}

/// What stands next in a capture.
#[derive(Clone, Copy)]
pub enum Step {
    Found(Found),
    End,
    Broken,
}
