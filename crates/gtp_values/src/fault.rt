//! Why a text or a number is no value, and out of memory.

use std::alloc::{AllocError, AllocFailed};
use thiserror::Error;

/// Why a text or a number is no value: the first of these, in this order, that applies.
#[derive(Clone, Copy, Debug, PartialEq, Eq, Error)]
pub enum ValueFault {
    /// V1.
    #[error("too short")]
    TooShort,
    /// V2.
    #[error("too long")]
    TooLong,
    /// V3.
    #[error("a digit that is none")]
    BadDigit,
    /// V4.
    #[error("a label that is none")]
    BadLabel,
    /// V5.
    #[error("out of range")]
    OutOfRange,
}

/// Out of memory: an allocation was refused.
#[derive(Clone, Copy, Debug, PartialEq, Eq, Error)]
#[error("no memory")]
pub struct Memory;

impl From<AllocError> for Memory {
    fn from(_e: AllocError) -> Memory {
        Memory
    }
}

impl<T: Drop> From<AllocFailed<T>> for Memory {
    fn from(_e: AllocFailed<T>) -> Memory {
        Memory
    }
}
