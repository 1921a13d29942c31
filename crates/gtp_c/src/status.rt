//! What a call comes to.

pub(crate) const DONE: u8 = 0;

pub(crate) const BAD_VALUE: u8 = 1;

pub(crate) const NO_MEMORY: u8 = 2;

pub(crate) const FULL: u8 = 3;

pub(crate) const NONE: u8 = 4;

pub(crate) const TOO_SMALL: u8 = 5;

pub(crate) const REFUSED: u8 = 6;

pub(crate) const EMPTY: u8 = 7;

pub(crate) const NOT_EMPTY: u8 = 8;

pub(crate) const FAULTY: u8 = 9;

pub(crate) const SHORT_VALUE: u8 = 10;

pub(crate) const NO_VALUE: u8 = 11;
