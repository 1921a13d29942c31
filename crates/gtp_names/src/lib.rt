//! What GTPv2-C and GTP-U call their messages, elements and extension headers, and the forms of their values: tables, which `gtp_forms` reads.
#![tactic(auto)]

/// Bits of a number: how many places above the lowest they begin, and how many they are.
macro_rules! bits {
    (0 64) => { Bits { divisor: 1, modulus: 0 } };
    ($from:literal $count:literal) => { Bits { divisor: 1 << $from, modulus: 1 << $count } };
}

/// How octets are seen.
macro_rules! view {
    (number $name:literal $from:tt $count:tt) => { View { name: $name, how: How::Number(bits!($from $count)) } };
    (named $name:literal $from:tt $count:tt $words:ident) => { View { name: $name, how: How::Named(bits!($from $count), $words) } };
    (flag $name:literal $bit:literal) => { View { name: $name, how: How::Flag(bits!($bit 1)) } };
    (digits $name:literal) => { View { name: $name, how: How::Spelled(Spelling::Digits) } };
    (network) => { View { name: "", how: How::Network } };
    (address $name:literal) => { View { name: $name, how: How::Spelled(Spelling::Address) } };
    (labels $name:literal) => { View { name: $name, how: How::Spelled(Spelling::Labels) } };
    (text $name:literal) => { View { name: $name, how: How::Spelled(Spelling::Text) } };
    (zone $name:literal) => { View { name: $name, how: How::Spelled(Spelling::Zone) } };
    (octets $name:literal) => { View { name: $name, how: How::Spelled(Spelling::Octets) } };
    (spare) => { View { name: "", how: How::Spare } };
}

/// So many octets, and how they are seen.
macro_rules! field {
    ($octets:literal $(, [$($view:tt)+])*) => { Step::Field { octets: $octets, views: &[$(view!($($view)+)),*] } };
}

/// All octets that are left.
macro_rules! all {
    ([$($view:tt)+]) => { Step::All { views: &[view!($($view)+)] } };
}

/// The number that is kept.
macro_rules! keep {
    ($octets:literal) => { Step::Keep { octets: $octets } };
}

/// A case of a choice: a number or any, the name of a part or none, and a form.
macro_rules! case {
    (_ $name:literal $form:ident) => { Case { value: None, name: $name, form: $form } };
    ($value:literal $name:literal $form:ident) => { Case { value: Some($value), name: $name, form: $form } };
}

/// A part if a bit of the kept number is set.
macro_rules! when {
    ($bit:literal $name:literal $form:ident) => { Step::Choose { bits: bits!($bit 1), cases: &[case!(1 $name $form)] } };
}

/// A choice by bits of the kept number.
macro_rules! choose {
    ($from:literal $count:literal: $($value:tt $name:literal $form:ident),+) => {
        Step::Choose { bits: bits!($from $count), cases: &[$(case!($value $name $form)),+] }
    };
}

/// Items to the end: the names of the list and of an item, and their form.
macro_rules! each {
    ($list:literal $item:literal $form:ident) => { Step::Each { list: $list, item: $item, form: $form } };
}

/// As many items as bits of the kept number say.
macro_rules! times {
    ($from:literal $count:literal: $list:literal $item:literal $form:ident) => {
        Step::Times { bits: bits!($from $count), list: $list, item: $item, form: $form }
    };
}

/// A length of so many octets, and the form of what it covers.
macro_rules! sized {
    ($octets:literal $form:ident) => { Step::Sized { octets: $octets, less: 0, form: $form } };
    ($octets:literal less $less:literal $form:ident) => { Step::Sized { octets: $octets, less: $less, form: $form } };
}

mod elements;
mod extension_headers;
mod forms;
mod groups;
mod messages;
mod names;
mod telling;
mod words;

pub use elements::element_rows;
pub use extension_headers::extension_header_rows;
pub use forms::{Forms, Part, all_forms};
pub use groups::{form_in_message, group_rows, is_connection, is_group};
pub use messages::message_rows;
pub use names::{Names, all_names};
pub use telling::{element_row, told};
