//! All tables.

use crate::forms::{Forms, all_forms};
use crate::{element_rows, extension_header_rows, group_rows, message_rows};
use gtp_forms::Row;

/// The tables by which messages, elements and extension headers have names, and values have forms.
#[derive(Clone, Copy, Debug)]
pub struct Names {
    /// Types of messages of GTPv2-C.
    pub messages: &'static [Row],
    /// Types of their elements that hold none.
    pub elements: &'static [Row],
    /// Types of grouped elements.
    pub groups: &'static [Row],
    /// Types of extension headers of GTP-U.
    pub extension_headers: &'static [Row],
    /// The forms of their values: the number of one is sixteen times its part, and its place in that.
    pub forms: Forms,
}

/// The tables of TS 29.274 and TS 29.281.
pub fn all_names() -> Names {
    Names {
        messages: message_rows(),
        elements: element_rows(),
        groups: group_rows(),
        extension_headers: extension_header_rows(),
        forms: all_forms(),
    }
}
