//! Forms, as data.

ghost use Rattle.std.specs.Prelude.{◌≡◌, option_map};
ghost use Rattle.gtp_forms.specs.Rows.{row_of as spec_row_of};
ghost use Rattle.gtp_forms.specs.Text.{word_of as spec_word_of};

/// Bits of a number: those from the place whose weight is `divisor`, as many as `modulus` counts values of; all from there where
/// `modulus` is 0.
#[derive(Clone, Copy, Debug)]
pub struct Bits {
    pub divisor: u64,
    pub modulus: u64,
}

/// A number, and its word.
#[derive(Clone, Copy, Debug)]
pub struct Word {
    pub value: u64,
    pub text: &'static str,
}

/// How a text is spelled in octets.
#[derive(Clone, Copy, Debug)]
pub enum Spelling {
    /// Digits, two an octet, the first in the low half; a filler of 15 in the last half is left out (TS 23.003 2.2).
    Digits,
    /// An address of version 4; octets of another length in hexadecimal.
    Address,
    /// The labels of a name, each behind an octet that is its length, with dots between them (TS 23.003 9.1); what is none in hexadecimal.
    Labels,
    /// Text without blanks; what is none in hexadecimal.
    Text,
    /// The quarter hours of a time zone, in one octet (TS 24.008 10.5.3.8); other octets in hexadecimal.
    Zone,
    /// Octets in hexadecimal.
    Octets,
}

/// How a value is seen in octets.
#[derive(Clone, Copy, Debug)]
pub enum How {
    /// A number in bits of them.
    Number(Bits),
    /// The same, and its word where it has one.
    Named(Bits, &'static [Word]),
    /// A flag, told where it is set.
    Flag(Bits),
    /// MCC and MNC in three octets (TS 24.008 10.5.1.3).
    Network,
    /// A text.
    Spelled(Spelling),
    /// Octets that say nothing, told where one is not 0.
    Spare,
}

/// A value in octets, by its name.
#[derive(Clone, Copy, Debug)]
pub struct View {
    pub name: &'static str,
    pub how: How,
}

/// What follows where the number has this value, or any value; a part of that name, or in line without one.
#[derive(Clone, Copy, Debug)]
pub struct Case {
    pub value: Option<u64>,
    pub name: &'static str,
    pub form: u8,
}

/// One step of a reading. Forms are named by their numbers: sixteen times the part of the tables, and the place in it.
#[derive(Clone, Copy, Debug)]
pub enum Step {
    /// So many octets, seen in these ways.
    Field {
        octets: u8,
        views: &'static [View],
    },
    /// All octets that are left.
    All {
        views: &'static [View],
    },
    /// The number in so many octets is kept; they are not passed.
    Keep {
        octets: u8,
    },
    /// The reading may end here.
    May,
    /// The first case that fits bits of the kept number.
    Choose {
        bits: Bits,
        cases: &'static [Case],
    },
    /// Items to the end.
    Each {
        list: &'static str,
        item: &'static str,
        form: u8,
    },
    /// As many items as bits of the kept number say.
    Times {
        bits: Bits,
        list: &'static str,
        item: &'static str,
        form: u8,
    },
    /// So many octets state a length, of which some octets were passed already; the form reads the octets that it covers.
    Sized {
        octets: u8,
        less: u8,
        form: u8,
    },
}

/// A type of messages, elements or extension headers, its name, and the number of its form.
#[derive(Clone, Copy, Debug)]
pub struct Row {
    pub kind: u8,
    pub name: &'static str,
    pub form: Option<u8>,
}

/// The first row of a type.
pub fn row_of(rows: &'static [Row], kind: u8) -> Option<Row>
    ensures { result ≡ spec_row_of rows.now kind }
{
    for row in rows {
        if row.kind == kind {
            return Some(*row);
        }
    }
    None
}

/// The first word of a number.
pub fn word_of(words: &'static [Word], number: u64) -> Option<&'static str>
    ensures { option_map (λ w. w.now) result ≡ spec_word_of words.now number }
{
    for word in words {
        if word.value == number {
            return Some(word.text);
        }
    }
    None
}
