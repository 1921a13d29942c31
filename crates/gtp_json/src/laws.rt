//! What holds of all octets, each the contract of a function that does nothing.

ghost use Rattle.gtp_json.specs.Laws.{OneLine, OneFrameLine, OneReading};

/// A datagram has one line of JSON in each form.
pub fn datagrams_have_one_line()
    ensures { OneLine }
{}

/// A datagram of a capture has one line of JSON in each form.
pub fn frames_have_one_line()
    ensures { OneFrameLine }
{}

/// The lines of a datagram and its JSON are of one reading in each form: of one message, or of one fault.
pub fn lines_and_json_are_of_one_reading()
    ensures { OneReading }
{}
