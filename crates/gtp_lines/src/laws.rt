//! What holds of all octets, each the contract of a function that does nothing.

ghost use Rattle.gtp_lines.specs.Laws.{OneFront, OneText, WholeShown};

/// The whole elements at the front of octets, and the octets after them, are determined: no longer front is whole.
pub fn octets_have_one_front()
    ensures { OneFront }
{}

/// All that can be shown of a datagram is one text.
pub fn datagrams_show_one_text()
    ensures { OneText }
{}

/// Of a datagram without a fault, whose messages have tables, `all_lines` shows what `decode_lines` does, and words.
pub fn whole_datagrams_show_the_same()
    ensures { WholeShown }
{}
