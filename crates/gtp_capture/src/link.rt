//! What stands before an IP packet in a frame.

ghost use Rattle.std.specs.Prelude.{◌≡◌, IsTrue, ◌↔◌, option_map};
ghost use Rattle.gtp_capture.specs.Link.{is_tag as is_tag_type};
ghost use Rattle.gtp_capture.specs.reading.Link.{typed_of, untagged};

/// A type of what is carried (IEEE 802), and the octets that have it.
#[derive(Clone, Copy)]
pub struct Typed<'a> {
    pub kind: u16,
    pub inside: &'a [u8],
}

/// Whether a type says that a tag follows.
fn is_tag(kind: u16) -> bool
    ensures { result ≡ is_tag_type kind }
{
    kind == 0x8100 || kind == 0x88a8 || kind == 0x9100
}

/// What octets of this type carry behind any number of tags.
#[tactic(auto, using(crate::proofs::Tags::untagged_short, crate::proofs::Tags::untagged_done))]
pub fn read_untagged(kind: u16, octets: &[u8]) -> Option<Typed<'_>>
    ensures { option_map typed_of result ≡ untagged kind octets.now }
{
    let mut typed = Typed {
        kind,
        inside: octets,
    };
    while is_tag(typed.kind) {
        let [_, _, high, low, inside @ ..] = typed.inside else {
            return None;
        };
        typed = Typed {
            kind: u16::from_be_bytes([*high, *low]),
            inside,
        };
    }
    Some(typed)
}
