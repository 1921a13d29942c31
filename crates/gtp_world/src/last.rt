//! The last message of a datagram.

ghost use Rattle.std.specs.Prelude.{◌≡◌};
ghost use Rattle.gtp_world.specs.Last.{last_octets};

/// The octets of the last message of a datagram: those after the first, where that announces a second (TS 29.274
/// 5.5.1), and else all. A request is known by its own octets.
#[tactic(auto, unfolding(crate::specs::Last::last_octets))]
pub fn last_message(octets: &[u8]) -> &[u8]
    ensures { result.now ≡ last_octets octets.now }
{
    let [first, _, high, low, rest @ ..] = octets else {
        return octets;
    };
    if first >> 4 != 5 {
        return octets;
    }
    let stated = usize::from(u16::from_be_bytes([*high, *low]));
    rest.get(stated..).unwrap_or_default()
}
