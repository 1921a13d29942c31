//! Datagrams that are taken, to be sent.

ghost use Rattle.std.specs.Prelude.{◌≡◌, ◌≢◌, ◌↔◌, ◌<◌, [], ◌∷◌, length};
ghost use Rattle.gtp_c.specs.Common.{IsOneOf};
ghost use Rattle.gtp_c.specs.Steps.{Says, Hands, IsTooSmall, NothingWaits};
ghost use Rattle.gtp_c.specs.Writing.{StandsAt};

use crate::ends::{End, plane_number};
use crate::gateway_with_queue::GatewayWithQueue;
use crate::status::{DONE, NONE, TOO_SMALL};
use gtp_gateway::Sent;

/// A datagram that is to be sent.
#[repr(C)]
#[derive(Clone, Copy)]
pub struct Datagram {
    /// How many octets it has.
    pub len: u64,
    pub from: End,
    pub to: End,
    /// 0 control, 1 user.
    pub plane: u8,
}

impl Datagram {
    fn of(sent: &Sent) -> Datagram
        ensures { Says result sent.now }
    {
        Datagram {
            len: sent.octets.len() as u64,
            from: End::of(sent.from),
            to: End::of(sent.to),
            plane: plane_number(sent.plane),
        }
    }
}

/// Writes octets to a buffer, where it has room for them: 0, or 5.
fn put_octets(octets: &[u8], buffer: &mut [u8]) -> u8
    ensures written { result ≡ 0 → StandsAt 0 octets.now buffer.old buffer.new }
    ensures small { result ≢ 0 → length buffer.old < length octets.now }
    ensures kept { result ≢ 0 → buffer.new ≡ buffer.old }
    ensures known { result ≢ 0 → result ≡ 5 }
{
    if buffer.len() < octets.len() {
        return TOO_SMALL;
    }
    let (place, _rest) = buffer.split_at_mut(octets.len());
    place.copy_from_slice(octets);
    DONE
}

impl GatewayWithQueue {
    /// Hands out the next datagram, where it fits.
    pub(crate) fn take(&mut self, buffer: &mut [u8], datagram: &mut Datagram) -> u8
        ensures taken { result ≡ 0 → Hands buffer.old buffer.new datagram.new self.old self.new }
        ensures small { result ≡ 5
            → IsTooSmall (length buffer.old) datagram.new self.old self.new }
        ensures buffer { result ≢ 0 → buffer.new ≡ buffer.old }
        ensures untold { result ≢ 0 → result ≢ 5 → datagram.new ≡ datagram.old }
        ensures kept { result ≢ 0 → self.new ≡ self.old }
        ensures none { (result ≡ 4) ↔ NothingWaits self.old }
        ensures known { IsOneOf (0 ∷ 4 ∷ 5 ∷ []) result }
    {
        let Some(sent) = self.waiting.front() else {
            return NONE;
        };
        *datagram = Datagram::of(sent);
        let status = put_octets(sent.octets.as_slice(), buffer);
        if status == DONE {
            let _ = self.waiting.pop_front();
        }
        status
    }
}
