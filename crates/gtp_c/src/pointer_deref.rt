//! What a pointer owns, lent.
ghost use Rattle.std.specs.Prelude.{◌≡◌, IsSome, Some};
ghost use types.Logic.{sem};
ghost use Rattle.gtp_c.specs.Pointers.{pointer_follows};

use crate::gateway_with_queue::GatewayWithQueue;
use crate::owned_pointer::OwnedPointer;

impl OwnedPointer {
    /// What a pointer owns that owns something.
    pub(crate) fn get_mut(&mut self) -> &mut GatewayWithQueue
        requires { IsSome self.old.value }
        ensures* writes_back { sem 𝓛 (pointer_follows self.entry result) }
        ensures value { Some result.now ≡ self.old.value }
    {
        unsafe { &mut *(self.at as *mut GatewayWithQueue) }
    }
}
