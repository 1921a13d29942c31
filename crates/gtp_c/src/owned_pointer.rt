//! A pointer that C holds, and that owns a box or nothing.
ghost use Rattle.std.specs.Prelude.{◌≡◌, None, Some, IsSome};
ghost use Rattle.std.specs.declared.option.Option.{Option};
ghost use Rattle.std.specs.Coded.{coded_option};
ghost use Rattle.gtp_c.specs.Held.{held};
ghost use Rattle.gtp_c.specs.contracts.gateway_with_queue.GatewayWithQueue.{the_row as value_row};
ghost use Rattle.gtp_c.specs.declared.gateway_with_queue.GatewayWithQueue.{GatewayWithQueue as Value};

use crate::detached_box::DetachedBox;
use crate::gateway_with_queue::GatewayWithQueue;
use std::alloc::Global;
use std::marker::{Model, Send};
use std::ptr::null_mut;

/// A pointer that owns a box, or nothing. It is not `Drop`, so a body that loses one is refused.
#[repr(C)]
pub struct OwnedPointer {
    pub(crate) at: *mut u8,
    /// What it owns.
    pub(crate) ghost value: { Option Value } by { coded_option value_row.coded },
}

impl Model for OwnedPointer {
    ghost also_owns = { λ h. held value_row h.at h.value };
}

impl OwnedPointer {
    /// A pointer that owns nothing.
    pub(crate) fn empty() -> OwnedPointer
        ensures { result.value ≡ None }
    {
        OwnedPointer { at: null_mut() }
    }

    /// A pointer that owns this box.
    pub(crate) fn of(parts: DetachedBox<GatewayWithQueue, Global>) -> OwnedPointer
        ensures { result.value ≡ Some parts.value }
    {
        let DetachedBox { at, alloc: _ } = parts;
        OwnedPointer { at: at as *mut u8 }
    }

    /// A pointer that owns nothing is used up.
    pub(crate) fn end(self)
        requires { self.value ≡ None }
    {
        let OwnedPointer { at: _ } = self;
    }

    /// The box, detached from its pointer, which is used up.
    pub(crate) fn detach(self, alloc: Global) -> DetachedBox<GatewayWithQueue, Global>
        requires { IsSome self.value }
        ensures { Some result.value ≡ self.value }
    {
        let OwnedPointer { at } = self;
        DetachedBox {
            at: at as *mut GatewayWithQueue,
            alloc,
        }
    }
}

// It may go to another thread, since what it owns may.
unsafe impl Send for OwnedPointer {}
