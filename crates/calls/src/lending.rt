//! What a handle holds, where it lies.
ghost use Rattle.std.specs.Prelude.{◌≡◌, Some, None, MatchOption};
ghost use Rattle.std.specs.Borrow.{sem};
ghost use Rattle.calls.specs.Lending.{LendsHeld};

use crate::handle::UsbDisk;
use crate::held::Held;
use std::ptr;

/// What the handle holds. It stays in its box, so that a call moves nothing of it.
pub(crate) fn held_in(h: &mut UsbDisk) -> Option<&mut Held>
    ensures* writes_back { sem 𝓛 (LendsHeld h.entry result) }
    ensures value { MatchOption result (h.old.held ≡ None) (λ held. h.old.held ≡ Some held.now) }
{
    if ptr::eq(h.at, ptr::null_mut()) {
        return None;
    }
    unsafe { Some(&mut *(h.at as *mut Held)) }
}
