//! A handle is made of a box's parts, and gives them back.
ghost use Rattle.std.specs.Prelude.{◌≡◌, Some, None, MatchOption};

use crate::handle::{Opaque, UsbDisk};
use crate::held::Held;
use crate::parts::Parts;
use std::alloc::Global;
use std::ptr;

/// The handle that holds nothing.
pub(crate) fn empty() -> UsbDisk
    ensures { result.held ≡ None }
{
    UsbDisk {
        at: ptr::null_mut(),
    }
}

/// The handle of what the parts hold.
pub(crate) fn handle_of(parts: Parts<Held, Global>) -> UsbDisk
    ensures { result.held ≡ Some parts.value }
{
    let Parts { ptr: at, alloc: _ } = parts;
    UsbDisk {
        at: at as *mut Opaque,
    }
}

/// The parts of what the handle holds.
pub(crate) fn parts_of(h: UsbDisk, alloc: Global) -> Option<Parts<Held, Global>>
    ensures { MatchOption result (h.held ≡ None) (λ p. h.held ≡ Some p.value) }
{
    let UsbDisk { at } = h;
    if ptr::eq(at, ptr::null_mut()) {
        None
    } else {
        Some(Parts {
            ptr: at as *mut Held,
            alloc,
        })
    }
}
