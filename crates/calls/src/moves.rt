//! A box goes into a handle where something starts, and comes back where it stops.
ghost use Rattle.std.specs.Prelude.{◌≡◌, true, false, Some, None, IsSome, MatchOption};

use crate::handle::UsbDisk;
use crate::held::Held;
use crate::lending::held_in;
use crate::parts::Parts;
use crate::turns::{empty, handle_of, parts_of};
use std::alloc::Global;
use std::mem;

/// What the handle holds, which leaves the handle empty.
pub(crate) fn reclaim(h: &mut UsbDisk, alloc: Global) -> Option<Box<Held>>
    ensures value { MatchOption result (h.old.held ≡ None) (λ b. h.old.held ≡ Some b.value) }
    ensures empty { h.new.held ≡ None }
{
    match parts_of(mem::replace(h, empty()), alloc) {
        Some(parts) => Some(parts.into_box()),
        None => None,
    }
}

/// The box goes into the handle. One that was there is dropped.
pub(crate) fn adopt(h: &mut UsbDisk, alloc: Global, held: Box<Held>)
    ensures { h.new.held ≡ Some held.value }
{
    let old = mem::replace(h, handle_of(Parts::of(held)));
    if let Some(parts) = parts_of(old, alloc) {
        let _dropped = parts.into_box();
    }
}

/// Whether the handle holds something, which stays there.
pub(crate) fn holds_any(h: &mut UsbDisk) -> bool
    ensures stays { h.new.held ≡ h.old.held }
    ensures some { result ≡ true → IsSome h.old.held }
    ensures none { result ≡ false → h.old.held ≡ None }
{
    match held_in(h) {
        Some(_) => true,
        None => false,
    }
}
