//! A disk, a store or the work on an image, behind a pointer that C holds.
ghost use Rattle.std.specs.Prelude.{Option};
ghost use Rattle.std.specs.Coded.{coded_option};
ghost use Rattle.calls.specs.HeldRow.{held_row};

use std::marker::Model;

/// What C sees of it: an address.
#[repr(C)]
pub struct Opaque {
    byte: u8,
}

/// C's `struct usbdisk { void *at; }`, which C sets to null before the call that starts something,
/// and never writes after.
#[repr(C)]
pub struct UsbDisk {
    pub(crate) at: *mut Opaque,
    pub ghost held: { Option held_row.Denot } by { coded_option held_row.coded },
}

impl Model for UsbDisk {
    ghost use Rattle.calls.specs.HeldRow.{held_row};
    ghost use Rattle.calls.specs.Owned.{owned};

    ghost also_owns = { λ h. owned held_row h.at h.held };
}
