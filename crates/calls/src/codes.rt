//! The numbers that C sees, beside those of `disk_machine`. include/usbdisk.h has the same.

/// The device has to carry out something before.
pub(crate) const BUSY: u32 = 12;

/// No call of the device is under way.
pub(crate) const NOT_ASKED: u32 = 26;

/// The handle holds something of another kind.
pub(crate) const OTHER_KIND: u32 = 27;
