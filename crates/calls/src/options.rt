//! What C gives to a start.
ghost use Rattle.std.specs.Prelude.{◌≡◌, ◌≤◌};
ghost use Rattle.calls.specs.Kept.{kept_by};

use disk_machine::UsbDiskIdentity;

/// C's `struct usbdisk_options`.
#[repr(C)]
#[derive(Clone, Copy)]
pub struct UsbDiskOptions {
    /// How many sectors the device has.
    pub sectors: u64,
    pub identity: UsbDiskIdentity,
    /// How many bytes a bulk packet has at most.
    pub packet: u32,
    /// How many records of the log lie in memory at most; 0 for four.
    pub kept: u32,
}

/// C's `struct usbdisk_plan`.
#[repr(C)]
#[derive(Clone, Copy)]
pub struct UsbDiskPlan {
    /// How many sectors the device has.
    pub sectors: u64,
    /// 1 or 2.
    pub format: u32,
    /// How many slots the log has.
    pub slots: u64,
    /// How many blocks a host sees.
    pub blocks: u64,
    /// The sector of block 0; 0 for the first behind the log.
    pub home: u64,
}

// How many records are kept where it is not said. A disk that keeps three makes one flush for each
// record, and with four it is as fast as with any number.
const KEPT: u8 = 4;

// And no more than a log has slots.
const MOST_KEPT: u32 = 64;

/// How many records of the log lie in memory at most, as C says it.
pub(crate) fn kept_by(kept: u32) -> u8
    ensures { result ≡ kept_by kept }
{
    if kept == 0 {
        return KEPT;
    }
    kept.min(MOST_KEPT) as u8
}
