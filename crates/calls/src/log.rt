//! How the log of an image lies, as C is told it.
ghost use Rattle.std.specs.Prelude.{◌≡◌, MatchOption};
ghost use Rattle.calls.specs.Logs.{LogOfPost, IsLog, IsNoLog};

use disk_machine::{ACK, BAD_SIZES};
use journal::{LogFormat, Super};

/// C's `struct usbdisk_log`.
#[repr(C)]
#[derive(Clone, Copy)]
pub struct UsbDiskLog {
    /// How many blocks one write has at most.
    pub limit: u64,
    /// How many sectors a slot has.
    pub slot_sectors: u64,
    /// The sector behind the log.
    pub end: u64,
    /// The first multiple of the page from there on.
    pub home: u64,
}

/// The log of an image of this format with `slots` slots, whose block 0 lies at a multiple of
/// `page` sectors.
pub fn log_of(version: u32, slots: u64, page: u64, log: &mut UsbDiskLog) -> u32
    ensures { LogOfPost version slots page log.old log.new result }
{
    match log_with(version, slots, page) {
        Some(found) => {
            *log = found;
            ACK
        }
        None => BAD_SIZES,
    }
}

// The log, where there is one such.
fn log_with(version: u32, slots: u64, page: u64) -> Option<UsbDiskLog>
    ensures { MatchOption result (IsNoLog version slots page) (IsLog version slots page) }
{
    if slots < 1 || slots > 64 {
        return None;
    }
    let format = LogFormat::of_version(u64::from(version))?;
    let end = Super::new(format, 1, slots).home;
    let home = end.checked_next_multiple_of(page)?;
    Super::with_home(format, 1, slots, home)?;
    Some(UsbDiskLog {
        limit: u64::from(format.limit()),
        slot_sectors: format.slot_sectors(),
        end,
        home,
    })
}
