//! How much memory a disk takes, and the work on an image.
ghost use Rattle.std.specs.Prelude.{◌≡◌, ◌≤◌};
ghost use Rattle.calls.specs.Memory.{TellsMemory, memory_on};
ghost use Rattle.calls.specs.Memory.{TellsMemoryToFormat, TellsMemoryToMigrate};
ghost use Rattle.disk_machine.specs.Room.{record_memory};

use crate::options::kept_by;
use disk_machine::room_for;
use image_calls::PART;
use journal::LogFormat;
use store_calls::span_of;

// What the box behind a handle takes.
const HELD: u64 = 992;

// What the first two sectors take.
const NEAR: u64 = 1_024;

// What a sector takes, and a call that waits.
const SECTOR: u64 = 512;

const CALL: u64 = 528;

/// How many bytes of memory a disk takes on an image of this format with `slots` slots, of whose
/// log so many records lie in memory: four where `kept` is 0. 0 where there is no such format or
/// number of slots.
pub fn memory_of(version: u32, slots: u64, kept: u32) -> u64
    ensures { TellsMemory version slots kept result }
{
    if slots < 1 || slots > 64 {
        return 0;
    }
    match LogFormat::of_version(u64::from(version)) {
        Some(format) => memory_on(format, slots.min(u64::from(kept_by(kept)))),
        None => 0,
    }
}

// The same of a format, where so many records may stand in the log at once.
fn memory_on(format: LogFormat, ring: u64) -> u64
    requires { ring ≤ 64 }
    ensures { result ≡ memory_on format ring }
{
    let limit = u64::from(format.limit());
    let shown = 512 * u64::from(span_of(format));
    let waiting = 528 * room_for(format);
    SECTOR + shown + waiting + 1_584 * limit + record_memory(format) * ring + HELD
}

// How many bytes each of these records takes.
fn record_memory(format: LogFormat) -> u64
    ensures { result ≡ record_memory format }
{
    1_928 * format.version() + 520 * u64::from(format.limit()) + 64
}

/// How many bytes of memory it takes to make an image of this format with `slots` slots, or to lay
/// its log: sector 0, a part of the image and the work. 0 where there is no such format or number
/// of slots.
pub fn memory_to_format(version: u32, slots: u64) -> u64
    ensures { TellsMemoryToFormat version slots result }
{
    if slots < 1 || slots > 64 || LogFormat::of_version(u64::from(version)).is_none() {
        return 0;
    }
    SECTOR + CALL * PART + HELD
}

/// How many bytes of memory it takes to migrate an image of format 1 with `many` slots: all sectors
/// before home, all calls of the migration and the work. 0 where there is no such number of slots.
pub fn memory_to_migrate(many: u64) -> u64
    ensures { TellsMemoryToMigrate many result }
{
    if many < 1 || many > 64 {
        return 0;
    }
    let log = LogFormat::One.slot_sectors() * many;
    let sends = u64::from(LogFormat::One.limit()) * many + 9 + log;
    NEAR + SECTOR * log + CALL * sends + HELD
}
