//! The sectors of a record, in the order in which they are written, and where they stand.
ghost use Rattle.std.specs.Prelude.{◌≡◌, ◌≤◌, ◌<◌, ◌+◌, ◌*◌, length};
ghost use Rattle.journal.specs.Places.{limit_of, first_data_of};
ghost use Rattle.journal.specs.Record.{entries_of, CanWrite};
ghost use Rattle.journal.specs.Formats.{layout_of};

use crate::places::FIRST_SLOT;
use crate::{LogFormat, v1, v2};

/// A record that is to be written: its stamp, the numbers of its blocks, and their bytes, one block
/// after the other.
#[derive(Clone, Copy)]
pub struct NewRecord<'a> {
    pub stamp: u64,
    pub numbers: &'a [u64],
    pub bytes: &'a [u8],
}

/// Writes part p of the record to the sector, and tells where it stands in the slot of the record.
pub fn write_part(format: LogFormat, batch: &NewRecord<'_>, p: usize, sector: &mut [u8; 512]) -> u64
    requires { CanWrite (layout_of format).parts (limit_of format) batch.now.stamp
        batch.now.numbers.now batch.now.bytes.now p }
    ensures offset { result ≡ (layout_of format).offset (length batch.now.numbers.now) p }
    ensures sector { sector.new ≡ (layout_of format).part batch.now.stamp
        (entries_of batch.now.numbers.now batch.now.bytes.now) p }
{
    match format {
        LogFormat::One => v1::write_part(batch, p, sector),
        LogFormat::Two => v2::write_part(batch, p, sector),
    }
}

/// How many sectors a record of `count` blocks writes.
pub fn parts(format: LogFormat, count: usize) -> usize
    requires { count ≤ 240 }
    ensures { result ≡ (layout_of format).parts count }
{
    let count = count as u8;
    match format {
        LogFormat::One => v1::parts(count),
        LogFormat::Two => v2::parts(count),
    }
}

/// How many of them stand before its barrier: they are flushed before the others are written. None
/// where it has no barrier.
pub fn before_barrier(format: LogFormat, count: usize) -> usize
    requires { count ≤ 240 }
    ensures { result ≡ (layout_of format).before_barrier count }
{
    let count = count as u8;
    match format {
        LogFormat::One => v1::before_barrier(count),
        LogFormat::Two => v2::before_barrier(count),
    }
}

/// The first sector of a slot.
pub fn slot_place(format: LogFormat, slot: u64) -> u64
    requires { slot < 64 }
    ensures { result ≡ 2 + (layout_of format).slot_sectors * slot }
{
    FIRST_SLOT + format.slot_sectors() * slot
}

/// The sector of a slot that holds the bytes of the i-th block of its record; in format 2 all but
/// the first 8 of them.
pub fn copy_place(format: LogFormat, slot: u64, i: usize) -> u64
    requires slot { slot < 64 }
    requires inside { i < limit_of format }
    ensures { result ≡ 2 + (layout_of format).slot_sectors * slot + first_data_of format + i }
{
    let first = match format {
        LogFormat::One => v1::FIRST_DATA,
        LogFormat::Two => v2::FIRST_DATA,
    };
    slot_place(format, slot) + first + i as u64
}
