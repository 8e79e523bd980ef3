//! Where the parts of a record of format 1 stand.
ghost use Rattle.std.specs.Prelude.{◌≡◌, ◌+◌, ◌*◌};

use crate::places::FIRST_SLOT;

/// How many blocks a record has at most.
pub(crate) const LIMIT: u32 = 48;

/// A slot has a descriptor, 48 data places and a commit.
pub(crate) const SLOT_SECTORS: u64 = 50;

/// One more than the number of sectors that may lie between the log and home.
pub(crate) const GAP: u64 = 1;

/// The first data place of a slot, behind the descriptor.
pub(crate) const FIRST_DATA: u64 = 1;

/// The commit stands in the last sector of a slot.
pub(crate) const COMMIT: u64 = SLOT_SECTORS - 1;

/// The first sector of a slot, which holds the descriptor of its record.
pub fn place_of(slot: u8) -> u64
    ensures { result ≡ 2 + 50 * slot }
{
    FIRST_SLOT + SLOT_SECTORS * u64::from(slot)
}

/// The sector of a slot that holds the i-th block of its record.
pub fn data_place(slot: u8, i: u8) -> u64
    ensures { result ≡ 2 + 50 * slot + 1 + i }
{
    place_of(slot) + FIRST_DATA + u64::from(i)
}

/// The last sector of a slot, which holds the commit of its record.
pub fn commit_place(slot: u8) -> u64
    ensures { result ≡ 2 + 50 * slot + 49 }
{
    place_of(slot) + COMMIT
}
