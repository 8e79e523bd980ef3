//! Where the parts of a record of format 2 stand.
ghost use Rattle.std.specs.Prelude.{◌≡◌, ◌<◌};
ghost use Rattle.journal.specs.Format2.{place_of, descriptor_place, data_place, commit_place};

use crate::places::FIRST_SLOT;

/// How many blocks a record has at most.
pub(crate) const LIMIT: u32 = 240;

/// A slot has the places of 8 descriptors, 240 data places and a commit.
pub(crate) const SLOT_SECTORS: u64 = 249;

/// One more than the number of sectors that may lie between the log and home.
pub(crate) const GAP: u64 = SLOT_SECTORS;

/// The first data place of a slot, behind the places of 8 descriptors.
pub(crate) const FIRST_DATA: u64 = 8;

/// The commit stands in the last sector of a slot.
pub(crate) const COMMIT: u64 = SLOT_SECTORS - 1;

/// How many entries a descriptor has at most.
pub(crate) const ENTRIES: usize = 30;

/// The first sector of a slot, which holds the first descriptor of its record.
pub fn place_of(slot: u8) -> u64
    ensures { result ≡ place_of slot }
{
    FIRST_SLOT + SLOT_SECTORS * u64::from(slot)
}

/// The sector of a slot that holds descriptor j of its record.
pub fn descriptor_place(slot: u8, j: u64) -> u64
    requires { j < 8 }
    ensures { result ≡ descriptor_place slot j }
{
    place_of(slot) + j
}

/// The sector of a slot that holds the i-th block of its record, but for its first 8 bytes.
pub fn data_place(slot: u8, i: u8) -> u64
    ensures { result ≡ data_place slot i }
{
    place_of(slot) + FIRST_DATA + u64::from(i)
}

/// The last sector of a slot, which holds the commit of its record.
pub fn commit_place(slot: u8) -> u64
    ensures { result ≡ commit_place slot }
{
    place_of(slot) + COMMIT
}
