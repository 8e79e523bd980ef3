//! The sectors of a record of format 2: descriptors, data places and a commit.
ghost use Rattle.std.specs.Prelude.{◌≡◌, length};
ghost use Rattle.journal.specs.Format2.{descriptors_of, format2};
ghost use Rattle.journal.specs.Record.{entries_of, CanWrite};

use crate::NewRecord;
use crate::fields::write_block;
use crate::v2::{COMMIT, Commit, Descriptor, ENTRIES, FIRST_DATA, put_stamp};

/// How many descriptors a record of `count` blocks has.
pub fn descriptors(count: u8) -> usize
    ensures { result ≡ descriptors_of count }
{
    usize::from(count).div_ceil(ENTRIES)
}

/// How many sectors a record of `count` blocks writes.
pub(crate) fn parts(count: u8) -> usize
    ensures { result ≡ format2.parts count }
{
    descriptors(count) + usize::from(count) + 1
}

/// How many of them stand before its barrier: it has none.
pub(crate) fn before_barrier(_count: u8) -> usize
    ensures { result ≡ 0 }
{
    0
}

/// Writes part p of a record to the sector, its descriptors, then its data places, then its commit,
/// and tells where it stands in the slot.
#[tactic(auto, using(crate::proofs::Wholeness::parts, crate::proofs::BatchEntries::batch))]
pub(crate) fn write_part(batch: &NewRecord<'_>, p: usize, sector: &mut [u8; 512]) -> u64
    requires { CanWrite format2.parts 240 batch.now.stamp batch.now.numbers.now
        batch.now.bytes.now p }
    ensures offset { result ≡ format2.offset (length batch.now.numbers.now) p }
    ensures sector { sector.new ≡ format2.part batch.now.stamp
        (entries_of batch.now.numbers.now batch.now.bytes.now) p }
{
    let (stamp, count) = (batch.stamp, batch.numbers.len());
    let first = descriptors(count as u8);
    if p < first {
        Descriptor::new(stamp, batch.numbers, batch.bytes, p).write_to(sector);
        p as u64
    } else if p < first + count {
        let i = p - first;
        write_block(batch.bytes, i, sector);
        put_stamp(stamp, sector);
        FIRST_DATA + i as u64
    } else {
        let count = count as u64;
        Commit { stamp, count }.write_to(sector);
        COMMIT
    }
}
