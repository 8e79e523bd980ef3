//! The sectors of a record of format 1: a descriptor, data places and a commit.
ghost use Rattle.std.specs.Prelude.{◌≡◌, length};
ghost use Rattle.journal.specs.Record.{entries_of, CanWrite};
ghost use Rattle.journal.specs.Formats.{format1};

use crate::NewRecord;
use crate::fields::write_block;
use crate::v1::{COMMIT, Commit, Descriptor, FIRST_DATA};

/// How many sectors a record of `count` blocks writes.
pub(crate) fn parts(count: u8) -> usize
    ensures { result ≡ format1.parts count }
{
    usize::from(count) + 2
}

/// How many of them stand before its barrier.
pub(crate) fn before_barrier(count: u8) -> usize
    ensures { result ≡ format1.before_barrier count }
{
    usize::from(count) + 1
}

/// Writes part p of a record to the sector, its descriptor, then its data places, then its commit,
/// and tells where it stands in the slot.
#[tactic(auto, using(crate::proofs::Wholeness::parts, crate::proofs::BatchEntries::batch))]
pub(crate) fn write_part(batch: &NewRecord<'_>, p: usize, sector: &mut [u8; 512]) -> u64
    requires { CanWrite format1.parts 48 batch.now.stamp batch.now.numbers.now
        batch.now.bytes.now p }
    ensures offset { result ≡ format1.offset (length batch.now.numbers.now) p }
    ensures sector { sector.new ≡ format1.part batch.now.stamp
        (entries_of batch.now.numbers.now batch.now.bytes.now) p }
{
    let (stamp, count) = (batch.stamp, batch.numbers.len());
    if p < 1 {
        Descriptor::new(stamp, batch.numbers).write_to(sector);
        0
    } else if p < count + 1 {
        write_block(batch.bytes, p - 1, sector);
        FIRST_DATA + (p - 1) as u64
    } else {
        let count = count as u64;
        Commit { stamp, count }.write_to(sector);
        COMMIT
    }
}
