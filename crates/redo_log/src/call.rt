//! The calls of a medium that write a record, one after the other.
ghost use Rattle.std.specs.Prelude.{◌≡◌, ◌⊎◌, ◌≤◌, ◌<◌, ◌-◌, ◌^◌, length, IsTrue, ◌↔◌};
ghost use Rattle.journal.specs.Places.{first_home, limit_of};
ghost use Rattle.journal.specs.Formats.{shape_of, layout_of};
ghost use Rattle.journal.specs.Record.{entries_of};
ghost use Rattle.redo_log.specs.Shown.{written_at};
ghost use Rattle.medium.specs.Performed.{IsWithin};
ghost use Rattle.redo_log.specs.Told.{IsNextCall};
ghost use Rattle.redo_log.specs.Value.{IsBatch};

use journal::{
    LogFormat, NewRecord, Super, before_barrier, parts, slot_of, slot_place, write_part,
};
use medium::Call;

// How many parts of a record are written after `made` calls. One of them may be the flush at the
// barrier.
#[tactic(auto, unfolding(crate::specs::Shown::written_at, crate::specs::Shown::flush_of))]
fn written_at(barrier: usize, made: usize) -> usize
    ensures { result ≡ written_at barrier made }
{
    if 0 < barrier && barrier < made {
        made - 1
    } else {
        made
    }
}

// Whether the parts before the barrier are written, and not flushed yet.
fn is_barrier_due(barrier: usize, made: usize) -> bool
    ensures { IsTrue result ↔ ((0 < barrier) × (made ≡ barrier)) }
{
    0 < barrier && made == barrier
}

// Whether a flush comes next: the parts before the barrier are written, or all. A record has more
// parts than blocks, so that they are not counted for each of these.
fn is_flush_due(
    format: LogFormat,
    count: usize,
    barrier: usize,
    made: usize,
    written: usize,
) -> bool
    requires { count ≤ limit_of format }
    ensures { IsTrue result ↔ (((0 < barrier) × (made ≡ barrier))
        ⊎ ((layout_of format).parts count ≤ written)) }
{
    is_barrier_due(barrier, made) || (count < written && parts(format, count) <= written)
}

/// The next call of a record of which `made` calls are made, and in the sector what it writes. It
/// stands apart, so that the stack has room for what it makes here alone.
#[inline(never)]
pub(crate) fn next_call(
    sizes: &Super,
    batch: &NewRecord<'_>,
    made: usize,
    sector: &mut [u8; 512],
) -> Call
    requires stamp { (1 ≤ batch.now.stamp) × (batch.now.stamp < 2 ^ 63 - 1) }
    requires batch { IsBatch (shape_of sizes.now) batch.now.numbers.now batch.now.bytes.now }
    ensures next { IsNextCall (layout_of sizes.now.format) (shape_of sizes.now) batch.now.stamp
        (entries_of batch.now.numbers.now batch.now.bytes.now) made result sector.new }
    ensures inside { IsWithin (first_home (shape_of sizes.now)) result }
{
    let count = batch.numbers.len();
    let barrier = before_barrier(sizes.format, count);
    let written = written_at(barrier, made);
    if is_flush_due(sizes.format, count, barrier, made, written) {
        return Call::Flush;
    }
    let slot = slot_of(batch.stamp, sizes.slots);
    let offset = write_part(sizes.format, batch, written, sector);
    Call::Write(slot_place(sizes.format, slot) + offset)
}

/// Whether a data place has the stamp of its record in place of the first bytes of its block: it
/// does where no part of a record is flushed before the last.
#[inline]
pub(crate) fn is_stamped(format: LogFormat) -> bool
    ensures { IsTrue result ↔ ((layout_of format).before_barrier 1 ≡ 0) }
{
    before_barrier(format, 1) == 0
}
