//! Blocks that are put behind all others.
ghost use Rattle.std.specs.Prelude.{◌+◌, ◌/◌, ◌^◌, ◌≤◌, [], length};
ghost use Rattle.cache.specs.Blocks.{block_at};
ghost use Rattle.cache.specs.Index.{no_entry, entry_after};
ghost use Rattle.cache.specs.Order.{IsWrittenFrom};

use crate::entry::{BLOCK, Entry};

/// Writes whole blocks to the cells of a row from this one on.
pub(crate) fn write_blocks(row: &mut [[u8; BLOCK]], from: usize, bytes: &[u8])
    requires { from + length bytes.now / 512 ≤ length row.old }
    ensures { IsWrittenFrom row.old row.new from (length bytes.now / 512) (block_at bytes.now) [] }
{
    let (blocks, _) = bytes.as_chunks::<BLOCK>();
    row[from..from + blocks.len()].copy_from_slice(blocks);
}

/// Writes `count` entries from this cell on, whose numbers and places follow those of the first.
pub(crate) fn write_entries(cells: &mut [Entry], from: usize, count: usize, first: Entry)
    requires inside { from + count ≤ length cells.old }
    requires small { first.number + count ≤ 2 ^ 31 }
    requires narrow { first.place + count ≤ 2 ^ 16 }
    ensures { IsWrittenFrom cells.old cells.new from count (entry_after first) no_entry }
{
    for i in 0..count {
        cells[from + i] = Entry {
            number: first.number + i as u32,
            place: first.place + i as u32,
        };
    }
}
