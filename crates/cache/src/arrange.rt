//! Putting the blocks of a row into the order of their numbers.
ghost use Rattle.std.specs.Prelude.{◌≡◌, ◌+◌, ◌<◌, ◌≤◌, [], length};
ghost use Rattle.std.specs.Prelude.{slice_index_or, slice_set, slice_range};
ghost use Rattle.cache.specs.Index.{places_of, KeepsBlocks, PutsInOrder};
ghost use Rattle.cache.specs.Order.{ArePlacesOf, IsAstray, IsOwnAt, astray};

use crate::counter::Steps;
use crate::entry::{BLOCK, Entry, row_place, set_row_place};

/// Puts the blocks of the entries into the order of the entries. It follows the cycles of their
/// places: one block of each cycle waits aside, and then each moves once. Blocks past them stay.
pub(crate) fn arrange_row(row: &mut [[u8; BLOCK]], entries: &mut [Entry], moves: &mut Steps)
    requires { ArePlacesOf row.old (places_of entries.old) }
    ensures { PutsInOrder entries.old entries.new row.old row.new moves.old.count moves.new.count }
{
    for i in 0..entries.len() {
        if row_place(entries, i) as usize != i {
            turn_cycle(row, entries, i, moves);
        }
    }
}

// Moves each block of a cycle to its own place: that of the i-th number, and those that stand where
// the others belong.
fn turn_cycle(row: &mut [[u8; BLOCK]], entries: &mut [Entry], i: usize, moves: &mut Steps)
    requires { IsAstray i row.old (places_of entries.old) }
    ensures keeps { KeepsBlocks entries.old entries.new row.old row.new }
    ensures own { IsOwnAt i (places_of entries.old) (places_of entries.new) }
    ensures few { moves.new.count + astray 0 (places_of entries.new)
        ≤ moves.old.count + astray 0 (places_of entries.old) }
{
    let mut hole = row_place(entries, i);
    let aside = row[hole as usize];
    while hole as usize != i {
        let next = row_place(entries, hole as usize);
        move_block(row, next as usize, hole as usize);
        set_row_place(entries, hole as usize, hole);
        moves.add_one();
        hole = next;
    }
    row[i] = aside;
    set_row_place(entries, i, hole);
    moves.add_one();
}

// Copies the block at a place to another one.
fn move_block(row: &mut [[u8; BLOCK]], from: usize, to: usize)
    requires from { from < length row.old }
    requires to { to < length row.old }
    ensures { row.new ≡ slice_set row.old to (slice_index_or row.old from []) }
{
    row[to] = row[from];
}
