//! What a batch is made of, in whichever order its blocks lie.
ghost use Rattle.std.specs.Prelude.{◌≡◌, ◌↔◌, ◌+◌, ◌/◌, ◌<◌, ◌≤◌, [], length};
ghost use Rattle.std.specs.Prelude.{vec_capacity, IfOk, IsErrOf};
ghost use Rattle.cache.specs.Entries.{GetsBlock, GetsNext, PutsBlock, PutsOver};
ghost use Rattle.cache.specs.Index.{numbers_of, entries_of};
ghost use Rattle.cache.specs.Places.{HasPlace};
ghost use Rattle.cache.specs.View.{view_of, Invariant, Becomes, AreArranged};
ghost use Rattle.cache.specs.View.{IsPlaced, CanPutAt, CanAppend};

use crate::BatchError;
use crate::append::{write_blocks, write_entries};
use crate::arrange::arrange_row;
use crate::counter::Steps;
use crate::entry::{BLOCK, Entry, number_of, row_place};
use crate::index::Index;
use crate::place::{lower_bound, stands_at};
use std::alloc::Global;

// A batch has room for no more blocks than this.
const MOST_ROOM: usize = 65_536;

// The numbers of a batch, and their blocks.
#[derive(Drop)]
pub(crate) struct Parts {
    // Its numbers rise, and each place below their count is that of one of them.
    pub(crate) index: Index,
    // As long as the room: the first blocks are those of the entries, in the order in which they
    // came or were last arranged, and the others are free.
    pub(crate) row: Vec<[u8; BLOCK]>,
    pub(crate) room: usize,
    // Those of the entries where the batch is frozen, and else without a meaning.
    pub(crate) numbers: Vec<u64>,
}

impl Parts {
    /// No blocks, with room for `room` of them.
    pub(crate) fn new(alloc: Global, room: usize) -> Result<Parts, BatchError>
        ensures large { IsErrOf result BatchError.TooLarge ↔ 65536 < room }
        ensures empty { IfOk result
            (AreArranged (record { room = room; numbers = []; bytes = [] })) }
    {
        if room > MOST_ROOM {
            return Err(BatchError::TooLarge);
        }
        let index = Index::new(alloc, room).map_err(|_| BatchError::NoMemory)?;
        let numbers = Vec::with_capacity(alloc, room).map_err(|_| BatchError::NoMemory)?;
        let row = vec![in alloc; [0; BLOCK]; room].map_err(|_| BatchError::NoMemory)?;
        Ok(Parts {
            index,
            row,
            room,
            numbers,
        })
    }

    /// The 512 bytes of a block, where it is there.
    pub(crate) fn get(&self, block: u64) -> Option<&[u8]>
        requires { Invariant self.now }
        ensures { GetsBlock (view_of self.now) block result }
    {
        let mut place = lower_bound(self.index.entries(), block);
        self.get_at(&mut place, block)
    }

    /// The same where the block's place is known, which becomes the place of the next block.
    #[inline]
    pub(crate) fn get_at(&self, place: &mut usize, block: u64) -> Option<&[u8]>
        requires { IsPlaced self.now block place.old }
        ensures { GetsNext (view_of self.now) block result place.new }
    {
        let entries = self.index.entries();
        let at = *place;
        if stands_at(entries, at, block) {
            *place = at + 1;
            return Some(&self.row[row_place(entries, at) as usize]);
        }
        None
    }

    /// Puts one block where the place of its number is known: over the one that was there, or else
    /// behind the last of the row, so that no other block moves.
    #[inline]
    pub(crate) fn put(&mut self, place: usize, number: u32, block: &[u8])
        requires { CanPutAt self.old number place block.now }
        ensures put { Becomes (PutsBlock number block.now) self.old self.new }
        ensures next { HasPlace (numbers_of (entries_of self.new.index)) (number + 1) (place + 1) }
    {
        let entries = self.index.entries();
        let last = entries.len();
        if stands_at(entries, place, u64::from(number)) {
            let at = row_place(entries, place) as usize;
            self.row[at].copy_from_slice(block);
        } else {
            let entry = Entry {
                number,
                place: last as u32,
            };
            self.index.insert(place, entry);
            self.row[last].copy_from_slice(block);
        }
    }

    /// Puts whole blocks at the numbers from this one on, where all others are smaller.
    #[inline]
    pub(crate) fn append(&mut self, number: u32, bytes: &[u8])
        requires { CanAppend self.old number (length bytes.now / 512) }
        ensures { Becomes (PutsOver number (length bytes.now / 512) bytes.now)
            self.old self.new }
    {
        let place = self.index.entries().len();
        let count = bytes.len() / BLOCK;
        write_blocks(&mut self.row, place, bytes);
        let end = self.index.end;
        let first = Entry {
            number,
            place: place as u32,
        };
        write_entries(&mut self.index.cells, end, count, first);
        self.index.end = end + count;
    }

    /// Puts the blocks into the order of their numbers, and tells these.
    pub(crate) fn arrange(&mut self)
        requires { Invariant self.old }
        ensures { AreArranged (view_of self.old) self.new }
    {
        let entries = &mut self.index.cells[self.index.start..self.index.end];
        arrange_row(&mut self.row, entries, &mut Steps::new());
        tell_numbers(&mut self.numbers, self.index.entries());
    }

    /// Forgets all blocks. The room stays.
    pub(crate) fn clear(&mut self)
        requires { Invariant self.old }
        ensures { AreArranged (record (view_of self.old) { numbers = []; bytes = [] }) self.new }
    {
        self.index.clear(self.room);
        self.numbers.clear();
    }
}

// Makes the numbers those of the entries, within the capacity.
fn tell_numbers(numbers: &mut Vec<u64>, entries: &[Entry])
    requires { length (numbers_of entries.now) ≤ vec_capacity numbers.old }
    ensures items { numbers.new.items ≡ numbers_of entries.now }
    ensures capacity { vec_capacity numbers.new ≡ vec_capacity numbers.old }
{
    numbers.clear();
    for i in 0..entries.len() {
        numbers.push_reserved(number_of(entries, i));
    }
}
