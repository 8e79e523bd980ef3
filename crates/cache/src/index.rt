//! An index that grows at both ends.
ghost use Rattle.std.specs.Prelude.{◌≡◌, ◌*◌, ◌/◌, ◌<◌, ◌≤◌, [], length, IfOk};
ghost use Rattle.std.specs.List.{insert};
ghost use Rattle.cache.specs.Index.{entries_of, IsCentred};

use crate::entry::Entry;
use std::alloc::{AllocError, Global};

// The entries are those from `start` up to `end`, and the other cells have no meaning. An entry
// that is inserted moves those before it or those behind it, whichever are fewer.
#[derive(Drop)]
pub(crate) struct Index {
    pub(crate) cells: Vec<Entry>,
    pub(crate) start: usize,
    pub(crate) end: usize,
}

impl Index {
    /// No entries, with room for `room` of them on each side.
    pub(crate) fn new(alloc: Global, room: usize) -> Result<Index, AllocError>
        requires { room ≤ 65536 }
        ensures centred { IfOk result (λ index. IsCentred index room) }
        ensures empty { IfOk result (λ index. entries_of index ≡ []) }
    {
        let empty = Entry {
            number: 0,
            place: 0,
        };
        Ok(Index {
            cells: vec![in alloc; empty; 2 * room]?,
            start: room,
            end: room,
        })
    }

    /// The entries.
    #[inline]
    pub(crate) fn entries(&self) -> &[Entry]
        requires ordered { self.now.start ≤ self.now.end }
        requires inside { self.now.end ≤ length self.now.cells.items }
        ensures { result.now ≡ entries_of self.now }
    {
        &self.cells[self.start..self.end]
    }

    /// Forgets the entries, and begins again in the middle.
    pub(crate) fn clear(&mut self, room: usize)
        requires { length self.old.cells.items ≡ 2 * room }
        ensures centred { IsCentred self.new room }
        ensures empty { entries_of self.new ≡ [] }
    {
        self.start = room;
        self.end = room;
    }

    /// Inserts an entry at this place among the others.
    #[inline]
    pub(crate) fn insert(&mut self, at: usize, entry: Entry)
        requires centred { IsCentred self.old (length self.old.cells.items / 2) }
        requires place { at ≤ length (entries_of self.old) }
        requires room { length (entries_of self.old) < length self.old.cells.items / 2 }
        ensures entries { entries_of self.new ≡ insert (entries_of self.old) at entry }
        ensures centred { IsCentred self.new (length self.old.cells.items / 2) }
    {
        let count = self.end - self.start;
        if at < count - at {
            self.start -= 1;
            self.cells[self.start..].copy_within(1..at + 1, 0);
        } else {
            self.cells[self.start..].copy_within(at..count, at + 1);
            self.end += 1;
        }
        let place = self.start + at;
        self.cells[place] = entry;
    }
}
