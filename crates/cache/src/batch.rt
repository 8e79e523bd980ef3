//! A bounded map from block numbers to blocks.
ghost use Rattle.std.specs.Prelude.{◌≡◌, ◌↔◌, ◌+◌, ◌^◌, ◌<◌, ◌≤◌};
ghost use Rattle.std.specs.Prelude.{[], length, slice_index, IsTrue, IfOk, IfErr};
ghost use Rattle.cache.specs.Blocks.{IsRising, unlisted};
ghost use Rattle.cache.specs.Digits.{GrowsWithinDigits};
ghost use Rattle.cache.specs.Entries.{MakesBatch, GetsBlock, GetsNext, Fits, CanPut, PutsBlock};
ghost use Rattle.cache.specs.Entries.{PutsRange};
ghost use Rattle.cache.specs.Places.{HasPlace, StandsAt, WouldStandAt, CanPutBlock};

use crate::counter::Steps;
use crate::entry::BLOCK;
use crate::parts::Parts;
use crate::place::{listed_among, lower_bound, read_number, search_among};
use crate::{BatchError, Frozen};
use std::alloc::Global;
use std::marker::Model;

/// Blocks of 512 bytes by their numbers, at most as many as there is room for. No block moves where
/// another one is put, whatever the order of the numbers.
/// After `new` no call takes memory.
#[derive(Drop)]
pub struct Batch {
    parts: Parts,
}

impl Model for Batch {
    ghost use Rattle.cache.specs.Entries.{Entries};

    ghost Value = { Entries };

    ghost use Rattle.cache.specs.View.{view_of, Invariant};

    ghost view = { λ batch. view_of batch.parts };

    ghost invariant = { λ batch. Invariant batch.parts };
}

impl Batch {
    /// An empty batch with room for `room` blocks.
    ///
    /// # Errors
    /// `TooLarge` where the room is for more than 65,536 blocks, and else `NoMemory` alone: a
    /// growth was refused.
    pub fn new(alloc: Global, room: usize) -> Result<Batch, BatchError>
        ensures { MakesBatch room result }
    {
        Ok(Batch {
            parts: Parts::new(alloc, room)?,
        })
    }

    /// How many blocks there are.
    pub fn len(&self) -> usize
        ensures { result ≡ length self.now.numbers }
    {
        self.parts.index.entries().len()
    }

    /// Whether there is no block.
    pub fn is_empty(&self) -> bool
        ensures { IsTrue result ↔ (self.now.numbers ≡ []) }
    {
        self.parts.index.entries().is_empty()
    }

    /// The number of the entry at a place, which is one step to read.
    pub fn number_at(&self, place: usize, steps: &mut Steps) -> u64
        requires { place < length self.now.numbers }
        ensures value { result ≡ slice_index self.now.numbers place }
        ensures rising { IsRising self.now.numbers }
        ensures step { steps.new.count ≡ steps.old.count + 1 }
    {
        read_number(self.parts.index.entries(), place, steps)
    }

    /// The place of a block's entry. It takes at most as many steps as the number of entries has
    /// binary digits: none where there is no entry, and 6 for 48.
    ///
    /// # Errors
    /// Where the block is not there, the place where its entry would stand: behind those of the
    /// smaller numbers.
    pub fn search(&self, block: u64, steps: &mut Steps) -> Result<usize, usize>
        ensures found { IfOk result (StandsAt self.now.numbers block) }
        ensures missing { IfErr result (WouldStandAt self.now.numbers block) }
        ensures few { GrowsWithinDigits (length self.now.numbers) steps.old.count steps.new.count }
    {
        search_among(self.parts.index.entries(), block, steps)
    }

    /// The 512 bytes of a block, where it is there.
    pub fn get(&self, block: u64) -> Option<&[u8]>
        ensures { GetsBlock self.now block result }
    {
        self.parts.get(block)
    }

    /// Whether none of the `count` blocks from the address on is there. The range ends at 2^31 or
    /// before.
    #[inline]
    pub fn is_disjoint(&self, address: u64, count: usize) -> bool
        requires { address + count ≤ 2 ^ 31 }
        ensures { IsTrue result ↔ (unlisted self.now.numbers address count ≡ count) }
    {
        listed_among(self.parts.index.entries(), address, count) == 0
    }

    /// The place of a block's number among those that rise, or the one where it would stand.
    #[inline]
    pub fn lower_bound(&self, block: u64) -> usize
        ensures { HasPlace self.now.numbers block result }
    {
        lower_bound(self.parts.index.entries(), block)
    }

    /// The 512 bytes of a block, where it is there. Its place is known, and becomes that of the
    /// next block, so that one search does for a range.
    #[inline]
    pub fn get_at(&self, place: &mut usize, block: u64) -> Option<&[u8]>
        requires { HasPlace self.now.numbers block place.old }
        ensures { GetsNext self.now block result place.new }
    {
        self.parts.get_at(place, block)
    }

    /// Whether there is room for `count` blocks from the address on, of which those that are there
    /// already take no more. The range ends at 2^31 or before.
    #[inline]
    pub fn fits(&self, address: u64, count: usize) -> bool
        requires { address + count ≤ 2 ^ 31 }
        ensures { IsTrue result ↔ Fits self.now address count }
    {
        let entries = self.parts.index.entries();
        let free = self.parts.room - entries.len();
        if count <= free {
            return true;
        }
        count - listed_among(entries, address, count) <= free
    }

    /// Puts blocks at the numbers from the address on, each in place of the one that was there.
    /// The bytes are whole blocks of 512 bytes, at least one, which fit.
    // Each way is short for one block, and many calls are for one.
    #[inline(always)]
    pub fn put(&mut self, address: u64, bytes: &[u8])
        requires { CanPut self.old address (length bytes.now) }
        ensures { PutsRange address bytes.now self.old self.new }
    {
        let entries = self.parts.index.entries();
        let mut place = lower_bound(entries, address);
        if place == entries.len() {
            self.parts.append(address as u32, bytes);
            return;
        }
        for i in 0..bytes.len() / BLOCK {
            let at = i * BLOCK;
            place = self.put_block(place, address + i as u64, &bytes[at..at + BLOCK]);
        }
    }

    /// Forgets all blocks. The room stays.
    pub fn clear(&mut self)
        ensures { self.new ≡ record self.old { numbers = []; bytes = [] } }
    {
        self.parts.clear();
    }

    /// The batch and a frozen one change their blocks and their room. Those of the batch are put
    /// into the order of their numbers first, where each block moves at most once: the one that
    /// waits aside lies on the stack under no other call.
    #[inline(never)]
    pub fn freeze(&mut self, frozen: &mut Frozen)
        ensures froze { frozen.new ≡ self.old }
        ensures thawed { self.new ≡ frozen.old }
    {
        self.parts.arrange();
        frozen.swap(&mut self.parts);
    }

    // Puts one block where the place of its number is known, and gives the place of the next
    // number.
    fn put_block(&mut self, place: usize, number: u64, block: &[u8]) -> usize
        requires small { number < 2 ^ 31 }
        requires can { CanPutBlock self.old.numbers self.old.room number place block.now }
        ensures put { PutsBlock number block.now self.old self.new }
        ensures next { HasPlace self.new.numbers (number + 1) result }
    {
        self.parts.put(place, number as u32, block);
        place + 1
    }
}
