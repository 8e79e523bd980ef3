//! A batch whose blocks lie in the order of their numbers.
ghost use Rattle.std.specs.Prelude.{◌≡◌, ◌↔◌, ◌+◌, ◌^◌, ◌≤◌, [], IsTrue};
ghost use Rattle.cache.specs.Blocks.{unlisted};
ghost use Rattle.cache.specs.Entries.{MakesBatch, GetsBlock, GetsNext, IsPartOf};
ghost use Rattle.cache.specs.Places.{HasPlace};
ghost use Rattle.cache.specs.View.{view_of, Invariant, IsArranged};

use crate::BatchError;
use crate::parts::Parts;
use crate::place::{listed_among, lower_bound};
use std::alloc::Global;
use std::marker::Model;
use std::mem;

/// A batch that takes no more blocks, and has them one after the other. It gets its blocks from a
/// `Batch` by `freeze`. After `new` no call takes memory.
#[derive(Drop)]
pub struct Frozen {
    parts: Parts,
}

impl Model for Frozen {
    ghost use Rattle.cache.specs.Entries.{Entries};

    ghost Value = { Entries };

    ghost use Rattle.cache.specs.View.{view_of, IsArranged};

    ghost view = { λ batch. view_of batch.parts };

    ghost invariant = { λ batch. IsArranged batch.parts };
}

impl Frozen {
    /// An empty batch with room for `room` blocks.
    ///
    /// # Errors
    /// `TooLarge` where the room is for more than 65,536 blocks, and else `NoMemory` alone: a
    /// growth was refused.
    pub fn new(alloc: Global, room: usize) -> Result<Frozen, BatchError>
        ensures { MakesBatch room result }
    {
        Ok(Frozen {
            parts: Parts::new(alloc, room)?,
        })
    }

    /// Whether there is no block.
    pub fn is_empty(&self) -> bool
        ensures { IsTrue result ↔ (self.now.numbers ≡ []) }
    {
        self.parts.numbers.is_empty()
    }

    /// The numbers of the blocks, which rise.
    pub fn numbers(&self) -> &[u64]
        ensures { IsPartOf self.now self.now.numbers result.now }
    {
        &self.parts.numbers
    }

    /// The blocks in the order of their numbers, 512 bytes each.
    pub fn bytes(&self) -> &[u8]
        ensures { IsPartOf self.now self.now.bytes result.now }
    {
        self.parts.row[..self.parts.numbers.len()].as_flattened()
    }

    /// The 512 bytes of a block, where it is there.
    pub fn get(&self, block: u64) -> Option<&[u8]>
        ensures { GetsBlock self.now block result }
    {
        self.parts.get(block)
    }

    /// Whether none of the `count` blocks from the address on is there. The range ends at 2^31 or
    /// before.
    #[inline]
    pub fn is_disjoint(&self, address: u64, count: usize) -> bool
        requires { address + count ≤ 2 ^ 31 }
        ensures { IsTrue result ↔ (unlisted self.now.numbers address count ≡ count) }
    {
        listed_among(self.parts.index.entries(), address, count) == 0
    }

    /// The place of a block's number among those that rise, or the one where it would stand.
    #[inline]
    pub fn lower_bound(&self, block: u64) -> usize
        ensures { HasPlace self.now.numbers block result }
    {
        lower_bound(self.parts.index.entries(), block)
    }

    /// The 512 bytes of a block, where it is there. Its place is known, and becomes that of the
    /// next block, so that one search does for a range.
    #[inline]
    pub fn get_at(&self, place: &mut usize, block: u64) -> Option<&[u8]>
        requires { HasPlace self.now.numbers block place.old }
        ensures { GetsNext self.now block result place.new }
    {
        self.parts.get_at(place, block)
    }

    /// Forgets all blocks. The room stays.
    pub fn clear(&mut self)
        ensures { self.new ≡ record self.old { numbers = []; bytes = [] } }
    {
        self.parts.clear();
    }

    /// Takes parts whose blocks are in order, and leaves its own in their stead.
    pub(crate) fn swap(&mut self, parts: &mut Parts)
        requires { IsArranged parts.old }
        ensures took { self.new ≡ view_of parts.old }
        ensures gave { view_of parts.new ≡ self.old }
        ensures kept { Invariant parts.new }
    {
        mem::swap(&mut self.parts, parts);
    }
}
