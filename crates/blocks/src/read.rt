//! How blocks are read.
ghost use Rattle.std.specs.Prelude.{◌≡◌, ◌+◌, ◌*◌, ◌/◌, ◌^◌, ◌<◌, ◌≤◌, length, IsTrue, OnOk};
ghost use Rattle.std.specs.Prelude.{IfSome, IsNone};
ghost use Rattle.logical_blocks.specs.Book.{Book, array_of, blocks_at};
ghost use Rattle.blocks.specs.Book.{IsTransfer};
ghost use Rattle.blocks.specs.StoreValue.{blocks_of, transfer_limit, FitsBook};
ghost use Rattle.blocks.specs.Passing.{IsReadBeside, RefusesRead};
ghost use Rattle.blocks.specs.Calls.{reads_of, CostsReads};
ghost use Rattle.blocks.specs.Reads.{AreReadable, HasPlaces, IsOnlyAtHome, AreAtHome};
ghost use Rattle.blocks.specs.Reads.{ReadsNext, ReadsBlocks, IsInBatch, IsInNone};
ghost use Rattle.blocks.specs.Reads.{told};

use crate::{Store, StoreFault};
use cache::BLOCK;
use medium::{Medium, MediumFault};

impl<M: Medium> Store<M> {
    /// Reads 1 to `limit` blocks from an address on: each from the active batch, else from the
    /// frozen one, else its newest logged copy, else from home. At an `Err` the array may hold
    /// anything.
    ///
    /// # Errors
    ///
    /// `ReadFault` where the medium refused a read, `Dead` on a dead store. The store is unchanged.
    pub fn read(&mut self, address: u64, to: &mut [u8]) -> Result<(), StoreFault>
        requires { IsTransfer (transfer_limit self.old.cached) (blocks_of self.old.cached)
            address (length to.old) }
        ensures ok { (book : Book) → FitsBook (M.state self.old.medium) self.old.cached book
            → OnOk result (to.new ≡ blocks_at (array_of book) address (length to.old / 512)) }
        ensures refuses { RefusesRead M.state result self.old self.new }
        ensures keeps { IsReadBeside M.state M.follows address (length to.old / 512)
            self.old self.new }
        // It reads no block twice, and makes no call for a block that a batch has, or that the log
        // keeps.
        ensures cost { CostsReads result (2 * (length to.old / 512))
            (reads_of self.old.cached address (length to.old / 512))
            (M.state self.old.medium) (M.state self.new.medium) }
    {
        if self.log.is_dead() {
            return Err(StoreFault::Dead);
        }
        let count = to.len() / BLOCK;
        if self.are_at_home(address, count) {
            return self.read_home(address, to);
        }
        self.read_each(address, count, to)
    }

    // Reads `count` blocks one by one, each from where it is newest.
    fn read_each(&mut self, address: u64, count: usize, to: &mut [u8]) -> Result<(), StoreFault>
        requires { AreReadable self.old.cached address count (length to.old) }
        ensures { ReadsBlocks M.state M.follows result address count to.new self.old self.new }
    {
        let mut active = self.active.lower_bound(address);
        let mut frozen = self.frozen.lower_bound(address);
        for i in 0..count {
            let (block, at) = (address + i as u64, i * BLOCK);
            self.read_block(block, &mut active, &mut frozen, &mut to[at..at + BLOCK])?;
        }
        Ok(())
    }

    // Reads one block from the newest batch that has it, or else from its newest logged copy or its
    // home. Its place in each batch is known, and becomes that of the next block.
    #[inline]
    fn read_block(
        &mut self,
        block: u64,
        active: &mut usize,
        frozen: &mut usize,
        to: &mut [u8],
    ) -> Result<(), StoreFault>
        requires readable { AreReadable self.old.cached block 1 (length to.old) }
        requires places { HasPlaces self.old.cached block active.old frozen.old }
        ensures { ReadsNext M.state M.follows result block to.new active.new frozen.new
            self.old self.new }
    {
        if let Some(bytes) = self.get_newest(block, active, frozen) {
            to.copy_from_slice(bytes);
            return Ok(());
        }
        let Some((slot, place)) = self.log.find(block) else {
            return self.read_at_home(block, to);
        };
        let Some(to) = to.as_mut_array() else {
            unreachable!()
        };
        told(self.log.read_copy(&mut self.medium, slot, place, to))
    }

    // The bytes of a block in the newest batch that has it. Its place in each batch is known, and
    // becomes that of the next block.
    #[inline]
    fn get_newest(&self, block: u64, active: &mut usize, frozen: &mut usize) -> Option<&[u8]>
        requires { HasPlaces self.now.cached block active.old frozen.old }
        ensures some { IfSome result (λ bytes. IsInBatch self.now.cached block bytes.now) }
        ensures size { IfSome result (λ bytes. length bytes.now ≡ 512) }
        ensures none { IsNone result → IsInNone self.now.cached block }
        ensures next { HasPlaces self.now.cached (block + 1) active.new frozen.new }
    {
        let older = self.frozen.get_at(frozen, block);
        match self.active.get_at(active, block) {
            Some(bytes) => Some(bytes),
            None => older,
        }
    }

    // Whether `count` blocks from the address on are at home alone: no batch has one of them, and
    // no record waits to be retired.
    #[inline]
    fn are_at_home(&self, address: u64, count: usize) -> bool
        requires { address + count ≤ 2 ^ 31 }
        ensures { IsTrue result → AreAtHome self.now.cached address count }
    {
        self.log.is_retired()
            && self.active.is_disjoint(address, count)
            && self.frozen.is_disjoint(address, count)
    }

    // Reads blocks that are at home alone: at once where the medium can, and else one by one.
    fn read_home(&mut self, address: u64, to: &mut [u8]) -> Result<(), StoreFault>
        requires readable { AreReadable self.old.cached address (length to.old / 512)
            (length to.old) }
        requires some { address < blocks_of self.old.cached }
        requires home { AreAtHome self.old.cached address (length to.old / 512) }
        ensures { ReadsBlocks M.state M.follows result address (length to.old / 512) to.new
            self.old self.new }
    {
        if self.medium.read_at_once(self.sizes.home_of(address), to) {
            return Ok(());
        }
        for i in 0..to.len() / BLOCK {
            let at = i * BLOCK;
            self.read_at_home(address + i as u64, &mut to[at..at + BLOCK])?;
        }
        Ok(())
    }

    // Reads one block that is at home alone.
    #[inline]
    fn read_at_home(&mut self, block: u64, to: &mut [u8]) -> Result<(), StoreFault>
        requires readable { AreReadable self.old.cached block 1 (length to.old) }
        requires home { IsOnlyAtHome self.old.cached block }
        ensures { ReadsBlocks M.state M.follows result block 1 to.new self.old self.new }
    {
        let Some(to) = to.as_mut_array() else {
            unreachable!()
        };
        told(self.medium.read(self.sizes.home_of(block), to))
    }
}

// How the store tells of one read of the medium.
fn told(read: Result<(), MediumFault>) -> Result<(), StoreFault>
    ensures { result ≡ told read }
{
    match read {
        Ok(()) => Ok(()),
        Err(_) => Err(StoreFault::ReadFault),
    }
}
