//! How writes are accepted.
ghost use Rattle.std.specs.Prelude.{◌*◌, ◌/◌, true, length, is_ok};
ghost use Rattle.blocks.specs.Book.{IsTransfer};
ghost use Rattle.logical_blocks.specs.Book.{write_of};
ghost use Rattle.blocks.specs.StoreValue.{blocks_of, transfer_limit, steps_left};
ghost use Rattle.blocks.specs.Turns.{IsWriteTurn};
ghost use Rattle.blocks.specs.Sent.{batch_sends};
ghost use Rattle.blocks.specs.Passing.{PassesOn, KeepsMedium};
ghost use Rattle.blocks.specs.Calls.{WritesRange, AppendsRange, CostsWrite, AnswersWrite};
ghost use Rattle.blocks.specs.Calls.{WritesAlone, HasToTakeAlone, TakesBeside};

use crate::{Store, StoreFault};
use cache::BLOCK;
use medium::Medium;

impl<M: Medium> Store<M> {
    /// Writes 1 to `limit` whole blocks from an address on. The next good `sync` promises the
    /// write.
    ///
    /// It makes no call of the medium where its range fits beside the active batch, or the frozen
    /// one is empty. Otherwise the frozen batch is first made durable, and the active one takes its
    /// place.
    ///
    /// # Errors
    ///
    /// `Dead` on a dead store, and where the store dies in this call. The write is not accepted
    /// then.
    pub fn write(&mut self, address: u64, bytes: &[u8]) -> Result<(), StoreFault>
        requires { IsTransfer (transfer_limit self.old.cached) (blocks_of self.old.cached)
            address (length bytes.now) }
        ensures passes { PassesOn M.state M.follows (IsWriteTurn (write_of address bytes.now)
            (is_ok result)) (2 * steps_left self.old.cached) (batch_sends self.old.cached)
            self.old self.new }
        ensures answers { AnswersWrite result address (length bytes.now / 512) self.old self.new }
        ensures batches { WritesRange self.old.goes_ahead result address (length bytes.now / 512)
            self.old.cached self.new.cached }
        // One that does not fit makes the calls for the batch before it, and no other.
        ensures cost { CostsWrite self.old.goes_ahead result address (length bytes.now / 512)
            (M.state self.old.medium) (M.state self.new.medium) self.old.cached self.new.cached }
    {
        if self.is_dead() {
            return Err(StoreFault::Dead);
        }
        if self.active.fits(address, bytes.len() / BLOCK) {
            self.append(address, bytes);
            return Ok(());
        }
        self.write_alone(address, bytes)
    }

    // Makes the frozen batch durable, and lets the active one take its place: the write has a batch
    // of its own.
    fn write_alone(&mut self, address: u64, bytes: &[u8]) -> Result<(), StoreFault>
        requires { HasToTakeAlone self.old.cached address (length bytes.now) }
        ensures { WritesAlone M.state M.follows result (write_of address bytes.now)
            address (length bytes.now / 512) self.old self.new }
    {
        self.finish()?;
        self.freeze();
        self.append(address, bytes);
        Ok(())
    }

    // The active batch takes a write that fits.
    fn append(&mut self, address: u64, bytes: &[u8])
        requires { TakesBeside self.old.cached address (length bytes.now) }
        ensures keeps { KeepsMedium M.state M.follows
            (IsWriteTurn (write_of address bytes.now) true) self.old self.new }
        ensures batch { AppendsRange address (length bytes.now / 512)
            self.old.cached self.new.cached }
    {
        self.active.put(address, bytes);
    }
}
