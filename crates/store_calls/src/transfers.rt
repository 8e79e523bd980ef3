//! What a machine reads, writes and makes durable.
ghost use Rattle.std.specs.Prelude.{◌≡◌, ◌↔◌, ◌/◌, length};
ghost use Rattle.std.specs.Prelude.{IsTrue, MatchResult};
ghost use Rattle.window.specs.declared.ask.DeviceRead.{DeviceRead};
ghost use Rattle.store_calls.specs.Calls.{MayMove, home_of};
ghost use Rattle.window.specs.Sight.{AreInSight};
ghost use Rattle.store_calls.specs.Transfers.{Reads, ReadsOn, ReadsNone, Waits};
ghost use Rattle.store_calls.specs.Transfers.{Writes, Syncs, IdlesStore, IsIdle};
ghost use Rattle.store_calls.specs.declared.lack.Lack.TheVariants as lack;

use crate::background::make_steps;
use crate::lack::Lack;
use crate::machine::StoreMachine;
use crate::reading::{BLOCK, foresee, may_move, read_seen, unseen};
use crate::store_fault::StoreFault;
use crate::writing::put_blocks;
use crate::writing_back::{Aim, write_records};
use window::{Asked, DeviceRead};

impl StoreMachine {
    /// Reads 1 to `limit` blocks from a block on, as they are after all accepted writes.
    ///
    /// # Errors
    /// `Length` where the bytes are no whole blocks, none, or more than the limit; `Range` where a
    /// block is behind the last one; `Dead` on a dead store: nothing changes at these. `Busy` where
    /// sectors are lacking: the device is to read them, and then the same call reads. `ReadRefused`
    /// where it could not, once, or a sector of the log is not in memory: then the bytes may be
    /// anything.
    pub fn read(&mut self, block: u64, to: &mut [u8]) -> Result<(), StoreFault>
        ensures { Reads block self.old to.old self.new to.new result }
    {
        may_move(&self.store, block, to.len())?;
        let count = (to.len() / BLOCK) as u32;
        match unseen(&self.store, block, count) {
            Some(missing) => Err(self.miss(missing)),
            None => self.read_in_sight(block, to),
        }
    }

    /// Writes 1 to `limit` blocks from a block on, as one write, by no call of the device, which
    /// may be behind. The next good sync promises it.
    ///
    /// # Errors
    /// `Length`, `Range` and `Dead` as `read`: nothing changes at these. `Busy` where the batch
    /// before has to become a record. Where the device has carried out all that it was told, steps
    /// are made then that write it, and each leaves fewer, so that the same call comes to be taken.
    pub fn write(&mut self, block: u64, bytes: &[u8]) -> Result<(), StoreFault>
        ensures { Writes block bytes.now self.old self.new result }
    {
        may_move(&self.store, block, bytes.len())?;
        if self.store.takes_at_once(block, bytes.len() / BLOCK) {
            put_blocks(&mut self.store, block, bytes);
            self.put_off = false;
            return Ok(());
        }
        self.put_off = true;
        if self.is_caught_up() {
            write_records(&mut self.store, Aim::Batch);
        }
        Err(StoreFault::Busy)
    }

    /// Promises every accepted write, where each of them is durable and the device has nothing to
    /// carry out.
    ///
    /// # Errors
    /// `Dead` on a dead store, and `Busy` where the device has not carried out all that it was
    /// told: nothing changes at these. `Busy` also where a record is left to write: steps are made
    /// that write it, and each leaves fewer, so that the same call comes to be good once the device
    /// has carried them out.
    pub fn sync(&mut self) -> Result<(), StoreFault>
        ensures { Syncs self.old self.new result }
    {
        if self.store.is_dead() {
            return Err(StoreFault::Dead);
        }
        self.put_off = true;
        if !self.is_caught_up() {
            return Err(StoreFault::Busy);
        }
        if !self.store.is_written() {
            write_records(&mut self.store, Aim::Records);
            return Err(StoreFault::Busy);
        }
        self.put_off = false;
        foresee(&self.store);
        self.rest();
        Ok(())
    }

    /// Steps in the background, where the device has carried out all and no read waits for it: at
    /// most 32, and fewer where many calls wait or none is left. Whether some may be left.
    pub fn idle(&mut self) -> bool
        ensures { IdlesStore self.old self.new result }
    {
        if !self.is_idle() {
            return true;
        }
        make_steps(&mut self.store)
    }

    // Whether the device has carried out all, and no read waits for it.
    pub(crate) fn is_idle(&self) -> bool
        ensures { IsTrue result ↔ IsIdle self.now }
    {
        match self.lack {
            Lack::Wanted(_) => false,
            Lack::Nothing | Lack::Unread(_) => self.is_caught_up(),
        }
    }

    // What a read is told that lacks these sectors.
    fn miss(&mut self, missing: DeviceRead) -> StoreFault
        ensures { Waits self.old missing self.new result }
    {
        if self.is_unread(missing) {
            self.lack = Lack::Nothing;
            return StoreFault::ReadRefused;
        }
        match self.asked {
            Asked::Read(_) => {}
            Asked::Nothing | Asked::Calls(_) | Asked::Refused(_, _) => {
                self.lack = Lack::Wanted(missing);
            }
        }
        StoreFault::Busy
    }

    // Whether the device could not read these sectors when it was asked.
    fn is_unread(&self, missing: DeviceRead) -> bool
        ensures { IsTrue result ↔ (self.now.lack ≡ lack.Unread missing) }
    {
        match self.lack {
            Lack::Unread(unread) => unread == missing,
            Lack::Nothing | Lack::Wanted(_) => false,
        }
    }

    // Reads blocks whose sectors are in sight.
    fn read_in_sight(&mut self, block: u64, to: &mut [u8]) -> Result<(), StoreFault>
        requires may { MayMove self.old.store.cached block (length to.old) }
        requires seen { AreInSight self.old.store.medium (home_of self.old.store block)
            (length to.old / 512) }
        ensures { MatchResult result
            (λ done. ReadsOn block (length to.old / 512) self.old to.new self.new)
            (ReadsNone block (length to.old / 512) self.old self.new) }
    {
        match read_seen(&mut self.store, block, to) {
            Ok(()) => Ok(()),
            Err(why) => Err(why),
        }
    }
}
