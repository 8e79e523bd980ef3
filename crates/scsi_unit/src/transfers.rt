//! The commands that use the store.
ghost use Rattle.std.specs.Prelude.{◌≡◌, ◌&&◌, ◌||◌, ℕ, true, false, not, List, None, Ok};
ghost use Rattle.blocks.specs.StoreValue.{is_dead};
ghost use Rattle.scsi.specs.declared.command.BlockRange.{BlockRange};
ghost use Rattle.scsi.specs.declared.command.Command.TheVariants as command;
ghost use Rattle.blocks.specs.Running.{ComesBy};
ghost use Rattle.scsi_unit.specs.UnitValue.{answer_of};
ghost use Rattle.scsi_unit.specs.Asking.{CanRead, CanWrite, CanSelect};
ghost use Rattle.scsi_unit.specs.Calls.{calls_of_sync, calls_of_read, calls_of_write, calls_of};
ghost use Rattle.scsi_unit.specs.Calls.{MakesAtMost};
ghost use Rattle.scsi_unit.specs.Performing.{Performs, Spares, silent};
ghost use Rattle.scsi_unit.specs.Reading.{some_read};
ghost use Rattle.scsi_unit.specs.StoreCalls.{SendsRead};

use crate::Unit;
use crate::store_calls::{read_blocks, synchronize_if, write_blocks};
use medium::Medium;
use scsi_commands::{Sense, Transfer, mode_select};

impl<M: Medium> Unit<M> {
    /// READ: with FUA all accepted writes are made durable first.
    #[tactic(auto, using(crate::proofs::CommandCalls::no_calls))]
    pub(crate) fn read(&mut self, transfer: Transfer, out: &mut [u8]) -> Result<usize, Sense>
        requires { CanRead self.old transfer out.old }
        ensures performs { (taken : List ℕ) → Performs (M.state self.old.store.medium)
            (M.state self.new.store.medium) (Ok (command.Read10 transfer)) taken self.old
            (answer_of result out.new) self.new }
        ensures spares { (taken : List ℕ) → Spares (M.state self.old.store.medium)
            (M.state self.new.store.medium) (Ok (command.Read10 transfer)) taken self.old
            (answer_of result out.new) self.new }
        ensures bounded { MakesAtMost (calls_of_read transfer self.old.store.cached)
            (some_read transfer) (M.state self.old.store.medium)
            (M.state self.new.store.medium) self.old }
        ensures sends { SendsRead (ComesBy M.state M.follows) transfer self.old.store self.new.store
            result }
    {
        if transfer.count == 0 {
            return Ok(0);
        }
        synchronize_if(&mut self.store, transfer.fua)?;
        read_blocks(&mut self.store, transfer, out)
    }

    /// WRITE: with FUA, or without the write cache, all accepted writes are made durable.
    #[tactic(auto, using(crate::proofs::CommandCalls::no_calls))]
    pub(crate) fn write(&mut self, transfer: Transfer, taken: &[u8]) -> Result<(), Sense>
        requires { CanWrite self.old transfer taken.now }
        ensures performs { Performs (M.state self.old.store.medium)
            (M.state self.new.store.medium) (Ok (command.Write10 transfer)) taken.now self.old
            (silent result) self.new }
        ensures spares { Spares (M.state self.old.store.medium)
            (M.state self.new.store.medium) (Ok (command.Write10 transfer)) taken.now self.old
            (silent result) self.new }
        ensures bounded { MakesAtMost
            (calls_of_write transfer self.old.write_cache self.old.store.cached)
            None (M.state self.old.store.medium) (M.state self.new.store.medium) self.old }
        ensures follows { ComesBy M.state M.follows self.old.store self.new.store }
    {
        if transfer.count == 0 {
            return Ok(());
        }
        write_blocks(&mut self.store, transfer, taken)?;
        let through = goes_through(transfer.fua, self.write_cache);
        synchronize_if(&mut self.store, through)
    }

    /// SYNCHRONIZE CACHE: all accepted writes are made durable.
    pub(crate) fn synchronize(&mut self) -> Result<(), Sense>
        requires live { is_dead self.old.store.cached ≡ false }
        ensures performs { (range : BlockRange) (taken : List ℕ)
            → Performs (M.state self.old.store.medium) (M.state self.new.store.medium)
            (Ok (command.SynchronizeCache10 range)) taken self.old (silent result) self.new }
        ensures spares { (range : BlockRange) (taken : List ℕ)
            → Spares (M.state self.old.store.medium) (M.state self.new.store.medium)
            (Ok (command.SynchronizeCache10 range)) taken self.old (silent result) self.new }
        ensures bounded { MakesAtMost (calls_of_sync self.old.store.cached)
            None (M.state self.old.store.medium) (M.state self.new.store.medium) self.old }
        ensures follows { ComesBy M.state M.follows self.old.store self.new.store }
    {
        synchronize_if(&mut self.store, true)
    }

    /// MODE SELECT: WCE goes from 1 to 0 when all accepted writes are durable.
    #[tactic(auto, using(crate::proofs::CommandCalls::no_calls))]
    pub(crate) fn select(&mut self, list_len: u8, taken: &[u8]) -> Result<(), Sense>
        requires { CanSelect self.old list_len taken.now }
        ensures performs { Performs (M.state self.old.store.medium)
            (M.state self.new.store.medium) (Ok (command.ModeSelect list_len)) taken.now self.old
            (silent result) self.new }
        ensures spares { Spares (M.state self.old.store.medium)
            (M.state self.new.store.medium) (Ok (command.ModeSelect list_len)) taken.now self.old
            (silent result) self.new }
        ensures bounded { MakesAtMost (calls_of (command.ModeSelect list_len) taken.now
            self.old.write_cache self.old.store.cached)
            None (M.state self.old.store.medium) (M.state self.new.store.medium) self.old }
        ensures follows { ComesBy M.state M.follows self.old.store self.new.store }
    {
        let enabled = mode_select(&taken[..usize::from(list_len)], self.write_cache)?;
        let clears = is_disabled(self.write_cache, enabled);
        synchronize_if(&mut self.store, clears)?;
        self.write_cache = enabled;
        Ok(())
    }
}

/// Whether a WRITE is to be durable before it is good.
pub(crate) fn goes_through(fua: bool, write_cache: bool) -> bool
    ensures { result ≡ (fua || not write_cache) }
{
    fua || !write_cache
}

/// Whether a write cache is to be disabled that was enabled.
pub(crate) fn is_disabled(was: bool, enabled: bool) -> bool
    ensures { result ≡ (was && not enabled) }
{
    was && !enabled
}
