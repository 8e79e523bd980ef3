//! The steps of a command, by what it wants.
ghost use Rattle.std.specs.Prelude.{◌≡◌, ◌↔◌, ◌≤◌, ◌+◌, ◌*◌, ℕ, List, length, false, IsTrue};
ghost use Rattle.blocks.specs.StoreValue.{blocks_of, is_dead};
ghost use Rattle.scsi.specs.Rules.{clears, selected_by};
ghost use Rattle.scsi_unit.specs.Asking.{CanTransfer};
ghost use Rattle.scsi_unit.specs.UnitValue.{answer_of};
ghost use Rattle.scsi_unit.specs.Performing.{settled_kept};
ghost use Rattle.scsi_unit.specs.Pending.{CanWant, GoOnPost, transfer_of, IsHadAtOnce};
ghost use Rattle.scsi_unit.specs.Pending.{kept_after, cache_after, progress_after};
ghost use Rattle.scsi_unit.specs.Pending.{progress_accepted};
ghost use Rattle.scsi_unit.specs.declared.progress.Progress.TheVariants.{Done};
ghost use Rattle.scsi_unit.specs.declared.progress.Want.TheVariants as want;

use crate::store_calls::{read_blocks, write_step};
use crate::transfers::{goes_through, is_disabled};
use crate::unit::settle;
use crate::{Progress, Unit, Want};
use blocks::Stage;
use medium::Medium;
use scsi_commands::{Command, Sense, Transfer, mode_select};

impl<M: Medium> Unit<M> {
    /// A WRITE is put into a batch, or makes a step towards room for it.
    pub(crate) fn accept(&mut self, command: &Command, taken: &[u8]) -> Progress
        requires live { is_dead self.old.store.cached ≡ false }
        requires can { CanWant self.old command.now want.Room taken.now }
        ensures step { (out : List ℕ) → GoOnPost M.state M.follows command.now want.Room taken.now
            self.old result out self.new }
        ensures had { IsHadAtOnce self.old command.now want.Room
            → self.new.store.medium ≡ self.old.store.medium }
    {
        let transfer = transfer_of(command);
        match write_step(&mut self.store, transfer, taken) {
            Stage::Waits => Progress::Wants(Want::Room),
            Stage::Failed => self.end(Err(Sense::WRITE_ERROR)),
            Stage::Accepted | Stage::Promised => self.accepted(transfer),
        }
    }

    // A batch has the write: it is over, or wants a commit.
    fn accepted(&mut self, transfer: Transfer) -> Progress
        ensures is { self.new ≡ record self.old {
          kept = kept_after result self.old.kept;
        } }
        ensures told { result ≡ progress_accepted transfer self.old.write_cache }
    {
        if goes_through(transfer.fua, self.write_cache) {
            return Progress::Wants(Want::Commit);
        }
        self.end(Ok(0))
    }

    /// Makes a step that makes the accepted writes durable. Where all of them are, the command is
    /// over, or wants its blocks.
    pub(crate) fn commit(&mut self, command: &Command) -> Progress
        requires live { is_dead self.old.store.cached ≡ false }
        ensures { (taken out : List ℕ) → CanWant self.old command.now want.Commit taken
            → GoOnPost M.state M.follows command.now want.Commit taken
            self.old result out self.new }
    {
        match self.store.commit_step() {
            Stage::Failed => self.end(Err(Sense::WRITE_ERROR)),
            Stage::Promised => self.committed(command),
            Stage::Waits | Stage::Accepted => Progress::Wants(Want::Commit),
        }
    }

    // All accepted writes are durable.
    fn committed(&mut self, command: &Command) -> Progress
        ensures is { self.new ≡ record self.old {
          kept = kept_after result self.old.kept;
          write_cache = cache_after command.now self.old.write_cache;
        } }
        ensures told { result ≡ progress_after command.now }
    {
        match command {
            Command::Read10(_) | Command::Read16(_) => Progress::Wants(Want::Read),
            Command::ModeSelect { .. } => {
                self.write_cache = false;
                self.end(Ok(0))
            }
            _ => self.end(Ok(0)),
        }
    }

    /// Reads the blocks of a READ.
    pub(crate) fn read_now(&mut self, command: &Command, out: &mut [u8]) -> Progress
        requires can { CanTransfer self.old.store.cached (transfer_of command.now) }
        requires room { 512 * (transfer_of command.now).count ≤ length out.old }
        ensures { (taken : List ℕ) → CanWant self.old command.now want.Read taken
            → GoOnPost M.state M.follows command.now want.Read taken
            self.old result out.new self.new }
    {
        let answer = read_blocks(&mut self.store, transfer_of(command), out);
        self.end(answer)
    }

    /// A command is over: the sense of one that failed is kept, and that of an earlier one dropped.
    pub(crate) fn end(&mut self, answer: Result<usize, Sense>) -> Progress
        ensures told { result ≡ Done answer }
        ensures kept { (out : List ℕ) → self.new ≡ record self.old {
          kept = settled_kept (answer_of answer out) self.old.kept;
        } }
    {
        settle(&mut self.kept, &answer);
        Progress::Done(answer)
    }

    /// Whether a WRITE is put into a batch by no call of the medium.
    pub(crate) fn has_room(&self, command: &Command) -> bool
        requires { (transfer_of command.now).address + (transfer_of command.now).count
            ≤ blocks_of self.now.store.cached }
        ensures { IsTrue result ↔ IsHadAtOnce self.now command.now want.Room }
    {
        let transfer = transfer_of(command);
        self.store
            .takes_at_once(transfer.address, transfer.count as usize)
    }

    /// Whether a MODE SELECT with a list of this length disables the write cache.
    pub(crate) fn clears(&self, list_len: u8, taken: &[u8]) -> bool
        requires { list_len ≤ length taken.now }
        ensures { result ≡ clears self.now.write_cache
            (selected_by list_len taken.now self.now.write_cache) }
    {
        match mode_select(&taken[..usize::from(list_len)], self.write_cache) {
            Ok(enabled) => is_disabled(self.write_cache, enabled),
            Err(_) => false,
        }
    }
}

/// What a READ or a WRITE moves; any other command moves no blocks.
pub(crate) fn transfer_of(command: &Command) -> Transfer
    ensures { result ≡ transfer_of command.now }
{
    match command {
        Command::Read10(transfer)
        | Command::Read16(transfer)
        | Command::Write10(transfer)
        | Command::Write16(transfer) => *transfer,
        _ => Transfer {
            address: 0,
            count: 0,
            fua: false,
        },
    }
}
