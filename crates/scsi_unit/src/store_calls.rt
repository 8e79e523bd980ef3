//! The calls of the store that the unit makes.
ghost use Rattle.std.specs.Prelude.{◌≡◌, ◌≤◌, ◌*◌, false, length};
ghost use Rattle.blocks.specs.Running.{ComesBy};
ghost use Rattle.blocks.specs.Stages.{WriteStepPost};
ghost use Rattle.blocks.specs.StoreValue.{is_dead};
ghost use Rattle.scsi.specs.Rules.{write_by};
ghost use Rattle.scsi_unit.specs.Asking.{CanTransfer};
ghost use Rattle.scsi_unit.specs.StoreCalls.{MakesDurable, ReadsBlocks, WritesBlocks, StepsBehind};

use crate::checks::BLOCK;
use blocks::{Stage, Store, Work};
use medium::Medium;
use scsi_commands::{Sense, Transfer};

/// Makes all accepted writes durable, where that is wanted. Else nothing is done.
pub(crate) fn synchronize_if<M: Medium>(store: &mut Store<M>, wanted: bool) -> Result<(), Sense>
    requires live { is_dead store.old.cached ≡ false }
    ensures { MakesDurable (ComesBy M.state M.follows) wanted (M.state store.old.medium)
        (M.state store.new.medium) store.old store.new result }
{
    if !wanted {
        return Ok(());
    }
    match store.sync() {
        Ok(()) => Ok(()),
        Err(_) => Err(Sense::WRITE_ERROR),
    }
}

/// Reads blocks to the front of a buffer.
pub(crate) fn read_blocks<M: Medium>(
    store: &mut Store<M>,
    transfer: Transfer,
    out: &mut [u8],
) -> Result<usize, Sense>
    requires can { CanTransfer store.old.cached transfer }
    requires room { 512 * transfer.count ≤ length out.old }
    ensures { ReadsBlocks (ComesBy M.state M.follows) transfer (M.state store.old.medium)
        (M.state store.new.medium) store.old store.new out.new result }
{
    let size = (BLOCK * transfer.count) as usize;
    match store.read(transfer.address, &mut out[..size]) {
        Ok(()) => Ok(size),
        Err(_) => Err(Sense::UNRECOVERED_READ_ERROR),
    }
}

/// Writes the blocks at the front of what was taken.
pub(crate) fn write_blocks<M: Medium>(
    store: &mut Store<M>,
    transfer: Transfer,
    taken: &[u8],
) -> Result<(), Sense>
    requires can { CanTransfer store.old.cached transfer }
    requires taken { 512 * transfer.count ≤ length taken.now }
    ensures { WritesBlocks (ComesBy M.state M.follows) transfer taken.now (M.state store.old.medium)
        (M.state store.new.medium) store.old store.new result }
{
    let blocks = &taken[..(BLOCK * transfer.count) as usize];
    match store.write(transfer.address, blocks) {
        Ok(()) => Ok(()),
        Err(_) => Err(Sense::WRITE_ERROR),
    }
}

/// Writes the blocks at the front of what was taken, or makes a step towards room for them.
pub(crate) fn write_step<M: Medium>(store: &mut Store<M>, transfer: Transfer, taken: &[u8]) -> Stage
    requires can { CanTransfer store.old.cached transfer }
    requires taken { 512 * transfer.count ≤ length taken.now }
    ensures { WriteStepPost M.state M.follows (write_by transfer taken.now) transfer.address
        transfer.count result store.old store.new }
{
    store.write_step(
        transfer.address,
        &taken[..(BLOCK * transfer.count) as usize],
    )
}

/// Makes a step in the background.
pub(crate) fn step<M: Medium>(store: &mut Store<M>, work: Work)
    ensures { StepsBehind (ComesBy M.state M.follows) work (M.state store.old.medium)
        (M.state store.new.medium) store.old store.new }
{
    store.work(work);
}
