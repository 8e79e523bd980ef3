//! The copies of blocks in the log.
ghost use Rattle.std.specs.Prelude.{◌≡◌, ◌≤◌, ◌<◌, ◌%◌, ℕ, List, length, OnOk};
ghost use Rattle.journal.specs.Places.{first_home, limit_of, sectors_of};
ghost use Rattle.journal.specs.Formats.{shape_of, IsWhole};
ghost use Rattle.journal.specs.Record.{begun_with, first_of, ReadsOne, Entry, block_of};

use crate::{Super, copy_place};
use medium::{Medium, MediumFault};

/// A copy of a block: the slot of the record that has it, and its place among the blocks of that.
#[derive(Clone, Copy)]
pub struct LoggedCopy {
    pub slot: u64,
    pub place: usize,
}

/// Reads this copy of a block, which begins with these bytes where its data place does not have
/// them. At an `Err` the array may hold anything.
///
/// # Errors
///
/// As the medium.
#[tactic(auto, using(crate::proofs::SectorsRead::copies))]
pub fn read_copy<M: Medium>(
    m: &mut M,
    sizes: &Super,
    copy: LoggedCopy,
    first: &Option<[u8; 8]>,
    to: &mut [u8; 512],
) -> Result<(), MediumFault>
    requires slot { copy.slot < sizes.now.slots }
    requires inside { copy.place < limit_of sizes.now.format }
    requires fits { sectors_of (shape_of sizes.now) ≤ (M.state m.old).size }
    ensures ok { (stamp : ℕ) (entries : List Entry) → copy.slot ≡ stamp % sizes.now.slots
        → copy.place < length entries → first.now ≡ first_of sizes.now.format entries copy.place
        → IsWhole (shape_of sizes.now) (M.state m.old).content stamp entries
        → OnOk result (to.new ≡ block_of entries copy.place) }
    ensures reads { ReadsOne M.state M.follows (λ s. s < first_home (shape_of sizes.now))
        m.old m.new result }
{
    m.read(copy_place(sizes.format, copy.slot, copy.place), to)?;
    put_first(to, first);
    Ok(())
}

/// Puts the first bytes of a block over what its data place has there, if there are any.
pub fn put_first(sector: &mut [u8; 512], first: &Option<[u8; 8]>)
    ensures { sector.new ≡ begun_with first.now sector.old }
{
    if let Some(bytes) = first {
        sector[..8].copy_from_slice(bytes);
    }
}
