//! Which home sectors a command reads.
ghost use Rattle.std.specs.Prelude.{◌≡◌, IfSome};
ghost use Rattle.scsi_unit.specs.UnitValue.{unit_limit};
ghost use Rattle.scsi_unit.specs.Serving.{command_for};
ghost use Rattle.scsi_unit.specs.Reading.{first_home_of, home_sectors_of, read_of, AreHome};

use crate::Unit;
use medium::Medium;
use scsi_commands::{Command, Transfer};

/// Home sectors, one behind the other: the first, and how many.
#[derive(Clone, Copy, Debug, PartialEq, Eq)]
pub struct HomeSectors {
    pub first: u64,
    pub count: u32,
}

impl<M: Medium> Unit<M> {
    /// The home sectors of the blocks that a command block would read, if it were carried out now:
    /// those of a READ of some blocks that passes all checks, and none else.
    pub fn home_sectors(&self, block: &[u8]) -> Option<HomeSectors>
        ensures is { result ≡ home_sectors_of (first_home_of self.now)
            (read_of (command_for self.now block.now)) }
        ensures bounds { IfSome result (λ wanted. AreHome (unit_limit self.now)
            (M.state self.now.store.medium).size wanted.first wanted.count) }
    {
        let transfer = read_of(self.command(block).ok()?)?;
        Some(HomeSectors {
            first: self.store.home_of(transfer.address),
            count: transfer.count,
        })
    }
}

/// What a READ of some blocks moves.
pub(crate) fn read_of(command: Command) -> Option<Transfer>
    ensures { result ≡ read_of (Ok command) }
{
    match command {
        Command::Read10(transfer) | Command::Read16(transfer) if transfer.count > 0 => Some(
            transfer,
        ),
        _ => None,
    }
}
