//! What the device has to do before a command goes on.
ghost use Rattle.std.specs.Prelude.{◌≡◌, IfSome};
ghost use Rattle.blocks.specs.StoreValue.{blocks_of};
ghost use Rattle.scsi_commands.specs.Supported.{IsSupported};
ghost use Rattle.scsi_unit.specs.UnitValue.{unit_limit};
ghost use Rattle.scsi.specs.Rules.{forces_reading};
ghost use Rattle.scsi_unit.specs.{Pending.{IsNeeded, transfer_of}, Reading.AreHome};

use crate::steps::transfer_of;
use crate::{HomeSectors, Unit, Want};
use medium::Medium;
use scsi_commands::Command;

/// What the device has to do before a command makes its next step.
#[derive(Clone, Copy, Debug, PartialEq, Eq)]
pub struct Need {
    /// It has to carry out all calls: the step may promise all accepted writes.
    pub all_done: bool,
    /// It has to show these home sectors: the step reads them.
    pub home: Option<HomeSectors>,
}

impl<M: Medium> Unit<M> {
    /// What the device has to do before a command that wants this makes its next step.
    pub fn needs(&self, command: &Command, want: Want) -> Need
        requires { IsSupported (blocks_of self.now.store.cached) (unit_limit self.now) command.now }
        ensures is { IsNeeded self.now command.now want result }
        ensures bounds { IfSome result.home (λ wanted. AreHome (unit_limit self.now)
            (M.state self.now.store.medium).size wanted.first wanted.count) }
    {
        match want {
            Want::Room => Need {
                all_done: false,
                home: None,
            },
            Want::Commit => Need {
                all_done: self.store.is_written(),
                home: None,
            },
            Want::Read => Need {
                all_done: forces_reading(command),
                home: self.sectors_of(*command),
            },
        }
    }
}

// Whether a READ makes all accepted writes durable first.
fn forces_reading(command: &Command) -> bool
    ensures { result ≡ forces_reading (transfer_of command.now) }
{
    let transfer = transfer_of(command);
    transfer.fua && transfer.count > 0
}
