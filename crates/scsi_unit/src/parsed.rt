//! What a command that was parsed is about to move.
ghost use Rattle.std.specs.Prelude.{◌≡◌, ◌<◌, ◌≤◌, ◌*◌, ℕ, IfSome, Ok};
ghost use Rattle.blocks.specs.StoreValue.{blocks_of};
ghost use Rattle.scsi_commands.specs.Supported.{IsSupported};
ghost use Rattle.scsi.specs.Rules.{moves_after};
ghost use Rattle.scsi.specs.declared.intent.Intent.TheVariants as intent;
ghost use Rattle.scsi_unit.specs.UnitValue.{unit_limit};
ghost use Rattle.scsi_unit.specs.Pending.{IsServable};
ghost use Rattle.scsi_unit.specs.Reading.{first_home_of, home_sectors_of, read_of, AreHome};

use crate::checks::moves;
use crate::reading::read_of;
use crate::{HomeSectors, Intent, Unit};
use medium::Medium;
use scsi_commands::{Command, Sense};

impl<M: Medium> Unit<M> {
    /// What a command that `command` told is about to move, or the sense with which it is refused.
    pub fn intention(&self, told: &Result<Command, Sense>) -> Intent
        requires { IsServable self.now told.now }
        ensures is { result ≡ moves_after told.now }
        ensures most { (n : ℕ) → result ≡ intent.Out n → (0 < n) × (n ≤ 512 * unit_limit self.now) }
        ensures room { (n : ℕ) → result ≡ intent.In n → n ≤ 512 * unit_limit self.now }
    {
        // The store says here how many blocks it moves at most.
        let _ = self.store.limit();
        match told {
            Ok(command) => moves(&self.identity, command),
            Err(sense) => Intent::Fail(*sense),
        }
    }

    /// The home sectors of the blocks that a command reads: those of a READ of some blocks.
    pub fn sectors_of(&self, command: Command) -> Option<HomeSectors>
        requires { IsSupported (blocks_of self.now.store.cached) (unit_limit self.now) command }
        ensures is { result ≡ home_sectors_of (first_home_of self.now) (read_of (Ok command)) }
        ensures bounds { IfSome result (λ wanted. AreHome (unit_limit self.now)
            (M.state self.now.store.medium).size wanted.first wanted.count) }
    {
        let transfer = read_of(command)?;
        Some(HomeSectors {
            first: self.store.home_of(transfer.address),
            count: transfer.count,
        })
    }
}
