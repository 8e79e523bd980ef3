//! Which sectors a READ that is pending lacks, and whether a command that is pending makes a step.
ghost use Rattle.std.specs.Prelude.{◌≡◌, ◌↔◌, IsTrue, IfSome, MatchOption, is_some};
ghost use Rattle.scsi_unit.specs.{Reading.AreHome};
ghost use Rattle.window.specs.Window.{state_of};
ghost use Rattle.disk_machine.specs.Seen.{medium_of, needed_home};
ghost use Rattle.disk_machine.specs.Wanted.{HasPlace, Lacks, LacksNone, MayGoOn};
ghost use Rattle.disk_machine.specs.declared.lack.Lack.TheVariants as lack;

use crate::lack::Lack;
use crate::machine::DiskMachine;
use bot_machine::HomeSectors;
use window::DeviceRead;

impl DiskMachine {
    // The home sectors that the next step of the command that is pending reads.
    fn needed_home(&self) -> Option<HomeSectors>
        ensures is { result ≡ needed_home self.now.disk }
        ensures bounds { IfSome result (λ home. AreHome 240
            (state_of (medium_of self.now.disk)).size home.first home.count) }
    {
        match self.disk.needs() {
            Some(need) => need.home,
            None => None,
        }
    }

    /// The home sectors that the device is to read before the command that is pending goes on.
    pub(crate) fn lacks(&self) -> Option<DeviceRead>
        ensures { MatchOption result (LacksNone self.now) (Lacks self.now) }
    {
        let home = self.needed_home()?;
        let missing = self.disk.medium().lacking(home.first, home.count)?;
        if self.is_unread(missing) {
            return None;
        }
        Some(missing)
    }

    // Whether the device could not read these home sectors when it was asked.
    fn is_unread(&self, home: DeviceRead) -> bool
        ensures { IsTrue result ↔ (self.now.lack ≡ lack.Unread home) }
    {
        match self.lack {
            Lack::Unread(unread) => unread == home,
            Lack::Nothing | Lack::Ahead(_) | Lack::Ended => false,
        }
    }

    /// Whether a command is pending that makes a step now.
    pub(crate) fn may_go_on(&self) -> bool
        ensures { IsTrue result ↔ MayGoOn self.now }
    {
        let Some(need) = self.disk.needs() else {
            return false;
        };
        if need.all_done && !self.is_caught_up() && !self.is_refused() {
            return false;
        }
        self.has_place()
    }

    // Whether a step that reads home sectors, or none, has what it needs.
    fn has_place(&self) -> bool
        ensures { IsTrue result ↔ HasPlace self.now (needed_home self.now.disk) }
    {
        match self.needed_home() {
            Some(_) => self.is_refused() || self.lacks().is_none(),
            None => self.disk.medium().waiting() <= self.most,
        }
    }
}
