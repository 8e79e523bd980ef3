//! What a machine does in the background.
ghost use Rattle.std.specs.Prelude.{◌≡◌, ◌↔◌, IsTrue};
ghost use Rattle.disk_machine.specs.Idling.{Idles, HasStepped, IsHeld, IsShort, MakesSteps};

use crate::machine::DiskMachine;
use crate::play::make_step;
use crate::told::is_ahead;
use bot_machine::{LaggingDisk, Work};
use medium::Medium;
use window::WindowMedium;

// How many steps are made at most, so that their writes come in long runs.
const MOST_STEPS: u32 = 32;

impl DiskMachine {
    /// Steps in the background, for when no packet comes: none while a command is pending, or
    /// sectors are read ahead, or many calls wait. Whether some are left; of a faulted disk some
    /// always are.
    pub fn idle(&mut self) -> bool
        ensures { Idles self.old self.new result }
    {
        self.step();
        !self.disk.disk().is_settled()
    }

    // Steps in the background, where none is held back.
    fn step(&mut self)
        ensures { HasStepped self.old self.new }
    {
        if self.is_held() {
            return;
        }
        make_steps(&mut self.disk, self.most);
    }

    // Whether no step is made now.
    fn is_held(&self) -> bool
        ensures { IsTrue result ↔ IsHeld self.now }
    {
        self.is_pending() || is_ahead(self.lack)
    }
}

// Steps in the background, as long as some are left and few calls wait.
fn make_steps(disk: &mut LaggingDisk<WindowMedium>, most: usize)
    ensures { MakesSteps most disk.old disk.new }
{
    for _made in 0..MOST_STEPS {
        if disk.disk().is_settled() || !is_short(disk, most) {
            return;
        }
        make_step(disk, Work::Settle);
    }
}

/// Whether so few calls wait that a step is made.
pub(crate) fn is_short(disk: &LaggingDisk<WindowMedium>, most: usize) -> bool
    ensures { IsTrue result ↔ IsShort most disk.now }
{
    disk.medium().waiting() <= most
}
