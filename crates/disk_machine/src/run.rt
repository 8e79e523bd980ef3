//! Calls leave the outbox together.
ghost use Rattle.std.specs.Prelude.{◌≡◌};
ghost use Rattle.store_calls.specs.Outbox.{without};
ghost use Rattle.disk_machine.specs.Plays.{medium_of};
ghost use Rattle.disk_machine.specs.Refused.{KeepsRest};

use bot_machine::LaggingDisk;
use window::WindowMedium;

// Lets go of so many calls that wait first.
pub(crate) fn let_go(disk: &mut LaggingDisk<WindowMedium>, count: usize)
    ensures gone { medium_of disk.new ≡ without count (medium_of disk.old) }
    ensures rest { KeepsRest disk.old disk.new }
{
    for _gone in 0..count {
        disk.pop();
    }
}
