//! The device refused a call that was handed out.
ghost use Rattle.disk_machine.specs.Refused.{IsRefused, IsDrained};

use crate::run::let_go;
use bot_machine::LaggingDisk;
use window::WindowMedium;

/// The device refused the call that was handed out last.
pub(crate) fn refuse(disk: &mut LaggingDisk<WindowMedium>)
    ensures { IsRefused disk.old disk.new }
{
    drain(disk);
    disk.refuse();
}

// All that waits leaves the outbox.
fn drain(disk: &mut LaggingDisk<WindowMedium>)
    ensures { IsDrained disk.old disk.new }
{
    let waiting = disk.medium().waiting();
    let_go(disk, waiting);
}
