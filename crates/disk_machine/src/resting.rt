//! What a machine does while its device rests.
ghost use Rattle.std.specs.Prelude.{◌↔◌, IsTrue};
ghost use Rattle.disk_machine.specs.Idling.{HasGoneAhead, IsResting, MakesAhead, MayWriteOn};
ghost use Rattle.disk_machine.specs.Idling.{WorksAhead, WorksAtRest, WritesOn};

use crate::idle::is_short;
use crate::machine::DiskMachine;
use crate::play::make_step;
use crate::told::is_ahead;
use bot_machine::{LaggingDisk, Work};
use medium::Medium;
use window::{Asked, WindowMedium};

// How many steps are made at most: the head goes past a record, and each block of the next goes
// home, of which the longest record has 240.
const MOST_AHEAD: u32 = 241;

// How many steps write a record at most, which has 250 calls.
const MOST_WRITTEN: u32 = 256;

impl DiskMachine {
    /// Steps for when the device has nothing else to do. The record of a frozen batch is written,
    /// so that the device is at work while the host fills the other batch. Where none is frozen the
    /// steps go ahead of the next record: without a flush the head goes past the oldest record that
    /// is flushed at home, and the blocks of the next go home. No step is made while the device is
    /// at a call, one waits for it, it is to read, a command is pending, or a status is still to be
    /// told.
    pub fn work_ahead(&mut self)
        ensures { WorksAhead self.old self.new }
    {
        self.go_ahead();
    }

    // The same, of which it is not told that the life is served on.
    fn go_ahead(&mut self)
        ensures { HasGoneAhead self.old self.new }
    {
        if self.is_resting() {
            work_at_rest(&mut self.disk, self.most);
        }
    }

    // Whether the device has nothing else to do, and the host all that it is owed.
    fn is_resting(&self) -> bool
        ensures { IsTrue result ↔ IsResting self.now }
    {
        self.asked == Asked::Nothing
            && self.disk.medium().waiting() == 0
            && !is_ahead(self.lack)
            && !self.is_pending()
            && !self.disk.disk().owes_status()
    }
}

// The record of a frozen batch is written, and where none is frozen, steps ahead are made. A disk
// that has faulted tells a frozen batch, and none left to write.
fn work_at_rest(disk: &mut LaggingDisk<WindowMedium>, most: usize)
    ensures { WorksAtRest most disk.old disk.new }
{
    if disk.disk().has_free_batch() {
        steps_ahead(disk, most);
    } else if !disk.disk().is_written() {
        write_frozen(disk, most);
    }
}

// Steps that write the record of a frozen batch, as long as it is left and few calls wait.
fn write_frozen(disk: &mut LaggingDisk<WindowMedium>, most: usize)
    ensures { WritesOn most disk.old disk.new }
{
    for _made in 0..MOST_WRITTEN {
        if !may_write_on(disk, most) {
            return;
        }
        make_step(disk, Work::WriteBack);
    }
}

// Whether a frozen batch is left to write, and few calls wait.
fn may_write_on(disk: &LaggingDisk<WindowMedium>, most: usize) -> bool
    ensures { IsTrue result ↔ MayWriteOn most disk.now }
{
    is_short(disk, most) && !disk.disk().has_free_batch()
}

// Steps ahead, as long as each asks the device for something and few calls wait.
fn steps_ahead(disk: &mut LaggingDisk<WindowMedium>, most: usize)
    ensures { MakesAhead most disk.old disk.new }
{
    for _made in 0..MOST_AHEAD {
        let before = disk.medium().waiting();
        if before > most {
            return;
        }
        make_step(disk, Work::Ahead);
        if disk.medium().waiting() == before {
            return;
        }
    }
}
