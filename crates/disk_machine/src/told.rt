//! What the device tells of what it was asked for.
ghost use Rattle.std.specs.Prelude.{◌≡◌};
ghost use Rattle.disk_machine.specs.Asking.{HearsSafely, IsDone, HasRead};
ghost use Rattle.disk_machine.specs.Asking.{IsGivenUp, counted, is_ahead, read_over};
ghost use Rattle.disk_machine.specs.Moves.{ServesAtRest};

use crate::lack::Lack;
use crate::machine::DiskMachine;
use crate::play::show_sectors;
use crate::refused::refuse;
use window::{Asked, DeviceRead, DoneFault, SECTOR};

impl DiskMachine {
    /// What the device was asked for last has ended, good or not; of a read these are the bytes of
    /// the sectors, and of other calls no bytes are looked at. Writes that ended good need not be
    /// durable before the next flush has. A call that it refused is its last: it is asked for
    /// nothing more, and the disk is faulted. What it could not read ahead is read anew for a READ
    /// that lacks it. Then a command that is pending goes on.
    ///
    /// # Errors
    /// `NothingAsked` where the device is at no call, and `BadLength` where the bytes are not as
    /// many as those of the sectors that it was to read. Nothing changes then.
    pub fn done(&mut self, ok: bool, bytes: &[u8]) -> Result<(), DoneFault>
        ensures is { HearsSafely self.old ok bytes.now result self.new }
        ensures rest { ServesAtRest self.new }
    {
        let told = self.hear(ok, bytes);
        self.go_on();
        self.rest();
        told
    }

    // The same, of which nothing is said where the device has carried out all.
    fn hear(&mut self, ok: bool, bytes: &[u8]) -> Result<(), DoneFault>
        ensures { IsDone self.old.asked ok self.old bytes.now result self.new }
    {
        match self.asked {
            Asked::Nothing | Asked::Refused(_, _) => Err(DoneFault::NothingAsked),
            Asked::Read(home) => self.take_read(home, ok, bytes),
            Asked::Calls(count) => {
                if ok {
                    self.count();
                } else {
                    self.give_up(count);
                }
                Ok(())
            }
        }
    }

    // The calls that the device was asked for are carried out.
    fn count(&mut self)
        ensures { self.new ≡ counted self.old }
    {
        self.asked = Asked::Nothing;
    }

    // The device refused so many calls.
    fn give_up(&mut self, count: usize)
        ensures { IsGivenUp self.old count self.new }
    {
        let behind = self.disk.medium().waiting();
        refuse(&mut self.disk);
        self.asked = Asked::Refused(count, behind);
    }

    // A read of these sectors has ended, good or not.
    fn take_read(&mut self, home: DeviceRead, ok: bool, bytes: &[u8]) -> Result<(), DoneFault>
        ensures { HasRead home ok self.old bytes.now result self.new }
    {
        if !ok {
            self.end_read(home, false);
            return Ok(());
        }
        if bytes.len() != SECTOR * home.count as usize {
            return Err(DoneFault::BadLength);
        }
        let taken = show_sectors(&mut self.disk, home.first, bytes);
        self.end_read(home, taken);
        Ok(())
    }

    // A read of these sectors is over, and the disk took them or not.
    fn end_read(&mut self, home: DeviceRead, taken: bool)
        ensures { self.new ≡ read_over self.old home taken }
    {
        self.asked = Asked::Nothing;
        self.lack = if is_ahead(self.lack) {
            Lack::Ended
        } else if taken {
            Lack::Nothing
        } else {
            Lack::Unread(home)
        };
    }
}

/// Whether the device reads ahead, or is to.
pub(crate) fn is_ahead(lack: Lack) -> bool
    ensures { result ≡ is_ahead lack }
{
    match lack {
        Lack::Nothing | Lack::Ended | Lack::Unread(_) => false,
        Lack::Ahead(_) => true,
    }
}
