//! What the device of a store tells of what it was asked for.
ghost use Rattle.std.specs.Prelude.{◌≡◌};
ghost use Rattle.store_calls.specs.Asking.{Ends, EndsAs, EndsRead};
ghost use Rattle.store_calls.specs.Asking.{EndsRefused, read_ended};

use crate::lack::Lack;
use crate::machine::StoreMachine;
use crate::outbox::show_sectors;
use crate::refused::refuse;
use window::{Asked, DeviceRead, DoneFault, SECTOR};

impl StoreMachine {
    /// What the device was asked for last has ended, good or not; of a read these are the bytes of
    /// the sectors, and of other calls no bytes are looked at. Writes that ended good need not be
    /// durable before the next flush has. A call that it refused is its last: it is asked for
    /// nothing more, and the store is dead. Sectors that it could not read are told once to the
    /// read that lacks them.
    ///
    /// # Errors
    /// `NothingAsked` where the device is at no call, and `BadLength` where the bytes are not as
    /// many as those of the sectors that it was to read. Nothing changes then.
    pub fn done(&mut self, ok: bool, bytes: &[u8]) -> Result<(), DoneFault>
        ensures { Ends self.old ok bytes.now result self.new }
    {
        let told = self.hear(ok, bytes);
        self.rest();
        told
    }

    // The same, of which nothing is said where the device has carried out all.
    fn hear(&mut self, ok: bool, bytes: &[u8]) -> Result<(), DoneFault>
        ensures { EndsAs self.old.asked ok self.old bytes.now result self.new }
    {
        match self.asked {
            Asked::Nothing | Asked::Refused(_, _) => Err(DoneFault::NothingAsked),
            Asked::Read(home) => self.take_read(home, ok, bytes),
            Asked::Calls(count) => {
                if ok {
                    self.asked = Asked::Nothing;
                } else {
                    self.give_up(count);
                }
                Ok(())
            }
        }
    }

    // The device refused so many calls.
    fn give_up(&mut self, count: usize)
        ensures { EndsRefused self.old count self.new }
    {
        let behind = self.store.medium().waiting();
        refuse(&mut self.store);
        self.asked = Asked::Refused(count, behind);
    }

    // A read of these sectors has ended, good or not.
    fn take_read(&mut self, home: DeviceRead, ok: bool, bytes: &[u8]) -> Result<(), DoneFault>
        ensures { EndsRead home ok self.old bytes.now result self.new }
    {
        if !ok {
            self.end_read(home, false);
            return Ok(());
        }
        if bytes.len() != SECTOR * home.count as usize {
            return Err(DoneFault::BadLength);
        }
        let taken = show_sectors(&mut self.store, home.first, bytes);
        self.end_read(home, taken);
        Ok(())
    }

    // A read of these sectors is over, and the store took them or not.
    fn end_read(&mut self, home: DeviceRead, taken: bool)
        ensures { self.new ≡ read_ended self.old home taken }
    {
        self.asked = Asked::Nothing;
        self.lack = if taken {
            Lack::Nothing
        } else {
            Lack::Unread(home)
        };
    }
}
