//! What the device is to read ahead.
ghost use Rattle.std.specs.Prelude.{IsTrue, ◌↔◌};
ghost use Rattle.disk_machine.specs.Ahead.{AreReadable, IsFree, LooksAhead};

use crate::lack::Lack;
use crate::machine::DiskMachine;
use medium::Medium;
use window::{Asked, DeviceRead};

impl DiskMachine {
    /// The device is to read these sectors before a READ lacks them, as many as one READ moves at
    /// most. False, and nothing changes, where they are none, too many or not all on the medium,
    /// and where the device is not free: it is at a call, or some wait for it, or a command is
    /// pending, or it was to read since the last packet. Where it cannot read them, no READ is the
    /// worse.
    pub fn look_ahead(&mut self, first: u64, count: u32) -> bool
        ensures { LooksAhead self.old first count self.new result }
    {
        if !self.is_free() || !self.are_readable(first, count) {
            return false;
        }
        self.lack = Lack::Ahead(DeviceRead { first, count });
        true
    }

    // Whether the device is at no call, none waits, no command is pending, and it was not to read
    // since a packet.
    fn is_free(&self) -> bool
        ensures { IsTrue result ↔ IsFree self.now }
    {
        self.asked == Asked::Nothing
            && self.lack == Lack::Nothing
            && self.disk.medium().waiting() == 0
            && !self.is_pending()
    }

    // Whether these are some sectors of the medium, as many as one READ moves at most.
    fn are_readable(&self, first: u64, count: u32) -> bool
        ensures { IsTrue result ↔ AreReadable self.now.disk first count }
    {
        let sectors = self.disk.medium().sectors();
        count > 0
            && count <= self.disk.disk().limit()
            && first < sectors
            && u64::from(count) <= sectors - first
    }
}
