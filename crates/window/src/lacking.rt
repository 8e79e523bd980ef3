//! Which sectors are to be shown before some are read.
ghost use Rattle.std.specs.Prelude.{◌≡◌, ◌≤◌, ◌+◌, IfSome, None};
ghost use Rattle.window.specs.Window.{state_of};
ghost use Rattle.window.specs.Sight.{AreInSight, AreMissing};

use crate::ask::DeviceRead;
use crate::window::WindowMedium;

impl WindowMedium {
    /// Those of some sectors of the device that are to be shown before they are read: all of them
    /// that are behind the first ones, where one of these is not in sight.
    pub fn lacking(&self, first: u64, count: u32) -> Option<DeviceRead>
        requires few { count ≤ 240 }
        requires inside { first + count ≤ (state_of self.now).size }
        ensures some { IfSome result (λ read.
            AreMissing self.now first count read.first read.count) }
        ensures none { result ≡ None → AreInSight self.now first count }
    {
        let near = self.near().saturating_sub(first);
        if near >= u64::from(count) {
            return None;
        }
        let (first, count) = (first.max(self.near()), count - near as u32);
        if self.holds(first, u64::from(count)) {
            return None;
        }
        Some(DeviceRead { first, count })
    }
}
