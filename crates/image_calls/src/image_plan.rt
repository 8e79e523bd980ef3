//! What image is to be made.
ghost use Rattle.std.specs.Prelude.{◌≡◌, ◌↔◌, IsTrue, MatchOption};
ghost use Rattle.journal.specs.Formats.{shape_of};
ghost use Rattle.recovery.specs.Calls.{AreSizes};
ghost use Rattle.image_calls.specs.Plans.{home_in, shape_by};

use journal::{LogFormat, Super};
use recovery::sizes_with;

/// What image is to be made on a device.
#[derive(Clone, Copy, Debug, PartialEq, Eq)]
pub struct ImagePlan {
    /// How many sectors the device has.
    pub sectors: u64,
    pub format: LogFormat,
    /// How many blocks a host sees, 1 to 2^31.
    pub blocks: u64,
    /// How many slots the log has, 1 to 64.
    pub slots: u64,
    /// The sector of block 0: the first behind the log, or in format 2 one of the 248 behind that.
    /// 0 for the first.
    pub home: u64,
}

impl ImagePlan {
    /// Whether the sizes are in their limits, home begins where it may, and the device is long
    /// enough for them.
    pub fn fits(&self) -> bool
        ensures { IsTrue result ↔ AreSizes self.now.sectors (shape_by self.now) }
    {
        self.sizes().is_some()
    }

    /// The super of the image, where the plan fits.
    pub(crate) fn sizes(&self) -> Option<Super>
        ensures { MatchOption result (¬ AreSizes self.now.sectors (shape_by self.now))
            (λ sizes. (shape_of sizes ≡ shape_by self.now)
            × AreSizes self.now.sectors (shape_by self.now)) }
    {
        let home = given_home(self.home);
        sizes_with(self.format, self.sectors, self.blocks, self.slots, home)
    }
}

// The sector of block 0 that a plan gives, if it gives one.
fn given_home(home: u64) -> Option<u64>
    ensures { result ≡ home_in home }
{
    if home == 0 { None } else { Some(home) }
}
