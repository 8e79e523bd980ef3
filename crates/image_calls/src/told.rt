//! What the device tells of what it was asked for.
ghost use Rattle.image_calls.specs.Machines.{IsDone, Hears, GoesOn};

use crate::image_asked::ImageAsked;
use crate::machine::ImageMachine;
use window::DoneFault;

impl ImageMachine {
    /// What the device was asked for last has ended, good or not. Writes that ended good need not
    /// be durable before the next flush has. A call that it refused is its last: it is asked for
    /// nothing more.
    ///
    /// # Errors
    ///
    /// `NothingAsked` where the device is at no call. Nothing changes then.
    pub fn done(&mut self, ok: bool) -> Result<(), DoneFault>
        ensures { Hears self.old ok result self.new × GoesOn self.old self.new }
    {
        let told = self.hear(ok);
        self.rest();
        told
    }

    // The same, of which nothing is said of what it leaves.
    fn hear(&mut self, ok: bool) -> Result<(), DoneFault>
        ensures { IsDone self.old.asked ok self.old result self.new }
    {
        let ImageAsked::Calls(call, count) = self.asked else {
            return Err(DoneFault::NothingAsked);
        };
        self.asked = if ok {
            ImageAsked::Nothing
        } else {
            ImageAsked::Refused(call, count)
        };
        Ok(())
    }
}
