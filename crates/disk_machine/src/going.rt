//! A command that is pending goes on.
ghost use Rattle.disk_machine.specs.{Going.{GoesOn, StepsOn}, Wanted.MayGoOn};

use crate::machine::DiskMachine;
use crate::play::step_pending;

// How many steps are made at most, so that the device comes to its calls.
const MOST_STEPS: u32 = 256;

impl DiskMachine {
    /// Steps of the command that is pending, as far as the device lets it go on.
    pub(crate) fn go_on(&mut self)
        ensures { GoesOn self.old self.new }
    {
        for _made in 0..MOST_STEPS {
            if !self.may_go_on() {
                return;
            }
            self.step_on();
        }
    }

    // One step of it.
    fn step_on(&mut self)
        requires { MayGoOn self.old }
        ensures { StepsOn self.old self.new }
    {
        step_pending(&mut self.disk);
        self.rest();
    }
}
