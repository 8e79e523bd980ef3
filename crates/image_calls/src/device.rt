//! What the device is asked for.
ghost use Rattle.std.specs.Prelude.{◌≡◌, length};
ghost use Rattle.store_calls.specs.Outbox.{IsNoRoom, without};
ghost use Rattle.image_calls.specs.Machines.{Asks, AsksBy, AsksForNext, GoesOn};
ghost use Rattle.image_calls.specs.declared.image_asked.ImageAsked.TheVariants as asked;

use crate::going::go_on;
use crate::image_asked::{ImageAsked, ImageCall};
use crate::machine::ImageMachine;
use medium::Outlet;
use window::{DeviceAsk, WindowMedium, device_laws};

impl ImageMachine {
    /// What the device is to do next: nothing as long as it has not told the last call done, when
    /// it has refused one, and when all is done. The bytes of writes go to the front of the buffer,
    /// which has room for some whole sectors.
    pub fn next(&mut self, buffer: &mut [u8]) -> DeviceAsk
        requires { ¬ IsNoRoom (length buffer.old) }
        ensures asks { Asks self.old buffer.old result self.new buffer.new }
        ensures goes { GoesOn self.old self.new }
    {
        let what = self.ask(buffer);
        self.rest();
        device_laws();
        what
    }

    // The same, of which nothing is said of what it leaves.
    fn ask(&mut self, buffer: &mut [u8]) -> DeviceAsk
        ensures { ¬ IsNoRoom (length buffer.old)
            → AsksBy self.old.asked self.old buffer.old result self.new buffer.new }
    {
        match self.asked {
            ImageAsked::Nothing => {
                go_on(&mut self.work);
                self.ask_for_next(buffer)
            }
            ImageAsked::Calls(_, _) | ImageAsked::Refused(_, _) => DeviceAsk::Nothing,
        }
    }

    // The next of what waits leaves it.
    fn ask_for_next(&mut self, buffer: &mut [u8]) -> DeviceAsk
        ensures { self.old.asked ≡ asked.Nothing → ¬ IsNoRoom (length buffer.old)
            → AsksForNext self.old.work buffer.old result self.new buffer.new }
    {
        let ask = self.work.medium.ask(buffer);
        match ask {
            DeviceAsk::Write { first: _, count } => {
                let_go(&mut self.work.medium, count);
                self.asked = ImageAsked::Calls(ImageCall::Write, count);
                ask
            }
            DeviceAsk::Flush => {
                self.work.medium.pop();
                self.asked = ImageAsked::Calls(ImageCall::Flush, 1);
                ask
            }
            DeviceAsk::Nothing | DeviceAsk::Read(_) => DeviceAsk::Nothing,
        }
    }
}

// Lets go of so many calls that wait first.
fn let_go(medium: &mut WindowMedium, count: usize)
    ensures { medium.new ≡ without count medium.old }
{
    for _gone in 0..count {
        medium.pop();
    }
}
