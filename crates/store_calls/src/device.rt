//! What the device of a store is asked for.
ghost use Rattle.std.specs.Prelude.{◌≡◌, None};
ghost use Rattle.store_calls.specs.Asking.{AsksIdle, TellsNext, HandsOut, HasRoomFor, to_read};
ghost use Rattle.window.specs.declared.asked.Asked.TheVariants as asked;

use crate::lack::Lack;
use crate::machine::StoreMachine;
use crate::run::let_go;
use window::{Asked, DeviceAsk};

impl StoreMachine {
    /// What the device is to do next: nothing as long as it has not told the last call done. The
    /// sectors that a read lacks are read before the calls that wait, even where one of these
    /// writes them. The bytes of writes go to the front of the buffer, which has room for some
    /// whole sectors.
    pub fn next(&mut self, buffer: &mut [u8]) -> DeviceAsk
        requires { HasRoomFor buffer.old }
        ensures { TellsNext self.old buffer.old result self.new buffer.new }
    {
        match self.asked {
            Asked::Nothing => self.ask(buffer),
            _ => DeviceAsk::Nothing,
        }
    }

    // What a device that is at no call is to do next.
    fn ask(&mut self, buffer: &mut [u8]) -> DeviceAsk
        ensures { AsksIdle self.old buffer.old result self.new buffer.new }
    {
        match self.lack {
            Lack::Wanted(home) => {
                self.asked = Asked::Read(home);
                DeviceAsk::Read(home)
            }
            Lack::Nothing | Lack::Unread(_) => self.ask_in_order(buffer),
        }
    }

    // The first of the calls that wait, where no read lacks sectors.
    fn ask_in_order(&mut self, buffer: &mut [u8]) -> DeviceAsk
        ensures { to_read self.old.lack ≡ None
            → AsksIdle self.old buffer.old result self.new buffer.new }
    {
        let ask = self.store.medium().ask(buffer);
        match ask {
            DeviceAsk::Write { first: _, count } => {
                self.hand_out(count);
                ask
            }
            DeviceAsk::Flush => {
                self.hand_out(1);
                ask
            }
            DeviceAsk::Nothing | DeviceAsk::Read(_) => ask,
        }
    }

    // The device is asked for so many calls, which leave the outbox.
    fn hand_out(&mut self, count: usize)
        ensures { self.old.asked ≡ asked.Nothing → HandsOut self.old count self.new }
    {
        let_go(&mut self.store, count);
        self.asked = Asked::Calls(count);
    }
}
