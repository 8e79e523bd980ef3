//! What the device is asked for.
ghost use Rattle.std.specs.Prelude.{◌≡◌, List, [], ℕ, length};
ghost use Rattle.store_calls.specs.Outbox.{IsNoRoom};
ghost use Rattle.disk_machine.specs.Plays.{medium_of};
ghost use Rattle.disk_machine.specs.{Asking.{AsksFor, HandsOut}, Wanted.LacksNone};
ghost use Rattle.disk_machine.specs.Moves.{StaysSafe};
ghost use Rattle.window.specs.declared.ask.DeviceAsk.TheVariants as ask;
ghost use Rattle.window.specs.declared.asked.Asked.TheVariants as asked;

use crate::lack::Lack;
use crate::machine::DiskMachine;
use crate::run::let_go;
use window::{Asked, DeviceAsk, DeviceRead};

impl DiskMachine {
    /// What the device is to do next: nothing as long as it has not told the last call done. The
    /// sectors that a READ lacks are read before the calls that wait, even where one of these
    /// writes them. The bytes of writes go to the front of the buffer, which has room for some
    /// whole sectors.
    pub fn next(&mut self, buffer: &mut [u8]) -> DeviceAsk
        requires { ¬ IsNoRoom (length buffer.old) }
        ensures asks { AsksFor self.old buffer.old result self.new buffer.new }
        ensures stays { StaysSafe self.old self.new }
    {
        match self.asked {
            Asked::Nothing => self.ask(buffer),
            _ => DeviceAsk::Nothing,
        }
    }

    // What a device that is at no call is to do next.
    fn ask(&mut self, buffer: &mut [u8]) -> DeviceAsk
        ensures { self.old.asked ≡ asked.Nothing → ¬ IsNoRoom (length buffer.old)
            → AsksFor self.old buffer.old result self.new buffer.new }
    {
        match self.lacks() {
            Some(home) => {
                self.lack = Lack::Nothing;
                self.read(home)
            }
            None => self.ask_in_order(buffer),
        }
    }

    // The device is asked to read.
    fn read(&mut self, home: DeviceRead) -> DeviceAsk
        ensures is { self.new ≡ record self.old { asked = asked.Read home } }
        ensures told { result ≡ ask.Read home }
    {
        self.asked = Asked::Read(home);
        DeviceAsk::Read(home)
    }

    // What it is to do next where no READ lacks sectors.
    fn ask_in_order(&mut self, buffer: &mut [u8]) -> DeviceAsk
        ensures { self.old.asked ≡ asked.Nothing → ¬ IsNoRoom (length buffer.old)
            → LacksNone self.old → AsksFor self.old buffer.old result self.new buffer.new }
    {
        let ask = self.disk.medium().ask(buffer);
        match ask {
            DeviceAsk::Write { first: _, count } => {
                self.hand_out(count);
                ask
            }
            DeviceAsk::Flush => {
                self.hand_out(1);
                ask
            }
            DeviceAsk::Nothing | DeviceAsk::Read(_) => self.read_ahead(),
        }
    }

    // The device is asked for so many calls, which leave the outbox.
    fn hand_out(&mut self, count: usize)
        ensures { self.old.asked ≡ asked.Nothing → HandsOut self.old count self.new }
    {
        let_go(&mut self.disk, count);
        self.asked = Asked::Calls(count);
    }

    // The sectors that are to be read ahead, where no call waits.
    fn read_ahead(&mut self) -> DeviceAsk
        ensures { self.old.asked ≡ asked.Nothing → (medium_of self.old.disk).outbox ≡ []
            → LacksNone self.old
            → (buffer : List ℕ) → AsksFor self.old buffer result self.new buffer }
    {
        match self.lack {
            Lack::Ahead(home) => self.read(home),
            Lack::Nothing | Lack::Ended | Lack::Unread(_) => DeviceAsk::Nothing,
        }
    }
}
