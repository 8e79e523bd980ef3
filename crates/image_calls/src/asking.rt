//! What the device of a machine is asked for: runs of neighbouring sectors.
ghost use Rattle.std.specs.Prelude.{◌≡◌, ◌≤◌, ◌+◌, ◌/◌, ◌*◌, [], length, true};
ghost use Rattle.image_calls.specs.Running.{BeginsRunning, RunAsks, AsksNext, HasAnswered};
ghost use Rattle.image_calls.specs.Running.{Hands, HandsFor, IsAtRest, AsksOneRead, GathersOn};
ghost use Rattle.image_calls.specs.Running.{HasGathered, PutsNext, gathered};
ghost use Rattle.image_calls.specs.Running.{HasSectors, MayAsk, MayGather, handed};

use crate::asked::Asked;
use crate::carried::Carried;
use crate::run::{MOST, Run};
use crate::running::Running;
use medium::Machine;
use window::{DeviceAsk, DeviceRead, SECTOR, WindowMedium, put_sector};

impl<T: Machine<WindowMedium> + Drop> Running<T> {
    /// A machine of which the device was asked nothing, and room for what is read. What that holds
    /// is let go of. It takes no memory, so that it is made where it is to lie.
    pub fn new(mut run: Run, machine: T) -> Running<T>
        ensures { BeginsRunning T.fits T.holds T.may T.reads T.ends T.cost T.exact T.due T.after
            T.gone machine result }
    {
        run.held = 0;
        Running {
            carried: Carried::new(machine),
            run,
            reading: 1,
        }
    }
}

impl<T: Machine<WindowMedium>> Running<T> {
    /// What the device is to do next: nothing while it is at a call, or refused one, or where the
    /// machine is at its end. It reads no sector from `until` on before the machine does. The bytes
    /// of writes go to the front of the buffer.
    pub fn next(&mut self, until: u64, buffer: &mut [u8]) -> DeviceAsk
        requires { HasSectors 1 buffer.old }
        ensures asks { RunAsks T.fits T.holds T.may T.reads T.ends T.cost T.exact T.due T.after
            T.gone until self.old.carried.asked self.old buffer.old result self.new buffer.new }
        ensures hands { HandsFor T.fits T.holds T.may T.reads T.ends T.cost T.exact T.due T.after
            T.gone self.old result self.new buffer.new }
    {
        let Asked::Nothing = self.carried.asked else {
            return DeviceAsk::Nothing;
        };
        self.ask(until, buffer)
    }

    // Reads of sectors that are held are made, as long as they come next.
    pub(crate) fn answer_reads(&mut self)
        requires { IsAtRest self.old.carried.asked }
        ensures answers { HasAnswered T.fits T.holds T.may T.reads T.ends T.cost T.exact T.due
            T.after T.gone self.old self.new }
        ensures hands { Hands T.fits T.holds T.may T.reads T.ends T.cost T.exact T.due T.after
            T.gone [] self.old self.new }
    {
        'reads: while self.carried.answer(&self.run) {}
    }

    // What a device that is at no call is to do next.
    fn ask(&mut self, until: u64, buffer: &mut [u8]) -> DeviceAsk
        requires { MayAsk self.old buffer.old }
        ensures asks { AsksNext T.fits T.holds T.may T.reads T.ends T.cost T.exact T.due T.after
            T.gone until self.old buffer.old result self.new buffer.new }
        ensures hands { Hands T.fits T.holds T.may T.reads T.ends T.cost T.exact T.due T.after
            T.gone (handed result buffer.new) self.old self.new }
    {
        match self.carried.next(buffer) {
            DeviceAsk::Nothing => DeviceAsk::Nothing,
            DeviceAsk::Write { first, .. } => {
                self.run.let_go(first);
                let count = self.gather(first, buffer);
                DeviceAsk::Write { first, count }
            }
            DeviceAsk::Flush => DeviceAsk::Flush,
            DeviceAsk::Read(read) => {
                DeviceAsk::Read(self.read_from(read.first, until, buffer.len() / SECTOR))
            }
        }
    }

    // The sectors that are read from this one on, as many as there is room for.
    fn read_from(&mut self, first: u64, until: u64, room: usize) -> DeviceRead
        requires { 1 ≤ room }
        ensures { AsksOneRead first until room result self.old self.new }
    {
        let most = room.min(MOST) as u64;
        let count = until.saturating_sub(first).min(most).max(1) as u32;
        self.reading = count;
        DeviceRead { first, count }
    }

    // The first write lies at the front of the buffer. As long as a write to the next sector comes
    // next and has room, it goes behind it. How many they are.
    fn gather(&mut self, first: u64, buffer: &mut [u8]) -> usize
        requires { MayGather first 1 self.old buffer.old }
        ensures gathers { HasGathered T.fits T.holds T.may T.reads T.ends T.cost T.exact T.due
            T.after T.gone first result buffer.old self.new buffer.new }
        ensures hands { GathersOn T.fits T.holds T.may T.reads T.ends T.cost T.exact T.due T.after
            T.gone first 1 buffer.old self.old result buffer.new self.new }
    {
        let room = buffer.len() / SECTOR;
        for count in 1..room {
            if !self.put_next(first, count, buffer) {
                return count;
            }
        }
        room
    }

    // The next write goes to the buffer, behind so many, where it is to the sector behind theirs.
    fn put_next(&mut self, first: u64, count: usize, buffer: &mut [u8]) -> bool
        requires { MayGather first (count + 1) self.old buffer.old }
        ensures puts { PutsNext T.fits T.holds T.may T.reads T.ends T.cost T.exact T.due T.after
            T.gone first count buffer.old buffer.new result self.old self.new }
        ensures hands { GathersOn T.fits T.holds T.may T.reads T.ends T.cost T.exact T.due T.after
            T.gone first count buffer.old self.old (gathered count result) buffer.new self.new }
    {
        self.answer_reads();
        if !self.carried.put(first, count as u64, &mut self.run) {
            return false;
        }
        put_sector(buffer, count as u64, &self.carried.sector);
        true
    }
}
