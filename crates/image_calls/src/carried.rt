//! A machine whose calls a device carries out, one at a time.
ghost use Rattle.std.specs.Prelude.{◌≡◌, ◌≤◌, length, replicate};
ghost use Rattle.image_calls.specs.Carried.{IsAsked, AsksFor, Hears, HearsRead, StaysCarried};
ghost use Rattle.image_calls.specs.Carried.{EndsAs, EndsWith, BeginsCarried, HoldsOn, refusal_of};
ghost use Rattle.image_calls.specs.Carried.{LeavesWhatItMay, told, IsCarriedOn, rests_at};
ghost use Rattle.image_calls.specs.declared.asked.Asked.TheVariants as asked;

use crate::asked::Asked;
use medium::{Call, Machine, MediumFault};
use window::{DeviceAsk, DeviceRead, DoneFault, SECTOR, WindowMedium, put_sector};

/// A machine, and the device that carries out its calls: what its next call is, and how that ended.
#[derive(Drop)]
pub struct Carried<T> {
    pub(crate) machine: T,
    // The sector that is lent to its calls.
    pub(crate) sector: [u8; 512],
    pub(crate) asked: Asked,
}

impl<T: Machine<WindowMedium>> Carried<T> {
    /// A machine of which the device was asked nothing.
    pub fn new(machine: T) -> Carried<T>
        ensures machine { result.machine ≡ machine }
        ensures sector { result.sector ≡ replicate 512 0 }
        ensures asked { result.asked ≡ asked.Nothing }
        ensures begins { BeginsCarried T.fits T.holds T.may T.reads T.ends T.cost T.exact T.due
            T.after T.gone machine result }
    {
        Carried {
            machine,
            sector: [0; SECTOR],
            asked: Asked::Nothing,
        }
    }

    /// What the device is to do next: nothing while it is at a call, or refused one, or where the
    /// machine is at its end. The bytes of a write go to the front of the buffer.
    pub fn next(&mut self, buffer: &mut [u8]) -> DeviceAsk
        requires { 512 ≤ length buffer.old }
        ensures asks { IsAsked T.fits T.holds T.may T.reads T.ends T.cost T.exact T.due T.after
            T.gone self.old.asked self.old buffer.old result self.new buffer.new }
        ensures carried { StaysCarried T.fits T.holds T.may T.reads T.ends T.cost T.exact T.due
            T.after T.gone self.old self.new (told result self.new.sector) }
    {
        let Asked::Nothing = self.asked else {
            return DeviceAsk::Nothing;
        };
        match self.ask() {
            DeviceAsk::Nothing => DeviceAsk::Nothing,
            DeviceAsk::Write { first, count } => {
                put_sector(buffer, 0, &self.sector);
                DeviceAsk::Write { first, count }
            }
            DeviceAsk::Flush => DeviceAsk::Flush,
            DeviceAsk::Read(read) => DeviceAsk::Read(read),
        }
    }

    // What a device that is at no call is to do next: a write of the lent sector.
    fn ask(&mut self) -> DeviceAsk
        requires { self.old.asked ≡ asked.Nothing }
        ensures asks { AsksFor T.fits T.holds T.may T.reads T.ends T.cost T.exact T.due T.after
            T.gone self.old result self.new }
        ensures carried { StaysCarried T.fits T.holds T.may T.reads T.ends T.cost T.exact T.due
            T.after T.gone self.old self.new (told result self.new.sector) }
    {
        let Some(call) = self.machine.next(&mut self.sector) else {
            return DeviceAsk::Nothing;
        };
        self.asked = Asked::At(call);
        match call {
            Call::Read(first) => DeviceAsk::Read(DeviceRead { first, count: 1 }),
            Call::Write(first) => {
                is_sector(&self.sector);
                self.machine.made(&self.sector);
                DeviceAsk::Write { first, count: 1 }
            }
            Call::Flush => {
                self.machine.made(&self.sector);
                DeviceAsk::Flush
            }
        }
    }

    /// What the device was asked for last has ended, good or not; of a read these are the bytes of
    /// the sector, and of other calls no bytes are looked at. A call that it refused is its last.
    ///
    /// # Errors
    /// `NothingAsked` where the device is at no call, and `BadLength` where the bytes are not those
    /// of a sector. Nothing changes then.
    pub fn done(&mut self, ok: bool, bytes: &[u8]) -> Result<(), DoneFault>
        ensures hears { Hears T.fits T.holds T.may T.reads T.ends T.cost T.exact T.due T.after
            T.gone self.old.asked self.old ok bytes.now result self.new }
        ensures carried { IsCarriedOn T.fits T.holds T.may T.reads T.ends T.cost T.exact T.due
            T.after T.gone self.old ok bytes.now result self.new }
    {
        match self.asked {
            Asked::Nothing | Asked::Refused(_) => Err(DoneFault::NothingAsked),
            Asked::At(call) => match call {
                Call::Read(_) => self.take(ok, bytes),
                Call::Write(_) => {
                    self.asked = at_rest(ok, MediumFault::Write);
                    Ok(())
                }
                Call::Flush => {
                    self.asked = at_rest(ok, MediumFault::Flush);
                    Ok(())
                }
            },
        }
    }

    // A read has ended, good or not. The machine has a call left, and goes on.
    fn take(&mut self, ok: bool, bytes: &[u8]) -> Result<(), DoneFault>
        ensures hears { HearsRead T.fits T.holds T.may T.reads T.ends T.cost T.exact T.due T.after
            T.gone self.old ok bytes.now result self.new }
    {
        if ok && bytes.len() != SECTOR {
            return Err(DoneFault::BadLength);
        }
        self.asked = Asked::Nothing;
        if self.machine.next(&mut self.sector).is_none() {
            return Ok(());
        }
        if ok {
            self.sector.copy_from_slice(bytes);
            self.machine.made(&self.sector);
        } else {
            self.machine.refused();
            self.asked = Asked::Refused(MediumFault::Read);
        }
        Ok(())
    }

    /// How its calls ended, if none is left: all were made, or the device refused one of this kind.
    pub fn end(&self) -> Option<Result<(), MediumFault>>
        ensures { EndsAs T.fits T.holds T.may T.reads T.ends T.cost T.exact T.due T.after T.gone
            self.now.asked self.now result }
    {
        match self.asked {
            Asked::Nothing => self.end_of_calls(),
            Asked::At(_) => None,
            Asked::Refused(kind) => Some(Err(kind)),
        }
    }

    // So of a machine whose device is at no call, and refused none.
    fn end_of_calls(&self) -> Option<Result<(), MediumFault>>
        ensures { EndsWith T.fits T.holds T.may T.reads T.ends T.cost T.exact T.due T.after T.gone
            self.now result }
    {
        let mut sector = self.sector;
        match self.machine.next(&mut sector) {
            Some(_) => None,
            None => Some(Ok(())),
        }
    }

    /// The kind of the call that the device refused, if it refused one.
    pub fn refusal(&self) -> Option<MediumFault>
        ensures { result ≡ refusal_of self.now.asked }
    {
        match self.asked {
            Asked::Nothing | Asked::At(_) => None,
            Asked::Refused(kind) => Some(kind),
        }
    }

    /// The machine, as far as it has come.
    pub fn machine(&self) -> &T
        ensures { result.now ≡ self.now.machine }
    {
        &self.machine
    }

    /// Does nothing. Wherever in what it was told the device is, what a loss of power leaves of it
    /// is what the machine may leave.
    pub fn rest(&self)
        ensures leaves { LeavesWhatItMay T.fits T.holds T.may T.reads T.ends T.cost T.exact T.due
            T.after T.gone self.now }
        ensures holds { HoldsOn T.fits T.holds T.may T.reads T.ends T.cost T.exact T.due T.after
            T.gone self.now }
    {}
}

/// Does nothing: a sector has 512 bytes.
pub(crate) fn is_sector(sector: &[u8; 512])
    ensures { length sector.now ≡ 512 }
{}

// What a device is at that has ended a call of this kind, good or not.
fn at_rest(ok: bool, kind: MediumFault) -> Asked
    ensures { result ≡ rests_at ok kind }
{
    if ok {
        Asked::Nothing
    } else {
        Asked::Refused(kind)
    }
}
