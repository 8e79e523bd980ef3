//! How a call of the device of a machine ended.
ghost use Rattle.std.specs.Prelude.{◌≡◌, ◌↔◌, IsTrue, true, take};
ghost use Rattle.medium.specs.declared.medium_call.Call.TheVariants as call;
ghost use Rattle.image_calls.specs.Carried.{EndsAs, refusal_of, LeavesWhatItMay, HoldsOn};
ghost use Rattle.image_calls.specs.Carried.{Hears, IsCarriedOn};
ghost use Rattle.image_calls.specs.Running.{RunHears, HearsRunRead, IsRunOn, IsReading};
ghost use Rattle.image_calls.specs.Running.{HasSectors, RunEnds, RunsOn, SettlesBy};
ghost use Rattle.image_calls.specs.declared.asked.Asked.TheVariants as asked;

use crate::asked::Asked;
use crate::running::Running;
use medium::{Call, Machine, MediumFault};
use window::{DoneFault, SECTOR, WindowMedium};

impl<T: Machine<WindowMedium>> Running<T> {
    /// What the device was asked for last has ended, good or not; of a read these are the bytes of
    /// its sectors, and of other calls no bytes are looked at. A call that it refused is its last.
    ///
    /// # Errors
    /// `NothingAsked` where the device is at no call, and `BadLength` where the bytes are not those
    /// of as many sectors as it was to read. Nothing changes then.
    pub fn done(&mut self, ok: bool, bytes: &[u8]) -> Result<(), DoneFault>
        ensures hears { RunEnds T.fits T.holds T.may T.reads T.ends T.cost T.exact T.due T.after
            T.gone self.old ok bytes.now result self.new }
        ensures goes_on { RunsOn T.fits T.holds T.may T.reads T.ends T.cost T.exact T.due T.after
            T.gone self.old ok bytes.now result self.new }
    {
        match self.end_call(ok, bytes) {
            Ok(()) => {
                self.settle();
                Ok(())
            }
            Err(fault) => Err(fault),
        }
    }

    // Where the device is at no call, the reads of sectors that are held are made: so a machine
    // whose last call is such a read is at its end.
    fn settle(&mut self)
        ensures { SettlesBy T.fits T.holds T.may T.reads T.ends T.cost T.exact T.due T.after T.gone
            self.old self.new }
    {
        match self.carried.asked {
            Asked::Nothing => self.answer_reads(),
            Asked::At(_) => {}
            Asked::Refused(_) => {}
        }
    }

    // The call has ended, good or not.
    fn end_call(&mut self, ok: bool, bytes: &[u8]) -> Result<(), DoneFault>
        ensures hears { RunHears T.fits T.holds T.may T.reads T.ends T.cost T.exact T.due T.after
            T.gone self.old.carried.asked self.old ok bytes.now result self.new }
        ensures goes_on { IsRunOn T.fits T.holds T.may T.reads T.ends T.cost T.exact T.due T.after
            T.gone self.old ok bytes.now result self.new }
    {
        match self.carried.asked {
            Asked::Nothing | Asked::Refused(_) => Err(DoneFault::NothingAsked),
            Asked::At(call) => match call {
                Call::Read(first) if ok => self.take_read(first, bytes),
                Call::Read(_) => self.carried.done(false, bytes),
                Call::Write(_) => self.carried.done(ok, bytes),
                Call::Flush => self.carried.done(ok, bytes),
            },
        }
    }

    // A good read has ended.
    fn take_read(&mut self, first: u64, bytes: &[u8]) -> Result<(), DoneFault>
        requires { self.old.carried.asked ≡ asked.At (call.Read first) }
        ensures hears { HearsRunRead T.fits T.holds T.may T.reads T.ends T.cost T.exact T.due
            T.after T.gone first self.old true bytes.now result self.new }
        ensures goes_on { IsRunOn T.fits T.holds T.may T.reads T.ends T.cost T.exact T.due T.after
            T.gone self.old true bytes.now result self.new }
    {
        if bytes.len() != self.reading as usize * SECTOR {
            return Err(DoneFault::BadLength);
        }
        self.run.hold(first, bytes);
        self.tell_first(bytes)
    }

    // The machine is told the first sector that was read.
    fn tell_first(&mut self, bytes: &[u8]) -> Result<(), DoneFault>
        requires { HasSectors 1 bytes.now }
        ensures stays { (self.new.run ≡ self.old.run) × (self.new.reading ≡ self.old.reading) }
        ensures hears { Hears T.fits T.holds T.may T.reads T.ends T.cost T.exact T.due T.after
            T.gone self.old.carried.asked self.old.carried true (take 512 bytes.now) result
            self.new.carried }
        ensures carried { IsCarriedOn T.fits T.holds T.may T.reads T.ends T.cost T.exact T.due
            T.after T.gone self.old.carried true (take 512 bytes.now) result self.new.carried }
    {
        let sector = &bytes[..SECTOR];
        self.carried.done(true, sector)
    }

    /// Whether the device is at a read.
    pub fn is_reading(&self) -> bool
        ensures { IsTrue result ↔ IsReading self.now.carried.asked }
    {
        match self.carried.asked {
            Asked::At(Call::Read(_)) => true,
            _ => false,
        }
    }

    /// How its calls ended, if none is left: all were made, or the device refused one of this kind.
    pub fn end(&self) -> Option<Result<(), MediumFault>>
        ensures { EndsAs T.fits T.holds T.may T.reads T.ends T.cost T.exact T.due T.after T.gone
            self.now.carried.asked self.now.carried result }
    {
        self.carried.end()
    }

    /// The kind of the call that the device refused, if it refused one.
    pub fn refusal(&self) -> Option<MediumFault>
        ensures { result ≡ refusal_of self.now.carried.asked }
    {
        self.carried.refusal()
    }

    /// The machine, as far as it has come.
    pub fn machine(&self) -> &T
        ensures { result.now ≡ self.now.carried.machine }
    {
        self.carried.machine()
    }

    /// Does nothing. Wherever in what it was told the device is, what a loss of power leaves of it
    /// is what the machine may leave.
    pub fn rest(&self)
        ensures leaves { LeavesWhatItMay T.fits T.holds T.may T.reads T.ends T.cost T.exact T.due
            T.after T.gone self.now.carried }
        ensures holds { HoldsOn T.fits T.holds T.may T.reads T.ends T.cost T.exact T.due T.after
            T.gone self.now.carried }
    {
        self.carried.rest();
    }
}
