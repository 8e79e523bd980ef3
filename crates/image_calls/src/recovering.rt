//! The recovery of an image, which a device carries out in runs of neighbouring sectors.
ghost use Rattle.std.specs.Prelude.{◌≡◌, ◌≤◌, ◌/◌, length, IfOk};
ghost use Rattle.image_calls.specs.Recovering.{BeginsRecovery, AsksToRecover, GoesOnAsked};
ghost use Rattle.image_calls.specs.Recovering.{HearsOfRecovery, GoesOnHeard, IsSafe, ReachesTo};
ghost use Rattle.image_calls.specs.Recovering.{IsOver, TellsOver, Ends, found_of, IsLeftBy};

use crate::near::near_in;
use crate::run::Run;
use crate::running::Running;
use recovery::{StartFault, Starting};
use store_calls::RecoveredDevice;
use window::{DeviceAsk, DoneFault, SECTOR, WindowMedium, device_laws};

/// The recovery of an image, which a device carries out in runs of neighbouring sectors. It holds
/// no log: some 37 KB whatever the image, which it takes when it is made.
#[derive(Drop)]
pub struct Recovering {
    running: Running<Starting>,
    sectors: u64,
    // No sector from this one on is read before the recovery reads it. Those before the blocks a
    // start reads anyway, so one that cannot be read ends no start that would have gone on.
    until: u64,
}

impl Recovering {
    /// The recovery of the image on a device of `sectors` sectors, of which nothing is read yet.
    /// The run has room for what it reads. It takes no memory, so that it is made where it is to
    /// lie.
    pub fn new(run: Run, sectors: u64) -> Recovering
        ensures { BeginsRecovery sectors result }
    {
        Recovering {
            running: Running::new(run, Starting::begin::<WindowMedium>(sectors)),
            sectors,
            until: 1,
        }
    }

    /// What the device is to do next: nothing while it is at a call, or refused one, or where the
    /// recovery is at its end. Sectors before the blocks are read ahead, and writes to neighbouring
    /// ones come together, as many as there is room for. Their bytes go to the front of the buffer.
    pub fn next(&mut self, buffer: &mut [u8]) -> DeviceAsk
        requires { 1 ≤ length buffer.old / 512 }
        ensures asks { AsksToRecover self.old buffer.old result self.new buffer.new }
        ensures goes_on { GoesOnAsked self.old result self.new buffer.new }
    {
        self.running.next(self.until, buffer)
    }

    /// What the device was asked for last has ended, good or not; of a read these are the bytes of
    /// its sectors. A call that it refused is its last. It stands apart, so that it does not lie on
    /// the stack under what begins then.
    ///
    /// # Errors
    /// `NothingAsked` where the device is at no call, and `BadLength` where the bytes are not those
    /// of as many sectors as it was to read. Nothing changes then.
    #[inline(never)]
    pub fn done(&mut self, ok: bool, bytes: &[u8]) -> Result<(), DoneFault>
        ensures hears { HearsOfRecovery self.old ok bytes.now result self.new }
        ensures goes_on { GoesOnHeard self.old ok bytes.now result self.new }
    {
        let until = self.until_behind(ok, bytes);
        match self.running.done(ok, bytes) {
            Ok(()) => {
                self.until = until;
                Ok(())
            }
            Err(fault) => Err(fault),
        }
    }

    // How far is read ahead, where the device told this of its call.
    fn until_behind(&self, ok: bool, bytes: &[u8]) -> u64
        ensures { ReachesTo self.now ok bytes.now result }
    {
        if !ok || self.until != 1 || bytes.len() < SECTOR || !self.running.is_reading() {
            return self.until;
        }
        near_in(bytes).min(self.sectors)
    }

    /// Whether it is at its end: no call is left, or the device refused one.
    pub fn is_over(&self) -> bool
        ensures { TellsOver self.now result }
    {
        self.running.end().is_some()
    }

    /// What came of it: what is known of the image, or why it is refused.
    ///
    /// # Errors
    /// Those of `recover`.
    pub fn end(&self) -> Result<RecoveredDevice, StartFault>
        requires { IsOver self.now }
        ensures ends { Ends self.now (found_of result) }
        // A medium of a device that holds what the recovery left is as it left it.
        ensures left { IfOk result (IsLeftBy self.now) }
    {
        match self.running.refusal() {
            Some(kind) => Err(StartFault::from(kind)),
            None => {
                let starting = self.running.machine();
                match starting.end::<WindowMedium>() {
                    Ok(found) => Ok(RecoveredDevice {
                        sectors: starting.sectors,
                        found,
                    }),
                    Err(why) => Err(why),
                }
            }
        }
    }

    /// Does nothing. At each moment what a loss of power leaves is what a recovery leaves.
    pub fn rest(&self)
        ensures { IsSafe self.now }
    {
        self.running.rest();
        device_laws();
    }
}
