//! A disk, and the device behind it, which may be behind.
ghost use Rattle.std.specs.Prelude.{◌≡◌, ◌↔◌, IsTrue};
ghost use Rattle.disk_machine.specs.Idling.{is_pending};
ghost use Rattle.disk_machine.specs.Machine.{IsCaughtUp, has_refused};
ghost use Rattle.disk_machine.specs.Moves.{ServesAtRest, BeginsBehind, begun, state_of};

use crate::lack::Lack;
use crate::play::foresee;
use bot_machine::{Disk, LaggingDisk};
use medium::Medium;
use window::{Asked, MachineState, WindowMedium};

/// A disk that says what its device is to do next, one call at a time, and takes packets while the
/// device does it.
#[derive(Drop)]
pub struct DiskMachine {
    pub(crate) disk: LaggingDisk<WindowMedium>,
    // How many calls may wait in the outbox when a step is made.
    pub(crate) most: usize,
    // What the device was asked for last, and has not told done.
    pub(crate) asked: Asked,
    // What it is to read ahead, and what became of its last read.
    pub(crate) lack: Lack,
}

impl DiskMachine {
    /// A machine over a disk that has just started. Steps are made while at most `most` calls wait
    /// in the outbox: as many as it has room for beside the two of a step.
    pub fn new(disk: Disk<WindowMedium>, most: usize) -> DiskMachine
        ensures is { result ≡ begun disk most }
        ensures serves { ServesAtRest result }
        ensures starts { BeginsBehind result }
    {
        let machine = DiskMachine {
            disk: LaggingDisk::new(disk),
            most,
            asked: Asked::Nothing,
            lack: Lack::Nothing,
        };
        machine.rest();
        machine
    }

    /// What the machine is at.
    pub fn state(&self) -> MachineState
        ensures { result ≡ state_of self.now }
    {
        if self.is_refused() {
            MachineState::Refused
        } else {
            MachineState::Serving
        }
    }

    // Whether the device refused a call.
    pub(crate) fn is_refused(&self) -> bool
        ensures { result ≡ has_refused self.now.asked }
    {
        match self.asked {
            Asked::Refused(_, _) => true,
            Asked::Nothing | Asked::Calls(_) | Asked::Read(_) => false,
        }
    }

    // Whether the device has told each call done that the disk ever made.
    pub(crate) fn is_caught_up(&self) -> bool
        ensures { IsTrue result ↔ IsCaughtUp self.now }
    {
        match self.asked {
            Asked::Nothing | Asked::Read(_) => self.disk.medium().waiting() == 0,
            Asked::Calls(count) => count == 0 && self.disk.medium().waiting() == 0,
            Asked::Refused(_, _) => false,
        }
    }

    // Whether a command is pending.
    pub(crate) fn is_pending(&self) -> bool
        ensures { result ≡ is_pending self.now.disk }
    {
        self.disk.needs().is_some()
    }

    // Does nothing. Where the device has carried out all, each promise stands; where it has carried
    // out none, a start does.
    pub(crate) fn rest(&self)
        ensures serves { ServesAtRest self.now }
        ensures starts { BeginsBehind self.now }
    {
        self.disk.medium();
        foresee(&self.disk);
    }
}
