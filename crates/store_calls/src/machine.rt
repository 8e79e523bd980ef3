//! A store, and the device behind it, which may be behind.
ghost use Rattle.std.specs.Prelude.{◌≡◌, ◌↔◌, IsTrue};
ghost use Rattle.blocks.specs.StoreValue.{blocks_of, transfer_limit};
ghost use Rattle.store_calls.specs.StoreMachine.{stage_of, IsCaughtUp};
ghost use Rattle.store_calls.specs.Serving.{BeginsOver, Rests};

use crate::lack::Lack;
use crate::sizes::Sizes;
use blocks::Store;
use window::{Asked, MachineState, WindowMedium, device_laws};

/// A store that says what its device is to do next, one call at a time. What it is asked for is
/// done where the device has carried out all that it was told, or needs no call of it.
#[derive(Drop)]
pub struct StoreMachine {
    pub(crate) store: Store<WindowMedium>,
    // What the device was asked for last, and has not told done.
    pub(crate) asked: Asked,
    // The sectors that a read lacks, and what became of them.
    pub(crate) lack: Lack,
    // Whether a write or a sync was told to come again, and none was taken since.
    pub(crate) put_off: bool,
}

impl StoreMachine {
    // A machine over a store that has just started.
    pub(crate) fn new(store: Store<WindowMedium>) -> StoreMachine
        ensures { BeginsOver store result }
    {
        let machine = StoreMachine {
            store,
            asked: Asked::Nothing,
            lack: Lack::Nothing,
            put_off: false,
        };
        machine.rest();
        machine
    }

    /// What the machine is at.
    pub fn state(&self) -> MachineState
        ensures { result ≡ stage_of self.now }
    {
        match self.asked {
            Asked::Refused(_, _) => MachineState::Refused,
            Asked::Nothing | Asked::Calls(_) | Asked::Read(_) => MachineState::Serving,
        }
    }

    /// How many blocks the store has, and how many of them a read and a write have at most.
    pub fn sizes(&self) -> Sizes
        ensures blocks { result.blocks ≡ blocks_of self.now.store.cached }
        ensures limit { result.limit ≡ transfer_limit self.now.store.cached }
    {
        Sizes {
            blocks: self.store.blocks(),
            limit: self.store.limit(),
        }
    }

    // Whether the device has carried out all that it was told.
    pub(crate) fn is_caught_up(&self) -> bool
        ensures { IsTrue result ↔ IsCaughtUp self.now }
    {
        self.asked == Asked::Nothing && self.store.medium().waiting() == 0
    }

    // Does nothing. Where the device has carried out all, each promise stands; where it has carried
    // out none, a start does.
    pub(crate) fn rest(&self)
        ensures { Rests self.now }
    {
        let _waiting = self.store.medium().waiting();
        device_laws();
    }
}
