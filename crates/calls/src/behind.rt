//! A disk or a store begins behind the recovery of its device: nothing more is read or written.
ghost use Rattle.std.specs.Prelude.{◌≡◌, ℕ, List, Result, MatchResult};
ghost use Rattle.calls.specs.Behind.{BeginBehindPost, DiskBehindPost, held_disk, held_store};
ghost use Rattle.calls.specs.Behind.{StoreBehindPost, device_of};

use crate::held::{DiskPlan, Held, Service};
use bot_machine::{Disk, DiskSetup, Retiring, StartFault};
use disk_machine::{DiskMachine, room_for};
use std::alloc::Global;
use store_calls::{RecoveredDevice, StoreMachine, begin_behind, device_holding, medium_behind};

// How many calls a step in the background makes at most.
const STEP: usize = 2;

impl Service {
    /// What was started begins on a device that was recovered, or does not. It stands apart, so
    /// that an event does not take the stack of a start.
    #[inline(never)]
    pub(crate) fn begin_behind(&self, alloc: Global, on: &RecoveredDevice) -> Held
        ghost content: { List ℕ }
        ensures { BeginBehindPost content self.now on.now result }
    {
        match self {
            Service::Disk(plan) => held_disk(disk_behind(alloc, on, plan), *self),
            Service::Store(kept) => held_store(store_behind(alloc, on, *kept), *self),
        }
    }
}

// A disk on a device that was recovered, which keeps the records of its log and retires ahead where
// the log allows it.
fn disk_behind(
    alloc: Global,
    on: &RecoveredDevice,
    plan: &DiskPlan,
) -> Result<DiskMachine, StartFault>
    ghost content: { List ℕ }
    ensures { MatchResult result (DiskBehindPost on.now content (device_of plan.now))
        (λ why. why ≡ StartFault.NoMemory) }
{
    let device = device_holding();
    let room = room_for(on.found.sizes.format) as usize;
    let on = medium_behind(alloc, on, &device, room)?;
    // The law of the medium, from the first call on.
    let _waiting = on.medium.waiting();
    let setup = DiskSetup {
        identity: plan.identity,
        size: plan.size,
        retiring: Retiring::Kept(plan.kept),
    };
    match Disk::start_from(alloc, on, setup) {
        Ok(disk) => Ok(DiskMachine::new(disk, room - STEP)),
        Err(error) => Err(error.fault),
    }
}

// A store on a device that was recovered.
fn store_behind(alloc: Global, on: &RecoveredDevice, kept: u8) -> Result<StoreMachine, StartFault>
    ghost content: { List ℕ }
    ensures { MatchResult result (StoreBehindPost on.now content kept)
        (λ why. why ≡ StartFault.NoMemory) }
{
    let device = device_holding();
    begin_behind(alloc, on, &device, kept)
}

// The disk is there, or why not.
fn held_disk(begun: Result<DiskMachine, StartFault>, what: Service) -> Held
    ensures { result ≡ held_disk what begun }
{
    match begun {
        Ok(disk) => Held::Disk(disk),
        Err(why) => Held::Failed(what, why),
    }
}

// The store is there, or why not.
fn held_store(begun: Result<StoreMachine, StartFault>, what: Service) -> Held
    ensures { result ≡ held_store what begun }
{
    match begun {
        Ok(store) => Held::Store(store),
        Err(why) => Held::Failed(what, why),
    }
}
