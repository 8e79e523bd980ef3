//! How a machine starts on a device whose image was recovered.
ghost use Rattle.std.specs.Prelude.{◌≡◌, IfOk, IfErr, MatchResult};
ghost use Rattle.store_calls.specs.MachineBehind.{IsMediumBehind, BeginBehindPost};

use crate::machine::StoreMachine;
use crate::recovered_device::RecoveredDevice;
use crate::room::outbox_room;
use crate::supers::span_of;
use blocks::{Keeping, RecoveredMedium, StartFault, Store};
use std::alloc::Global;
use window::{DeviceHolds, Reserve, WindowMedium, device_laws};

/// The medium of a device whose image was recovered. The super alone lies in its memory: of a log
/// that keeps its records no other sector before the blocks is read.
///
/// # Errors
/// `NoMemory`.
pub fn medium_behind(
    alloc: Global,
    on: &RecoveredDevice,
    device: &DeviceHolds,
    room: usize,
) -> Result<RecoveredMedium<WindowMedium>, StartFault>
    ensures ok { IfOk result (λ m. (m.found ≡ on.now.found)
        × IsMediumBehind on.now device.now.bytes room m.medium) }
    ensures err { IfErr result (λ why. why ≡ StartFault.NoMemory) }
{
    let Ok(near) = Vec::from_array(alloc, on.found.sizes.encode()) else {
        return Err(StartFault::NoMemory);
    };
    let span = span_of(on.found.sizes.format);
    match WindowMedium::new(alloc, near, on.sectors, device, Reserve { span, room }) {
        Ok(medium) => Ok(RecoveredMedium {
            medium,
            found: on.found,
        }),
        Err(_) => Err(StartFault::NoMemory),
    }
}

/// A machine over a store on a device whose image was recovered. Nothing is read or written for it.
/// The store keeps the bytes of its records in memory, of so many at most, and never reads its log
/// back. It retires ahead where its log allows it.
///
/// # Errors
/// `NoMemory`.
pub fn begin_behind(
    alloc: Global,
    on: &RecoveredDevice,
    device: &DeviceHolds,
    kept: u8,
) -> Result<StoreMachine, StartFault>
    ensures { MatchResult result (BeginBehindPost on.now device.now.bytes kept)
        (λ why. why ≡ StartFault.NoMemory) }
{
    let on = medium_behind(alloc, on, device, outbox_room())?;
    // The law of the medium, from the first call on.
    let _waiting = on.medium.waiting();
    device_laws();
    match Store::start_from(alloc, on, Keeping::Kept(kept), true) {
        Ok(store) => Ok(StoreMachine::new(store)),
        Err(error) => Err(error.fault),
    }
}
