//! What comes first of the work on an image: the first part of it, or all of a migration.
ghost use Rattle.std.specs.Prelude.{◌≡◌, ◌⊎◌, ◌<◌, ◌/◌, length};
ghost use Rattle.std.specs.Prelude.{IfOk, IfErr, OnOk, MatchResult};
ghost use Rattle.window.specs.Window.{Window, fresh};
ghost use Rattle.store_calls.specs.Starts.{IsNoLength};
ghost use Rattle.image_calls.specs.Images.{IsMigratedOn, IsMigratedNot, IsFinished};
ghost use Rattle.image_calls.specs.Formats.{BeginsMaking};
ghost use Rattle.image_calls.specs.Plans.{shape_by, medium_by, IsPlanFault};
ghost use Rattle.recovery.specs.declared.start_fault.StartFault.TheVariants.{NoMemory};

use crate::ImageFault;
use crate::image_plan::ImagePlan;
use crate::part::{PART, begin};
use crate::plan::Aim;
use crate::work::Work;
use recovery::{StartFault, migrate};
use std::alloc::Global;
use window::{DeviceHolds, Reserve, WindowError, WindowMedium};

/// A medium of a device of `sectors` sectors, of which these are the first. None is ever shown.
pub(crate) fn window_of(
    alloc: Global,
    near: Vec<u8>,
    sectors: u64,
    device: &DeviceHolds,
    room: usize,
) -> Result<WindowMedium, ImageFault>
    ensures ok { IfOk result (λ m. m ≡ fresh sectors near.items device.now.bytes 0 room) }
    ensures some { OnOk result (0 < length near.items / 512) }
    ensures err { IfErr result (λ fault. (fault ≡ ImageFault.Start NoMemory)
        ⊎ ((fault ≡ ImageFault.Length) × IsNoLength near.items sectors)) }
{
    let reserve = Reserve { span: 0, room };
    match WindowMedium::new(alloc, near, sectors, device, reserve) {
        Ok(medium) => Ok(medium),
        Err(WindowError::BadLength) => Err(ImageFault::Length),
        Err(WindowError::NoMemory) => Err(ImageFault::Start(StartFault::NoMemory)),
    }
}

/// Begins to make an image on a device, or to lay a log on it.
pub(crate) fn begin_on(
    alloc: Global,
    near: Vec<u8>,
    device: &DeviceHolds,
    plan: &ImagePlan,
    aim: Aim,
) -> Result<Work, ImageFault>
    ensures { let first = medium_by near.items device.now.bytes plan.now in
        MatchResult result (BeginsMaking aim (shape_by plan.now) first)
        (IsPlanFault near.items plan.now) }
{
    let sizes = plan.sizes().ok_or(ImageFault::Sizes)?;
    let mut medium = window_of(alloc, near, plan.sectors, device, PART as usize)?;
    // The law of the outbox, from the first call on.
    let _waiting = medium.waiting();
    match begin(&mut medium, &sizes, aim) {
        Ok(left) => Ok(Work {
            medium,
            left: Some(left),
        }),
        // There is room for all of its calls, so that none is refused.
        Err(_) => Err(ImageFault::Sizes),
    }
}

/// Makes an image of format 1 on the device of this medium one of format 2. None of its calls waits
/// yet.
pub(crate) fn migrate_on(mut medium: WindowMedium) -> Result<Work, StartFault>
    ensures ok { IfOk result (IsFinished (IsMigratedOn medium)) }
    ensures err { length medium.outbox ≡ 0
        → IfErr result (λ why. (after : Window) × IsMigratedNot medium after why) }
{
    // The law of the outbox, from the first call on.
    let _waiting = medium.waiting();
    match migrate(&mut medium) {
        Ok(_) => Ok(Work { medium, left: None }),
        Err(fault) => Err(fault),
    }
}
