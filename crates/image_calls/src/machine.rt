//! Work on an image, and the device behind it.
ghost use Rattle.std.specs.Prelude.{◌≡◌, MatchResult, List, []};
ghost use Rattle.window.specs.OutboxMedium.{sent};
ghost use Rattle.window.specs.Window.{Window, mirror_of};
ghost use Rattle.image_calls.specs.Images.{WaitFor};
ghost use Rattle.image_calls.specs.Formats.{BeginsMaking, BeginsFormat, BeginsLog};
ghost use Rattle.image_calls.specs.Machines.{Begins, LeavesSince, LeavesAtRest};
ghost use Rattle.image_calls.specs.Machines.{begun, state_by, state_at_rest};
ghost use Rattle.image_calls.specs.Plans.{Migrates, IsPlanFault, shape_by, medium_by};

use crate::ImageFault;
use crate::image_asked::ImageAsked;
use crate::image_plan::ImagePlan;
use crate::making::{begin_on, migrate_on, window_of};
use crate::plan::Aim;
use crate::room::room_to_migrate;
use crate::state::ImageState;
use crate::work::Work;
use std::alloc::Global;
use window::{DeviceHolds, device_laws};

/// Work on an image that says what its device is to do next, one call at a time.
#[derive(Drop)]
pub struct ImageMachine {
    pub(crate) work: Work,
    // What the device was asked for last, and has not told done.
    pub(crate) asked: ImageAsked,
}

impl ImageMachine {
    /// Begins to make an image of blocks of zeros on a device, of which these are the first
    /// sectors: one or more. They become the memory of the work, with no copy.
    ///
    /// # Errors
    ///
    /// `Length` where the first sectors are none, no whole ones or more than the device has,
    /// `Sizes` where the plan does not fit, or `Start(NoMemory)`.
    pub fn format(
        alloc: Global,
        near: Vec<u8>,
        device: &DeviceHolds,
        plan: &ImagePlan,
    ) -> Result<ImageMachine, ImageFault>
        ensures { let first = medium_by near.items device.now.bytes plan.now in
            MatchResult result (Begins (BeginsFormat (shape_by plan.now) first) first)
            (IsPlanFault near.items plan.now) }
    {
        ImageMachine::make(alloc, near, device, plan, Aim::Format)
    }

    /// Begins to lay a log before blocks that are at home already, as `format` begins a format.
    ///
    /// # Errors
    ///
    /// Those of `format`.
    pub fn lay_log(
        alloc: Global,
        near: Vec<u8>,
        device: &DeviceHolds,
        plan: &ImagePlan,
    ) -> Result<ImageMachine, ImageFault>
        ensures { let first = medium_by near.items device.now.bytes plan.now in
            MatchResult result (Begins (BeginsLog (shape_by plan.now) first) first)
            (IsPlanFault near.items plan.now) }
    {
        ImageMachine::make(alloc, near, device, plan, Aim::Laying)
    }

    /// Begins to make an image of format 1 one of format 2, on a device of `sectors` sectors, of
    /// which these are the first: all before the first home sector.
    ///
    /// # Errors
    ///
    /// `Length` as in `format`; `Start` with `NoMemory` or the fault of `recovery::migrate`, which
    /// is no `Write` and no `Flush`, and no `Read` where the first sectors are all before home.
    pub fn migrate(
        alloc: Global,
        near: Vec<u8>,
        sectors: u64,
        device: &DeviceHolds,
    ) -> Result<ImageMachine, ImageFault>
        ensures { Migrates near.items sectors device.now.bytes result }
    {
        let room = room_to_migrate(&near);
        let medium = window_of(alloc, near, sectors, device, room)?;
        match migrate_on(medium) {
            Ok(work) => Ok(ImageMachine::over(work)),
            Err(fault) => Err(ImageFault::Start(fault)),
        }
    }

    /// What the work is at.
    pub fn state(&self) -> ImageState
        ensures { result ≡ state_by self.now.asked self.now.work }
    {
        match self.asked {
            ImageAsked::Nothing => self.state_at_rest(),
            ImageAsked::Calls(_, _) => ImageState::Working,
            ImageAsked::Refused(call, _) => ImageState::Refused(call),
        }
    }

    // What work is at whose device is at no call.
    fn state_at_rest(&self) -> ImageState
        ensures { result ≡ state_at_rest self.now.work.medium.outbox self.now.work.left }
    {
        if self.work.medium.first().is_none() && self.work.left.is_none() {
            ImageState::Done
        } else {
            ImageState::Working
        }
    }

    // Begins to make one of the two.
    fn make(
        alloc: Global,
        near: Vec<u8>,
        device: &DeviceHolds,
        plan: &ImagePlan,
        aim: Aim,
    ) -> Result<ImageMachine, ImageFault>
        ensures { let first = medium_by near.items device.now.bytes plan.now in
            MatchResult result (Begins (BeginsMaking aim (shape_by plan.now) first) first)
            (IsPlanFault near.items plan.now) }
    {
        let work = begin_on(alloc, near, device, plan, aim)?;
        Ok(ImageMachine::over(work))
    }

    // Over work whose calls wait for the device.
    fn over(work: Work) -> ImageMachine
        ensures is { result ≡ begun work }
        ensures since { (first : Window) → sent (mirror_of first) ≡ [] → WaitFor first work.medium
            → LeavesSince first result }
        ensures rest { LeavesAtRest result }
    {
        let machine = ImageMachine {
            work,
            asked: ImageAsked::Nothing,
        };
        machine.rest();
        device_laws();
        machine
    }

    // Does nothing. Where the device has told all done, it leaves what the medium does.
    pub(crate) fn rest(&self)
        ensures { LeavesAtRest self.now }
    {
        let _waiting = self.work.medium.waiting();
        device_laws();
    }
}
