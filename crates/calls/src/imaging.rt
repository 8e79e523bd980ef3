//! The work on an image is begun.
ghost use Rattle.std.specs.Prelude.{◌≡◌, MatchOption};
ghost use Rattle.calls.specs.Plans.{Formats, LaysLog, Migrates, IsPlan, IsNoPlan};

use crate::handle::UsbDisk;
use crate::held::ImageWork;
use crate::moves::holds_any;
use crate::options::UsbDiskPlan;
use crate::starting::open;
use disk_machine::{BAD_SIZES, STARTED};
use image_calls::{ImagePlan, Reach};
use journal::LogFormat;
use std::alloc::Global;

/// An image of zeros is made.
pub fn format(alloc: Global, h: &mut UsbDisk, plan: &UsbDiskPlan) -> u32
    ensures { Formats plan.now h.old.held h.new.held result }
{
    if holds_any(h) {
        return STARTED;
    }
    let Some(fits) = plan_of(plan) else {
        return BAD_SIZES;
    };
    open(
        alloc,
        h,
        ImageWork::Format(fits),
        plan.sectors,
        Reach::First,
    )
}

/// An image is made around the blocks that are at home.
pub fn lay_log(alloc: Global, h: &mut UsbDisk, plan: &UsbDiskPlan) -> u32
    ensures { LaysLog plan.now h.old.held h.new.held result }
{
    if holds_any(h) {
        return STARTED;
    }
    let Some(fits) = plan_of(plan) else {
        return BAD_SIZES;
    };
    open(
        alloc,
        h,
        ImageWork::LayLog(fits),
        plan.sectors,
        Reach::First,
    )
}

/// An image of format 1 is made one of format 2. Of the plan it reads the sectors alone.
pub fn migrate(alloc: Global, h: &mut UsbDisk, plan: &UsbDiskPlan) -> u32
    ensures { Migrates plan.now h.old.held h.new.held result }
{
    if holds_any(h) {
        return STARTED;
    }
    open(alloc, h, ImageWork::Migration, plan.sectors, Reach::Near)
}

// The plan of C, where it fits.
fn plan_of(given: &UsbDiskPlan) -> Option<ImagePlan>
    ensures { MatchOption result (IsNoPlan given.now) (IsPlan given.now) }
{
    let format = LogFormat::of_version(u64::from(given.format))?;
    let plan = ImagePlan {
        sectors: given.sectors,
        format,
        blocks: given.blocks,
        slots: given.slots,
        home: given.home,
    };
    if plan.fits() { Some(plan) } else { None }
}
