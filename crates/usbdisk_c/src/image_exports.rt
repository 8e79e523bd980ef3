//! The exports that make or change an image.
ghost use Rattle.calls.specs.Plans.{Formats, LaysLog, Migrates};

use calls::{UsbDisk, UsbDiskPlan};
use std::alloc::Global;

#[unsafe(no_mangle)]
pub extern "C" fn usbdisk_format(alloc: Global, image: &mut UsbDisk, plan: &UsbDiskPlan) -> u32
    ensures { Formats plan.now image.old.held image.new.held result }
{
    calls::format(alloc, image, plan)
}

#[unsafe(no_mangle)]
pub extern "C" fn usbdisk_lay_log(alloc: Global, image: &mut UsbDisk, plan: &UsbDiskPlan) -> u32
    ensures { LaysLog plan.now image.old.held image.new.held result }
{
    calls::lay_log(alloc, image, plan)
}

#[unsafe(no_mangle)]
pub extern "C" fn usbdisk_migrate(alloc: Global, image: &mut UsbDisk, plan: &UsbDiskPlan) -> u32
    ensures { Migrates plan.now image.old.held image.new.held result }
{
    calls::migrate(alloc, image, plan)
}
