//! The exports that every handle has, and those of a disk.
ghost use Rattle.std.specs.Prelude.{◌≡◌, ℕ, List};
ghost use Rattle.calls.specs.Asking.{HandsOut};
ghost use Rattle.calls.specs.Handles.{InHandle};
ghost use Rattle.calls.specs.Memory.{TellsMemory, TellsMemoryToFormat, TellsMemoryToMigrate};
ghost use Rattle.calls.specs.Starting.{StartsDisk, Stops};
ghost use Rattle.calls.specs.State.{TellsState};
ghost use Rattle.calls.specs.Telling.{TellsDone};
ghost use Rattle.usbdisk_c.specs.Codes.{TellsVersion};

use crate::codes::VERSION;
use calls::{UsbDisk, UsbDiskCall, UsbDiskOptions};
use std::alloc::Global;

#[unsafe(no_mangle)]
pub extern "C" fn usbdisk_version() -> u32
    ensures { TellsVersion result }
{
    VERSION
}

#[unsafe(no_mangle)]
pub extern "C" fn usbdisk_memory(format: u32, slots: u64) -> u64
    ensures { TellsMemory format slots 0 result }
{
    calls::memory_of(format, slots, 0)
}

#[unsafe(no_mangle)]
pub extern "C" fn usbdisk_memory_kept(format: u32, slots: u64, kept: u32) -> u64
    ensures { TellsMemory format slots kept result }
{
    calls::memory_of(format, slots, kept)
}

#[unsafe(no_mangle)]
pub extern "C" fn usbdisk_memory_to_format(format: u32, slots: u64) -> u64
    ensures { TellsMemoryToFormat format slots result }
{
    calls::memory_to_format(format, slots)
}

#[unsafe(no_mangle)]
pub extern "C" fn usbdisk_memory_to_migrate(slots: u64) -> u64
    ensures { TellsMemoryToMigrate slots result }
{
    calls::memory_to_migrate(slots)
}

#[unsafe(no_mangle)]
pub extern "C" fn usbdisk_start(alloc: Global, disk: &mut UsbDisk, options: &UsbDiskOptions) -> u32
    ensures { StartsDisk options.now disk.old.held disk.new.held result }
{
    calls::start_disk(alloc, disk, options)
}

#[unsafe(no_mangle)]
pub extern "C" fn usbdisk_stop(alloc: Global, disk: &mut UsbDisk) -> u32
    ensures { Stops disk.old.held disk.new.held result }
{
    calls::stop(alloc, disk)
}

#[unsafe(no_mangle)]
pub extern "C" fn usbdisk_next(disk: &mut UsbDisk, call: &mut UsbDiskCall, buffer: &mut [u8]) -> u32
    ensures { InHandle (HandsOut call.old buffer.old call.new buffer.new)
        ((call.new ≡ call.old) × (buffer.new ≡ buffer.old)) disk.old.held disk.new.held result }
{
    calls::next_call(disk, call, buffer)
}

// Whatever the device holds behind the first sectors: the contract holds for each content.
#[unsafe(no_mangle)]
pub extern "C" fn usbdisk_done(alloc: Global, disk: &mut UsbDisk, ok: bool, bytes: &[u8]) -> u32
    ghost content: { List ℕ }
    ensures { InHandle (TellsDone content ok bytes.now) (Unit {0})
        disk.old.held disk.new.held result }
{
    calls::tell_done(alloc, disk, ok, bytes)
}

#[unsafe(no_mangle)]
pub extern "C" fn usbdisk_state(disk: &mut UsbDisk, fault: &mut u32) -> u32
    ensures { InHandle (TellsState fault.new) (fault.new ≡ fault.old)
        disk.old.held disk.new.held result }
{
    calls::tell_state(disk, fault)
}
