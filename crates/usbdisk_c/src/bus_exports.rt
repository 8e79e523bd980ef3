//! The exports of a disk that the bus calls.
ghost use Rattle.std.specs.Prelude.{◌≡◌};
ghost use Rattle.calls.specs.Bus.{TakesOut, SendsIn, AnswersSetup};
ghost use Rattle.calls.specs.Handles.{InHandle};
ghost use Rattle.calls.specs.Idling.{MakesSteps, ReadsAhead};

use calls::UsbDisk;

#[unsafe(no_mangle)]
pub extern "C" fn usbdisk_out(disk: &mut UsbDisk, bytes: &[u8], taken: &mut usize) -> u32
    ensures { InHandle (TakesOut bytes.now taken.old taken.new) (taken.new ≡ taken.old)
        disk.old.held disk.new.held result }
{
    calls::take_out(disk, bytes, taken)
}

#[unsafe(no_mangle)]
pub extern "C" fn usbdisk_in(disk: &mut UsbDisk, room: &mut [u8], given: &mut usize) -> u32
    ensures { InHandle (SendsIn room.old given.old room.new given.new)
        ((room.new ≡ room.old) × (given.new ≡ given.old)) disk.old.held disk.new.held result }
{
    calls::send_in(disk, room, given)
}

#[unsafe(no_mangle)]
pub extern "C" fn usbdisk_setup(
    disk: &mut UsbDisk,
    packet: &[u8; 8],
    to: &mut [u8; 2],
    size: &mut u32,
) -> u32
    ensures { InHandle (AnswersSetup packet.now to.old size.old to.new size.new)
        ((to.new ≡ to.old) × (size.new ≡ size.old)) disk.old.held disk.new.held result }
{
    calls::answer_setup(disk, packet, to, size)
}

#[unsafe(no_mangle)]
pub extern "C" fn usbdisk_idle(disk: &mut UsbDisk) -> u32
    ensures { InHandle MakesSteps (Unit {0}) disk.old.held disk.new.held result }
{
    calls::make_steps(disk)
}

#[unsafe(no_mangle)]
pub extern "C" fn usbdisk_ahead(disk: &mut UsbDisk, first: u64, count: u32) -> u32
    ensures { InHandle (ReadsAhead first count) (Unit {0}) disk.old.held disk.new.held result }
{
    calls::look_ahead(disk, first, count)
}
