//! The exports that tell what image a device has, from its first sector, and what log an image has.
ghost use Rattle.calls.specs.Logs.{LogOfPost};
ghost use Rattle.disk_machine.specs.Layouts.{TellsLayout};

use calls::UsbDiskLog;
use disk_machine::{ACK, UsbDiskLayout, layout_of, super_code};
use journal::Super;

#[unsafe(no_mangle)]
pub extern "C" fn usbdisk_look(sector: &[u8; 512], layout: &mut UsbDiskLayout) -> u32
    ensures { TellsLayout sector.now layout.old layout.new result }
{
    match Super::decode(sector) {
        Ok(sizes) => {
            *layout = layout_of(&sizes);
            ACK
        }
        Err(fault) => super_code(fault),
    }
}

#[unsafe(no_mangle)]
pub extern "C" fn usbdisk_log_of(format: u32, slots: u64, page: u64, log: &mut UsbDiskLog) -> u32
    ensures { LogOfPost format slots page log.old log.new result }
{
    calls::log_of(format, slots, page, log)
}
