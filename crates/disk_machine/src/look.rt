//! What image a device has, as C is told it.
ghost use Rattle.std.specs.Prelude.{◌≡◌};
ghost use Rattle.journal.specs.Formats.{shape_of};
ghost use Rattle.disk_machine.specs.Layouts.{IsLayout, code_of_super};

use crate::codes::number_of;
use bot_machine::StartFault;
use journal::{Super, SuperFault};

/// C's `struct usbdisk_layout`.
#[repr(C)]
#[derive(Clone, Copy)]
pub struct UsbDiskLayout {
    pub format: u32,
    pub slots: u64,
    pub blocks: u64,
    pub home: u64,
    pub sectors: u64,
}

/// The layout as C is told it.
pub fn layout_of(sizes: &Super) -> UsbDiskLayout
    ensures { IsLayout (shape_of sizes.now) result }
{
    UsbDiskLayout {
        format: sizes.format.version() as u32,
        slots: sizes.slots,
        blocks: sizes.blocks,
        home: sizes.home,
        sectors: sizes.sectors(),
    }
}

/// The number by which a start refuses such a sector.
pub fn super_code(fault: SuperFault) -> u32
    ensures { result ≡ code_of_super fault }
{
    match fault {
        SuperFault::Magic => number_of(StartFault::BadSuper),
        SuperFault::Version => number_of(StartFault::BadVersion),
        SuperFault::Rest => number_of(StartFault::BadSuper),
        SuperFault::Sizes => number_of(StartFault::BadSize),
    }
}
