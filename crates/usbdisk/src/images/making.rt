//! The making of an image in a file of zeros.
ghost use Rattle.std.specs.Prelude.{[], ◌∷◌};
ghost use Rattle.window.specs.declared.call.DeviceCall.TheVariants.{Write, Flush};
ghost use Rattle.journal.specs.Sectors.{IsHead};
ghost use Rattle.journal.specs.Formats.{shape_of};
ghost use Rattle.usbdisk.specs.images.NewImage.{BecomesImage, GoesThrough};

use device_file::{DeviceFile, FileFault, Run, write_sector};
use journal::{Head, Super};

/// Has a file that was just made or emptied become a new image with these sizes: it is made durable
/// as it is, then the head, then the super. Zeros are not written.
///
/// # Errors
///
/// The first call that the file refused. Nothing was asked of it after that.
pub fn ask_to_be<D: DeviceFile>(file: &mut D, run: &mut Run, sizes: &Super) -> Result<(), FileFault>
    ensures { BecomesImage D.told D.size (shape_of sizes.now) file.old file.new result }
{
    let super_sector = sizes.encode();
    match write_behind(file, run, 1, &first_head()) {
        Ok(()) => {}
        Err(fault) => return Err(fault),
    }
    match write_behind(file, run, 0, &super_sector) {
        Ok(()) => file.sync(),
        Err(fault) => Err(fault),
    }
}

// The head of a new image.
fn first_head() -> [u8; 512]
    ensures { IsHead 1 result }
{
    Head::new(1).encode()
}

// Makes durable what a file was asked to write, and only then has it write one sector more.
fn write_behind<D: DeviceFile>(
    file: &mut D,
    run: &mut Run,
    sector: u64,
    block: &[u8; 512],
) -> Result<(), FileFault>
    ensures { GoesThrough D.told D.size
        (Flush ∷ Write (record { sector = sector; block = block.now }) ∷ []) file.old file.new
        result }
{
    file.sync()?;
    write_sector(file, run, sector, block)
}
