//! An image in a file is brought to format 2.
ghost use Rattle.std.specs.Prelude.{◌≡◌, IfOk, IfErr};
ghost use Rattle.device_file.specs.Asked.{Told};
ghost use Rattle.device_file.specs.Outbox.{CarriesOut};
ghost use Rattle.device_file.specs.InRuns.{AsksInRuns, IsAskedInRuns};
ghost use Rattle.usbdisk.specs.images.Migrating.{IsMigratedIn, IsMigratedOn, IsNotMigratedOn};
ghost use Rattle.usbdisk.specs.images.Migrating.{IsMigratedOf, IsNotMigratedOf};
ghost use Rattle.usbdisk.specs.images.Migrating.{migration_room};
ghost use Rattle.usbdisk.specs.images.Program.{IsMigration, IsMigrationRefused};

use crate::console::{LeftFile, Refusal, Stopped, migration_line, write_out};
use crate::images::exporting::room_to_recover;
use crate::images::opening::{first_of, open_file, window_over};
use device_file::{DeviceFile, FileFault, FirstSectors, Run, carry_out};
use journal::{LogFormat, Super};
use medium::Access;
use std::alloc::Global;
use std::fs::{File, Files};
use std::io::Write;
use window::{DeviceHolds, WindowMedium};

/// Brings an image file to format 2, and says whether it was of format 1.
#[inline(never)]
pub(crate) fn migrate<R: Files<File = File> + AllocGlobal, O: Write>(
    rt: &R,
    image: &str,
    device: &DeviceHolds,
    out: &mut O,
) -> Result<LeftFile, Stopped<LeftFile>>
    ensures done { IfOk result (IsMigration image.now device.now.bytes
        (O.contents out.old) (O.contents out.new)) }
    ensures refused { IfErr result (λ stopped. IsMigrationRefused image.now device.now.bytes
        (O.contents out.old) (O.contents out.new) stopped.left stopped.refusal) }
{
    let mut file = open_file(rt, image, Access::Change)?;
    let was_one = match migrate_file(rt.alloc(), &mut file, device) {
        Ok(was_one) => was_one,
        Err(refusal) => return Err(Stopped::with(refusal, Some(file))),
    };
    match write_out(out, migration_line(was_one)) {
        Ok(()) => Ok(Some(file)),
        Err(_) => Err(Stopped::with(Refusal::Streams, Some(file))),
    }
}

/// Brings the image of a file to format 2: the first sectors are read, the image is migrated in a
/// window over them, and the file carries out what that sent, in order. It answers whether the
/// image was of format 1. Behind the first sectors the device holds what the caller says, whatever
/// that is.
///
/// # Errors
///
/// The read that was refused, the fault of the image, and `NoMemory`: then the file was asked for
/// nothing. Or the call of the file that was refused; it was asked for nothing behind that.
pub fn migrate_file<D: DeviceFile>(
    alloc: Global,
    file: &mut D,
    device: &DeviceHolds,
) -> Result<bool, Refusal>
    ensures ok { IfOk result (IsMigratedOf (D.holds file.old) (D.size file.old) device.now.bytes
        (D.told file.old) (D.told file.new)) }
    ensures err { IfErr result (IsNotMigratedOf (D.holds file.old) (D.size file.old)
        device.now.bytes (D.told file.old) (D.told file.new) (D.refuses file.old)) }
    ensures runs { IsAskedInRuns D.told D.at_once file.old file.new }
    ensures size { D.size file.new ≡ D.size file.old }
{
    let first = match first_of(alloc, file) {
        Ok(first) => first,
        Err(refusal) => return Err(refusal),
    };
    match migrate_from(alloc, file, first, device) {
        Ok(was_one) => Ok(was_one),
        Err(refusal) => Err(refusal),
    }
}

// Has a file with these first sectors carry out what a migration of its image sends, in order. It
// answers whether the image was of format 1. Where the image has a fault, the file is asked for
// nothing.
fn migrate_from<D: DeviceFile>(
    alloc: Global,
    file: &mut D,
    first: FirstSectors,
    device: &DeviceHolds,
) -> Result<bool, Refusal>
    ensures ok { IfOk result (IsMigratedOn first device.now.bytes (D.told file.old)
        (D.told file.new)) }
    ensures err { IfErr result (IsNotMigratedOn first device.now.bytes (D.told file.old)
        (D.told file.new)) }
    ensures asks { IsAskedInRuns D.told D.at_once file.old file.new
        × (D.size file.new ≡ D.size file.old) }
{
    let Ok(mut run) = Run::new(alloc) else {
        return Err(Refusal::NoMemory);
    };
    let (mut window, was_one) = migrate_in_window(alloc, first, device)?;
    match carry_all(&mut window, file, &mut run) {
        Ok(()) => Ok(was_one),
        Err(fault) => Err(Refusal::File(fault)),
    }
}

// Migrates an image with these first sectors in a window over its file, which is asked for nothing.
// It answers whether the image was of format 1.
fn migrate_in_window(
    alloc: Global,
    first: FirstSectors,
    device: &DeviceHolds,
) -> Result<(WindowMedium, bool), Refusal>
    ensures ok { IfOk result (λ image. IsMigratedIn first device.now.bytes image.1 image.0) }
    ensures err { IfErr result (λ refusal. (told : Told)
        → IsNotMigratedOn first device.now.bytes told told refusal) }
{
    let room = room_to_migrate(&first.sizes);
    let mut window = window_over(alloc, first, device, room)?;
    match recovery::migrate(&mut window) {
        Ok((_, was_one)) => Ok((window, was_one)),
        Err(fault) => Err(Refusal::Image(fault)),
    }
}

// Has the file of an image carry out all that waits in a window over it.
fn carry_all<D: DeviceFile>(
    window: &mut WindowMedium,
    image: &mut D,
    run: &mut Run,
) -> Result<(), FileFault>
    ensures carries { CarriesOut D.told D.size image.old image.new window.old window.new result }
    ensures runs { AsksInRuns D.at_once image.old image.new window.old.outbox window.new.outbox }
{
    carry_out(window, image, run)
}

// How many calls an outbox has to have room for, over an image with such a super. Behind the
// recovery one of format 1 is made one of format 2.
fn room_to_migrate(sizes: &Option<Super>) -> usize
    ensures { result ≡ migration_room sizes.now }
{
    let to_recover = room_to_recover(sizes);
    match sizes {
        Some(sizes) if sizes.format != LogFormat::Two => {
            to_recover + (sizes.format.slot_sectors() * sizes.slots + 5) as usize
        }
        _ => to_recover,
    }
}
