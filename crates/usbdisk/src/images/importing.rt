//! The blocks of a plain file become those of a new image.
ghost use Rattle.std.specs.Prelude.{◌≡◌, Some, IfOk, OnOk, IfErr};
ghost use Rattle.journal.specs.Places.{sectors_of};
ghost use Rattle.journal.specs.Formats.{shape_of};
ghost use Rattle.device_file.specs.FileValue.{IsMade};
ghost use Rattle.usbdisk.specs.images.Copying.{Copies};
ghost use Rattle.usbdisk.specs.images.Imported.{IsImage, IsNoImage, import_refusal, imported_text};
ghost use Rattle.usbdisk.specs.images.Importing.{ImportsInRuns, IsImported, IsNotImported};
ghost use Rattle.usbdisk.specs.images.Importing.{MakesImage};
ghost use Rattle.usbdisk.specs.images.Opened.{IsTargetUnmade, made_at};
ghost use Rattle.usbdisk.specs.images.Program.{IsImport, IsImportRefused};

use crate::console::{LeftFile, LockedFile, Refusal, Stopped};
use crate::images::copying::{CopyRoom, copy_room, say_done};
use crate::images::gauge::Gauge;
use crate::images::image::{FilePlace, new_target, sizes_of};
use crate::images::left::LeftFiles;
use crate::images::making::ask_to_be;
use crate::images::opening::open_plain;
use crate::images::task::ImageOptions;
use device_file::{CopyBuffer, CopyFault, CopyRange, DeviceFile, Meter, Run, copy_sectors};
use journal::Super;
use std::fs::{File, Files};
use std::io::{IsTerminal, Write};

/// Where an image is made, and with what.
#[derive(Drop)]
pub(crate) struct NewImage<'a, R> {
    pub(crate) rt: &'a R,
    pub(crate) path: &'a str,
    pub(crate) options: ImageOptions,
}

/// Makes an image file whose blocks are those of a plain file, and says how many there are.
#[inline(never)]
pub(crate) fn import<R: Files<File = File> + AllocGlobal, O: Write, E: Write + IsTerminal>(
    raw: &str,
    image: NewImage<R>,
    out: &mut O,
    err: &mut E,
) -> Result<LeftFiles, Stopped<LeftFiles>>
    ensures done { IfOk result (λ left. IsImport raw.now
        (made_at image.entry.path.now image.entry.options.existing) (O.contents out.old)
        (O.contents out.new) left.file left.raw image.entry.options.format
        image.entry.options.slots) }
    ensures refused { IfErr result (λ stopped. IsImportRefused raw.now
        (made_at image.entry.path.now image.entry.options.existing) (O.contents out.old)
        (O.contents out.new) stopped.left.file stopped.left.raw image.entry.options.format
        image.entry.options.slots stopped.refusal) }
{
    let plain = open_plain(image.rt, raw)?;
    let mut room = match copy_room(image.rt.alloc(), b"imported ", plain.sectors()) {
        Ok(room) => room,
        Err(refusal) => return Err(Stopped::with(refusal, LeftFiles::new(None, Some(plain)))),
    };
    match import_from(&plain, image, &mut room, out, err) {
        Ok(file) => Ok(LeftFiles::new(Some(file), Some(plain))),
        Err(stopped) => Err(Stopped::with(
            stopped.refusal,
            LeftFiles::new(stopped.left, Some(plain)),
        )),
    }
}

// Makes an image of the blocks of a plain file, which is only read, once all memory is had. The
// sizes are tested before a file is made.
fn import_from<R: Files<File = File>, S: DeviceFile, O: Write, E: Write + IsTerminal>(
    plain: &S,
    image: NewImage<R>,
    room: &mut CopyRoom,
    out: &mut O,
    err: &mut E,
) -> Result<LockedFile, Stopped<LeftFile>>
    requires { room.old.line.items ≡ imported_text (S.size plain.now) }
    ensures ok { IfOk result (λ file. IsImage (S.holds plain.now) (S.refuses plain.now)
        image.entry.options.format (S.size plain.now) image.entry.options.slots
        (O.contents out.old) (O.contents out.new)
        (made_at image.entry.path.now image.entry.options.existing) (Some file)) }
    ensures err { IfErr result (λ stopped. IsNoImage (S.holds plain.now) (S.refuses plain.now)
        image.entry.options.format (S.size plain.now) image.entry.options.slots
        (O.contents out.old) (O.contents out.new)
        (made_at image.entry.path.now image.entry.options.existing) stopped.left
        stopped.refusal) }
{
    let options = image.options;
    let Some(sizes) = sizes_of(options.format, plain.sectors(), options.slots) else {
        return Err(Stopped::from(Refusal::Sizes));
    };
    let mut file = new_image(image, &sizes)?;
    match import_watched(plain, &sizes, &mut file, room, err) {
        Ok(()) => say_done(file, out, room),
        Err(fault) => Err(Stopped::with(refusal_of(fault), Some(file))),
    }
}

// A file of as many sectors as an image with these sizes has.
fn new_image<R: Files<File = File>>(
    image: NewImage<R>,
    sizes: &Super,
) -> Result<LockedFile, Refusal>
    ensures ok { IfOk result (λ made. IsMade image.entry.path.now image.entry.options.existing
        (sectors_of (shape_of sizes.now)) made) }
    ensures err { IfErr result (λ refusal. IsTargetUnmade refusal) }
{
    let place = FilePlace {
        rt: image.rt,
        path: image.path,
        existing: image.options.existing,
    };
    new_target(place, sizes.sectors())
}

// Has a file become an image with the blocks of a plain one, and tells on the way how far it is.
fn import_watched<S: DeviceFile, D: DeviceFile, E: Write + IsTerminal>(
    plain: &S,
    sizes: &Super,
    file: &mut D,
    room: &mut CopyRoom,
    err: &mut E,
) -> Result<(), CopyFault>
    ensures ok { OnOk result (IsImported (S.holds plain.now) (shape_of sizes.now)
        (D.told file.old) (D.told file.new)) }
    ensures err { IfErr result (IsNotImported (S.holds plain.now) (S.refuses plain.now)
        (shape_of sizes.now) (D.told file.old) (D.told file.new)) }
    ensures size { (D.size file.new ≡ D.size file.old) × (room.new.line ≡ room.old.line) }
{
    let mut bar = Gauge::new(err);
    let done = import_blocks(plain, sizes, file, &mut room.buffer, &mut bar);
    bar.end();
    done
}

// The file that refused a call: the plain one, or the image's.
fn refusal_of(fault: CopyFault) -> Refusal
    ensures { result ≡ import_refusal fault }
{
    match fault {
        CopyFault::From(fault) => Refusal::Plain(fault),
        CopyFault::To(fault) => Refusal::Target(fault),
    }
}

/// Has a file that was just made or emptied become a new image with these sizes, whose blocks are
/// those of a plain file: they are written at home, and only then is it made an image. The plain
/// file is only read, as many sectors at once as the buffer has; a meter hears how many it were.
///
/// # Errors
///
/// The first call that a file refused: a read of the blocks that come next, or one of the file that
/// becomes an image. Nothing was asked of either after that.
pub fn import_blocks<S: DeviceFile, D: DeviceFile, M: Meter>(
    plain: &S,
    sizes: &Super,
    image: &mut D,
    buffer: &mut CopyBuffer,
    meter: &mut M,
) -> Result<(), CopyFault>
    ensures ok { OnOk result (IsImported (S.holds plain.now) (shape_of sizes.now)
        (D.told image.old) (D.told image.new)) }
    ensures err { IfErr result (IsNotImported (S.holds plain.now) (S.refuses plain.now)
        (shape_of sizes.now) (D.told image.old) (D.told image.new)) }
    ensures runs { ImportsInRuns D.told D.at_once (shape_of sizes.now) image.old image.new }
    ensures size { D.size image.new ≡ D.size image.old }
{
    match copy_blocks(plain, sizes, image, buffer, meter) {
        Ok(()) => become_image(image, &mut buffer.run, sizes),
        Err(fault) => Err(fault),
    }
}

// Copies the blocks of a plain file home.
fn copy_blocks<S: DeviceFile, D: DeviceFile, M: Meter>(
    plain: &S,
    sizes: &Super,
    image: &mut D,
    buffer: &mut CopyBuffer,
    meter: &mut M,
) -> Result<(), CopyFault>
    ensures { Copies D.told D.at_once D.size (S.holds plain.now) (S.refuses plain.now) 0
        sizes.now.blocks sizes.now.home image.old image.new result }
{
    let range = CopyRange {
        first: 0,
        count: sizes.blocks,
        at: sizes.home,
    };
    copy_sectors(plain, range, image, buffer, meter)
}

// Makes an image of a file that has its blocks.
fn become_image<D: DeviceFile>(image: &mut D, run: &mut Run, sizes: &Super) -> Result<(), CopyFault>
    ensures { MakesImage D.told D.size (shape_of sizes.now) image.old image.new result }
{
    match ask_to_be(image, run, sizes) {
        Ok(()) => Ok(()),
        Err(fault) => Err(CopyFault::To(fault)),
    }
}
