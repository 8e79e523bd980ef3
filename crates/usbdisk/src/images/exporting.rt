//! The blocks of an image are copied to a plain file.
ghost use Rattle.std.specs.Prelude.{◌≡◌, ◌⊎◌, [], ◌∷◌, Some, OnOk, IfOk, IfErr};
ghost use Rattle.window.specs.declared.call.DeviceCall.TheVariants.{Flush};
ghost use Rattle.device_file.specs.Asked.{AsksFor};
ghost use Rattle.usbdisk.specs.images.Copying.{Copies};
ghost use Rattle.usbdisk.specs.images.Exported.{
  IsExportedOf,
  IsNoCopyMade,
  IsNotExportedOf,
  IsPlainCopy,
  export_refusal,
  exported_text,
};
ghost use Rattle.usbdisk.specs.images.Exporting.{
  ExportsInRuns,
  GoesInRuns,
  HasBlocks,
  HasSomeBlocks,
  IsNotRecoveredIn,
  IsRecoveredIn,
  going_home,
  recovery_room,
};
ghost use Rattle.usbdisk.specs.images.NewImage.{GoesThrough};
ghost use Rattle.usbdisk.specs.images.Opened.{HasNoFirst, WithFirst, made_in};
ghost use Rattle.usbdisk.specs.images.Program.{IsExport, IsExportRefused};

use crate::console::{LeftFile, LockedFile, Refusal, Stopped};
use crate::images::copying::{CopyRoom, copy_room, say_done};
use crate::images::gauge::Gauge;
use crate::images::image::{FilePlace, new_target};
use crate::images::left::LeftFiles;
use crate::images::opening::{first_of, open_file, window_over};
use device_file::{
    CopyBuffer, CopyFault, CopyRange, DeviceFile, FileCall, FileFault, FirstSectors, Meter, Run,
    carry_moved, copy_sectors,
};
use journal::Super;
use medium::Access;
use recovery::recover;
use std::alloc::Global;
use std::fs::{File, Files};
use std::io::{IsTerminal, Write};
use window::{DeviceHolds, WindowMedium};

/// Copies the blocks of an image file to a new plain file, and says how many there are.
#[inline(never)]
pub(crate) fn export<R: Files<File = File> + AllocGlobal, O: Write, E: Write + IsTerminal>(
    image: &str,
    raw: FilePlace<R>,
    device: &DeviceHolds,
    out: &mut O,
    err: &mut E,
) -> Result<LeftFiles, Stopped<LeftFiles>>
    ensures done { IfOk result (λ left. IsExport image.now device.now.bytes (made_in raw.entry)
        (O.contents out.old) (O.contents out.new) left.file left.raw) }
    ensures refused { IfErr result (λ stopped. IsExportRefused image.now device.now.bytes
        (made_in raw.entry) (O.contents out.old) (O.contents out.new) stopped.left.file
        stopped.left.raw stopped.refusal) }
{
    let file = open_file(raw.rt, image, Access::Look)?;
    match export_file(raw, &file, device, out, err) {
        Ok(plain) => Ok(LeftFiles::new(Some(file), Some(plain))),
        Err(stopped) => Err(Stopped::with(
            stopped.refusal,
            LeftFiles::new(Some(file), stopped.left),
        )),
    }
}

/// Copies the blocks of the image of a file, which is only read, to a new plain file, and says how
/// many there are. Behind the first sectors the device holds what the caller says, whatever that
/// is.
///
/// # Errors
///
/// The read of the first sectors that was refused, the fault of the image, and `NoMemory`: then no
/// plain file was made. Or why none could be made, or the call that one of the files refused.
pub fn export_file<
    R: Files<File = File> + AllocGlobal,
    S: DeviceFile,
    O: Write,
    E: Write + IsTerminal,
>(
    raw: FilePlace<R>,
    image: &S,
    device: &DeviceHolds,
    out: &mut O,
    err: &mut E,
) -> Result<LockedFile, Stopped<LeftFile>>
    ensures ok { IfOk result (λ plain. IsExportedOf (S.holds image.now) (S.refuses image.now)
        (S.size image.now) device.now.bytes (O.contents out.old) (O.contents out.new)
        (made_in raw.entry) (Some plain)) }
    ensures err { IfErr result (λ stopped. IsNotExportedOf (S.holds image.now)
        (S.refuses image.now) (S.size image.now) device.now.bytes (O.contents out.old)
        (O.contents out.new) (made_in raw.entry) stopped.left stopped.refusal) }
{
    match ready_to_copy(raw.rt.alloc(), image, device) {
        Ok(mut ready) => make_copy(raw, image, &mut ready, out, err),
        Err(refusal) => Err(Stopped::from(refusal)),
    }
}

/// An image that was recovered in a window over its file.
#[derive(Drop)]
pub struct RecoveredImage {
    pub window: WindowMedium,
    pub sizes: Super,
}

// Such an image, and the memory of a copy.
#[derive(Drop)]
struct Ready {
    image: RecoveredImage,
    room: CopyRoom,
}

// Recovers the image of a file, which is only read, and has all the memory of a copy, before a
// plain file is made for it.
fn ready_to_copy<S: DeviceFile>(
    alloc: Global,
    image: &S,
    device: &DeviceHolds,
) -> Result<Ready, Refusal>
    ensures ok { IfOk result (λ ready. WithFirst (S.holds image.now) (S.size image.now)
        (λ first. IsRecoveredIn first device.now.bytes ready.image.sizes ready.image.window)) }
    ensures line { IfOk result
        (λ ready. ready.room.line.items ≡ exported_text ready.image.sizes.blocks) }
    ensures err { IfErr result (λ refusal. HasNoFirst (S.refuses image.now) (S.size image.now)
        refusal ⊎ WithFirst (S.holds image.now) (S.size image.now)
        (λ first. IsNotRecoveredIn first device.now.bytes refusal)) }
{
    let first = match first_of(alloc, image) {
        Ok(first) => first,
        Err(refusal) => return Err(refusal),
    };
    let image = match recover_in_window(alloc, first, device) {
        Ok(recovered) => recovered,
        Err(refusal) => return Err(refusal),
    };
    match copy_room(alloc, b"exported ", image.sizes.blocks) {
        Ok(room) => Ok(Ready { image, room }),
        Err(refusal) => Err(refusal),
    }
}

// Makes a plain file, once all memory is had, and copies the blocks to it.
fn make_copy<R: Files<File = File>, S: DeviceFile, O: Write, E: Write + IsTerminal>(
    raw: FilePlace<R>,
    image: &S,
    ready: &mut Ready,
    out: &mut O,
    err: &mut E,
) -> Result<LockedFile, Stopped<LeftFile>>
    requires { ready.old.room.line.items ≡ exported_text ready.old.image.sizes.blocks }
    ensures ok { IfOk result (λ copied. IsPlainCopy (S.holds image.now) (S.refuses image.now)
        ready.old.image.sizes ready.old.image.window.outbox (O.contents out.old)
        (O.contents out.new) (made_in raw.entry) (Some copied)) }
    ensures err { IfErr result (λ stopped. IsNoCopyMade (S.holds image.now) (S.refuses image.now)
        ready.old.image.sizes ready.old.image.window.outbox (O.contents out.old)
        (O.contents out.new) (made_in raw.entry) stopped.left stopped.refusal) }
{
    let mut plain = new_target(raw, ready.image.sizes.blocks)?;
    match export_watched(image, ready, &mut plain, err) {
        Ok(()) => say_done(plain, out, &ready.room),
        Err(fault) => Err(Stopped::with(refusal_of(fault), Some(plain))),
    }
}

// Has a plain file hold the blocks of an image, and tells on the way how far it is.
fn export_watched<S: DeviceFile, D: DeviceFile, E: Write + IsTerminal>(
    image: &S,
    ready: &mut Ready,
    to: &mut D,
    err: &mut E,
) -> Result<(), CopyFault>
    ensures ok { OnOk result (HasBlocks (S.holds image.now) ready.old.image.sizes
        ready.old.image.window.outbox (D.told to.old) (D.told to.new)) }
    ensures err { IfErr result (HasSomeBlocks (S.holds image.now) (S.refuses image.now)
        ready.old.image.sizes ready.old.image.window.outbox (D.told to.old) (D.told to.new)) }
    ensures size { (D.size to.new ≡ D.size to.old)
        × (ready.new.room.line ≡ ready.old.room.line) }
{
    let mut bar = Gauge::new(err);
    let buffer = &mut ready.room.buffer;
    let done = export_blocks(image, &mut ready.image, to, buffer, &mut bar);
    bar.end();
    done
}

// The file that refused a call: the image's, or the plain one.
fn refusal_of(fault: CopyFault) -> Refusal
    ensures { result ≡ export_refusal fault }
{
    match fault {
        CopyFault::From(fault) => Refusal::File(fault),
        CopyFault::To(fault) => Refusal::Target(fault),
    }
}

/// Recovers an image with these first sectors in a window over its file, which is asked for
/// nothing. What the recovery would write waits in the window then. Behind the first sectors the
/// device holds what the caller says, whatever that is.
///
/// # Errors
///
/// The fault of the image, and `NoMemory`. Where the first sectors begin with a super, and the file
/// has all sectors of its image, the fault is never that a call was refused.
pub fn recover_in_window(
    alloc: Global,
    first: FirstSectors,
    device: &DeviceHolds,
) -> Result<RecoveredImage, Refusal>
    ensures ok { IfOk result
        (λ image. IsRecoveredIn first device.now.bytes image.sizes image.window) }
    ensures err { IfErr result (IsNotRecoveredIn first device.now.bytes) }
{
    let room = room_to_recover(&first.sizes);
    let mut window = window_over(alloc, first, device, room)?;
    match recover(&mut window) {
        Ok(recovered) => Ok(RecoveredImage {
            window,
            sizes: recovered.sizes,
        }),
        Err(fault) => Err(Refusal::Image(fault)),
    }
}

/// How many calls a recovery of an image with such a super takes room for.
pub(crate) fn room_to_recover(sizes: &Option<Super>) -> usize
    ensures { result ≡ recovery_room sizes.now }
{
    let Some(sizes) = sizes else {
        return 1;
    };
    let room = u64::from(sizes.format.limit()) * sizes.slots + 4;
    room as usize
}

/// Has a plain file that was just made or emptied hold the blocks of an image, as a start would
/// serve them: those at home, and over them what waits in the window of its recovery. The image is
/// only read, as many sectors at once as the buffer has; a meter hears how many blocks it were.
///
/// # Errors
///
/// The first call that a file refused: a read of the blocks that come next, or one of the plain
/// file. Nothing was asked of either after that.
pub fn export_blocks<S: DeviceFile, D: DeviceFile, M: Meter>(
    file: &S,
    image: &mut RecoveredImage,
    plain: &mut D,
    buffer: &mut CopyBuffer,
    meter: &mut M,
) -> Result<(), CopyFault>
    ensures ok { OnOk result (HasBlocks (S.holds file.now) image.old.sizes image.old.window.outbox
        (D.told plain.old) (D.told plain.new)) }
    ensures err { IfErr result (HasSomeBlocks (S.holds file.now) (S.refuses file.now)
        image.old.sizes image.old.window.outbox (D.told plain.old) (D.told plain.new)) }
    ensures runs { ExportsInRuns D.told D.at_once plain.old plain.new }
    ensures size { D.size plain.new ≡ D.size plain.old }
{
    match copy_home(file, &image.sizes, plain, buffer, meter) {
        Ok(()) => {}
        Err(fault) => return Err(fault),
    }
    match carry_home(&mut image.window, &image.sizes, plain, &mut buffer.run) {
        Ok(()) => Ok(()),
        Err(fault) => Err(CopyFault::To(fault)),
    }
}

// Copies the blocks of an image as they lie at home.
fn copy_home<S: DeviceFile, D: DeviceFile, M: Meter>(
    image: &S,
    sizes: &Super,
    plain: &mut D,
    buffer: &mut CopyBuffer,
    meter: &mut M,
) -> Result<(), CopyFault>
    ensures { Copies D.told D.at_once D.size (S.holds image.now) (S.refuses image.now)
        sizes.now.home sizes.now.blocks 0 plain.old plain.new result }
{
    let range = CopyRange {
        first: sizes.home,
        count: sizes.blocks,
        at: 0,
    };
    copy_sectors(image, range, plain, buffer, meter)
}

// Has the plain file carry out what waits and goes home, and makes that durable.
fn carry_home<D: DeviceFile>(
    window: &mut WindowMedium,
    sizes: &Super,
    plain: &mut D,
    run: &mut Run,
) -> Result<(), FileFault>
    ensures goes { GoesThrough D.told D.size (going_home sizes.now window.old.outbox) plain.old
        plain.new result }
    ensures runs { GoesInRuns D.told D.at_once plain.old plain.new }
{
    match carry_moved(window, sizes.home, sizes.blocks, plain, run) {
        Ok(()) => make_durable(plain),
        Err(fault) => Err(fault),
    }
}

// Makes durable what a plain file was asked to write.
fn make_durable<D: DeviceFile>(plain: &mut D) -> Result<(), FileFault>
    ensures asks { AsksFor D.told D.size (Flush ∷ []) FileCall.Sync plain.old plain.new result }
    ensures once { D.at_once plain.old (Flush ∷ []) plain.new }
{
    plain.sync()
}
