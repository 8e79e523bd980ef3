//! What is in an image is told, and nothing is written to it.
ghost use Rattle.std.specs.Prelude.{OnOk, IfOk, IfErr};
ghost use Rattle.usbdisk.specs.images.Program.{IsShow, IsShowRefused};
ghost use Rattle.usbdisk.specs.images.Showing.{IsShown, IsNotShown, IsShownOf, IsNotShownOf};

use crate::console::{LeftFile, Refusal, Stopped, write_out};
use crate::images::opening::{first_of, open_file, window_over};
use crate::images::text::text_of;
use device_file::{DeviceFile, FirstSectors};
use medium::Access;
use recovery::inspect;
use std::alloc::Global;
use std::fs::{File, Files};
use std::io::Write;
use window::DeviceHolds;

/// Tells what is in an image file, which is asked for nothing.
#[inline(never)]
pub(crate) fn show<R: Files<File = File> + AllocGlobal, O: Write>(
    rt: &R,
    image: &str,
    device: &DeviceHolds,
    out: &mut O,
) -> Result<LeftFile, Stopped<LeftFile>>
    ensures done { IfOk result (IsShow image.now device.now.bytes (O.contents out.old)
        (O.contents out.new)) }
    ensures refused { IfErr result (λ stopped. IsShowRefused image.now device.now.bytes
        (O.contents out.old) (O.contents out.new) stopped.left stopped.refusal) }
{
    let file = open_file(rt, image, Access::Look)?;
    match show_file(rt.alloc(), &file, device, out) {
        Ok(()) => Ok(Some(file)),
        Err(refusal) => Err(Stopped::with(refusal, Some(file))),
    }
}

/// Tells what is in the image of a file, of which the first sectors are read, and nothing else.
/// Behind them the device holds what the caller says, whatever that is.
///
/// # Errors
///
/// The read that was refused, the fault of the image, `NoMemory`, and `Streams` where not all was
/// written.
pub fn show_file<D: DeviceFile, O: Write>(
    alloc: Global,
    file: &D,
    device: &DeviceHolds,
    out: &mut O,
) -> Result<(), Refusal>
    ensures ok { OnOk result (IsShownOf (D.holds file.now) (D.size file.now) device.now.bytes
        (O.contents out.old) (O.contents out.new)) }
    ensures err { IfErr result (IsNotShownOf (D.holds file.now) (D.size file.now) device.now.bytes
        (O.contents out.old) (O.contents out.new) (D.refuses file.now)) }
{
    let first = match first_of(alloc, file) {
        Ok(first) => first,
        Err(refusal) => return Err(refusal),
    };
    match show_first(alloc, first, device, out) {
        Ok(()) => Ok(()),
        Err(refusal) => Err(refusal),
    }
}

// Tells what the first sectors of an image say.
fn show_first<O: Write>(
    alloc: Global,
    first: FirstSectors,
    device: &DeviceHolds,
    out: &mut O,
) -> Result<(), Refusal>
    ensures ok { OnOk result (IsShown first device.now.bytes (O.contents out.old)
        (O.contents out.new)) }
    ensures err { IfErr result (IsNotShown first device.now.bytes (O.contents out.old)
        (O.contents out.new)) }
{
    let mut window = window_over(alloc, first, device, 0)?;
    let found = match inspect(&mut window) {
        Ok(found) => found,
        Err(fault) => return Err(Refusal::Image(fault)),
    };
    let Ok(text) = text_of(alloc, &found) else {
        return Err(Refusal::NoMemory);
    };
    match write_out(out, &text) {
        Ok(()) => Ok(()),
        Err(_) => Err(Refusal::Streams),
    }
}
