//! The lines of an input are served on an open file.
ghost use Rattle.std.specs.Prelude.{◌≡◌, Option, IfOk, IfErr};
ghost use Rattle.spec.specs.Packets.{bytes_of};
ghost use Rattle.usbdisk.specs.live.Serving.{IsServedOn, IsNotServedOn, refusal_of_serving};

use crate::console::{Refusal, Stopped};
use crate::live::starting::{DiskOptions, start_on};
use crate::live::streams::Streams;
use crate::runner::{ServeFault, serve_player};
use device_file::{DeviceFile, FileFault};
use std::alloc::Global;
use std::io::{Read, Write};

/// Starts a disk on an open file and serves the lines of an input, each before more is read. Behind
/// the start, and behind each event before it is answered, the file carries out what was sent. The
/// file comes back with exactly what it was asked. What stands behind its first sectors is whatever
/// the caller says: nothing is read of that here.
///
/// # Errors
///
/// Why no disk started, and then nothing was read or written; or why the input was not served to
/// its end. A refused read of the first sectors is one that the file refused.
pub fn serve_file<D: DeviceFile, I: Read, O: Write>(
    alloc: Global,
    file: D,
    options: DiskOptions,
    streams: &mut Streams<I, O>,
) -> Result<D, Stopped<D>>
    ensures served { IfOk result (IsServedOn D.told D.at_once D.holds D.refuses D.size
        options.entry.device.now.bytes (bytes_of options.entry.size) file
        (O.contents streams.old.out) (O.contents streams.new.out) (I.remaining streams.old.input)
        (I.remaining streams.new.input)) }
    ensures refused { IfErr result (λ stopped. IsNotServedOn D.told D.at_once D.holds D.refuses
        D.size options.entry.device.now.bytes (bytes_of options.entry.size) file
        (O.contents streams.old.out) (O.contents streams.new.out) (I.remaining streams.old.input)
        (I.remaining streams.new.input) stopped.left stopped.refusal) }
{
    let mut disk = match start_on(alloc, file, options) {
        Ok(disk) => disk,
        Err(stopped) => return Err(stopped),
    };
    match serve_player(&mut disk, &mut streams.input, &mut streams.out) {
        Ok(()) => Ok(disk.into_file()),
        Err(fault) => Err(Stopped::with(refusal_of(fault, disk.fault()), disk.into_file())),
    }
}

// Why lines were not served to their end, given the call that the file refused.
fn refusal_of(fault: ServeFault, why: Option<FileFault>) -> Refusal
    ensures { result ≡ refusal_of_serving fault why }
{
    match (fault, why) {
        (ServeFault::Line(number), _) => Refusal::Line(number),
        (ServeFault::Reader, _) => Refusal::Input,
        (ServeFault::Writer, _) => Refusal::Output,
        (ServeFault::Player, Some(why)) => Refusal::File(why),
        (ServeFault::Player, None) => Refusal::Output,
    }
}
