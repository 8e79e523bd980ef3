//! Files that are there: they are opened, and of an image the first sectors are read.
ghost use Rattle.std.specs.Prelude.{◌≡◌, IfOk, IfErr};
ghost use Rattle.medium.specs.declared.file_call.Access.TheVariants.{Look};
ghost use Rattle.device_file.specs.FileValue.{IsOpened};
ghost use Rattle.usbdisk.specs.images.Opened.{
  HasFirst,
  HasNoFirst,
  IsPlainUnopened,
  IsUnmade,
  IsWindowOver,
};

use crate::console::{LockedFile, Refusal, guard_streams};
use device_file::{DeviceFile, FileCall, FileFault, FirstSectors};
use medium::Access;
use std::alloc::Global;
use std::fs;
use std::fs::{File, Files};
use std::io::ErrorKind;
use window::{DeviceHolds, WindowMedium};

/// The first sectors of a file, as its reads give them.
pub(crate) fn first_of<D: DeviceFile>(alloc: Global, file: &D) -> Result<FirstSectors, Refusal>
    ensures ok { IfOk result (HasFirst (D.holds file.now) (D.size file.now)) }
    ensures err { IfErr result (HasNoFirst (D.refuses file.now) (D.size file.now)) }
{
    match FirstSectors::read(alloc, file) {
        Ok(first) => Ok(first),
        Err(fault) => Err(Refusal::from(fault)),
    }
}

/// The plain file at this path, which is locked, to be read alone. It is asked for nothing.
pub(crate) fn open_plain<R: Files<File = File>>(rt: &R, path: &str) -> Result<LockedFile, Refusal>
    ensures ok { IfOk result (λ plain. IsOpened path.now Look plain) }
    ensures err { IfErr result IsPlainUnopened }
{
    match open_file(rt, path, Access::Look) {
        Ok(file) => Ok(file),
        Err(Refusal::File(fault)) => Err(Refusal::Plain(fault)),
        Err(_) => Err(Refusal::Streams),
    }
}

/// The file at this path, which is opened for this and locked. It is asked for nothing.
pub(crate) fn open_file<R: Files<File = File>>(
    rt: &R,
    path: &str,
    access: Access,
) -> Result<LockedFile, Refusal>
    ensures ok { IfOk result (λ file. IsOpened path.now access file) }
    ensures err { IfErr result IsUnmade }
{
    let Some(_streams) = guard_streams(rt) else {
        return Err(Refusal::Streams);
    };
    let opened = match access {
        Access::Look => open_to_read(rt, path),
        _ => device_file::open(rt, path, access),
    };
    match opened {
        Ok(file) => Ok(file),
        Err(fault) => Err(Refusal::File(fault)),
    }
}

// The file at this path, to be read alone. What is no plain file is refused before it is opened: a
// pipe would wait for a writer.
fn open_to_read<R: Files<File = File>>(rt: &R, path: &str) -> Result<LockedFile, FileFault>
    ensures { IfOk result (λ looked. IsOpened path.now Look looked) }
{
    match fs::metadata(rt, path) {
        Ok(metadata) if !metadata.is_file() => Err(FileFault {
            call: FileCall::Length,
            cause: ErrorKind::InvalidInput,
        }),
        _ => device_file::open(rt, path, Access::Look),
    }
}

/// A window over a file with these first sectors, with room for `room` calls. Of the others, which
/// the device is thought to hold, none is ever shown.
pub(crate) fn window_over(
    alloc: Global,
    first: FirstSectors,
    device: &DeviceHolds,
    room: usize,
) -> Result<WindowMedium, Refusal>
    ensures ok { IfOk result (IsWindowOver first device.now.bytes room) }
    ensures err { IfErr result (λ refusal. refusal ≡ Refusal.NoMemory) }
{
    match first.into_window(alloc, device, 0, room) {
        Ok(window) => Ok(window),
        Err(_) => Err(Refusal::NoMemory),
    }
}
