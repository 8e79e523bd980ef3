//! A disk starts on an open file.
ghost use Rattle.std.specs.Prelude.{◌≡◌, None, IfOk, IfErr, length};
ghost use Rattle.spec.specs.Packets.{bytes_of};
ghost use Rattle.usbdisk.specs.live.Missing.{medium_of};
ghost use Rattle.usbdisk.specs.live.Starting.{HasNoWindow, IsCarried, IsNotStartedOn, IsRefusedOf};
ghost use Rattle.usbdisk.specs.live.Starting.{IsRefusedStart, IsStarted};
ghost use Rattle.usbdisk.specs.live.Starting.{IsStartedOn, IsWindowOf, room_for};
ghost use Rattle.usbdisk.specs.live.Ready.{IsReadyToStart, room_of};

use crate::console::{Refusal, Stopped};
use crate::live::file::FileWindow;
use crate::live::player::{FileDisk, TRANSFER};
use crate::runner::disk_identity;
use bot_machine::{Disk, PacketSize, Retiring};
use device_file::{DeviceFile, FirstSectors, Run};
use journal::Super;
use medium::Outlet;
use std::alloc::{AllocError, Global};
use window::{DeviceHolds, WindowMedium};

/// The most sectors that are in sight at once behind the first ones: those of the longest transfer.
const SPAN: u32 = 240;

/// As many writes and flushes as a start makes at most where no disk can start: it flushes.
const ROOM_WITHOUT_IMAGE: usize = 1;

/// Of a disk on an open file: which device it is over, of which the file has the first sectors, and
/// how many bytes its packets have at most.
#[derive(Clone, Copy)]
pub struct DiskOptions<'a> {
    pub device: &'a DeviceHolds,
    pub size: PacketSize,
}

/// A disk that has started on an open file, once the file has carried out what the start sent.
pub(crate) fn start_on<D: DeviceFile>(
    alloc: Global,
    file: D,
    options: DiskOptions,
) -> Result<FileDisk<D>, Stopped<D>>
    ensures started { IfOk result (IsStartedOn D.told D.at_once D.holds D.size
        options.entry.device.now.bytes (bytes_of options.entry.size) file) }
    ensures refused { IfErr result (λ stopped. IsNotStartedOn D.told D.at_once D.holds D.size
        options.entry.device.now.bytes (bytes_of options.entry.size) file D.refuses stopped.left
        stopped.refusal) }
{
    let window = match window_over(alloc, &file, options.device) {
        Ok(window) => window,
        Err(refusal) => return Err(Stopped::with(refusal, file)),
    };
    let (bytes, run) = match memory(alloc) {
        Ok(memory) => memory,
        Err(_) => return Err(Stopped::with(Refusal::NoMemory, file)),
    };
    match start_disk(alloc, FileWindow::new(window, file, run), options.size) {
        Ok(disk) => Ok(FileDisk::new(disk, bytes)),
        Err(stopped) => Err(stopped),
    }
}

// A window over a file, of which the first sectors are read.
fn window_over<D: DeviceFile>(
    alloc: Global,
    file: &D,
    device: &DeviceHolds,
) -> Result<WindowMedium, Refusal>
    ensures ok { IfOk result (IsWindowOf D.holds D.size device.now.bytes file.now) }
    ensures err { IfErr result (HasNoWindow (D.refuses file.now) (D.size file.now)) }
{
    let first = match FirstSectors::read(alloc, file) {
        Ok(first) => first,
        Err(fault) => return Err(Refusal::from(fault)),
    };
    let room = room_to_serve(&first.sizes, first.sectors);
    match first.into_window(alloc, device, SPAN, room) {
        Ok(window) => Ok(window),
        Err(_) => Err(Refusal::NoMemory),
    }
}

// How many calls an outbox must have room for, over a file of `sectors` sectors with such a super.
fn room_to_serve(sizes: &Option<Super>, sectors: u64) -> usize
    ensures { result ≡ room_for sectors sizes.now }
{
    let Some(sizes) = sizes else {
        return ROOM_WITHOUT_IMAGE;
    };
    if sizes.sectors() > sectors {
        return ROOM_WITHOUT_IMAGE;
    }
    room_with(sizes)
}

// The same, over a file that has all sectors of this super.
fn room_with(sizes: &Super) -> usize
    ensures { result ≡ room_of sizes.now.format sizes.now.slots }
{
    let to_start = u64::from(sizes.format.limit()) * sizes.slots + 4;
    to_start.max(3 * sizes.format.record_calls()) as usize
}

// The memory for what one packet has read, and for the longest write.
fn memory(alloc: Global) -> Result<(Vec<u8>, Run), AllocError>
    ensures { IfOk result (λ memory. length memory.0.items ≡ 122880) }
{
    let bytes = vec![in alloc; 0; TRANSFER]?;
    let run = Run::new(alloc)?;
    Ok((bytes, run))
}

// A disk that has started on a window over a file, which then carries out what waits there, and
// that retires ahead. No call of the start is refused. Where the image is, the file is asked for
// nothing.
fn start_disk<D: DeviceFile>(
    alloc: Global,
    medium: FileWindow<D>,
    size: PacketSize,
) -> Result<Disk<FileWindow<D>>, Stopped<D>>
    requires { IsReadyToStart medium.window }
    ensures started { IfOk result (IsStarted D.told D.at_once (bytes_of size) medium) }
    ensures refused { IfErr result (λ stopped. IsRefusedStart D.told D.at_once (bytes_of size)
        medium stopped.left stopped.refusal) }
{
    match Disk::start_by(alloc, medium, disk_identity(), size, Retiring::Ahead) {
        Ok(disk) => carry_start(disk),
        Err(error) => Err(Stopped::with(Refusal::Image(error.fault), error.medium.into_file())),
    }
}

// Has the file carry out what the start of a disk sent.
fn carry_start<D: DeviceFile>(
    mut disk: Disk<FileWindow<D>>,
) -> Result<Disk<FileWindow<D>>, Stopped<D>>
    ensures ok { IfOk result (λ carried. IsCarried D.told D.at_once disk carried
        × ((medium_of carried).fault ≡ None)) }
    ensures err { IfErr result (λ stopped.
        IsRefusedOf (IsCarried D.told D.at_once disk) stopped.left stopped.refusal) }
{
    disk.pop();
    match disk.medium().fault() {
        None => Ok(disk),
        Some(fault) => Err(Stopped::with(Refusal::File(fault), disk.into_medium().into_file())),
    }
}
