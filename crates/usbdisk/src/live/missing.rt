//! Which sectors of a file a disk is to be shown before it takes a packet.
ghost use Rattle.std.specs.Prelude.{◌≡◌, IfSome, None};
ghost use Rattle.usbdisk.specs.live.Missing.{Wants, WantsNone};

use crate::live::file::FileWindow;
use bot_machine::Disk;
use device_file::DeviceFile;
use window::DeviceRead;

/// The home sectors of the blocks that this packet has read, as far as they are not in memory,
/// where not all of them are.
pub(crate) fn missing_for<D: DeviceFile>(
    disk: &Disk<FileWindow<D>>,
    packet: &[u8],
) -> Option<DeviceRead>
    ensures some { IfSome result (λ asked. Wants disk.now packet.now asked.first asked.count) }
    ensures none { result ≡ None → WantsNone disk.now packet.now }
{
    match disk.home_sectors(packet) {
        Some(home) => disk.medium().window().lacking(home.first, home.count),
        None => None,
    }
}
