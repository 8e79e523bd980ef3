//! What a disk is asked, and what it answers by number.
ghost use Rattle.disk_machine.specs.Plays.{Foresees, PlaysPending, PlaysStill, PlaysWork, Sees};
ghost use Rattle.disk_machine.specs.Plays.{TellsAnswer, medium_of};
ghost use Rattle.disk_machine.specs.Codes.{code_of};
ghost use Rattle.spec.specs.declared.event.Answer.{Answer};
ghost use Rattle.spec.specs.declared.event.Event.TheVariants as event;
ghost use Rattle.std.specs.Prelude.{◌≡◌, ◌≤◌, length};

use crate::codes::{ACK, NAK, STALL};
use bot_machine::{LaggingDisk, OutAnswer, SetupAnswer, Work};
use medium::Medium;
use window::{WindowMedium, device_laws};

// Does nothing. The laws of the outbox say of all that may come what it is for the device, and that
// none of it is refused for which there is room.
pub(crate) fn foresee(disk: &LaggingDisk<WindowMedium>)
    ensures { Foresees (medium_of disk.now) }
{
    let _waiting = disk.medium().waiting();
    device_laws();
}

/// Plays a packet that is no longer than those of the disk.
#[inline]
pub(crate) fn play_packet(disk: &mut LaggingDisk<WindowMedium>, packet: &[u8]) -> u32
    requires { length packet.now ≤ disk.old.disk.line.packet_size }
    ensures { (answer : Answer)
        × PlaysStill disk.old (event.Out (record { items = packet.now })) answer disk.new
        × (result ≡ code_of answer) }
{
    match disk.bulk_out(packet) {
        OutAnswer::Ack => ACK,
        OutAnswer::Nak => NAK,
        OutAnswer::Stall => STALL,
    }
}

/// Sectors as the device holds them.
pub(crate) fn show_sectors(disk: &mut LaggingDisk<WindowMedium>, first: u64, bytes: &[u8]) -> bool
    ensures { Sees disk.old first bytes.now disk.new result }
{
    disk.show(first, bytes)
}

/// A control request.
pub(crate) fn answer_request(
    disk: &mut LaggingDisk<WindowMedium>,
    packet: &[u8; 8],
    to: &mut [u8; 2],
    size: &mut u32,
) -> u32
    ensures { (answer : Answer) × PlaysStill disk.old (event.Setup packet.now) answer disk.new
        × TellsAnswer answer to.old to.new size.new result }
{
    *size = 0;
    match disk.setup(*packet) {
        SetupAnswer::Ack => ACK,
        SetupAnswer::Byte(byte) => {
            to[0] = byte;
            *size = 1;
            ACK
        }
        SetupAnswer::Two(bytes) => {
            to[..2].copy_from_slice(&bytes);
            *size = 2;
            ACK
        }
        SetupAnswer::Stall => STALL,
    }
}

/// A step in the background that works towards this, where nothing is pending.
pub(crate) fn make_step(disk: &mut LaggingDisk<WindowMedium>, work: Work)
    ensures { PlaysWork work disk.old disk.new }
{
    foresee(disk);
    disk.work(work);
}

/// One step of the command that is pending.
pub(crate) fn step_pending(disk: &mut LaggingDisk<WindowMedium>)
    ensures { PlaysPending disk.old disk.new }
{
    foresee(disk);
    disk.go_on();
}
