//! What a machine does with tokens and requests.
ghost use Rattle.std.specs.Prelude.{◌≡◌, ◌≤◌, ℕ, List, length};
ghost use Rattle.disk_machine.specs.Packets.{SendsIn, AnswersSetup};
ghost use Rattle.disk_machine.specs.Plays.{PlaysStill, TellsAnswer};
ghost use Rattle.spec.specs.declared.event.Answer.{Answer};
ghost use Rattle.spec.specs.declared.event.Event.TheVariants as event;

use crate::codes::{ACK, NAK, STALL};
use crate::machine::DiskMachine;
use crate::play::answer_request;
use bot_machine::{InAnswer, LaggingDisk};
use window::WindowMedium;

impl DiskMachine {
    /// A token to Bulk-In: the packet to send, how many bytes it has, and the number of the answer.
    /// While a command is pending it is told to come again.
    pub fn bulk_in(&mut self, to: &mut [u8; 512], size: &mut u32) -> u32
        ensures { SendsIn self.old to.old self.new to.new size.new result }
    {
        // The disk says here how many bytes a packet has at most.
        let _most = self.disk.disk().packet_size();
        let mut given = 0;
        let code = give_packet(&mut self.disk, to, &mut given);
        *size = given as u32;
        code
    }

    /// A control request, at any time: the bytes that answer it, how many they are, and the number
    /// of the answer. A mass storage reset drops the command that is pending.
    pub fn setup(&mut self, packet: &[u8; 8], to: &mut [u8; 2], size: &mut u32) -> u32
        ensures { AnswersSetup self.old packet.now to.old self.new to.new size.new result }
    {
        answer_request(&mut self.disk, packet, to, size)
    }
}

/// A token of a disk, whose packet is copied once, to the front of a room in which the greatest has
/// place.
pub(crate) fn give_packet(
    disk: &mut LaggingDisk<WindowMedium>,
    to: &mut [u8],
    size: &mut usize,
) -> u32
    requires { disk.old.disk.line.packet_size ≤ length to.old }
    ensures { (answer : Answer) × PlaysStill disk.old event.In answer disk.new
        × TellsAnswer answer to.old to.new size.new result
        × (size.new ≤ disk.old.disk.line.packet_size) }
{
    *size = 0;
    match disk.bulk_in() {
        InAnswer::Data(packet) => {
            to[..packet.len()].copy_from_slice(packet);
            *size = packet.len();
            ACK
        }
        InAnswer::Nak => NAK,
        InAnswer::Stall => STALL,
    }
}
