//! What a machine does with a packet to Bulk-Out.
ghost use Rattle.std.specs.Prelude.{◌≡◌};
ghost use Rattle.disk_machine.specs.Packets.{HasSize, PlaysOut, TakesOne, TakesOut, lack_after};

use crate::codes::TOO_LONG;
use crate::lack::Lack;
use crate::machine::DiskMachine;
use crate::play::play_packet;

impl DiskMachine {
    /// A packet to Bulk-Out, and the number of its answer. It is acknowledged once its bytes are
    /// all there, and its command is pending while the device works for it: then each further
    /// packet is told to come again.
    pub fn bulk_out(&mut self, packet: &[u8]) -> u32
        ensures { TakesOut self.old packet.now self.new result }
    {
        if packet.len() > self.disk.disk().packet_size() as usize {
            return TOO_LONG;
        }
        self.take_packet(packet)
    }

    /// The same of a packet that is no longer than those of the disk.
    pub(crate) fn take_packet(&mut self, packet: &[u8]) -> u32
        requires { HasSize self.old packet.now }
        ensures { TakesOne self.old packet.now self.new result }
    {
        self.play(packet)
    }

    // Plays a packet, and goes on with the command that it begins.
    fn play(&mut self, packet: &[u8]) -> u32
        requires { HasSize self.old packet.now }
        ensures { PlaysOut self.old packet.now self.new result }
    {
        let code = play_packet(&mut self.disk, packet);
        self.lack = lack_after(self.lack);
        self.go_on();
        code
    }
}

/// What a packet leaves of a read that has ended: nothing.
pub(crate) fn lack_after(was: Lack) -> Lack
    ensures { result ≡ lack_after was }
{
    match was {
        Lack::Ahead(home) => Lack::Ahead(home),
        Lack::Nothing | Lack::Ended | Lack::Unread(_) => Lack::Nothing,
    }
}
