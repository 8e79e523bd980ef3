//! Whole transfers: the packets of an endpoint, one after the other.
ghost use Rattle.std.specs.Prelude.{◌≡◌, ◌⊎◌, ◌↔◌, ℕ, ◌*◌, ◌<◌, ◌≤◌, length};
ghost use Rattle.disk_machine.specs.Transfers.{TakesTransfer, SendsToken, SendsTransfer};
ghost use Rattle.disk_machine.specs.Transfers.{SendsInto, TakesAmid, SendsAmid};

use crate::codes::{ACK, BAD_LENGTH};
use crate::machine::DiskMachine;
use crate::packets::lack_after;
use crate::tokens::give_packet;

impl DiskMachine {
    /// A transfer to Bulk-Out, or a part of one that ends where a packet does: each packet as many
    /// bytes as a packet has, the last maybe fewer; no bytes are one empty packet. `taken` tells
    /// how many bytes were taken. The number of the answer: ACK where all were, and else that of
    /// the first packet that was not, NAK or STALL.
    pub fn take_transfer(&mut self, bytes: &[u8], taken: &mut usize) -> u32
        ensures { TakesTransfer self.old bytes.now self.new taken.new result }
    {
        let most = self.disk.disk().packet_size() as usize;
        for number in self.take_run(bytes)..count_of(bytes.len(), most) {
            let at = number * most;
            let size = most.min(bytes.len() - at);
            let code = self.take_packet(&bytes[at..at + size]);
            if code != ACK {
                *taken = at;
                return code;
            }
        }
        *taken = bytes.len();
        ACK
    }

    /// Tokens to Bulk-In, as long as packets of the greatest size come and the room has place for a
    /// further one. Their bytes lie one behind the other at its front, and `given` tells how many
    /// they are. The number of the answer: ACK where a packet came, also an empty one, and else
    /// that of the token, NAK or STALL; `BAD_LENGTH`, and nothing changes, where no packet has
    /// place.
    pub fn send_transfer(&mut self, room: &mut [u8], given: &mut usize) -> u32
        ensures { SendsInto self.old room.old given.old self.new room.new given.new result }
    {
        if room.len() < self.disk.disk().packet_size() as usize {
            return BAD_LENGTH;
        }
        self.fill(room, given)
    }

    // The same, of a room of any size.
    fn fill(&mut self, room: &mut [u8], given: &mut usize) -> u32
        ensures { SendsTransfer self.old room.old self.new room.new given.new result }
    {
        let most = self.disk.disk().packet_size() as usize;
        let places = room.len() / most;
        for count in self.give_run(room)..places {
            let at = count * most;
            let mut size = 0;
            let told = self.token(&mut room[at..], &mut size);
            if told != ACK {
                *given = at;
                return if count == 0 { told } else { ACK };
            }
            if size < most {
                *given = at + size;
                return ACK;
            }
        }
        *given = places * most;
        ACK
    }

    // The first packets, as far as they lie in the midst of data: all by one copy. None of them
    // begins a command.
    fn take_run(&mut self, bytes: &[u8]) -> usize
        ensures { TakesAmid self.old bytes.now self.new result }
    {
        if self.is_pending() {
            return 0;
        }
        let count = self.disk.bulk_out_run(bytes);
        if count > 0 {
            self.lack = lack_after(self.lack);
        }
        count
    }

    // The first packets of data that is sent, but the last: all by one copy.
    fn give_run(&mut self, room: &mut [u8]) -> usize
        ensures { SendsAmid self.old room.old self.new room.new result }
    {
        self.disk.bulk_in_run(room)
    }

    // A token to Bulk-In, whose packet goes to the front of a room in which the greatest has place.
    fn token(&mut self, to: &mut [u8], size: &mut usize) -> u32
        requires { self.old.disk.disk.line.packet_size ≤ length to.old }
        ensures { SendsToken self.old to.old self.new to.new size.new result }
    {
        give_packet(&mut self.disk, to, size)
    }
}

// How many packets a transfer of so many bytes has.
fn count_of(bytes: usize, most: usize) -> usize
    requires { 0 < most }
    ensures { (number : ℕ) → (number < result) ↔ ((number ≡ 0) ⊎ (number * most < bytes)) }
{
    if bytes == 0 {
        return 1;
    }
    (bytes - 1) / most + 1
}
