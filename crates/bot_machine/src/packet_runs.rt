//! Packets in the midst of data, many at once. They stand apart from one packet, whose code is
//! short.
ghost use Rattle.std.specs.Prelude.{◌≡◌, ◌<◌};
ghost use Rattle.bot_machine.specs.PacketRuns.{packets_amid, GivesRun, TakesRun};

use crate::bulk_out::take_more;
use crate::bulk_state::Phase;
use crate::disk::Disk;
use medium::Medium;

// How many packets of this size lie in so much room, each with more of so many bytes behind it.
fn packets_amid(size: usize, bytes: usize, room: usize) -> usize
    requires size { 0 < size }
    requires some { 0 < bytes }
    ensures { result ≡ packets_amid size bytes room }
{
    ((bytes - 1) / size).min(room / size)
}

impl<M: Medium> Disk<M> {
    /// Gives packets that are to be sent, as so many tokens to Bulk-In would, but by one copy: all
    /// but the last, as far as the room has place for them. They lie one behind the other at its
    /// front. The answer is how many they are: none where Bulk-In is halted, or nothing is sent.
    pub fn bulk_in_run(&mut self, room: &mut [u8]) -> usize
        ensures { GivesRun self.old room.old self.new room.new result }
    {
        if self.bulk.in_halted {
            return 0;
        }
        match self.bulk.phase {
            Phase::DataIn { from, to, halt } => {
                let size = self.bulk.size.bytes() as usize;
                let count = packets_amid(size, to - from, room.len());
                let end = from + count * size;
                self.bulk.phase = Phase::DataIn {
                    from: end,
                    to,
                    halt,
                };
                room[..end - from].copy_from_slice(&self.transfer[from..end]);
                count
            }
            _ => 0,
        }
    }

    /// Takes packets of the greatest size from the front of these bytes, as Bulk-Out would one by
    /// one, but by one copy: all that they have, as far as more data is due behind each. The answer
    /// is how many they are: none where Bulk-Out is halted, or no data is expected.
    pub fn bulk_out_run(&mut self, bytes: &[u8]) -> usize
        ensures { TakesRun self.old bytes.now self.new result }
    {
        if self.bulk.out_halted {
            return 0;
        }
        let size = self.bulk.size.bytes() as usize;
        match &mut self.bulk.phase {
            Phase::DataOut(pending) if pending.due > 0 => {
                let count = packets_amid(size, pending.due as usize, bytes.len());
                let run = &bytes[..count * size];
                take_more(pending, &mut self.transfer, run, run.len() as u32);
                count
            }
            _ => 0,
        }
    }
}
