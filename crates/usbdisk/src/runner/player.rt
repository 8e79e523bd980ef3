//! What plays events, one after another, and answers them.
ghost use Rattle.std.specs.Prelude.{◌≡◌, ℕ, List, [], ◌∷◌, IfSome, IfNone};
ghost use Rattle.bot_machine.specs.Fitting.{IsWithin};
ghost use Rattle.spec.specs.Packets.{bytes_of};
ghost use Rattle.spec.specs.declared.event.Answer.{Answer};
ghost use Rattle.spec.specs.declared.event.Event.{Event};
ghost use Rattle.usbdisk.specs.runner.Players.{IsPlayer};

use bot_machine::{Answer, Disk, Event, PacketSize, answer_to};
use medium::Medium;
use thiserror::Error;

/// Why lines were not served to their end by a player.
#[derive(Clone, Copy, Debug, PartialEq, Eq, Error)]
pub enum ServeFault {
    /// The first line that is none of a script, counted from 1. The lines before it were answered.
    #[error("line {0}: not a script line")]
    Line(u64),
    /// The reader failed. All whole lines that it gave were answered.
    #[error("the lines were not read")]
    Reader,
    /// The writer failed. Nothing was played behind the event whose answer was not written.
    #[error("an answer was not written")]
    Writer,
    /// The player had no answer to an event. Of that one nothing was written.
    #[error("an event has no answer")]
    Player,
}

/// What plays events, as a disk does. It may have no answer to one, and is played no more then.
pub trait Player {
    /// The second comes after the first by these events, and these were the answers.
    ghost goes: { Self → List Event → List Answer → Self → Type 0 };

    /// The second comes after the first by this event, to which there was no answer.
    ghost stops: { Self → Event → Self → Type 0 };

    /// The most bytes of a packet.
    ghost most: { Self → ℕ };

    /// The size of packets.
    fn longest_packet(&self) -> PacketSize
        ensures { bytes_of result ≡ most self.now };

    /// Plays one event, whose packet, if it is one, is not too long.
    fn play(&mut self, event: &Event) -> Option<Answer>
        requires { IsWithin (most self.old) event.now }
        ensures played { IfSome result (λ answer.
            goes self.old (event.now ∷ []) (answer ∷ []) self.new) }
        ensures stopped { IfNone result (stops self.old event.now self.new) };

    ghost laws: { IsPlayer goes most };
}

// A disk answers each event.
impl<M: Medium> Player for Disk<M> {
    ghost use Rattle.usbdisk.specs.runner.DiskLaws.{disk_plays};
    ghost use Rattle.usbdisk.specs.runner.Played.{StepsOn, HasNoAnswer, packets_of};

    ghost goes = { StepsOn M.state M.follows };

    ghost stops = { HasNoAnswer };

    ghost most = { packets_of };

    ghost laws = { disk_plays M.state M.follows M.follows_itself M.follows_through };

    fn longest_packet(&self) -> PacketSize {
        match self.packet_size() {
            64 => PacketSize::Full64,
            _ => PacketSize::High512,
        }
    }

    fn play(&mut self, event: &Event) -> Option<Answer> {
        Some(answer_to(self, event))
    }
}
