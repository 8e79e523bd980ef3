//! Events played on a disk.
ghost use Rattle.std.specs.Prelude.{◌≡◌, ◌≢◌, ◌≤◌, ◌+◌, ◌++◌, List, length};
ghost use Rattle.scsi_unit.specs.Calls.{ComesBy};
ghost use Rattle.bot_machine.specs.Disk.{IsStep, PlaysEvents};
ghost use Rattle.bot_machine.specs.Fitting.{IsWithin, AreWithin};
ghost use Rattle.spec.specs.declared.event.Answer.{Answer};
ghost use Rattle.spec.specs.declared.event.Answer.TheVariants as answer;

use crate::answers::Answers;
use crate::disk::Disk;
use crate::event::InAnswer;
use arrayvec::ArrayVec;
use medium::Medium;
use spec::{Answer, Event};

/// Plays one event, and gives the answer. Its packet, if it is one, is no longer than those of the
/// disk.
pub fn answer_to<M: Medium>(disk: &mut Disk<M>, event: &Event) -> Answer
    requires { IsWithin disk.old.line.packet_size event.now }
    ensures step { IsStep (M.state disk.old.unit.store.medium)
        (M.state disk.new.unit.store.medium) disk.old event.now result disk.new }
    ensures follows { ComesBy M.state M.follows disk.old.unit.store disk.new.unit.store }
    ensures on { result ≢ answer.Off }
{
    match event {
        Event::Out(packet) => Answer::from(disk.bulk_out(packet.as_slice())),
        Event::In => match disk.bulk_in() {
            InAnswer::Data(packet) => Answer::Data(ArrayVec::try_from(packet).unwrap()),
            InAnswer::Nak => Answer::Nak,
            InAnswer::Stall => Answer::Stall,
        },
        Event::Setup(packet) => Answer::from(disk.setup(*packet)),
        Event::Tick => {
            disk.tick();
            Answer::Ticked
        }
    }
}

/// Plays events in order, and appends an answer to each. Their packets are no longer than those of
/// the disk.
pub fn run_events<M: Medium>(disk: &mut Disk<M>, events: &[Event], answers: &mut Answers)
    requires within { AreWithin disk.old.line.packet_size events.now }
    requires room { length answers.old.list + length events.now ≤ answers.old.room }
    ensures { (told : List Answer)
        × (answers.new ≡ record answers.old { list = answers.old.list ++ told })
        × PlaysEvents M.state M.follows disk.old events.now told disk.new }
{
    for event in events {
        answers.push(answer_to(disk, event));
    }
}
