//! The events of a line, one after another.
ghost use Rattle.std.specs.Prelude.{◌≡◌, ◌≤◌, replicate};
ghost use Rattle.std.specs.Iterator.{YieldsFirst, item_count};
ghost use Rattle.usbdisk.specs.runner.Events.{events_of};

use crate::runner::line::ScriptLine;
use arrayvec::ArrayVec;
use bot_machine::{Event, PacketSize};
use std::mem;

/// Gives the events that a line plays. What is left of them is again what a line asks for.
impl Iterator for ScriptLine {
    type Item = Event;

    ghost next_gives = { YieldsFirst events_of };

    ghost remaining = { item_count events_of };

    fn next(&mut self) -> Option<Event> {
        match mem::replace(self, ScriptLine::Skipped) {
            ScriptLine::Out(packet) => Some(Event::Out(packet)),
            ScriptLine::In => Some(Event::In),
            ScriptLine::Setup(packet) => Some(Event::Setup(packet)),
            ScriptLine::Fill { byte, count, size } => self.next_fill(byte, count, size),
            ScriptLine::Tick { count } => self.next_tick(count),
            ScriptLine::Skipped => None,
            ScriptLine::Fuse { .. } => None,
            ScriptLine::Fail { .. } => None,
            ScriptLine::Cut(_) => None,
        }
    }
}

impl ScriptLine {
    // The first packet of `count` times this byte.
    fn next_fill(&mut self, byte: u8, count: u64, size: PacketSize) -> Option<Event>
        ensures { YieldsFirst events_of (ScriptLine.Fill byte count size) result self.new }
    {
        if count == 0 {
            *self = ScriptLine::Skipped;
            return None;
        }
        let taken = count.min(size.bytes() as u64);
        *self = ScriptLine::Fill {
            byte,
            count: count - taken,
            size,
        };
        Some(Event::Out(packet_of(byte, taken as usize)))
    }

    // The first of `count` steps.
    fn next_tick(&mut self, count: u64) -> Option<Event>
        ensures { YieldsFirst events_of (ScriptLine.Tick count) result self.new }
    {
        if count == 0 {
            *self = ScriptLine::Skipped;
            return None;
        }
        *self = ScriptLine::Tick { count: count - 1 };
        Some(Event::Tick)
    }
}

// `count` times this byte.
fn packet_of(byte: u8, count: usize) -> ArrayVec<u8, 512>
    requires { count ≤ 512 }
    ensures { result.items ≡ replicate count byte }
{
    let mut packet = ArrayVec::from([byte; 512]);
    packet.truncate(count);
    packet
}
