//! Transfers, tokens and requests of the bus.
ghost use Rattle.std.specs.Prelude.{◌≡◌};
ghost use Rattle.calls.specs.Handles.{InHandle};
ghost use Rattle.calls.specs.Bus.{TakesOut, SendsIn, AnswersSetup};
ghost use Rattle.calls.specs.Bus.{WaitsOut, WaitsIn, IsStalled};

use crate::codes::OTHER_KIND;
use crate::handle::UsbDisk;
use crate::held::{Held, Service};
use crate::lending::held_in;
use disk_machine::{BAD_LENGTH, EMPTY, NAK, STALL};

/// Bytes to Bulk-Out: a transfer of the host, or a part of one that ends where a packet does.
pub fn take_out(h: &mut UsbDisk, bytes: &[u8], taken: &mut usize) -> u32
    ensures { InHandle (TakesOut bytes.now taken.old taken.new) (taken.new ≡ taken.old)
        h.old.held h.new.held result }
{
    let Some(held) = held_in(h) else {
        return EMPTY;
    };
    held.take(bytes, taken)
}

/// Tokens to Bulk-In, whose packets lie one behind the other in the room.
pub fn send_in(h: &mut UsbDisk, room: &mut [u8], given: &mut usize) -> u32
    ensures { InHandle (SendsIn room.old given.old room.new given.new)
        ((room.new ≡ room.old) × (given.new ≡ given.old)) h.old.held h.new.held result }
{
    let Some(held) = held_in(h) else {
        return EMPTY;
    };
    held.send(room, given)
}

/// A control request.
pub fn answer_setup(h: &mut UsbDisk, packet: &[u8; 8], to: &mut [u8; 2], size: &mut u32) -> u32
    ensures { InHandle (AnswersSetup packet.now to.old size.old to.new size.new)
        ((to.new ≡ to.old) × (size.new ≡ size.old)) h.old.held h.new.held result }
{
    let Some(held) = held_in(h) else {
        return EMPTY;
    };
    held.answer(packet, to, size)
}

impl Held {
    // Bytes to Bulk-Out. None is taken where no disk is there yet.
    fn take(&mut self, bytes: &[u8], taken: &mut usize) -> u32
        ensures { TakesOut bytes.now taken.old taken.new self.old self.new result }
    {
        match self {
            Held::Disk(disk) => disk.take_transfer(bytes, taken),
            Held::Recovering(_, _, what) => what.wait_out(taken),
            Held::Failed(what, _) => what.wait_out(taken),
            Held::Opening(_, _) | Held::Store(_) | Held::Image(_) | Held::NoWork(_) => OTHER_KIND,
        }
    }

    // Tokens to Bulk-In. None is given a packet where no disk is there yet.
    fn send(&mut self, room: &mut [u8], given: &mut usize) -> u32
        ensures { SendsIn room.old given.old room.new given.new self.old self.new result }
    {
        match self {
            Held::Disk(disk) => disk.send_transfer(room, given),
            Held::Recovering(_, _, what) => what.wait_in(room, given),
            Held::Failed(what, _) => what.wait_in(room, given),
            Held::Opening(_, _) | Held::Store(_) | Held::Image(_) | Held::NoWork(_) => OTHER_KIND,
        }
    }

    // A control request. It is refused where no disk is there yet.
    fn answer(&mut self, packet: &[u8; 8], to: &mut [u8; 2], size: &mut u32) -> u32
        ensures { AnswersSetup packet.now to.old size.old to.new size.new self.old self.new result }
    {
        match self {
            Held::Disk(disk) => disk.setup(packet, to, size),
            Held::Recovering(_, _, what) => what.stall(size),
            Held::Failed(what, _) => what.stall(size),
            Held::Opening(_, _) | Held::Store(_) | Held::Image(_) | Held::NoWork(_) => OTHER_KIND,
        }
    }
}

impl Service {
    // Bytes to Bulk-Out of a disk that is not there yet: they are to come again.
    fn wait_out(&self, taken: &mut usize) -> u32
        ensures { WaitsOut taken.old self.now taken.new result }
    {
        match self {
            Service::Disk(_) => {
                *taken = 0;
                NAK
            }
            Service::Store(_) => OTHER_KIND,
        }
    }

    // A token to Bulk-In of a disk that is not there yet: it is to come again, with room for a
    // packet.
    fn wait_in(&self, room: &[u8], given: &mut usize) -> u32
        ensures { WaitsIn room.now given.old self.now given.new result }
    {
        let Service::Disk(plan) = self else {
            return OTHER_KIND;
        };
        if room.len() < plan.size.bytes() as usize {
            return BAD_LENGTH;
        }
        *given = 0;
        NAK
    }

    // A request to a disk that is not there yet: it is refused.
    fn stall(&self, size: &mut u32) -> u32
        ensures { IsStalled size.old self.now size.new result }
    {
        match self {
            Service::Disk(_) => {
                *size = 0;
                STALL
            }
            Service::Store(_) => OTHER_KIND,
        }
    }
}
