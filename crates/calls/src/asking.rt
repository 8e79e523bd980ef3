//! What the device is to do next.
ghost use Rattle.std.specs.Prelude.{◌≡◌, length};
ghost use Rattle.store_calls.specs.Outbox.{IsNoRoom};
ghost use Rattle.calls.specs.Handles.{InHandle};
ghost use Rattle.calls.specs.Asking.{HandsOut, Asks};

use crate::asks::{UsbDiskCall, told};
use crate::handle::UsbDisk;
use crate::held::Held;
use crate::lending::held_in;
use disk_machine::{ACK, BAD_LENGTH, EMPTY};
use window::{DeviceAsk, SECTOR};

/// The next call of the device, of which the bytes of writes go to the front of the buffer.
pub fn next_call(h: &mut UsbDisk, call: &mut UsbDiskCall, buffer: &mut [u8]) -> u32
    ensures { InHandle (HandsOut call.old buffer.old call.new buffer.new)
        ((call.new ≡ call.old) × (buffer.new ≡ buffer.old)) h.old.held h.new.held result }
{
    let Some(held) = held_in(h) else {
        return EMPTY;
    };
    held.hand_out(call, buffer)
}

impl Held {
    // Tells what the device is to do next.
    fn hand_out(&mut self, call: &mut UsbDiskCall, buffer: &mut [u8]) -> u32
        ensures { HandsOut call.old buffer.old call.new buffer.new self.old self.new result }
    {
        if buffer.len() == 0 || buffer.len() % SECTOR != 0 {
            return BAD_LENGTH;
        }
        *call = told(self.ask(buffer));
        ACK
    }

    // What the device is to do next. A disk and a store work ahead before they are asked.
    fn ask(&mut self, buffer: &mut [u8]) -> DeviceAsk
        requires { ¬ IsNoRoom (length buffer.old) }
        ensures { Asks self.old buffer.old result self.old self.new buffer.new }
    {
        match self {
            Held::Recovering(recovering, _, _) => recovering.next(buffer),
            Held::Opening(opening, _) => opening.next((buffer.len() / SECTOR) as u64),
            Held::Disk(disk) => {
                disk.work_ahead();
                disk.next(buffer)
            }
            Held::Store(store) => {
                store.work_ahead();
                store.next(buffer)
            }
            Held::Image(image) => image.next(buffer),
            Held::Failed(_, _) | Held::NoWork(_) => DeviceAsk::Nothing,
        }
    }
}
