//! What a handle is at.
ghost use Rattle.std.specs.Prelude.{◌≡◌};
ghost use Rattle.calls.specs.Handles.{InHandle};
ghost use Rattle.calls.specs.State.{TellsState, IsAt, IsImageAt, code_of_state};

use crate::handle::UsbDisk;
use crate::held::Held;
use crate::lending::held_in;
use bot_machine::StartFault;
use disk_machine::{EMPTY, number_of};
use image_calls::{ImageCall, ImageState};
use window::MachineState;

// The work on an image is done.
const DONE: u32 = 3;

// There is nothing, for the reason that is told.
const FAILED: u32 = 4;

/// What a handle is at, and why there is nothing.
pub fn tell_state(h: &mut UsbDisk, fault: &mut u32) -> u32
    ensures { InHandle (TellsState fault.new) (fault.new ≡ fault.old)
        h.old.held h.new.held result }
{
    let Some(held) = held_in(h) else {
        return EMPTY;
    };
    held.state(fault)
}

impl Held {
    // The number of what it is at, and of why there is nothing.
    fn state(&self, fault: &mut u32) -> u32
        ensures { IsAt self.now fault.new result }
    {
        *fault = 0;
        match self {
            Held::Recovering(_, _, _) | Held::Opening(_, _) => code_of(MachineState::Starting),
            Held::Disk(disk) => code_of(disk.state()),
            Held::Store(store) => code_of(store.state()),
            Held::Image(image) => code_of_image(image.state(), fault),
            Held::Failed(_, why) | Held::NoWork(why) => {
                *fault = number_of(*why);
                FAILED
            }
        }
    }
}

fn code_of(state: MachineState) -> u32
    ensures { result ≡ code_of_state state }
{
    match state {
        MachineState::Starting => 0,
        MachineState::Serving => 1,
        MachineState::Refused => 2,
    }
}

// The number of what the work on an image is at, and of why there is none.
fn code_of_image(state: ImageState, fault: &mut u32) -> u32
    ensures { fault.old ≡ 0 → IsImageAt state fault.new result }
{
    match state {
        ImageState::Working => 0,
        ImageState::Done => DONE,
        ImageState::Refused(ImageCall::Write) => {
            *fault = number_of(StartFault::Write);
            FAILED
        }
        ImageState::Refused(ImageCall::Flush) => {
            *fault = number_of(StartFault::Flush);
            FAILED
        }
    }
}
