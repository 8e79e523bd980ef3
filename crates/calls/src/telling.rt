//! What the device tells of what it was asked for.
ghost use Rattle.std.specs.Prelude.{◌≡◌, ℕ, List};
ghost use Rattle.calls.specs.Handles.{InHandle};
ghost use Rattle.calls.specs.Telling.{TellsDone, code_of_fault, code_of_done};

use crate::codes::NOT_ASKED;
use crate::handle::UsbDisk;
use crate::held::Held;
use crate::lending::held_in;
use disk_machine::{ACK, BAD_LENGTH, EMPTY};
use image_calls::{Opening, Reach};
use std::alloc::Global;
use std::mem;
use window::DoneFault;

/// The call that was told last has ended. Of a read these are the bytes. Whatever the device holds
/// behind the first sectors, for which the ghost value stands, a disk that begins is that of it.
pub fn tell_done(alloc: Global, h: &mut UsbDisk, ok: bool, bytes: &[u8]) -> u32
    ghost content: { List ℕ }
    ensures { InHandle (TellsDone content ok bytes.now) (Unit {0}) h.old.held h.new.held result }
{
    let Some(held) = held_in(h) else {
        return EMPTY;
    };
    held.hear(alloc, ok, bytes)
}

impl Held {
    // The device tells what became of a call.
    fn hear(&mut self, alloc: Global, ok: bool, bytes: &[u8]) -> u32
        ghost content: { List ℕ }
        ensures { TellsDone content ok bytes.now self.old self.new result }
    {
        match self {
            Held::Recovering(recovering, _, _) => match recovering.done(ok, bytes) {
                Ok(()) => {
                    self.recover_on(alloc);
                    ACK
                }
                Err(fault) => code_of(fault),
            },
            Held::Opening(opening, work) => match opening.done(ok, bytes) {
                Ok(end) => {
                    let read = mem::replace(opening, Opening::new(alloc, 0, Reach::First));
                    let work = *work;
                    work.go_on(alloc, read, end, self);
                    ACK
                }
                Err(fault) => code_of(fault),
            },
            Held::Disk(disk) => code_for(disk.done(ok, bytes)),
            Held::Store(store) => code_for(store.done(ok, bytes)),
            Held::Image(image) => code_for(image.done(ok)),
            Held::Failed(_, _) | Held::NoWork(_) => NOT_ASKED,
        }
    }
}

// The number of why what the device told is not taken.
fn code_of(fault: DoneFault) -> u32
    ensures { result ≡ code_of_fault fault }
{
    match fault {
        DoneFault::NothingAsked => NOT_ASKED,
        DoneFault::BadLength => BAD_LENGTH,
    }
}

// The number of what became of a call that was told done.
fn code_for(told: Result<(), DoneFault>) -> u32
    ensures { result ≡ code_of_done told }
{
    match told {
        Ok(()) => ACK,
        Err(fault) => code_of(fault),
    }
}
