//! What is done while the bus rests.
ghost use Rattle.std.specs.Prelude.{◌≡◌};
ghost use Rattle.calls.specs.Handles.{InHandle};
ghost use Rattle.calls.specs.Idling.{MakesSteps, ReadsAhead, ReadsNone, code_of_bool};

use crate::codes::OTHER_KIND;
use crate::handle::UsbDisk;
use crate::held::{Held, Service};
use crate::lending::held_in;
use disk_machine::EMPTY;

/// Steps in the background.
pub fn make_steps(h: &mut UsbDisk) -> u32
    ensures { InHandle MakesSteps (Unit {0}) h.old.held h.new.held result }
{
    let Some(held) = held_in(h) else {
        return EMPTY;
    };
    held.idle()
}

/// The device is to read these sectors when it is free.
pub fn look_ahead(h: &mut UsbDisk, first: u64, count: u32) -> u32
    ensures { InHandle (ReadsAhead first count) (Unit {0}) h.old.held h.new.held result }
{
    let Some(held) = held_in(h) else {
        return EMPTY;
    };
    held.wish(first, count)
}

impl Held {
    // Makes steps, and tells whether some are left.
    fn idle(&mut self) -> u32
        ensures { MakesSteps self.old self.new result }
    {
        match self {
            Held::Disk(disk) => code_of(disk.idle()),
            Held::Store(store) => code_of(store.idle()),
            // Steps are always left of what is not there yet.
            Held::Recovering(_, _, _) | Held::Failed(_, _) => 1,
            Held::Opening(_, _) | Held::Image(_) | Held::NoWork(_) => OTHER_KIND,
        }
    }

    // Tells whether the device is to read these sectors when it is free.
    fn wish(&mut self, first: u64, count: u32) -> u32
        ensures { ReadsAhead first count self.old self.new result }
    {
        match self {
            Held::Disk(disk) => code_of(disk.look_ahead(first, count)),
            Held::Recovering(_, _, what) => what.reads_none(),
            Held::Failed(what, _) => what.reads_none(),
            Held::Opening(_, _) | Held::Store(_) | Held::Image(_) | Held::NoWork(_) => OTHER_KIND,
        }
    }
}

impl Service {
    // Whether sectors are read ahead of what is not there yet: never.
    fn reads_none(&self) -> u32
        ensures { ReadsNone self.now result }
    {
        match self {
            Service::Disk(_) => 0,
            Service::Store(_) => OTHER_KIND,
        }
    }
}

fn code_of(is: bool) -> u32
    ensures { result ≡ code_of_bool is }
{
    if is { 1 } else { 0 }
}
