//! The work on an image begins where the first sectors of the device are read.
ghost use Rattle.std.specs.Prelude.{◌≡◌, ℕ, List};
ghost use Rattle.calls.specs.Beginning.{GoesOn, EndsSo, BeginsFormat, BeginsLog, BeginsMigration};
ghost use Rattle.calls.specs.Beginning.{IsImage, fault_of_image};

use crate::held::{Held, ImageWork};
use bot_machine::StartFault;
use image_calls::{ImageFault, ImageMachine, ImagePlan, Opening, ReadEnd};
use std::alloc::Global;
use store_calls::device_holding;

impl ImageWork {
    /// A read of the first sectors has ended so.
    pub(crate) fn go_on(&self, alloc: Global, opening: Opening, end: ReadEnd, held: &mut Held)
        ghost content: { List ℕ }
        ensures { EndsSo content self.now opening end held.new }
    {
        match end {
            ReadEnd::Taken => self.begin(alloc, opening, held),
            ReadEnd::Refused => *held = Held::NoWork(StartFault::Read),
            ReadEnd::NoMemory => *held = Held::NoWork(StartFault::NoMemory),
        }
    }

    // It begins, where all is read. It stands apart, so that an event does not take the stack of a
    // start.
    #[inline(never)]
    fn begin(&self, alloc: Global, opening: Opening, held: &mut Held)
        ghost content: { List ℕ }
        ensures { GoesOn content self.now opening held.new }
    {
        if !opening.is_whole() {
            *held = Held::Opening(opening, *self);
            return;
        }
        *held = match self {
            ImageWork::Format(plan) => begin_format(alloc, opening, plan),
            ImageWork::LayLog(plan) => begin_log(alloc, opening, plan),
            ImageWork::Migration => begin_migration(alloc, opening),
        };
    }
}

// A format begins, or does not.
fn begin_format(alloc: Global, opening: Opening, plan: &ImagePlan) -> Held
    ghost content: { List ℕ }
    ensures { BeginsFormat content plan.now opening result }
{
    let near = opening.into_near();
    let device = device_holding();
    held_image(ImageMachine::format(alloc, near, &device, plan))
}

// The laying of a log begins, or does not.
fn begin_log(alloc: Global, opening: Opening, plan: &ImagePlan) -> Held
    ghost content: { List ℕ }
    ensures { BeginsLog content plan.now opening result }
{
    let near = opening.into_near();
    let device = device_holding();
    held_image(ImageMachine::lay_log(alloc, near, &device, plan))
}

// A migration begins, or does not.
fn begin_migration(alloc: Global, opening: Opening) -> Held
    ghost content: { List ℕ }
    ensures { BeginsMigration content opening result }
{
    let sectors = opening.sectors();
    let near = opening.into_near();
    let device = device_holding();
    held_image(ImageMachine::migrate(alloc, near, sectors, &device))
}

// The work is there, or why not.
fn held_image(begun: Result<ImageMachine, ImageFault>) -> Held
    ensures { IsImage begun result }
{
    match begun {
        Ok(image) => Held::Image(image),
        Err(why) => Held::NoWork(fault_of_image(why)),
    }
}

// Why there is no work. First sectors that are none have no super; sizes were asked for before.
fn fault_of_image(why: ImageFault) -> StartFault
    ensures { result ≡ fault_of_image why }
{
    match why {
        ImageFault::Start(cause) => cause,
        ImageFault::Sizes => StartFault::BadSize,
        ImageFault::Length => StartFault::BadSuper,
    }
}
