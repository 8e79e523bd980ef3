//! The device carries out a recovery, in runs, and a disk or a store begins behind it.
ghost use Rattle.std.specs.Prelude.{ℕ, List, MatchOption, IfOk};
ghost use Rattle.image_calls.specs.Recovering.{IsOver, Ends, found_of, IsLeftBy};
ghost use Rattle.calls.specs.Recovers.{IsFirst, RecoversOn, ComesBehind};

use crate::held::{Held, Service};
use bot_machine::StartFault;
use image_calls::{Recovering, Run};
use std::alloc::Global;
use std::mem;
use store_calls::RecoveredDevice;

/// The recovery of the image on a device of `sectors` sectors; none where there is no memory. Of a
/// device without any there is no image. It stands apart, so that the machine does not lie on the
/// stack of a start.
#[inline(never)]
pub(crate) fn first_call(alloc: Global, sectors: u64, what: Service) -> Option<Held>
    ensures { MatchOption result (Unit {0}) (IsFirst what sectors) }
{
    if sectors == 0 {
        return Some(Held::Failed(what, StartFault::BadSuper));
    }
    let run = Run::new(alloc)?;
    match Box::new(alloc, Recovering::new(run, sectors)) {
        Ok(recovering) => Some(Held::Recovering(recovering, sectors, what)),
        Err(_) => None,
    }
}

impl Held {
    /// A call of the recovery has ended. Behind its last one a disk or a store begins, or there is
    /// nothing.
    #[inline(never)]
    pub(crate) fn recover_on(&mut self, alloc: Global)
        ghost content: { List ℕ }
        ensures { RecoversOn content self.old self.old self.new }
    {
        *self = match mem::replace(self, Held::NoWork(StartFault::NoMemory)) {
            Held::Recovering(recovering, sectors, what) => {
                what.recover_on(alloc, recovering, sectors)
            }
            other => other,
        };
    }
}

impl Service {
    // A recovery goes on, unless it is over.
    fn recover_on(&self, alloc: Global, recovering: Box<Recovering>, sectors: u64) -> Held
        ghost content: { List ℕ }
        ensures { ComesBehind content self.now recovering.value sectors result }
    {
        if !recovering.is_over() {
            return Held::Recovering(recovering, sectors, *self);
        }
        match end_of(recovering) {
            Ok(on) => self.begin_behind(alloc, &on),
            Err(why) => Held::Failed(*self, why),
        }
    }
}

// How a recovery ended. Its memory is given back before a disk or a store takes any.
fn end_of(recovering: Box<Recovering>) -> Result<RecoveredDevice, StartFault>
    requires { IsOver recovering.value }
    ensures ends { Ends recovering.value (found_of result) }
    ensures left { IfOk result (IsLeftBy recovering.value) }
{
    recovering.end()
}
