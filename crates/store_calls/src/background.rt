//! The work in the background.
ghost use Rattle.std.specs.Prelude.{◌↔◌, IsTrue};
ghost use Rattle.store_calls.specs.Calls.{IsStep};
ghost use Rattle.store_calls.specs.Idling.{GoesAhead, IsShort, MakesSteps, TellsLeft};

use crate::reading::foresee;
use crate::room::MOST_WAITING;
use blocks::{Store, Work};
use medium::Medium;
use window::WindowMedium;

// How many steps are made at most, so that their writes come in long runs.
const MOST_STEPS: u32 = 32;

// How many steps ahead are made at most: each asks the device for one call, and so many may wait.
const MOST_AHEAD: u32 = 64;

/// Makes steps towards rest, and answers whether some are left.
pub(crate) fn make_steps(store: &mut Store<WindowMedium>) -> bool
    ensures { TellsLeft store.old store.new result }
{
    settle(store);
    if store.is_settled() { false } else { true }
}

// Makes steps towards rest, as long as some are left and few calls wait.
fn settle(store: &mut Store<WindowMedium>)
    ensures { MakesSteps store.old store.new }
{
    foresee(store);
    for _made in 0..MOST_STEPS {
        if store.is_settled() || !is_short(store) {
            return;
        }
        step(store, Work::Settle);
    }
}

/// Makes steps ahead of the next record, as long as each asks the device for something and few
/// calls wait.
pub(crate) fn go_ahead(store: &mut Store<WindowMedium>)
    ensures { GoesAhead store.old store.new }
{
    foresee(store);
    for _made in 0..MOST_AHEAD {
        let before = store.medium().waiting();
        if !is_short(store) {
            return;
        }
        step(store, Work::Ahead);
        if store.medium().waiting() == before {
            return;
        }
    }
}

/// Makes a step that works towards this.
pub(crate) fn step(store: &mut Store<WindowMedium>, work: Work)
    ensures { IsStep work store.old store.new }
{
    foresee(store);
    store.work(work);
}

/// Whether so few calls wait that a step is made.
pub(crate) fn is_short(store: &Store<WindowMedium>) -> bool
    ensures { IsTrue result ↔ IsShort store.now }
{
    store.medium().waiting() <= MOST_WAITING
}
