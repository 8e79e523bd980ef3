//! A disk, its medium and its life so far, step by step.
ghost use Rattle.std.specs.Prelude.{◌≡◌, true, false, if◌then◌else◌};
ghost use Rattle.medium.specs.Moments.{IsFlushed};
ghost use Rattle.medium.specs.Sim.{state_of};
ghost use Rattle.logical_blocks.specs.Book.{Book};
ghost use Rattle.blocks.specs.StoreValue.{is_dead};
ghost use Rattle.page.specs.Books.{IsArmed};
ghost use Rattle.page.specs.Scenes.{LeavesBook, HoldsAt, Has, Plays, Shows, Commanded, Started};
ghost use Rattle.page.specs.Standing.{between, running, standing};

use crate::commands::carry_out;
use crate::fault::Fault;
use crate::life::Life;
use crate::opening::open;
use crate::place::{Place, stop};
use crate::step::{Command, Step};
use crate::watched::Watched;
use blocks::Store;
use medium::{Kept, Switch};
use std::alloc::Global;

/// What a page shows.
#[derive(Drop)]
pub(crate) struct Scene {
    pub(crate) place: Place,
    pub(crate) life: Life,
    pub(crate) goes_ahead: bool,
}

/// A scene after a step, and how it went.
#[derive(Drop)]
pub(crate) struct Played {
    pub(crate) scene: Scene,
    pub(crate) result: Result<(), Fault>,
}

impl Scene {
    /// Plays a step.
    pub(crate) fn play(self, alloc: Global, step: &Step) -> Played
        ensures { (book : Book) → Shows self book
            → Plays step.now result.result self book result.scene }
    {
        match step {
            Step::Fuse(writes) => self.arm(*writes),
            Step::Cut(mask) => self.cut(*mask),
            Step::Start => self.start(alloc),
            Step::Command(command) => self.command(alloc, command),
        }
    }

    // Arms a fuse of the medium, but where the power is off.
    fn arm(self, writes: u64) -> Played
        ensures { (book : Book) → Shows self book
            → Plays (Step.Fuse writes) result.result self book result.scene }
    {
        let Scene {
            place,
            life,
            goes_ahead,
        } = self;
        let place = fused(place, writes);
        Played {
            scene: Scene {
                place,
                life,
                goes_ahead,
            },
            result: Ok(()),
        }
    }

    // Cuts the power, and turns it on again.
    fn cut(self, mask: u64) -> Played
        ensures { (book : Book) → Shows self book
            → Plays (Step.Cut mask) result.result self book result.scene }
    {
        let Scene {
            place,
            life,
            goes_ahead,
        } = self;
        let mut medium = place.into_medium();
        medium.cut(&Kept::Mask(mask));
        Played {
            scene: Scene {
                place: Place::Between(medium),
                life,
                goes_ahead,
            },
            result: Ok(()),
        }
    }

    fn start(self, alloc: Global) -> Played
        ensures { (book : Book) → Shows self book
            → Plays Step.Start result.result self book result.scene }
    {
        let Scene {
            place,
            life,
            goes_ahead,
        } = self;
        match place {
            Place::Between(medium) => start_on(alloc, medium, life, goes_ahead),
            place => Played {
                scene: Scene {
                    place,
                    life,
                    goes_ahead,
                },
                result: Err(Fault::Idle),
            },
        }
    }

    // A command of the host, or a step in the background.
    fn command(self, alloc: Global, command: &Command) -> Played
        ensures { (book : Book) → Shows self book
            → Plays (Step.Command command.now) result.result self book result.scene }
    {
        let Scene {
            place,
            life,
            goes_ahead,
        } = self;
        match place {
            Place::Runs(store) => serve(alloc, store, life, goes_ahead, command),
            place => Played {
                scene: Scene {
                    place,
                    life,
                    goes_ahead,
                },
                result: Err(Fault::Idle),
            },
        }
    }
}

// A store carries a command out, and goes where it dies of it.
fn serve(
    alloc: Global,
    store: Store<Watched>,
    life: Life,
    goes_ahead: bool,
    command: &Command,
) -> Played
    ensures { (book : Book) → Has life store book → is_dead store.cached ≡ false
        → Commanded command.now result.result store
        (standing (running store life goes_ahead) book) result.scene }
{
    let mut store = store;
    let mut life = life;
    let result = carry_out(alloc, &mut store, &mut life, command);
    if store.is_dead() {
        return Played {
            scene: Scene {
                place: Place::Off(stop(store)),
                life,
                goes_ahead,
            },
            result: Err(Fault::Lost),
        };
    }
    Played {
        scene: Scene {
            place: Place::Runs(store),
            life,
            goes_ahead,
        },
        result,
    }
}

// Arms a fuse of the medium, but where the power is off.
fn fused(place: Place, writes: u64) -> Place
    ensures holds { (book : Book) → HoldsAt place book → HoldsAt result book }
    ensures armed { IsArmed writes place result }
{
    match place {
        Place::Runs(mut store) => {
            store.fuse(writes);
            Place::Runs(store)
        }
        Place::Off(medium) => Place::Off(medium),
        Place::Between(mut medium) => {
            medium.fuse(writes);
            Place::Between(medium)
        }
    }
}

/// Starts a disk on a medium of which nothing is unflushed.
pub(crate) fn start_on(alloc: Global, medium: Watched, life: Life, goes_ahead: bool) -> Played
    ensures { (book : Book) → LeavesBook medium book → book.ours ≡ true
        → IsFlushed (state_of medium) → Started result.result medium
        (standing (between medium life goes_ahead) book) result.scene }
{
    let life = life.next();
    match open(alloc, medium, goes_ahead) {
        Ok(store) => Played {
            scene: Scene {
                place: Place::Runs(store),
                life,
                goes_ahead,
            },
            result: Ok(()),
        },
        Err(medium) => {
            let fault = fault_of(&medium);
            Played {
                scene: Scene {
                    place: Place::Off(medium),
                    life,
                    goes_ahead,
                },
                result: Err(fault),
            }
        }
    }
}

// Why a start was refused.
fn fault_of(medium: &Watched) -> Fault
    ensures { result ≡ (if medium.now.power.off then Fault.Lost else Fault.NoMemory) }
{
    if medium.is_off() {
        Fault::Lost
    } else {
        Fault::NoMemory
    }
}
