//! A disk that runs, or the medium that it leaves.
ghost use Rattle.std.specs.Prelude.{◌≡◌, true};
ghost use Rattle.medium.specs.Sim.{state_of};
ghost use Rattle.logical_blocks.specs.Book.{Book};
ghost use Rattle.blocks.specs.StoreValue.{FitsBook};
ghost use Rattle.page.specs.Scenes.{HoldsAt, LeavesBook};
ghost use Rattle.page.specs.Pictures.{place_code};
ghost use Rattle.page.specs.Standing.{medium_of};

use crate::watched::Watched;
use blocks::Store;

/// Where the disk of a scene stands.
#[derive(Drop)]
pub(crate) enum Place {
    Runs(Store<Watched>),
    /// The power is off.
    Off(Watched),
    /// It was cut and is on again, and no disk has started.
    Between(Watched),
}

impl Place {
    /// The medium.
    pub(crate) fn medium(&self) -> &Watched
        ensures { result.now ≡ medium_of self.now }
    {
        match self {
            Place::Runs(store) => store.medium(),
            Place::Off(medium) => medium,
            Place::Between(medium) => medium,
        }
    }

    /// Gives the medium back.
    pub(crate) fn into_medium(self) -> Watched
        ensures is { result ≡ medium_of self }
        ensures leaves { (book : Book) → HoldsAt self book → book.ours ≡ true
            → LeavesBook result book }
    {
        match self {
            Place::Runs(store) => stop(store),
            Place::Off(medium) => medium,
            Place::Between(medium) => medium,
        }
    }

    /// The place as a number.
    pub(crate) fn code(&self) -> u64
        ensures { result ≡ place_code self.now }
    {
        match self {
            Place::Runs(_) => 0,
            Place::Off(_) => 1,
            Place::Between(_) => 2,
        }
    }
}

/// Takes a store down.
pub(crate) fn stop(store: Store<Watched>) -> Watched
    ensures is { result ≡ store.medium }
    ensures leaves { (book : Book) → FitsBook (state_of store.medium) store.cached book
        → book.ours ≡ true → LeavesBook result book }
{
    // The store says here what a cut leaves.
    let _ = store.medium();
    store.into_medium()
}
