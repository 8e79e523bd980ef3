//! How a store starts on the medium of a scene.
ghost use Rattle.std.specs.Prelude.{◌≡◌, true, MatchResult};
ghost use Rattle.medium.specs.Moments.{IsFlushed};
ghost use Rattle.medium.specs.Sim.{state_of};
ghost use Rattle.logical_blocks.specs.Book.{Book};
ghost use Rattle.page.specs.Scenes.{LeavesBook, IsStarted, IsLeft};

use crate::watched::Watched;
use blocks::Store;
use std::alloc::Global;

/// Starts a store that retires late, or one that goes ahead.
///
/// # Errors
///
/// The medium, where the start was refused.
pub(crate) fn open(
    alloc: Global,
    medium: Watched,
    goes_ahead: bool,
) -> Result<Store<Watched>, Watched>
    ensures { (book : Book) → LeavesBook medium book → book.ours ≡ true
        → IsFlushed (state_of medium) → MatchResult result
        (IsStarted goes_ahead book medium) (IsLeft book medium) }
{
    if goes_ahead {
        return match Store::start_ahead(alloc, medium) {
            Ok(store) => Ok(store),
            Err(error) => Err(error.medium),
        };
    }
    match Store::start(alloc, medium) {
        Ok(store) => Ok(store),
        Err(error) => Err(error.medium),
    }
}
