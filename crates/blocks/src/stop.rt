//! A store is given up from outside.
ghost use Rattle.std.specs.Prelude.{◌≡◌};
ghost use Rattle.logical_blocks.specs.Book.{Book};
ghost use Rattle.blocks.specs.StoreValue.{FitsBook};
ghost use Rattle.blocks.specs.Passing.{RunsLog};
ghost use Rattle.blocks.specs.Stopping.{stopped_store};

use crate::Store;
use medium::Medium;

impl<M: Medium> Store<M> {
    /// Gives the store up until the next start, as a refused call does: it accepts no write, and
    /// makes no call of its medium from then on. It still fits the books that it fitted.
    pub fn stop(&mut self)
        ensures dead { self.new ≡ stopped_store self.old }
        ensures fits { (book : Book) → FitsBook (M.state self.old.medium) self.old.cached book
            → FitsBook (M.state self.new.medium) self.new.cached book }
        ensures runs { RunsLog M.state M.follows self.old self.new }
    {
        self.log.stop();
    }
}
