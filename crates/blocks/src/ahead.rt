//! What a store does ahead of the flush of the record that it is about to begin.
ghost use Rattle.std.specs.Prelude.{◌≡◌, ◌↔◌, ◌+◌, false, IsTrue};
ghost use Rattle.journal.specs.Places.{limit_of};
ghost use Rattle.redo_log.specs.Value.{IsAway};
ghost use Rattle.blocks.specs.StoreValue.{layout_of};
ghost use Rattle.blocks.specs.Work.{IsIdle};
ghost use Rattle.blocks.specs.Passing.{PassesPaid};
ghost use Rattle.theorems.specs.Ahead.{counted, gone_home, going_calls, passed, passed_calls};
ghost use Rattle.theorems.specs.Ahead.{sent_home, sent_calls};
ghost use Rattle.theorems.specs.Room.{NeedsNoneAhead};
ghost use Rattle.blocks.specs.Background.{SettlesFlush, GoesBy, PassesHead, BringsHome, GoesAhead};

use crate::{Store, StoreFault};
use medium::Medium;
use redo_log::Log;

impl<M: Medium> Store<M> {
    /// Counts the flush of a record that became durable for the oldest one, which went home before
    /// it.
    pub(crate) fn count_flush(&mut self)
        requires { IsIdle self.old.cached }
        ensures { SettlesFlush M.state M.follows self.old self.new }
    {
        count_covered(&mut self.log);
    }

    /// Writes the head past the oldest record, where that is flushed at home.
    pub(crate) fn pass_head(&mut self) -> Result<(), StoreFault>
        requires { IsIdle self.old.cached }
        ensures { GoesBy M.state M.follows 1 PassesHead result self.old self.new }
    {
        // The log says here that it owes no step where no record waits.
        let _ = self.log.is_retired();
        match self.log.head_ahead(&mut self.medium) {
            Ok(()) => Ok(()),
            Err(_) => Err(StoreFault::Dead),
        }
    }

    /// Brings one block of the oldest record home.
    pub(crate) fn bring_home(&mut self) -> Result<(), StoreFault>
        requires idle { IsIdle self.old.cached }
        requires away { IsAway self.old.cached.log }
        ensures { GoesBy M.state M.follows 2 BringsHome result self.old self.new }
    {
        match self.log.home_ahead(&mut self.medium) {
            Ok(()) => Ok(()),
            Err(_) => Err(StoreFault::Dead),
        }
    }

    // Brings the blocks of the oldest record home that are away.
    fn go_home(&mut self) -> Result<(), StoreFault>
        requires { IsIdle self.old.cached }
        ensures passes { PassesPaid M.state M.follows
            (limit_of (layout_of self.old.cached).format) self.old self.new }
        ensures going { GoesAhead result (gone_home self.old.cached.log)
            (going_calls self.old.cached.log) 0 (M.state self.old.medium) (M.state self.new.medium)
            self.old.cached self.new.cached }
    {
        // The log says here how many writes and flushes retire its oldest record at most.
        let _few = self.log.has_room();
        while self.log.is_away() {
            self.bring_home()?;
        }
        Ok(())
    }

    /// Whether nothing is to be done ahead of the next record: three slots are free, or no block of
    /// the oldest record is away, and no flush lets the head go past it.
    pub(crate) fn needs_none_ahead(&self) -> bool
        ensures { IsTrue result ↔ NeedsNoneAhead self.now.cached.log }
    {
        if self.log.has_slots(3) {
            return true;
        }
        !self.log.is_covered() && !self.log.can_pass() && !self.log.is_away()
    }

    /// Makes a flush of the next record stand for those that retiring its oldest one would make:
    /// where fewer slots are free than three, the head goes past that record, if it is flushed at
    /// home, and where they are still fewer, the oldest one goes home. Nothing is done where that
    /// is done already.
    pub(crate) fn go_ahead(&mut self) -> Result<(), StoreFault>
        requires { IsIdle self.old.cached }
        ensures passes { PassesPaid M.state M.follows
            (limit_of (layout_of self.old.cached).format + 1) self.old self.new }
        ensures going { GoesAhead result (sent_home (passed self.old.cached.log))
            (passed_calls self.old.cached.log + sent_calls (passed self.old.cached.log)) 1
            (M.state self.old.medium) (M.state self.new.medium) self.old.cached self.new.cached }
        ensures rests { NeedsNoneAhead self.old.cached.log → self.new ≡ self.old }
    {
        if self.needs_none_ahead() {
            return Ok(());
        }
        self.count_flush();
        self.pass_head()?;
        if self.log.has_slots(3) {
            return Ok(());
        }
        self.go_home()
    }
}

// The flush of a record that became durable counts for the oldest one, where it covers that.
fn count_covered(log: &mut Log)
    ensures { log.new ≡ counted log.old }
{
    let _ = log.settle();
}
