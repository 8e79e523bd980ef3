//! The background work, one step at a time.
ghost use Rattle.std.specs.Prelude.{◌≡◌, ◌⊎◌, ◌↔◌, ◌<◌, ◌≤◌, true, false, [], length, IsTrue};
ghost use Rattle.blocks.specs.StoreValue.{is_dead, active_of, unwritten, steps_left};
ghost use Rattle.blocks.specs.StoreValue.{layout_of};
ghost use Rattle.redo_log.specs.Value.{most_steps};
ghost use Rattle.blocks.specs.Headroom.{KeepsHeadroom};
ghost use Rattle.theorems.specs.Room.{HasSpare};
ghost use Rattle.blocks.specs.Turns.{IsTurn};
ghost use Rattle.blocks.specs.Passing.{PassesOn, MayEmpty, KeepsMedium};
ghost use Rattle.blocks.specs.Background.{IsBackgroundStep, IsBeginning};
ghost use Rattle.blocks.specs.Background.{Freezes, Begins, StepsOn, RetiresOn, MayBegin};
ghost use Rattle.blocks.specs.Background.{MayBeginNow, IsUnderWay};
ghost use Rattle.blocks.specs.Calls.{CanBegin};
ghost use Rattle.blocks.specs.Work.{IsIdle, CountsDown, WorksBy};
ghost use Rattle.blocks.specs.declared.work.Work.TheVariants.{Settle};

use crate::{Store, StoreFault};
use medium::Medium;
use redo_log::Progress;

impl<M: Medium> Store<M> {
    /// Makes one step of the background work, which is at most two calls of the medium: it goes on
    /// with the record under way; else, where the log has room, and three slots where the store
    /// goes ahead, it begins the frozen batch, or the active one in its place; else it retires.
    ///
    /// Where it makes the store dead, the next call that writes tells.
    pub fn tick(&mut self)
        ensures passes { PassesOn M.state M.follows IsTurn 2 2 self.old self.new }
        ensures order { IsBackgroundStep self.old.goes_ahead (M.state self.old.medium)
            (M.state self.new.medium) self.old.cached self.new.cached }
        ensures steps { CountsDown self.old self.new }
        ensures active { MayEmpty (active_of self.old.cached) (active_of self.new.cached) }
        ensures headroom { KeepsHeadroom self.old self.new }
    {
        if self.is_dead() || self.is_settled() {
            return;
        }
        self.go_on();
    }

    // Makes one step of a live store. It stands apart so that a tick with nothing to do is short.
    #[inline(never)]
    fn go_on(&mut self)
        requires live { is_dead self.old.cached ≡ false }
        requires some { 0 < steps_left self.old.cached }
        ensures { WorksBy M.state M.follows Settle self.old self.new }
    {
        if self.is_writing() {
            let _ = self.step();
            return;
        }
        if self.may_begin() {
            let _ = self.begin_next();
            return;
        }
        let _ = self.retire();
    }

    /// Whether the record of the frozen batch is under way. Of a dead store it is not told.
    pub(crate) fn is_writing(&self) -> bool
        ensures begun { is_dead self.now.cached ≡ false → result ≡ true
            → (0 < self.now.cached.log.steps_left) × (0 < length self.now.cached.frozen.numbers)
            × (self.now.cached.log.steps_left ≤ most_steps (layout_of self.now.cached).format) }
        ensures rests { is_dead self.now.cached ≡ false → result ≡ false
            → self.now.cached.log.steps_left ≡ 0 }
    {
        self.writing
    }

    // Whether a record may be begun: the log has room, and a batch holds blocks. A store that goes
    // ahead leaves two slots free besides, so that no call ever finds the ring full. Where none
    // may, one waits to be retired, or nothing is left to do.
    fn may_begin(&self) -> bool
        ensures begins { IsTrue result ↔ MayBegin self.now.goes_ahead self.now.cached }
        ensures else_retires { result ≡ false → self.now.cached.log.steps_left ≡ 0
            → (0 < length self.now.cached.log.waiting) ⊎ (steps_left self.now.cached ≡ 0) }
    {
        if !self.log.has_room() || !self.has_spare() {
            return false;
        }
        !(self.frozen.is_empty() && self.active.is_empty())
    }

    // Whether two slots are free besides one for the next record, where the store goes ahead.
    fn has_spare(&self) -> bool
        ensures told { IsTrue result ↔ HasSpare self.now.goes_ahead self.now.cached.log }
        ensures enough { self.now.goes_ahead ≡ true → 3 ≤ self.now.cached.log.ring }
    {
        !self.goes_ahead || self.log.has_slots(3)
    }

    /// Begins the frozen batch, or the active one in its place.
    pub(crate) fn begin_next(&mut self) -> Result<(), StoreFault>
        requires { MayBeginNow self.old.cached (unwritten self.old.cached) }
        ensures keeps { KeepsMedium M.state M.follows IsTurn self.old self.new }
        ensures beginning { IsBeginning (M.state self.old.medium) (M.state self.new.medium)
            self.old.cached self.new.cached }
        ensures falls { is_dead self.new.cached ≡ false
            → steps_left self.new.cached < steps_left self.old.cached }
    {
        if self.frozen.is_empty() {
            self.freeze();
            return self.begin();
        }
        self.begin()
    }

    /// The active batch becomes the frozen one, and its blocks are put into order.
    pub(crate) fn freeze(&mut self)
        requires { CanBegin self.old.cached }
        ensures { Freezes M.state M.follows self.old self.new }
    {
        self.active.freeze(&mut self.frozen);
    }

    /// Begins the record of the frozen batch.
    pub(crate) fn begin(&mut self) -> Result<(), StoreFault>
        requires { MayBeginNow self.old.cached (length self.old.cached.frozen.numbers) }
        ensures { Begins M.state M.follows result self.old self.new }
    {
        match self.log.begin(self.frozen.numbers(), self.frozen.bytes()) {
            Ok(()) => {
                self.writing = true;
                Ok(())
            }
            Err(_) => Err(StoreFault::Dead),
        }
    }

    /// Makes one step of the record under way.
    pub(crate) fn step(&mut self) -> Result<Progress, StoreFault>
        requires { IsUnderWay self.old.cached }
        ensures passes { PassesOn M.state M.follows IsTurn 1 1 self.old self.new }
        ensures steps { StepsOn result (M.state self.old.medium) (M.state self.new.medium)
            self.old.cached self.new.cached }
    {
        let numbers = self.frozen.numbers();
        match self
            .log
            .step(&mut self.medium, numbers, self.frozen.bytes())
        {
            Ok(Progress::More) => Ok(Progress::More),
            Ok(Progress::Durable) => {
                self.frozen.clear();
                self.writing = false;
                Ok(Progress::Durable)
            }
            Err(_) => Err(StoreFault::Dead),
        }
    }

    /// Makes one step of retiring.
    pub(crate) fn retire(&mut self) -> Result<(), StoreFault>
        requires { IsIdle self.old.cached }
        ensures { RetiresOn M.state M.follows result self.old self.new }
    {
        match self.log.retire_step(&mut self.medium) {
            Ok(()) => Ok(()),
            Err(_) => Err(StoreFault::Dead),
        }
    }
}
