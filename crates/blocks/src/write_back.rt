//! The steps that write back.
ghost use Rattle.std.specs.Prelude.{◌≡◌, ◌⊎◌, ◌↔◌, ◌<◌, true, false, length, IsTrue};
ghost use Rattle.redo_log.specs.Value.{CanPass, IsAway};
ghost use Rattle.theorems.specs.Room.{MayWrite, SparesSlots};
ghost use Rattle.blocks.specs.Work.{GoesTowardsRoom, HasToRetire};
ghost use Rattle.blocks.specs.Work.{WorksBy};
ghost use Rattle.blocks.specs.declared.work.Work.TheVariants.{WriteBack};

use crate::Store;
use medium::Medium;

impl<M: Medium> Store<M> {
    /// Makes one step that writes back: the record under way goes on, or the next one is begun, or
    /// room is made for it. None is made where no record is left to write.
    pub(crate) fn write_back(&mut self)
        ensures { WorksBy M.state M.follows WriteBack self.old self.new }
    {
        if self.is_written() {
            return;
        }
        if self.is_writing() {
            let _ = self.step();
            return;
        }
        if self.may_write() {
            let _ = self.begin_next();
            return;
        }
        self.make_way();
    }

    // Whether the next record may be begun. Where it may not, one waits to be retired.
    fn may_write(&self) -> bool
        ensures begins { IsTrue result ↔ MayWrite self.now.goes_ahead self.now.cached.log }
        ensures else_waits { result ≡ false → self.now.cached.log.steps_left ≡ 0
            → 0 < length self.now.cached.log.waiting }
    {
        if !self.log.has_room() {
            return false;
        }
        self.spares()
    }

    // Whether slots are spared besides that of the next record, where the store goes ahead.
    fn spares(&self) -> bool
        ensures { IsTrue result
            ↔ (self.now.goes_ahead ≡ true → SparesSlots self.now.cached.log) }
    {
        !self.goes_ahead || self.spares_slots()
    }

    // The same of any store.
    fn spares_slots(&self) -> bool
        ensures { IsTrue result ↔ SparesSlots self.now.cached.log }
    {
        self.log.has_slots(3) || (self.log.has_slots(2) && !self.log.is_away())
    }

    // Makes one step towards room for the next record: one ahead, where the store goes ahead and
    // that does something, or the oldest record is retired by one.
    fn make_way(&mut self)
        requires { HasToRetire self.old.cached }
        ensures { GoesTowardsRoom M.state M.follows self.old self.new }
    {
        if !self.goes_ahead {
            let _ = self.retire();
            return;
        }
        self.count_flush();
        if self.may_go() {
            let _ = self.step_ahead();
            return;
        }
        let _ = self.retire();
    }

    // Whether a step ahead does something.
    fn may_go(&self) -> bool
        ensures { IsTrue result ↔ (CanPass self.now.cached.log ⊎ IsAway self.now.cached.log) }
    {
        self.log.can_pass() || self.log.is_away()
    }
}
