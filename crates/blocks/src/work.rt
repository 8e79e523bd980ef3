//! The steps in the background, by what they work towards.
ghost use Rattle.blocks.specs.declared.work.Work.TheVariants.{Ahead};
ghost use Rattle.blocks.specs.Work.{DoesWork, WorksBy, StepsAhead, IsIdle};

use crate::{Store, StoreFault};
use medium::Medium;

/// What a step in the background works towards.
#[derive(Clone, Copy, PartialEq, Eq)]
pub enum Work {
    /// That each accepted write is at home and no record waits.
    Settle,
    /// That the ring has room for the next records: the head goes past a record that is flushed at
    /// home, and blocks go home, by calls that are no flush.
    Ahead,
    /// That each accepted write is durable: the record under way goes on, and the next one is begun
    /// where slots are spared, or room is made for it. Where the store goes ahead that is done as
    /// `Ahead` does it, so that no flush is made but those of the records.
    WriteBack,
}

impl<M: Medium> Store<M> {
    /// Makes one step of the background work, which is at most two calls of the medium: as `tick`
    /// does, or one ahead of the next record's flush.
    ///
    /// Where it makes the store dead, the next call that writes tells.
    pub fn work(&mut self, work: Work)
        ensures { DoesWork M.state M.follows work self.old self.new }
    {
        match work {
            Work::Settle => self.tick(),
            Work::Ahead => self.work_ahead(),
            Work::WriteBack => self.write_back(),
        }
    }

    // Makes one step ahead, or none where the store is dead, does not go ahead, or writes a record.
    fn work_ahead(&mut self)
        ensures { WorksBy M.state M.follows Ahead self.old self.new }
    {
        if !self.goes_ahead || self.is_writing() || self.is_dead() {
            return;
        }
        self.count_flush();
        let _ = self.step_ahead();
    }

    /// The head goes past the oldest record where it may, and else one block of that goes home that
    /// is away.
    pub(crate) fn step_ahead(&mut self) -> Result<(), StoreFault>
        requires { IsIdle self.old.cached }
        ensures { StepsAhead M.state M.follows result self.old self.new }
    {
        if self.log.can_pass() {
            return self.pass_head();
        }
        if self.log.is_away() {
            return self.bring_home();
        }
        Ok(())
    }
}
