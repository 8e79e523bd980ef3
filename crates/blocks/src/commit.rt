//! A commit one step at a time: a step makes two calls of the medium at most.
ghost use Rattle.blocks.specs.Stages.{CommitStepPost};

use crate::{Stage, Store, Work};
use medium::Medium;

impl<M: Medium> Store<M> {
    /// Makes a step that makes the accepted writes durable, of at most two calls of the medium.
    /// Where no record was left to write it makes none, and promises all of them.
    ///
    /// It answers `Accepted` as long as records are left to write, then `Promised`. `Failed` is
    /// answered on a dead store, and where the store dies in this call.
    pub fn commit_step(&mut self) -> Stage
        ensures { CommitStepPost M.state M.follows result self.old self.new }
    {
        let written = self.is_written();
        self.work(Work::WriteBack);
        if self.is_dead() {
            return Stage::Failed;
        }
        if written {
            return Stage::Promised;
        }
        Stage::Accepted
    }
}
