//! What holds of every order of calls of a medium.
ghost use Rattle.theorems.specs.Logging.{LogKeepsTheRules, EveryLogIsSafe};
ghost use Rattle.theorems.specs.LogRuns.{EveryRunIsSafe};
ghost use Rattle.theorems.specs.Making.{EveryMakingIsSafe};
ghost use Rattle.theorems.specs.Ordering.{EveryOrderIsSafe};

use medium::Medium;

/// Does nothing: its contract says that each order of calls of a medium that keeps the rules of
/// write ordering is safe.
pub fn order_laws<M: Medium>()
    ensures { EveryOrderIsSafe M.state }
{}

/// Does nothing: its contract says that a redo log that keeps its blocks tells such calls alone,
/// and that every order of what it does is safe: of what it tells, and of what is asked of it that
/// makes calls of its medium, with the reads of a store beside it.
pub fn log_laws<M: Medium>()
    ensures rules { LogKeepsTheRules }
    ensures orders { EveryLogIsSafe M.state }
    ensures makings { EveryMakingIsSafe M.state M.follows }
    ensures runs { EveryRunIsSafe M.state M.follows }
{}
