//! What holds of any calls of a store, one after another.
ghost use Rattle.blocks.specs.Headroom.{CallsFlushOnce};
ghost use Rattle.blocks.specs.Running.{RunsJoin, EveryStoreIsSafe};

use medium::Medium;

/// Does nothing: its contract says that calls of a store that go ahead and have headroom, one after
/// another, make one flush for each record that becomes durable, and leave headroom.
#[tactic(auto, using(crate::proofs::FlushesOnce::sparing_all))]
pub fn flush_laws<M: Medium>()
    ensures { CallsFlushOnce M.state }
{}

/// Does nothing: its contract says that what any calls of a store make, one after another, is a run
/// of its log, and that every such run is safe from a start on that keeps its records.
pub fn run_laws<M: Medium>()
    ensures joined { RunsJoin M.state M.follows }
    ensures safe { EveryStoreIsSafe M.state M.follows }
{}
