//! What follows from the rules of the logical unit.
ghost use Rattle.scsi_unit.specs.Costs.{AreCostLaws};
ghost use Rattle.scsi_unit.specs.Pending.{EachIsDropped, IsParsedOnce, KeepsParsedCommand};
ghost use Rattle.scsi_unit.specs.Pending.{MarksStay, TicksWhilePending, FoundWhilePending};
ghost use Rattle.scsi_unit.specs.Laws.{AreCommandLaws, TicksOnly, KeepsLimit, KnowsImages};

use medium::Medium;

/// Does nothing: its contract says what holds of each command and of each step in the background,
/// whatever the state of the unit, what books tell of an image, what a record costs in a ring that
/// records alone have filled, and how often it flushes where the ring is never full.
pub fn unit_laws()
    ensures commands { AreCommandLaws }
    ensures ticks { TicksOnly }
    ensures limit { KeepsLimit }
    ensures images { KnowsImages }
    ensures costs { AreCostLaws }
{}

/// Does nothing: its contract says what a unit fits where a command that is not over is dropped, as
/// by a class reset, when the promises stay, what else may come meanwhile, and that a command is
/// parsed once.
pub fn pending_laws<M: Medium>()
    ensures dropped { EachIsDropped M.state }
    ensures marks { MarksStay }
    ensures parsed { IsParsedOnce }
    ensures command { KeepsParsedCommand M.state }
    ensures ticks { TicksWhilePending M.state M.follows }
    ensures found { FoundWhilePending M.state }
{}
