//! A law of the calls of a machine.
ghost use Rattle.disk_machine.specs.Lives.{ServesThroughout, DeviceWitness};
ghost use Rattle.disk_machine.specs.{Going.NeverStuck, Moves.TurnsAreRun};

/// Does nothing. Whatever calls of a machine come, in any order, a life that it serves is served
/// throughout: at each moment a loss of power leaves what a start finds the promised writes in, and
/// of those behind them the first some, none in part. What the host and the disk say to each other
/// in these calls is a run of a disk whose device may be behind. A command that is pending never
/// waits for nothing. A device that carries out all
/// calls leaves what it holds, and a machine may be caught up.
pub fn machine_laws()
    ensures serves { ServesThroughout }
    ensures runs { TurnsAreRun }
    ensures waits { NeverStuck }
    ensures device { DeviceWitness }
{}
