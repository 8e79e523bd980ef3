//! A law of the calls of a machine.
ghost use Rattle.store_calls.specs.{StoreLives.LivesThrough, StoreMachine.DeviceLeaves};

/// Does nothing. Whatever calls of a machine come, in any order, a life that it serves is served
/// throughout, with each accepted write, promised up to the last good sync: at each moment a loss
/// of power leaves what a start finds the promised writes in, and of those behind them the first
/// some, none in part. A device that carries out all calls leaves what it holds.
pub fn store_laws()
    ensures lives { LivesThrough }
    ensures device { DeviceLeaves }
{}
