//! How much room an outbox must have.
ghost use Rattle.std.specs.Prelude.{◌≡◌};
ghost use Rattle.disk_machine.specs.Room.{room_of};

use journal::LogFormat;

// How many calls wait at most when a step is made, and how many it makes at most.
const MOST_WAITING: u64 = 63;

const STEP_SENDS: u64 = 2;

/// How many writes and flushes an outbox must have room for, for a disk in this format: those that
/// steps leave there.
pub fn room_for(log: LogFormat) -> u64
    ensures { result ≡ room_of log }
{
    let _any = log;
    MOST_WAITING + STEP_SENDS
}
