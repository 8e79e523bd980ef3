//! How much room an outbox must have.
ghost use Rattle.std.specs.Prelude.{◌≡◌};
ghost use Rattle.store_calls.specs.Rooms.{most_left};

/// How many calls wait at most when a step is made.
pub(crate) const MOST_WAITING: usize = 63;

// How many writes and flushes a step makes at most.
const STEP_SENDS: usize = 2;

/// How many writes and flushes an outbox must have room for, whatever the format of the store.
pub(crate) fn outbox_room() -> usize
    ensures { result ≡ most_left }
{
    MOST_WAITING + STEP_SENDS
}
