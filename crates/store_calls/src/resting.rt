//! What a store does while its device rests.
ghost use Rattle.store_calls.specs.Transfers.{WorksStoreAhead, WorksAtRest};

use crate::background::go_ahead;
use crate::machine::StoreMachine;
use crate::reading::foresee;
use crate::writing_back::{Aim, is_left, write_records};
use blocks::Store;
use window::WindowMedium;

impl StoreMachine {
    /// Steps for when the device has nothing else to do. The record of a frozen batch is written,
    /// so that the device is at work while the next writes come. Where none is frozen the steps go
    /// ahead of the next record: without a flush the head goes past the oldest record that is
    /// flushed at home, and blocks of the next go home. No step is made where the device has not
    /// carried out all that it was told, or a read waits for it; and none ahead before a write or a
    /// sync that was told to come again.
    pub fn work_ahead(&mut self)
        ensures { WorksStoreAhead self.old self.new }
    {
        if self.is_idle() {
            work_at_rest(&mut self.store, self.put_off);
        }
    }
}

// The record of a frozen batch is written, and where none is frozen, steps ahead are made.
fn work_at_rest(store: &mut Store<WindowMedium>, put_off: bool)
    ensures { WorksAtRest put_off store.old store.new }
{
    foresee(store);
    if is_left(store, Aim::Batch) {
        write_records(store, Aim::Batch);
    } else if !put_off {
        go_ahead(store);
    }
}
