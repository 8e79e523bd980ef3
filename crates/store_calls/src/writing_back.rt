//! The steps that write what is before a write or a sync.
ghost use Rattle.std.specs.Prelude.{◌↔◌, IsTrue};
ghost use Rattle.store_calls.specs.WritingBack.{IsLeft, MayWriteBack, WritesBack};

use crate::background::{is_short, step};
use crate::reading::foresee;
use blocks::{Store, Work};
use window::WindowMedium;

// How many steps are made at most: a record has 250 calls at most.
const MOST_WRITTEN: u32 = 256;

/// What steps that write back work towards.
#[derive(Clone, Copy)]
pub enum Aim {
    /// That the frozen batch is empty: then the store takes any write at once.
    Batch,
    /// That no record is left to write: then each accepted write is durable.
    Records,
}

/// Makes steps that write back, as long as something is left to write and few calls wait.
pub(crate) fn write_records(store: &mut Store<WindowMedium>, aim: Aim)
    ensures { WritesBack aim store.old store.new }
{
    foresee(store);
    for _made in 0..MOST_WRITTEN {
        if !may_write_back(store, aim) {
            return;
        }
        step(store, Work::WriteBack);
    }
}

// Whether something is left to write and few calls wait.
fn may_write_back(store: &Store<WindowMedium>, aim: Aim) -> bool
    ensures { IsTrue result ↔ MayWriteBack aim store.now }
{
    is_left(store, aim) && is_short(store)
}

/// Whether something is left to write.
pub(crate) fn is_left(store: &Store<WindowMedium>, aim: Aim) -> bool
    ensures { IsTrue result ↔ IsLeft aim store.now }
{
    match aim {
        Aim::Batch => !store.is_dead() && !store.has_free_batch(),
        Aim::Records => !store.is_written(),
    }
}
