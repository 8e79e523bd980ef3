//! How a store starts.
ghost use Rattle.std.specs.Prelude.{◌≡◌, ◌⊎◌, ◌<◌, ◌≤◌, ◌^◌, ◌&&◌, ℕ, false, IfOk, IfErr};
ghost use Rattle.std.specs.Prelude.{MatchResult};
ghost use Rattle.logical_blocks.specs.Blocks.{Array};
ghost use Rattle.journal.specs.Places.{Shape};
ghost use Rattle.journal.specs.Standing.{StandsFor};
ghost use Rattle.recovery.specs.Causes.{IsDeviceFault};
ghost use Rattle.theorems.specs.Ahead.{may_go_by};
ghost use Rattle.blocks.specs.Started.{IsStarted, IsStartCause, LeavesMedium};
ghost use Rattle.blocks.specs.Started.{StartsAhead, StartsKeeping, RefusesStart};
ghost use Rattle.blocks.specs.Started.{cached_from, ring_by, StartsBy, StartFromPost};

use crate::{StartError, Store};
use cache::{Batch, Frozen};
use journal::Super;
use medium::Medium;
use recovery::{Recovered, RecoveredMedium, StartFault, recover};
use redo_log::Log;
use std::alloc::Global;

/// What becomes of the bytes of a record's blocks once it is in the log.
#[derive(Clone, Copy)]
pub enum Keeping {
    /// They are read back from the log.
    ReadBack,
    /// They are kept in memory, of so many records at most.
    Kept(u8),
}

// What a store has but for its medium.
#[derive(Drop)]
struct Parts {
    sizes: Super,
    log: Log,
    active: Batch,
    frozen: Frozen,
}

impl Parts {
    // A log without records and two empty batches. No other call takes memory.
    fn new(alloc: Global, recovered: &Recovered, keeping: Keeping) -> Result<Parts, StartFault>
        requires stamp { (1 ≤ recovered.now.next) × (recovered.now.next < 2 ^ 63) }
        ensures ok { IfOk result (λ parts. (parts.sizes ≡ recovered.now.sizes)
            × (record { log = parts.log; active = parts.active; frozen = parts.frozen }
            ≡ cached_from keeping recovered.now)) }
        ensures err { IfErr result (λ fault. fault ≡ StartFault.NoMemory) }
    {
        let made = match keeping {
            Keeping::ReadBack => Log::idle(alloc, &recovered.sizes, recovered.next),
            Keeping::Kept(most) => {
                let most = (most as u64).max(1);
                Log::keeping(alloc, &recovered.sizes, recovered.next, most)
            }
        };
        let Ok(log) = made else {
            return Err(StartFault::NoMemory);
        };
        let limit = recovered.sizes.format.limit() as usize;
        let Ok(active) = Batch::new(alloc, limit) else {
            return Err(StartFault::NoMemory);
        };
        let Ok(frozen) = Frozen::new(alloc, limit) else {
            return Err(StartFault::NoMemory);
        };
        Ok(Parts {
            sizes: recovered.sizes,
            log,
            active,
            frozen,
        })
    }
}

impl<M: Medium> Store<M> {
    /// Starts a store on a medium: recovers the medium, and makes the room for the log and for both
    /// batches. It serves the blocks for which the contents of the medium stood. A cut at any
    /// moment leaves an image that is ours and stands for what one stood for that a cut could have
    /// left before, if each of those was ours.
    ///
    /// # Errors
    ///
    /// The fault of the recovery; once the medium is recovered `NoMemory` alone. The medium comes
    /// back.
    pub fn start(alloc: Global, medium: M) -> Result<Store<M>, StartError<M>>
        ensures ok { IfOk result (λ store.
            IsStarted (M.state medium) (M.state store.medium) store.cached) }
        ensures policy { IfOk result (λ store. store.goes_ahead ≡ false) }
        ensures err { IfErr result (λ error.
            IsStartCause (M.state medium) (M.state error.medium) error.fault) }
        // Contents that stand for something with a stamp left are refused by the device alone, or
        // for want of memory.
        ensures served { (shape : Shape) (array : Array) (next : ℕ)
            → StandsFor (M.state medium).size shape (M.state medium).content array next
            → next < 2 ^ 63
            → IfErr result (λ error. IsDeviceFault error.fault
            ⊎ (error.fault ≡ StartFault.NoMemory)) }
        ensures leaves { MatchResult result
            (λ store. LeavesMedium M.state M.follows medium store.medium)
            (λ error. LeavesMedium M.state M.follows medium error.medium) }
    {
        Store::started(alloc, medium, Keeping::ReadBack, false)
    }

    // Starts a store that goes ahead where that is asked for and its log allows it.
    fn started(
        alloc: Global,
        medium: M,
        keeping: Keeping,
        ahead: bool,
    ) -> Result<Store<M>, StartError<M>>
        ensures ok { IfOk result (λ store.
            StartsBy keeping ahead M.state M.follows medium store) }
        ensures refused { IfErr result (λ error.
            RefusesStart M.state M.follows medium error.medium error.fault) }
    {
        let mut medium = medium;
        match recover(&mut medium) {
            Ok(found) => {
                Store::start_from(alloc, RecoveredMedium { medium, found }, keeping, ahead)
            }
            Err(why) => Err(StartError { fault: why, medium }),
        }
    }

    /// Starts a store on a medium that was recovered already: it makes the room for the log and for
    /// both batches, and no call of the medium. It goes ahead where that is asked for and its log
    /// allows it. Of each medium that was recovered with this answer, and to which nothing was done
    /// since, it serves the blocks for which the contents of before stood, as from `start`.
    ///
    /// # Errors
    ///
    /// `NoMemory`. The medium comes back.
    pub fn start_from(
        alloc: Global,
        on: RecoveredMedium<M>,
        keeping: Keeping,
        ahead: bool,
    ) -> Result<Store<M>, StartError<M>>
        ensures { MatchResult result
            (λ store. StartFromPost keeping ahead M.state on.found on.medium store)
            (λ error. (error.fault ≡ StartFault.NoMemory) × (error.medium ≡ on.medium)) }
    {
        let RecoveredMedium { medium, found } = on;
        match Parts::new(alloc, &found, keeping) {
            Ok(parts) => {
                let goes_ahead = goes_ahead_by(&parts.sizes, keeping, ahead);
                Ok(Store {
                    medium,
                    sizes: parts.sizes,
                    log: parts.log,
                    active: parts.active,
                    frozen: parts.frozen,
                    writing: false,
                    goes_ahead,
                })
            }
            Err(fault) => Err(StartError { fault, medium }),
        }
    }

    /// Starts a store as `start` does, but one that retires ahead of the flush of its next record:
    /// a good sync flushes once for each record that it writes, whatever background steps come
    /// between, and never finds the ring full. It needs format 2 and three slots; else it is as
    /// from `start`.
    ///
    /// # Errors
    ///
    /// Those of `start`.
    pub fn start_ahead(alloc: Global, medium: M) -> Result<Store<M>, StartError<M>>
        ensures starts { MatchResult result
            (λ store. StartsAhead M.state M.follows medium store)
            (λ error. RefusesStart M.state M.follows medium error.medium error.fault) }
    {
        Store::started(alloc, medium, Keeping::ReadBack, true)
    }

    /// Starts a store as `start_ahead` does, but one that keeps the bytes of the blocks of its
    /// records in memory, and never reads its log back. At most `kept` records stand in its log at
    /// once, one at least, and no more than it has slots; it goes ahead where three may, in format
    /// 2. The memory for their blocks is taken here too.
    ///
    /// # Errors
    ///
    /// Those of `start`.
    pub fn start_keeping(alloc: Global, medium: M, kept: u8) -> Result<Store<M>, StartError<M>>
        ensures { MatchResult result
            (λ store. StartsKeeping M.state M.follows kept medium store)
            (λ error. RefusesStart M.state M.follows medium error.medium error.fault) }
    {
        Store::started(alloc, medium, Keeping::Kept(kept), true)
    }
}

// Whether a store goes ahead that is asked to, on a log with these sizes, whose records are kept
// so.
fn goes_ahead_by(sizes: &Super, keeping: Keeping, ahead: bool) -> bool
    ensures { result ≡ (ahead && may_go_by sizes.now.format (ring_by keeping sizes.now.slots)) }
{
    ahead && sizes.format.flushes() == 1 && 3 <= ring_by(keeping, sizes.slots)
}

// How many records may stand at once in a log of so many slots.
fn ring_by(keeping: Keeping, slots: u64) -> u64
    ensures { result ≡ ring_by keeping slots }
{
    match keeping {
        Keeping::ReadBack => slots,
        Keeping::Kept(count) => (count as u64).max(1).min(slots),
    }
}
