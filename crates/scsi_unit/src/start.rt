//! How a unit starts.
ghost use Rattle.std.specs.Prelude.{◌≡◌, ℕ, IfOk, IfErr, MatchResult};
ghost use Rattle.medium.specs.Moments.{EachCut, LeavesOnly};
ghost use Rattle.blocks.specs.Started.{StartLeaves, LeavesMedium};
ghost use Rattle.blocks.specs.Limit.{HasLimit};
ghost use Rattle.scsi_unit.specs.Starting.{IsOursForSome, IsUnitStarted, IsNotStarted};
ghost use Rattle.scsi_unit.specs.Starting.{StartsUnit, RefusesUnit, StoreStartsBy, StoreRefuses};
ghost use Rattle.scsi_unit.specs.Starting.{UnitStartFromPost, StoreFromPost};

use crate::{Retiring, Unit};
use blocks::{Keeping, RecoveredMedium, StartError, StartFault, Store};
use medium::Medium;
use scsi_commands::Identity;
use std::alloc::Global;

impl<M: Medium> Unit<M> {
    /// Starts a unit on a medium, one that retires late: see `start_by`.
    ///
    /// # Errors
    ///
    /// Those of `start_by`.
    pub fn start(alloc: Global, medium: M, identity: Identity) -> Result<Unit<M>, StartError<M>>
        ensures ok { IfOk result (λ unit. IsUnitStarted
            (M.state medium) (M.state unit.store.medium) identity unit) }
        ensures err { IfErr result (λ error.
            IsNotStarted (M.state medium) (M.state error.medium) error.fault) }
        ensures leaves { MatchResult result
            (λ unit. StartLeaves (M.state medium) (M.state unit.store.medium))
            (λ error. StartLeaves (M.state medium) (M.state error.medium)) }
        ensures limit { (limit : ℕ) → EachCut (IsOursForSome (M.state medium).size) (M.state medium)
            → EachCut (HasLimit (M.state medium).size limit) (M.state medium)
            → MatchResult result
            (λ unit. LeavesOnly (HasLimit (M.state medium).size limit)
            (M.state medium) (M.state unit.store.medium))
            (λ error. LeavesOnly (HasLimit (M.state medium).size limit)
            (M.state medium) (M.state error.medium)) }
        ensures medium { MatchResult result
            (λ unit. LeavesMedium M.state M.follows medium unit.store.medium)
            (λ error. LeavesMedium M.state M.follows medium error.medium) }
    {
        Unit::start_by(alloc, medium, identity, Retiring::Late)
    }

    /// Starts a unit on a medium: recovers the medium, and makes the room for the store. The unit
    /// attention of a power on is pending, no sense is kept, and the write cache is enabled. The
    /// blocks are those for which the contents of the medium stood, and so is the limit. Where
    /// every image was ours and had one limit, every image that a cut may leave has it. The unit
    /// retires as is asked here, where its log allows it.
    ///
    /// # Errors
    ///
    /// The fault of the recovery; once the medium is recovered `NoMemory` alone. The medium comes
    /// back.
    pub fn start_by(
        alloc: Global,
        medium: M,
        identity: Identity,
        retiring: Retiring,
    ) -> Result<Unit<M>, StartError<M>>
        ensures { MatchResult result
            (λ unit. StartsUnit retiring M.state M.follows medium identity unit)
            (λ error. RefusesUnit M.state M.follows medium error.medium error.fault) }
    {
        let store = start_store(alloc, medium, retiring)?;
        Ok(Unit::new(store, identity))
    }

    /// Starts a unit on a medium that was recovered already: it makes the room for the store, and
    /// no call of the medium. On a medium to which nothing was done since it was recovered with
    /// this answer it is as one that `start_by` starts.
    ///
    /// # Errors
    ///
    /// `NoMemory`. The medium comes back.
    pub fn start_from(
        alloc: Global,
        on: RecoveredMedium<M>,
        identity: Identity,
        retiring: Retiring,
    ) -> Result<Unit<M>, StartError<M>>
        ensures { MatchResult result
            (λ unit. UnitStartFromPost retiring M.state on.found on.medium identity unit)
            (λ error. (error.fault ≡ StartFault.NoMemory) × (error.medium ≡ on.medium)) }
    {
        let store = store_from(alloc, on, retiring)?;
        Ok(Unit::new(store, identity))
    }
}

// Starts the store of a unit that retires so.
fn start_store<M: Medium>(
    alloc: Global,
    medium: M,
    retiring: Retiring,
) -> Result<Store<M>, StartError<M>>
    ensures { MatchResult result
        (λ store. StoreStartsBy retiring M.state M.follows medium store)
        (λ error. StoreRefuses M.state M.follows medium error.medium error.fault) }
{
    match retiring {
        Retiring::Late => Store::start(alloc, medium),
        Retiring::Ahead => Store::start_ahead(alloc, medium),
        Retiring::Kept(count) => Store::start_keeping(alloc, medium, count),
    }
}

// Starts the store of a unit that retires so, behind a recovery.
fn store_from<M: Medium>(
    alloc: Global,
    on: RecoveredMedium<M>,
    retiring: Retiring,
) -> Result<Store<M>, StartError<M>>
    ensures { MatchResult result
        (λ store. StoreFromPost retiring M.state on.found on.medium store)
        (λ error. (error.fault ≡ StartFault.NoMemory) × (error.medium ≡ on.medium)) }
{
    match retiring {
        Retiring::Late => Store::start_from(alloc, on, Keeping::ReadBack, false),
        Retiring::Ahead => Store::start_from(alloc, on, Keeping::ReadBack, true),
        Retiring::Kept(count) => Store::start_from(alloc, on, Keeping::Kept(count), true),
    }
}
