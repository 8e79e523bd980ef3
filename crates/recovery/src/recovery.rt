//! Recovery: the whole records from the head on go home, and the head goes past the first record
//! that is not whole.
ghost use Rattle.std.specs.Prelude.{ℕ, OnOk, IfOk, IfErr};
ghost use Rattle.medium.specs.Moments.{EachCut};
ghost use Rattle.logical_blocks.specs.Blocks.{Array};
ghost use Rattle.journal.specs.Places.{Shape};
ghost use Rattle.journal.specs.Standing.{IsOurs};
ghost use Rattle.recovery.specs.Recovered.{IsRecoveredFrom, IsRecoveryRefusal, IsFresh};
ghost use Rattle.recovery.specs.Recovered.{RecoveryMoments};
ghost use Rattle.recovery.specs.Calls.{LooksAtFresh};
ghost use Rattle.recovery.specs.Starting.{EndsStart};

use crate::starting::Starting;
use crate::{Recovered, StartFault};
use medium::{Medium, drive};

/// Copies the blocks of the whole records from the head on home, in order of their stamps, and
/// moves the head past the first record that is not whole. It takes no memory.
///
/// # Errors
///
/// A fault of the image is found before the first write: the first of its super's (mark, version,
/// bytes behind it, sizes), the medium's length, its head's, and that no stamp is left. `Read`,
/// `Write` and `Flush` where the medium refused such a call.
#[tactic(auto, using(crate::proofs::WholeRecovery::recovery_refused))]
pub fn recover<M: Medium>(m: &mut M) -> Result<Recovered, StartFault>
    // A function of the contents: what they stood for, whether or not other images were allowed.
    ensures ok { IfOk result (IsRecoveredFrom (M.state m.old) (M.state m.new)) }
    // Where the contents were ours, nothing in any image carries the next stamp or a later one.
    ensures fresh { (shape : Shape) (array : Array) (next : ℕ)
        → IsOurs (M.state m.old).size shape (M.state m.old).content array next
        → OnOk result (EachCut (IsFresh shape array next) (M.state m.new)) }
    // Contents that stand for something with a stamp left are refused by the device alone.
    ensures err { IfErr result (IsRecoveryRefusal (M.state m.old) (M.state m.new)) }
    // What a cut at any moment leaves, good or refused, how many calls there are at most, and what
    // is read where no record waits.
    ensures leaves { RecoveryMoments (M.state m.old) (M.state m.new) }
    ensures follows { M.follows m.old m.new }
{
    recover_at_least(m, 0)
}

/// Recovers an image whose log, where it is of format 1, has at least `least` slots.
pub(crate) fn recover_at_least<M: Medium>(m: &mut M, least: u64) -> Result<Recovered, StartFault>
    // All that a recovery promises, and where it is good, that it found so many.
    ensures ends { EndsStart least (M.state m.old) (M.state m.new) result }
    ensures looks { LooksAtFresh (M.state m.old) (M.state m.new) }
    ensures follows { M.follows m.old m.new }
{
    let mut starting = Starting::begin_at_least::<M>(m.sectors(), least);
    let _ = drive(m, &mut starting, &mut [0; 512]);
    starting.end::<M>()
}
